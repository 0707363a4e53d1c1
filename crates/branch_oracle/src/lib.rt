//! An oracle for sets with marks, by their reference trees, over one that makes the runs of the nodes.
#![tactic(auto)]

ghost use Rattle.branch_oracle.specs.Answers.{ReferenceLaw};

mod nodes;
mod oracle;
mod trees;

pub use oracle::BranchOracle;

/// Over an inner oracle that answers by runs of plain systems, the answers are those of the reference.
pub fn reference_answers()
    ensures { ReferenceLaw }
{}
