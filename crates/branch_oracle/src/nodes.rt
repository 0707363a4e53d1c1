//! Nodes of a tree, one by one.
ghost use Rattle.std.specs.Prelude.{◌≡◌, ◌<◌, ℕ, false, All, List, Ok, length};
ghost use Rattle.rational.specs.Rational.{ℚ, IsWhole, floor};
ghost use Rattle.lp_model.specs.Satisfaction.{values_at};
ghost use Rattle.certs.specs.declared.evidence.Branch.{Branch as OneBranch};
ghost use Rattle.certs.specs.declared.evidence.Node.TheVariants.{Split};
ghost use Rattle.certs.specs.Checks.{IsSetOf};
ghost use Rattle.certs.specs.Plain.{plain_system};
ghost use Rattle.certs.specs.Solves.{SettlesAt};
ghost use Rattle.certs.specs.Trees.{first_broken as least_broken, is_broken as breaks_mark};
ghost use Rattle.certs.specs.Proof.{IsFittingNode};
ghost use Rattle.branch_oracle.specs.Steps.{IsStep};

use branch_proof::is_marked;
use certs::{BranchAsk, BranchPath, MemberSet, Node, NodeEnd, Point, Stop};
use frac128::{Exact, Frac};
use lp_model::Model;
use std::alloc::Global;

/// What the run of a node gives: a point that breaks no mark, or a node at which the tree goes on.
#[derive(Drop)]
pub(crate) enum Step {
    Found(Point),
    Further(Node),
}

/// Takes the node on a path, by its run.
///
/// # Errors
///
/// The stop of just that run.
pub(crate) fn take_node<B: BranchAsk>(
    alloc: Global,
    model: &Model,
    inner: &mut B,
    set: &MemberSet,
    path: &BranchPath,
) -> Result<Step, Stop>
    requires same { IsSetOf model.now set.now }
    requires program { (B.state inner.old).model ≡ model.now }
    requires known { All (λ b. b.column < length model.now.columns) path.now }
    ensures step { IsStep model.now set.now.members (B.state inner.old).budgets.pivots path.now result }
    ensures untold { B.state inner.new ≡ B.state inner.old }
{
    match inner.ask_with(alloc, set, path)? {
        NodeEnd::Point(point) => Ok(step_at(model, set, point)),
        NodeEnd::Cut(combo) => Ok(Step::Further(Node::Leaf(combo))),
    }
}

// What is made of a point: it is found, or it breaks a mark, at the least of which the node is split.
fn step_at(model: &Model, set: &MemberSet, point: Point) -> Step
    requires same { IsSetOf model.now set.now }
    requires each { length point.values ≡ length model.now.columns }
    ensures { (path : List OneBranch) (pivots : ℕ) → SettlesAt (plain_system model.now set.now.members path false) pivots point.values
        → IsStep model.now set.now.members pivots path (Ok result) }
{
    match first_broken(model, set, point.values.as_slice()) {
        None => Step::Found(point),
        Some(column) => Step::Further(Node::Split {
            column,
            at: floor_of(point.values.as_slice()[column as usize]),
        }),
    }
}

// The floor of a value that is not whole.
fn floor_of(value: Frac) -> i128
    requires { IsWhole value → ⊥ }
    ensures floor { result ≡ floor value }
    ensures fitting { (column : ℕ) → IsFittingNode (Split column result) }
{
    // That its parts fit is told with the fraction.
    value.widen().floor()
}

// The least column whose mark a point breaks.
fn first_broken(model: &Model, set: &MemberSet, values: &[Frac]) -> Option<u32>
    requires same { IsSetOf model.now set.now }
    requires each { length values.now ≡ length model.now.columns }
    ensures { result ≡ least_broken model.now set.now.members values.now }
{
    for column in 0..model.column_count() {
        if is_broken(model, set, column, values[column as usize]) {
            return Some(column);
        }
    }
    None
}

// Whether the program and the set have the mark of a column, and its value is not whole.
fn is_broken(model: &Model, set: &MemberSet, column: u32, value: Frac) -> bool
    requires { IsSetOf model.now set.now }
    ensures { (values : List ℚ) → value ≡ values_at values column → result ≡ breaks_mark model.now set.now.members values column }
{
    is_marked(model, set, column) && !value.is_whole()
}
