//! An oracle that answers from a list, for tests of what asks oracles.
#![tactic(auto)]

mod answers;
mod oracle;

pub use answers::TableAnswer;
pub use oracle::TableOracle;
