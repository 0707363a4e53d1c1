//! An oracle for sets without marks that reduces their plain systems before it makes runs.
#![tactic(auto)]

mod backs;
mod easing;
mod oracle;

pub use backs::cut_back;
pub use oracle::PresolveOracle;
