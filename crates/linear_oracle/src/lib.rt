//! An oracle for sets without marks, by runs of their plain systems.
#![tactic(auto)]

mod crossings;
mod ends;
mod oracle;
mod solve;

pub use crossings::first_crossing;
pub use ends::{settle_site, stop_end};
pub use oracle::{LinearOracle, leaf_proof};
