//! The runs of a system, over fractions of 64 bits where these do.
#![tactic(auto)]

mod runs;
mod solving;

pub use runs::End;
pub use solving::{Solved, solve};
