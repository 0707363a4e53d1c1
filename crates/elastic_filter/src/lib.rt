//! What the elastic filter enforces of a set.
#![tactic(auto)]

mod enforcing;

pub use enforcing::{Enforced, enforce};
