//! What a late filter leaves of a set.
#![tactic(auto)]

mod deletion;

pub use deletion::{isolate, isolate_refuted};
