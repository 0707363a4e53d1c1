//! What a late filter leaves of the first core.
#![tactic(auto)]

mod sensitivity;

pub use sensitivity::{isolate, isolate_with};
