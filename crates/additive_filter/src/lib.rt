//! What an early filter leaves of a set.
#![tactic(auto)]

mod additive;
mod laws;

pub use additive::isolate;
pub use laws::adding_gives_early;
