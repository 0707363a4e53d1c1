//! Models by the names of their files.
#![tactic(auto)]

mod formats;
mod laws;

pub use formats::{Format, read_model};
pub use laws::one_meaning;
