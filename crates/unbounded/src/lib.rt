//! Whether the objective of a model runs away, or how far it can go.
#![tactic(auto)]

mod diagnosing;
mod ends;
mod laws;
mod runs;
mod values;

pub use diagnosing::{Diagnosis, diagnose};
pub use laws::{dual_of_program, ray_of_program};
