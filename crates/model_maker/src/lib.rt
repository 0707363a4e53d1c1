//! Models that are made to order: production plans that cannot be met.
#![tactic(auto)]

mod plan_laws;
mod plans;
mod refutation;

pub use plan_laws::{plan_declares, plan_is_read};
pub use plans::{LEAST_PERIODS, MOST_PERIODS, MakeStop, make};
pub use refutation::plan_is_unsatisfiable;
