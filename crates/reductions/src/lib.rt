//! Reductions of linear systems before they are solved: their steps, as definitions, and what holds of them.
#![tactic(auto)]

mod laws;
mod steps;

pub use laws::{
    deciding_is_combination, next_is_found, one_reduction, reduction_keeps_evidence,
    step_keeps_evidence,
};
pub use steps::{
    Change, Changes, Doubleton, Fixed, Forcing, ReduceStep, Singleton, Step, Steps, Trace,
};
