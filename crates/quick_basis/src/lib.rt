//! The basis of a quick run, factored: where each variable of a program stands and its limits, the dual simplex that brings the
//! basic ones to theirs, and the points and shares that it shows. Nothing is promised of what it shows but its form.
#![tactic(auto)]

mod bases;
mod choices;
mod limits;
mod numbers;
mod points;
mod saved;
mod settling;
mod shares;
mod starts;
mod variables;

pub use bases::{Basis, Blocked, take_off};
pub use limits::{opposite, side_of};
pub use numbers::is_narrow;
pub use points::{Step, point, read_off, take_over, whole_times};
pub use saved::Saved;
pub use settling::{End, most_turns, settle};
pub use shares::{LimitWeight, member_of, row_weights, variable_of, weighed_combo};
pub use starts::start;
pub use variables::Variable;
