//! Checks of bounds on the objective, and of rays along which it has none; and the right sides of shares.
#![tactic(auto)]

mod bounds;
mod parts;
mod rays;
mod sources;
mod sums;
mod values;

pub use bounds::check_bound;
pub use parts::{check_columns, check_right_side, parts_show_bound};
pub use rays::{check_ray, value_of};
pub use sources::are_usable;
pub use sums::{are_zero, clear, directed, right_side};
pub use values::{check_value, checked_value, has_mark, objective_value};
