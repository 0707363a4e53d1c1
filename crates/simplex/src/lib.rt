//! Settle runs and improve runs over a dictionary.
#![tactic(auto)]

mod blocks;
mod choices;
mod combinations;
mod duals;
mod improve_choices;
mod improving;
mod laws;
mod numbers;
mod points;
mod rays;
mod settling;
mod shares;

pub use choices::{entering, is_less, limited_variables};
pub use combinations::{combo_of, limit_share};
pub use duals::dual_of;
pub use improving::{Improved, improve};
pub use laws::{dual_bounds, free_is_ray, objective_is_valued, optimal_is_dual, ray_stays};
pub use points::point_of;
pub use rays::ray_of;
pub use settling::{RunStop, Settled, settle};
