//! The ways back: evidence of a reduced system as evidence of the system before the steps.
#![tactic(auto)]

mod bounds;
mod combos;
mod doubletons;
mod dual_steps;
mod duals;
mod filling;
mod forcing;
mod laws;
mod listing;
mod points;
mod rays;
mod sides;
mod singletons;
mod steps;
mod stops;
mod taking;
mod weights;

pub use combos::{combo_back, step_back};
pub use doubletons::{Part, lower_part, upper_part};
pub use duals::dual_back;
pub use filling::fill;
pub use laws::{
    duals_come_back, objective_stays, optimal_ends_take_limits_once, rays_come_back,
    shares_come_in_order, shares_come_once, values_come_back,
};
pub use listing::shares_of;
pub use points::point_back;
pub use rays::ray_back;
pub use sides::magnitude;
pub use steps::listed;
pub use stops::BackStop;
pub use taking::{given_of, taken_of};
pub use weights::Weights;
