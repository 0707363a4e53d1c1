//! Evidence of few digits, from rough numbers: combinations and points near them, which are tried exactly before they are given.
//! Nothing else is promised of them but their form.
#![tactic(auto)]

mod alternatives;
mod closing;
mod combinations;
mod drawing;
mod equations;
mod grids;
mod lattices;
mod limits;
mod modular;
mod points;
mod rounding;
mod systems;

pub use combinations::far;
pub use points::near;
pub use systems::system_of;
