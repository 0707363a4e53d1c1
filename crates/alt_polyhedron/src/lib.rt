//! The cheapest irreducible set: the support of a vertex of the alternative polyhedron at which a weighted sum is least.
#![tactic(auto)]

mod counting;
mod laws;
mod listing;
mod pricing;
mod reading;
mod stops;
mod supports;
mod systems;

pub use laws::{
    alternative_systems_are_apart, alternative_systems_are_bounded, alternative_systems_are_few,
    alternative_systems_are_formed,
};
pub use listing::bounding_members;
pub use pricing::{Priced, cheapest};
pub use systems::alternative_system;
