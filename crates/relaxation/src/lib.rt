//! How little must give way: the least weighted violation of a set, and the rounds of the elastic filter.
#![tactic(auto)]

mod easing;
mod laws;
mod naming;
mod origins;
mod relaxing;
mod rounds;
mod running;
mod solving;
mod stretching;
mod systems;

pub use laws::{elastic_systems_are_few, elastic_systems_are_formed};
pub use naming::named_shares;
pub use origins::member_number;
pub use relaxing::{Relaxed, relax};
pub use running::{Ran, Reached, run};
pub use stretching::ElasticStretcher;
pub use systems::{Costs, elastic_system, member_cost};
