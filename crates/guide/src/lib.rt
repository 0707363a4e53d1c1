//! A guide: the dual simplex over rounded numbers. It decides nothing: a basis, values and weights are left, of which nothing is
//! promised.
#![tactic(auto)]

mod guides;
mod products;
mod rounded;
mod systems;
mod turns;

pub use guides::{Guide, Range, RoughWeight};
pub use rounded::Rounded;
pub use systems::{System, rough};
pub use turns::GuideEnd;
