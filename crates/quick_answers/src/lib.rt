//! What quick runs suggest, where checks confirm it: an oracle over another one, and what is least, cheapest or best of a set.
#![tactic(auto)]

mod alone;
mod best;
mod cheapest;
mod confirmed;
mod guides;
mod kept;
mod least;
mod oracle;
mod rounds;
mod splits;
mod stretching;
mod trees;
mod witnesses;

pub use alone::is_small;
pub use best::quick_best;
pub use cheapest::{QuickCore, Weighed, quick_cheapest};
pub use kept::Kept;
pub use least::quick_least;
pub use oracle::QuickOracle;
pub use relaxation::Relaxed;
pub use stretching::QuickStretcher;
pub use unbounded::Diagnosis;
