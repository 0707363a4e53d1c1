//! What filters share: a set that no point satisfies, from which members are taken out one by one.
#![tactic(auto)]

mod listing;
mod reduction;

pub use listing::listed;
pub use reduction::{Reduction, try_without};
