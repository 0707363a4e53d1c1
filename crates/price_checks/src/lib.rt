//! Checks of weightings of least cost and of their prices.
#![tactic(auto)]

mod costs;
mod members;
mod prices;
mod sums;

pub use costs::{check_cost, checked_cost, price_shows_cheapest, refused_cost};
pub use prices::check_price;
