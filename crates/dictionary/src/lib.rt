//! Dictionaries: the basic variables of a linear system as forms of the others.
#![tactic(auto)]

mod dictionaries;
mod entries;
mod fitting;
mod forming;
mod numbers;
mod places;
mod rows;
mod starts;
mod table;
mod widening;

pub use dictionaries::{Dictionary, PivotStop};
pub use fitting::fits_narrow;
pub use forming::is_formed;
pub use numbers::{difference, product, quotient, sum};
