//! Checks a report against a program: which of its lines is the first that fails.
#![tactic(auto)]

mod active;
mod entries;
mod leasts;
mod members;
mod notes;
mod objectives;
mod outcome;
mod prices;
mod reports;
mod room;
mod sparse;
mod trees;
mod witnesses;

pub use entries::settles;
pub use outcome::Outcome;
pub use reports::{accepted_reports_are_true, verify};
