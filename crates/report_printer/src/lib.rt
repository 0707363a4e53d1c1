//! The text that commands, answers and reports are printed as.
#![tactic(auto)]

mod answers;
mod commands;
mod entries;
mod heads;
mod least;
mod lines;
mod members;
mod nodes;
mod objectives;
mod points;
mod prices;
mod sites;
mod steps;
mod stops;
mod words;

pub use answers::{answers_can_be_printed, print_answer};
pub use commands::print_command;
pub use entries::print_entry;
pub use heads::{print_foot, print_head, report_has_parts};
