//! The reader of single lines: what a line of a report says, and the command that a line of a script is.
#![tactic(auto)]

mod commands;
mod edits;
mod lexing;
mod naming;
mod numerals;
mod parts;
mod printing;

pub use commands::{CommandStop, command_law, read_command};
pub use lexing::read_phrase;
