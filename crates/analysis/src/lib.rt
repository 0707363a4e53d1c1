//! The answers to a script of commands, put piece by piece.
#![tactic(auto)]

mod answering;
mod asking;
mod diagnosing;
mod enforcing;
mod linear;
mod once;
mod pieces;
mod reducing;
mod relaxing;
mod searching;
mod sizing;
mod telling;
mod weighing;
mod witnesses;

pub use answering::box_has_nodes_enough;
pub use once::search_once;
pub use pieces::analyse;
