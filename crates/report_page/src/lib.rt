//! One page for a report, in the words of the model.
#![tactic(auto, using(crate::proofs::Marked::nothing, crate::proofs::Marked::more, crate::proofs::Marked::then_more))]

mod answers;
mod bars;
mod cases;
mod demands;
mod edits;
mod families;
mod folds;
mod leasts;
mod members;
mod numbers;
mod objectives;
mod pages;
mod parts;
mod pieces;
mod points;
mod reasons;
mod relaxed;
mod steps;
mod stops;
mod verdicts;

pub use pages::page;
pub use pieces::{Piece, escape, escaping_law, markup_law, write};
