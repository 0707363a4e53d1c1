//! The lines of models in the MPS format: what each says by its section and its fields.
#![tactic(auto)]

mod contexts;
mod data;
mod fielding;
mod lines;
mod sections;
mod shapes;

pub use contexts::Context;
pub use lines::{Said, read_line};
pub use sections::Section;
pub use shapes::{BoundKind, Bounded, Figure, RowKind};
