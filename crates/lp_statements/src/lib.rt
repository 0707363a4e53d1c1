//! The statements of a text in the LP format, one after another, each with the first fault of its form.
#![tactic(auto)]

mod cursor;
mod grammar;
mod items;
mod laws;
mod parts;
mod statements;
mod words;

pub use cursor::Cursor;
pub use laws::statement_laws;
pub use parts::{Constant, Heading, Item, Keyword, Relation, Section, Statement, Term, Text};
pub use statements::next_statement;
