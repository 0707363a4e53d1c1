//! The text of models: its lines, their fields, the tokens of the LP format and decimal literals, each with its first fault.
//! Only `fields` takes memory.
#![tactic(auto)]

mod faults;
mod laws;
mod line_fields;
mod numbers;
mod pieces;
mod spans;
mod tokens;

pub use faults::{FieldStop, ReadFault, ReadKind, ReadStop, TextFault, TextKind};
pub use laws::{field_law, token_laws};
pub use line_fields::{fields, is_word};
pub use numbers::{bound, fitting, is_huge, is_wide_limit, number};
pub use pieces::TokenKind;
pub use spans::{Line, Span, after_line, next_line};
pub use tokens::{Place, Token, next_token};
