//! The top call: words, files, a check and its line, the answers to a script, or the summary of a production plan.
#![tactic(auto)]

mod again;
mod endings;
mod fetching;
mod laws;
mod making;
mod plans;
mod printing;
mod reading;
mod running;
mod saying;
mod words;

pub use again::right_reports_are_accepted;
pub use endings::{Ending, Which};
pub use fetching::fetch_file;
pub use laws::one_ending;
pub use reading::{fetch_model, outcome_ending, stop_ending};
pub use running::run;
pub use saying::say;
pub use words::names_a_file;
