//! The reader of reports.
#![tactic(auto)]

mod answers;
mod cursor;
mod evidence;
mod laws;
mod lists;
mod numbers;
mod reader;

pub use laws::{
    bad_is_not_truncated, one_bad_line, one_report, printed_is_read, read_is_not_bad,
    read_is_not_truncated,
};
pub use reader::{ReportStop, read_report};
