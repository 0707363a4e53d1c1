//! How a run ends.

use cert_check::Outcome;
use text_fields::ReadStop;

/// The file that a refusal names.
#[derive(Clone, Copy, PartialEq, Eq)]
pub enum Which {
    Model,
    Report,
    Script,
}

/// How a run ends, before anything is written.
#[derive(Clone, Copy)]
pub enum Ending {
    Usage,
    ReadFault(Which),
    TooLong(Which),
    Memory,
    /// The first fault of the model, by its line and kind.
    ModelRefused(ReadStop),
    /// A whole line of the report, by its number, with which no report goes on.
    BadReport(u32),
    /// The report ends too soon.
    CutReport,
    /// A line of the script, by its number, that is the first bad one.
    BadScript(u32),
    /// The report was checked.
    Checked(Outcome),
}
