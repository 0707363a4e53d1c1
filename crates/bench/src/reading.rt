//! Models that are read, and texts that are split into lines and fields: what `bench/read_mps.sh`, `bench/read_lp.sh` and
//! `bench/scan.sh` measure.

use lp_reader::read_lp;
use mps_reader::read_mps;
use std::alloc::Global;
use text_fields::{FieldStop, after_line, fields, next_line};

/// What is done with a text.
#[derive(Clone, Copy)]
pub(crate) enum Task {
    /// Read as a model in the MPS format.
    Mps,
    /// Read as a model in the LP format.
    Lp,
    /// Split into lines and fields.
    Scan,
}

// How many lines there are, and how many fields all of them have; a line with a fault has none.
fn split(alloc: Global, bytes: &[u8]) -> Result<(u64, u64), FieldStop> {
    let mut spans = Vec::new(alloc);
    let mut lines: u32 = 0;
    let mut found: u64 = 0;
    let mut at = 0;
    while let Some(line) = next_line(bytes, at, lines) {
        spans.clear();
        match fields(bytes, &line, &mut spans) {
            Ok(()) => found = found.wrapping_add(spans.len() as u64),
            Err(FieldStop::Text(_)) => {}
            Err(FieldStop::Memory) => return Err(FieldStop::Memory),
        }
        lines = lines.wrapping_add(1);
        at = after_line(bytes, &line);
    }
    Ok((u64::from(lines), found))
}

impl Task {
    /// The task of a name.
    pub(crate) fn named(name: &str) -> Option<Task> {
        match name {
            "mps" => Some(Task::Mps),
            "lp" => Some(Task::Lp),
            "scan" => Some(Task::Scan),
            _ => None,
        }
    }

    /// What is read where no file is named.
    pub(crate) fn sample(self) -> &'static [u8] {
        match self {
            Task::Mps => b"ROWS\n L r\nCOLUMNS\n x r 1\nENDATA\n",
            Task::Lp => b"min\nx\nst\nx >= 1\nend\n",
            Task::Scan => b"* three lines\nROWS\n L  row1\n",
        }
    }

    /// What its two counts are of.
    pub(crate) fn labels(self) -> (&'static str, &'static str) {
        match self {
            Task::Mps | Task::Lp => ("rows", "columns"),
            Task::Scan => ("lines", "fields"),
        }
    }

    /// How many rows and columns the model has, or lines and fields the text; none where it is refused.
    pub(crate) fn run(self, alloc: Global, bytes: &[u8]) -> (u64, u64) {
        if bytes.len() >= 2_147_483_648 {
            return (0, 0);
        }
        match self {
            Task::Mps => match read_mps(alloc, bytes) {
                Ok(model) => (
                    u64::from(model.row_count()),
                    u64::from(model.column_count()),
                ),
                Err(_) => (0, 0),
            },
            Task::Lp => match read_lp(alloc, bytes) {
                Ok(model) => (
                    u64::from(model.row_count()),
                    u64::from(model.column_count()),
                ),
                Err(_) => (0, 0),
            },
            Task::Scan => split(alloc, bytes).unwrap_or((0, 0)),
        }
    }
}
