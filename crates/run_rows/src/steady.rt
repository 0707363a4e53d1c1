//! A run over a shelf and a sink that tell nothing.
use crate::rows::{file, read_words};
use iis_edge::{SteadyShelf, SteadySink};
use iis_run::run;
use std::alloc::{AllocError, Global};

const MODEL: &[u8] = b"ROWS\n G r\n L s\nCOLUMNS\n x r 2\n x s 1\nRHS\n r 3\n s 4\nENDATA\n";

/// Whether the check over a shelf and a sink that tell nothing refuses a report, which is an empty file.
///
/// # Errors
///
/// Where there is no memory for the files.
pub fn is_steady_refused(alloc: Global) -> Result<bool, AllocError> {
    let mut files = Vec::new(alloc);
    files.push(file(alloc, b"m.mps", MODEL)?)?;
    let words = read_words(alloc, "verify m.mps s.txt")?;
    let mut shelf = SteadyShelf::new(files);
    let mut out = SteadySink::new();
    Ok(run(alloc, words.as_slice(), &mut shelf, &mut out) == 6)
}
