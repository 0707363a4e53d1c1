//! What a check of a report answers, and how it stops.
ghost use Rattle.std.specs.Prelude.{[], ◌∷◌};
ghost use Rattle.cert_check.specs.Trials.{on_line};
ghost use Rattle.cert_check.specs.Stops.{first_stop, Says};

use certs::Checked;
use frac128::Wide;

/// What the check of a report answers.
///
/// `Accepted` tells how many entries are settled, and how many are not: these are stops, or tell how far the program is
/// reduced, or that a column is to be whole where it may not be. `Rejected` has the number of the first line that fails, and
/// `Wide` of the first line on which an operation is too wide, with that operation, where no line before it fails. The first
/// line of a report has number 1. `Memory` comes where memory was refused.
#[derive(Clone, Copy)]
pub enum Outcome {
    Accepted { settled: u64, unsettled: u64 },
    Rejected { line: u32 },
    Wide { line: u32, wide: Wide },
    Memory,
}

/// Why a check goes no further: a line fails, a line has an operation that is too wide, or memory was refused.
#[derive(Clone, Copy)]
pub(crate) enum Stop {
    Rejected(u32),
    Wide(u32, Wide),
    Memory,
}

/// Goes on where a line passes, and stops where it does not.
pub(crate) fn settle(line: u32, found: Checked) -> Result<(), Stop>
    ensures { Says (first_stop (on_line line found ∷ [])) result }
{
    match found {
        Checked::Yes => Ok(()),
        Checked::No => Err(Stop::Rejected(line)),
        Checked::Wide(wide) => Err(Stop::Wide(line, wide)),
    }
}
