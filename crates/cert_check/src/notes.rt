//! Whether a report's notes are those of the program.
ghost use Rattle.std.specs.Prelude.{◌≡◌, ◌+◌, ◌<◌, length};
ghost use Rattle.cert_check.specs.Trials.{paired_trials, same_note};
ghost use Rattle.cert_check.specs.Stops.{first_stop, Says};

use crate::outcome::Stop;
use lp_model::Note;
use report_text::HEAD_LINES;

/// Compares the notes position by position, of which the first stands behind the head.
pub(crate) fn check_notes(printed: &[Note], known: &[Note]) -> Result<(), Stop>
    requires { length printed.now < 2147483648 }
    ensures { Says (first_stop (paired_trials same_note 2 printed.now known.now)) result }
{
    let mut line = 1 + HEAD_LINES;
    for place in 0..printed.len() {
        if place >= known.len() {
            return Err(Stop::Rejected(line));
        }
        if !is_same(printed[place], known[place]) {
            return Err(Stop::Rejected(line));
        }
        line += 1;
    }
    if printed.len() < known.len() {
        return Err(Stop::Rejected(line));
    }
    Ok(())
}

// Whether two notes are one.
fn is_same(one: Note, other: Note) -> bool
    ensures { result ≡ same_note one other }
{
    match (one, other) {
        (Note::LowerRemoved(one), Note::LowerRemoved(other)) => one == other,
        (Note::LowerKept(one), Note::LowerKept(other)) => one == other,
        _ => false,
    }
}
