//! Whether a report holds of a program.
ghost use Rattle.std.specs.Prelude.{◌≡◌, ◌⊎◌, ◌<◌, [], length};
ghost use Rattle.report_text.specs.History.{history_of};
ghost use Rattle.report_text.specs.Form.{IsReportFor};
ghost use Rattle.report_text.specs.Grammar.{report_lines};
ghost use Rattle.cert_check.specs.Trials.{trials, settled_count, unsettled_count, outcome_of, IsAccepted};
ghost use Rattle.cert_check.specs.Stops.{first_stop, Says, ending};
ghost use Rattle.cert_check.specs.Truth.{AreTrue, AcceptedLaw};

use crate::entries::{check_entries, settles};
use crate::notes::check_notes;
use crate::outcome::{Outcome, Stop};
use evidence_laws::{bound_is_valid, ray_is_unbounded};
use least_checks::{checked_violation, parts_show_least, reached_is_least};
use lp_model::Model;
use price_checks::{checked_cost, price_shows_cheapest};
use report_text::{CommandSession, Entry, Report};
use std::alloc::Global;

/// Checks a report against a program, line by line, and answers with the first line that fails or has an operation that
/// is too wide. Each answer is checked against the program as the commands before it edited it.
///
/// The notes are compared with the program's position by position; where one is missing, the line in its place fails. A
/// point fails on its `point` line where it does not satisfy the active members, and a witness where it does not
/// satisfy the other members of its set. A member fails on its line where it is not active, and in `infeasible` also
/// where it is not the one that the proof uses in its place; where one is missing, the line in its place fails, which
/// may be the `proof` line. A proof fails on its `leaf` line where its shares are no combination of the printed
/// members. Rounds fail on their line where there are none, or more than one more than the members. A ray fails on its `ray`
/// line where it leaves an active member or does not improve the objective. A value of the objective fails on its line where
/// it is not the sum at the point. A dual fails on its `bound` line where it uses what is not active, where its numbers do not
/// add up to the bound, where the value is left out without cause, or where no active member is a mark and the value is not
/// the bound; and on its `dual` line where its columns are not the objective.
///
/// In `least` the `total` line fails where the dual uses what is not active, where its numbers do not add up to the total,
/// negated, or where the total is not the weighted violation at the point; the `point` line where the point does not satisfy
/// the rigid active members; and the `dual` line where the columns do not cancel or a soft member is given more than its
/// weight. In `rigid infeasible` a member fails as in `infeasible`, and also where it is not rigid. The first line of an
/// answer that settles `iis elastic`, `iis alternative` or `relax` fails where an active member is a mark.
///
/// Behind the proof of an irreducible set the `total` line fails where the proof is not one leaf whose numbers add up to -1,
/// or where its shares do not cost the total; and the `price` line where, for an active member that asks for a number, its form
/// at the price less the total times its number is above its weight. So a set with a price that is accepted is the one of a
/// weighting of the active members than which none is cheaper (Gleeson and Ryan 1990).
///
/// The answer to an edit or an undo fails on its line where it is not the right one: that it is done, or the reason for which
/// it is refused.
///
/// `Accepted` shows that the notes are those of the program, and that what each entry says is so. Each entry is settled
/// but the stops, which say nothing of the program, and those that tell how far it is reduced, or that a column is to be whole
/// where it may not be: of these nothing is checked.
///
/// The report is to stand in the grammar for the program, as one that was read for it does, and to have fewer than 2^31
/// lines.
pub fn verify(alloc: Global, model: Model, report: Report) -> Outcome
    requires form { IsReportFor model report }
    requires short { length (report_lines model report) < 2147483648 }
    ensures said { (result ≡ Outcome.Memory) ⊎ (result ≡ outcome_of report.entries (trials model report)) }
    ensures notes { IsAccepted result → report.notes ≡ model.notes }
    ensures true_answers { IsAccepted result → AreTrue model [] report.entries }
    ensures settled { IsAccepted result → result ≡ Outcome.Accepted (settled_count report.entries) (unsettled_count report.entries) }
{
    // That the program is well formed is told with the count.
    let _rows = model.row_count();
    accepted_reports_are_true();
    let mut session = CommandSession::new(alloc, model);
    match check_report(alloc, &mut session, &report) {
        Ok(()) => accepted(report.entries.as_slice()),
        Err(stop) => ending_of(stop),
    }
}

/// What a check accepts is true, whatever program ran it. It does nothing when it runs.
pub fn accepted_reports_are_true()
    ensures { AcceptedLaw }
{
    ray_is_unbounded();
    bound_is_valid();
    parts_show_least();
    checked_violation();
    reached_is_least();
    checked_cost();
    price_shows_cheapest();
}

// Checks the notes, and then the entries.
fn check_report(alloc: Global, session: &mut CommandSession, report: &Report) -> Result<(), Stop>
    requires fresh { session.old ≡ history_of session.old.model [] }
    requires form { IsReportFor session.old.model report.now }
    requires short { length (report_lines session.old.model report.now) < 2147483648 }
    ensures { Says (first_stop (trials session.old.model report.now)) result }
{
    check_notes(report.notes.as_slice(), session.model().notes())?;
    check_entries(alloc, session, report.entries.as_slice())
}

// What is answered where no line fails.
fn accepted(entries: &[Entry]) -> Outcome
    ensures { result ≡ Outcome.Accepted (settled_count entries.now) (unsettled_count entries.now) }
{
    let settled = count_settled(entries);
    Outcome::Accepted {
        settled,
        unsettled: entries.len() as u64 - settled,
    }
}

// How many entries are settled.
fn count_settled(entries: &[Entry]) -> u64
    ensures { result ≡ settled_count entries.now }
{
    let mut count: u64 = 0;
    for entry in entries {
        if settles(&entry.answer) {
            count += 1;
        }
    }
    count
}

// What a stop is answered as.
fn ending_of(stop: Stop) -> Outcome
    ensures { result ≡ ending stop }
{
    match stop {
        Stop::Rejected(line) => Outcome::Rejected { line },
        Stop::Wide(line, wide) => Outcome::Wide { line, wide },
        Stop::Memory => Outcome::Memory,
    }
}
