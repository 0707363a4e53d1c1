//! The check of a report, and its page.
ghost use Rattle.std.specs.Prelude.{◌≡◌, ◌≤◌, length, IfOk, IfErr, OnOk, MatchResult};
ghost use Rattle.cert_check.specs.declared.outcome.Outcome.TheVariants.{Accepted};
ghost use Rattle.iis_edge.specs.Causes.{KeepsCounts};
ghost use Rattle.iis_run.specs.Causes.{ComesTo, checked_ending};
ghost use Rattle.iis_run.specs.Steps.{IsQuietEnd};
ghost use Rattle.iisan_page.specs.Paged.{IsPageOf, IsPaged, IsUnaccepted, IsRefusedBy};

use cert_check::{Outcome, verify};
use iis_edge::Shelf;
use iis_run::{Ending, Which, fetch_file, fetch_model, outcome_ending, stop_ending};
use lp_model::Model;
use report_page::page;
use report_reader::read_report;
use report_text::CommandSession;
use std::alloc::Global;

/// The page of a report that was accepted, and how many entries of the report are settled, and how many are not.
#[derive(Drop)]
pub(crate) struct AcceptedPage {
    pub text: Vec<u8>,
    pub settled: u64,
    pub unsettled: u64,
}

impl std::marker::Model for AcceptedPage {
    ghost use Rattle.iisan_page.specs.Paged.{PageValue};

    ghost Value = { PageValue };

    ghost view = { λ p. record { text = p.text.items; settled = p.settled; unsettled = p.unsettled } };
}

// The counts of an accepted report, or the ending of a check that does not accept it.
fn accepted_counts(outcome: Outcome) -> Result<(u64, u64), Ending>
    ensures { MatchResult result (λ counts. outcome ≡ Accepted counts.0 counts.1) (λ e. (e ≡ checked_ending outcome) × IsUnaccepted e) }
{
    match outcome {
        Outcome::Accepted { settled, unsettled } => Ok((settled, unsettled)),
        Outcome::Rejected { .. } | Outcome::Wide { .. } | Outcome::Memory => {
            Err(outcome_ending(outcome))
        }
    }
}

// Reads a report on a model, whose file has this name, makes its page, and checks it: the page is kept where the report is accepted.
fn check_page(
    alloc: Global,
    model: Model,
    name: &[u8],
    bytes: &[u8],
) -> Result<AcceptedPage, Ending>
    requires { length bytes.now ≤ 67108864 }
    ensures page { IfOk result (IsPageOf model bytes.now) }
    ensures comes { IfErr result (ComesTo model bytes.now) }
    ensures unaccepted { IfErr result IsUnaccepted }
{
    let mut session = CommandSession::new(alloc, model);
    let report = match read_report(alloc, bytes, &mut session) {
        Ok(report) => report,
        Err(stop) => return Err(stop_ending(stop)),
    };
    let mut text = Vec::new(alloc);
    let Ok(()) = page(&mut session, &report, name, &mut text) else {
        return Err(Ending::Memory);
    };
    match accepted_counts(verify(alloc, session.into_model(), report)) {
        Ok(counts) => Ok(AcceptedPage {
            text,
            settled: counts.0,
            unsettled: counts.1,
        }),
        Err(ending) => Err(ending),
    }
}

/// Fetches a model and then a report, once each, checks the report as `iisan verify` does, and makes its page.
///
/// # Errors
///
/// The ending that `iisan verify` has for these files, where it is not that the report is accepted.
pub(crate) fn fetch_page<S: Shelf>(
    alloc: Global,
    shelf: &mut S,
    model: &str,
    report: &str,
) -> Result<AcceptedPage, Ending>
    ensures page { IfOk result (IsPaged (S.file shelf.old) model.now report.now) }
    ensures refused { IfErr result (IsRefusedBy (S.file shelf.old) (S.faults shelf.old) (S.faults shelf.new) model.now report.now) }
    ensures quiet { OnOk result (KeepsCounts (S.faults shelf.old) (S.faults shelf.new)) }
    ensures quiet_stop { IfErr result (IsQuietEnd (S.faults shelf.old) (S.faults shelf.new)) }
{
    let program = match fetch_model(alloc, shelf, model) {
        Ok(program) => program,
        Err(ending) => return Err(ending),
    };
    let bytes = match fetch_file(alloc, shelf, report, Which::Report) {
        Ok(bytes) => bytes,
        Err(ending) => return Err(ending),
    };
    check_page(alloc, program, model.as_bytes(), bytes.as_slice())
}
