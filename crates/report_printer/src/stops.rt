//! The lines of stops.

ghost use Rattle.std.specs.Prelude.{◌≡◌, ◌++◌, OnOk};
ghost use Rattle.report_text.specs.Grammar.{site_phrases, stop_phrases, phrases_text};
ghost use Rattle.report_printer.specs.EvidenceNumbers.{IsStopWithin};
ghost use Rattle.report_printer.specs.Evidence.{ended, IsKnownSite, IsKnownStop};

use crate::lines::print_phrase;
use crate::sites::print_site;
use crate::words::push_line;
use frac128::Wide;
use lp_model::Model;
use report_text::{Phrase, StopPhrase, ToldSite, ToldStop};
use std::alloc::AllocError;

// Appends the lines of a stop at an operation, but for its end.
fn print_wide(
    model: &Model,
    site: &ToldSite,
    step: u64,
    operation: &Wide,
    into: &mut Vec<u8>,
) -> Result<(), AllocError>
    requires { IsKnownSite model.now site.now }
    ensures text { OnOk result (into.new.items ≡ into.old.items ++ phrases_text model.now (stop_phrases (ToldStop.Wide site.now step operation.now))) }
    ensures within { OnOk result (IsStopWithin (ToldStop.Wide site.now step operation.now)) }
{
    push_line(b"too wide", into)?;
    print_site(model, site, into)?;
    print_phrase(model, Phrase::Stop(StopPhrase::Step(step)), into)?;
    print_phrase(model, Phrase::Stop(StopPhrase::Operation(*operation)), into)?;
    Ok(())
}

// Appends a line, and those of a site.
fn print_spent(
    model: &Model,
    what: &[u8],
    site: &ToldSite,
    into: &mut Vec<u8>,
) -> Result<(), AllocError>
    requires { IsKnownSite model.now site.now }
    ensures { OnOk result (into.new.items ≡ into.old.items ++ (ended what.now ++ phrases_text model.now (site_phrases site.now))) }
{
    push_line(what, into)?;
    print_site(model, site, into)
}

/// Appends the lines of a stop, but for its end.
pub(crate) fn print_stop(
    model: &Model,
    stop: &ToldStop,
    into: &mut Vec<u8>,
) -> Result<(), AllocError>
    requires { IsKnownStop model.now stop.now }
    ensures text { OnOk result (into.new.items ≡ into.old.items ++ phrases_text model.now (stop_phrases stop.now)) }
    ensures within { OnOk result (IsStopWithin stop.now) }
{
    match stop {
        ToldStop::Wide(site, step, operation) => print_wide(model, site, *step, operation, into),
        ToldStop::Pivots(site) => print_spent(model, b"pivots spent", site, into),
        ToldStop::Nodes(site) => print_spent(model, b"nodes spent", site, into),
        ToldStop::Large(size) => {
            print_phrase(model, Phrase::Stop(StopPhrase::Large(*size)), into)?;
            Ok(())
        }
    }
}
