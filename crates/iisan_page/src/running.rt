//! A run: a report is checked, and its page is written where it is accepted.
ghost use Rattle.std.specs.Prelude.{◌≡◌, ◌⊎◌, ◌<◌, ◌==◌, cond, option_map};
ghost use Rattle.iis_edge.specs.Causes.{KeepsCounts};
ghost use Rattle.iis_run.specs.Said.{Puts};
ghost use Rattle.analysis.specs.Puts.{PutWhole, PutFailed};
ghost use Rattle.iisan_page.specs.Asked.{names_request};
ghost use Rattle.iisan_page.specs.Paged.{verify_request, usage_line, PutsPageOf, PutsNoPage};

use crate::checking::fetch_page;
use iis_edge::{Shelf, Sink};
use iis_run::{names_a_file, say};
use std::alloc::Global;

const USAGE: &str = "usage: iisan_page MODEL REPORT\n";

/// The names of the two files.
#[derive(Clone, Copy)]
pub(crate) struct Names<'a> {
    pub model: &'a str,
    pub report: &'a str,
}

// The names of the two files, where the words are such.
fn parse<'a>(words: &'a [String]) -> Option<Names<'a>>
    ensures { option_map names_request result ≡ verify_request words.now }
{
    let [model, report] = words else {
        return None;
    };
    if !names_a_file(model.as_str()) || !names_a_file(report.as_str()) {
        return None;
    }
    Some(Names {
        model: model.as_str(),
        report: report.as_str(),
    })
}

// Puts the usage line, whether or not the put fails.
fn put_usage<W: Sink>(out: &mut W)
    ensures { Puts W.faults W.taken out.old out.new usage_line }
{
    let _ = out.put(USAGE.as_bytes());
}

// Puts a page, and gives the status: 1 where entries are unsettled, and 4 where the put failed.
fn put_page<W: Sink>(text: &[u8], unsettled: u64, out: &mut W) -> u8
    ensures { ((result ≡ cond (unsettled == 0) 0 1) × PutWhole W.faults W.taken out.old out.new text.now) ⊎ ((result ≡ 4) × PutFailed W.faults W.taken out.old out.new text.now) }
{
    match out.put(text) {
        Ok(()) if unsettled == 0 => 0,
        Ok(()) => 1,
        Err(_) => 4,
    }
}

/// Checks a report against a model, writes its page where it is accepted, and gives the status.
///
/// `words` are the command line without the program's name: `MODEL REPORT`. The files are fetched once each, the model
/// first, and read and checked as by `iisan verify MODEL REPORT`. The statuses are those of `iisan verify`:
///
/// - 0 and 1: the report is accepted, and the page is written: 0 where each entry is settled, 1 where some are stops.
/// - 2: the words are not of this form; the usage line.
/// - 3, 5, 6 and 8: what `iisan verify` says is written.
/// - 4: the put of the page failed.
/// - 7: want of memory; nothing is written.
pub(crate) fn run<S: Shelf, W: Sink>(
    alloc: Global,
    words: &[String],
    shelf: &mut S,
    out: &mut W,
) -> u8
    // Under status 0 or 1 what was put is the page of the report that the file is, on the model that the file is, and the
    // check of `iisan verify` accepts that report.
    ensures paged { (result ≡ 0) ⊎ (result ≡ 1) → PutsPageOf (S.file shelf.old) W.faults W.taken out.old out.new (verify_request words.now) result }
    // Where some count of faults of the shelf has changed, the status is 3, or 7 for want of memory.
    ensures faulted { (result ≡ 3) ⊎ ((result ≡ 7) ⊎ KeepsCounts (S.faults shelf.old) (S.faults shelf.new)) }
    // Under any other status what was put is what `iisan verify` says, the usage line, or some front of the page.
    ensures unpaged { 1 < result → PutsNoPage (S.file shelf.old) (S.faults shelf.old) (S.faults shelf.new) W.faults W.taken out.old out.new (verify_request words.now) result }
{
    let Some(names) = parse(words) else {
        put_usage(out);
        return 2;
    };
    match fetch_page(alloc, shelf, names.model, names.report) {
        Ok(page) => put_page(page.text.as_slice(), page.unsettled, out),
        Err(ending) => say(alloc, ending, out),
    }
}
