//! What an ending writes, and its status.
ghost use Rattle.std.specs.Prelude.{◌≡◌, ◌⊎◌, IfOk, MatchResult};
ghost use Rattle.analysis.specs.Puts.{PutWhole, PutFailed};
ghost use Rattle.iis_run.specs.Said.{line_of, status_of, status_after_fault as status_after_fault_of, IsSaid, EndsInWant, Ends};

use crate::endings::Ending;
use crate::printing::{
    USAGE, print_bad_report, print_bad_script, print_model_refused, print_outcome, read_fault_text,
    too_long_text,
};
use cert_check::Outcome;
use iis_edge::{PutFault, Sink};
use std::alloc::{AllocError, Global};

/// Puts a line, or lines.
pub(crate) fn put_line<W: Sink>(out: &mut W, line: &[u8]) -> Result<(), PutFault>
    ensures { MatchResult result (λ _. PutWhole W.faults W.taken out.old out.new line.now) (λ _. PutFailed W.faults W.taken out.old out.new line.now) }
{
    out.put(line)
}

// The status of an ending.
fn status(ending: &Ending) -> u8
    ensures { result ≡ status_of ending.now }
{
    match ending {
        Ending::Usage => 2,
        Ending::ReadFault(_) | Ending::TooLong(_) => 3,
        Ending::ModelRefused(_) => 5,
        Ending::BadReport(_) | Ending::CutReport | Ending::BadScript(_) => 6,
        Ending::Memory | Ending::Checked(Outcome::Memory) => 7,
        Ending::Checked(Outcome::Accepted { unsettled: 0, .. }) => 0,
        Ending::Checked(Outcome::Accepted { .. }) => 1,
        Ending::Checked(Outcome::Rejected { .. } | Outcome::Wide { .. }) => 8,
    }
}

// The status of an ending where the put of its line failed.
fn status_after_fault(ending: &Ending) -> u8
    ensures { result ≡ status_after_fault_of ending.now }
{
    match ending {
        Ending::Checked(Outcome::Accepted { .. }) => 4,
        _ => status(ending),
    }
}

// Puts the line of an ending, and gives the status.
fn put_ending<W: Sink>(ending: &Ending, line: &[u8], out: &mut W) -> u8
    requires { line.now ≡ line_of ending.now }
    ensures { IsSaid W.faults W.taken out.old out.new ending.now result }
{
    match put_line(out, line) {
        Ok(()) => status(ending),
        Err(PutFault) => status_after_fault(ending),
    }
}

// Puts the line of an ending, where there was memory for it, and gives the status.
fn put_made<W: Sink>(ending: &Ending, line: Result<Vec<u8>, AllocError>, out: &mut W) -> u8
    requires { IfOk line (λ text. text.items ≡ line_of ending.now) }
    ensures { IsSaid W.faults W.taken out.old out.new ending.now result ⊎ EndsInWant W.faults W.taken out.old out.new result }
{
    match line {
        Ok(line) => put_ending(ending, line.as_slice(), out),
        Err(AllocError) => 7,
    }
}

/// Puts the line of an ending, and gives its status.
pub fn say<W: Sink>(alloc: Global, ending: Ending, out: &mut W) -> u8
    ensures { Ends W.faults W.taken out.old out.new ending result }
{
    match &ending {
        Ending::Usage => put_ending(&ending, USAGE.as_bytes(), out),
        Ending::ReadFault(which) => put_ending(&ending, read_fault_text(*which).as_bytes(), out),
        Ending::TooLong(which) => put_ending(&ending, too_long_text(*which).as_bytes(), out),
        Ending::CutReport => put_ending(&ending, b"report refused truncated\n", out),
        Ending::Memory => 7,
        Ending::ModelRefused(stop) => put_made(&ending, print_model_refused(alloc, *stop), out),
        Ending::BadReport(line) => put_made(&ending, print_bad_report(alloc, *line), out),
        Ending::BadScript(line) => put_made(&ending, print_bad_script(alloc, *line), out),
        Ending::Checked(outcome) => put_made(&ending, print_outcome(alloc, *outcome), out),
    }
}
