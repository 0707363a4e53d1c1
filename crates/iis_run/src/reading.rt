//! Files that are fetched and read.
ghost use Rattle.std.specs.Prelude.{◌≡◌, ◌≤◌, ℕ, List, length, All, IfOk, IfErr, IfSome, OnOk};
ghost use Rattle.iis_edge.specs.Causes.{KeepsCounts};
ghost use Rattle.report_text.specs.Form.{IsCommand};
ghost use Rattle.analysis.specs.NamesAreWords.{HasWords};
ghost use Rattle.iis_run.specs.Causes.{ComesTo, IsModelOf, checked_ending, refused_ending};
ghost use Rattle.iis_run.specs.Scripts.{IsCommands, script_ending};
ghost use Rattle.iis_run.specs.Steps.{IsModelStop, IsQuietEnd, IsCheckEnd, IsScriptEnd, model_ending};

use crate::endings::{Ending, Which};
use crate::fetching::fetch_file;
use cert_check::{Outcome, verify};
use iis_edge::Shelf;
use iis_session::{ScriptStop, read_script};
use lp_model::Model;
use model_files::read_model;
use report_reader::{ReportStop, read_report};
use report_text::{CommandSession, Script};
use std::alloc::Global;
use text_fields::ReadFault;

/// Fetches the model and reads it.
///
/// # Errors
///
/// The ending of a run that gets no model: those of `fetch_file`; `ModelRefused` where the bytes declare none; or `Memory`.
pub fn fetch_model<S: Shelf>(alloc: Global, shelf: &mut S, name: &str) -> Result<Model, Ending>
    ensures read { IfOk result (λ model. IfSome (S.file shelf.old name.now) (λ b. IsModelOf name.now b model)) }
    ensures words { IfOk result HasWords }
    ensures stop { IfErr result (IsModelStop name.now (S.file shelf.old name.now) (S.faults shelf.old name.now) (S.faults shelf.new name.now)) }
    ensures quiet { IfErr result (IsQuietEnd (S.faults shelf.old) (S.faults shelf.new)) }
    ensures kept { OnOk result (KeepsCounts (S.faults shelf.old) (S.faults shelf.new)) }
    ensures counts { (n : List ℕ) → S.faults shelf.old n ≤ S.faults shelf.new n }
    ensures files { (n : List ℕ) → S.file shelf.new n ≡ S.file shelf.old n }
{
    let bytes = match fetch_file(alloc, shelf, name, Which::Model) {
        Ok(bytes) => bytes,
        Err(ending) => return Err(ending),
    };
    match read_model(alloc, name.as_bytes(), bytes.as_slice()) {
        Ok(model) => Ok(model),
        Err(fault) => Err(unread_model(fault)),
    }
}

// Why a model was not read.
fn unread_model(fault: ReadFault) -> Ending
    ensures { result ≡ model_ending fault }
{
    match fault {
        ReadFault::Stop(stop) => Ending::ModelRefused(stop),
        ReadFault::Memory => Ending::Memory,
    }
}

/// What the check of a report comes to.
pub fn outcome_ending(outcome: Outcome) -> Ending
    ensures { result ≡ checked_ending outcome }
{
    match outcome {
        Outcome::Memory => Ending::Memory,
        _ => Ending::Checked(outcome),
    }
}

/// Why a report was not read.
pub fn stop_ending(stop: ReportStop) -> Ending
    ensures { result ≡ refused_ending stop }
{
    match stop {
        ReportStop::BadLine(line) => Ending::BadReport(line),
        ReportStop::Truncated => Ending::CutReport,
        ReportStop::Memory => Ending::Memory,
    }
}

// Reads a report and checks it.
fn check_report(alloc: Global, model: Model, bytes: &[u8]) -> Ending
    requires { length bytes.now ≤ 67108864 }
    ensures { ComesTo model bytes.now result }
{
    let mut session = CommandSession::new(alloc, model);
    match read_report(alloc, bytes, &mut session) {
        Ok(report) => outcome_ending(verify(alloc, session.into_model(), report)),
        Err(stop) => stop_ending(stop),
    }
}

/// Fetches the report, reads it and checks it.
pub(crate) fn check_file<S: Shelf>(alloc: Global, model: Model, shelf: &mut S, name: &str) -> Ending
    ensures end { IsCheckEnd model (S.file shelf.old name.now) (S.faults shelf.old name.now) (S.faults shelf.new name.now) result }
    ensures quiet { IsQuietEnd (S.faults shelf.old) (S.faults shelf.new) result }
    ensures counts { (n : List ℕ) → S.faults shelf.old n ≤ S.faults shelf.new n }
    ensures files { (n : List ℕ) → S.file shelf.new n ≡ S.file shelf.old n }
{
    let bytes = match fetch_file(alloc, shelf, name, Which::Report) {
        Ok(bytes) => bytes,
        Err(ending) => return ending,
    };
    check_report(alloc, model, bytes.as_slice())
}

// Why a script was not read.
fn unread(stop: ScriptStop) -> Ending
    ensures { result ≡ script_ending stop }
{
    match stop {
        ScriptStop::BadLine(line) => Ending::BadScript(line),
        ScriptStop::Memory => Ending::Memory,
    }
}

/// Fetches the script and reads it.
pub(crate) fn fetch_script<S: Shelf>(
    alloc: Global,
    shelf: &mut S,
    name: &str,
) -> Result<Script, Ending>
    ensures read { IfOk result (λ script. IfSome (S.file shelf.old name.now) (λ b. IsCommands b script)) }
    ensures built { IfOk result (All IsCommand) }
    ensures stop { IfErr result (IsScriptEnd (S.file shelf.old name.now) (S.faults shelf.old name.now) (S.faults shelf.new name.now)) }
    ensures quiet { IfErr result (IsQuietEnd (S.faults shelf.old) (S.faults shelf.new)) }
    ensures kept { OnOk result (KeepsCounts (S.faults shelf.old) (S.faults shelf.new)) }
    ensures counts { (n : List ℕ) → S.faults shelf.old n ≤ S.faults shelf.new n }
    ensures files { (n : List ℕ) → S.file shelf.new n ≡ S.file shelf.old n }
{
    let bytes = match fetch_file(alloc, shelf, name, Which::Script) {
        Ok(bytes) => bytes,
        Err(ending) => return Err(ending),
    };
    match read_script(alloc, bytes.as_slice()) {
        Ok(script) => Ok(script),
        Err(stop) => Err(unread(stop)),
    }
}
