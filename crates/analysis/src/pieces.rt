//! The pieces of an analysis: the head with the notes, an entry for each command, the foot.
ghost use Rattle.std.specs.Prelude.{◌≡◌, ◌<◌, ◌^◌, ◌||◌, [], ◌∷◌, ◌++◌, All, IfOk, List, cond, false};
ghost use Rattle.lp_model.specs.Program.{Program};
ghost use Rattle.report_text.specs.declared.report.Command.{Command};
ghost use Rattle.analysis.specs.declared.pieces.Want.TheVariants.{Memory};
ghost use Rattle.report_text.specs.Form.{IsCommand};
ghost use Rattle.analysis.specs.Answers.{settings_of};
ghost use Rattle.report_text.specs.Session.{session_at};
ghost use Rattle.analysis.specs.Right.{settings_in_force};
ghost use Rattle.analysis.specs.Pieces.{EntriesPut, EntryPut, ReportPut, TextPut};
ghost use Rattle.analysis.specs.Written.{IsAnalysis, head_text, foot_text, is_unmet as is_unmet_answer};

use crate::answering::{Settings, after, answer, first_settings};
use iis_edge::{PutFault, Sink};
use lp_model::Model;
use quick_answers::Kept;
use report_printer::{print_entry, print_foot, print_head};
use report_text::{Answer, Command, CommandSession, Script};
use std::alloc::{AllocError, Global};

/// Why a piece was not put whole: for want of memory nothing of it was, or the put failed.
#[derive(Clone, Copy, PartialEq, Eq)]
pub enum Want {
    Memory,
    Fault,
}

impl From<AllocError> for Want {
    ghost from_gives = { λ _ want. want ≡ Memory };

    fn from(_error: AllocError) -> Want {
        Want::Memory
    }
}

/// Answers the commands of a script in order, each of the program as those before it edited it, and puts the report of the
/// answers piece by piece: the head with the program's notes, an entry for each command, and the foot. Gives the status:
///
/// - 0 or 1: all is put; 1 where some answer is a stop, or says that an edit or an undo is refused, or that the program is not linear.
/// - 4: a put failed; a front of the report is put.
/// - 7: want of memory; the head and the entries of the first commands are put, or nothing.
///
/// What is put whole is a report in the grammar, where all names of the program are words.
pub fn analyse<W: Sink>(alloc: Global, model: Model, script: &Script, out: &mut W) -> u8
    requires built { All IsCommand script.now }
    ensures { IsAnalysis W.faults W.taken out.old out.new model script.now result }
{
    // That the program is well formed is told with the count.
    let _rows = model.row_count();
    let mut session = CommandSession::new(alloc, model);
    match put_report(alloc, &mut session, script.commands.as_slice(), out) {
        Ok(unmet) => status(unmet),
        Err(Want::Fault) => 4,
        Err(Want::Memory) => 7,
    }
}

// The status of a report that is put whole.
fn status(unmet: bool) -> u8
    ensures { result ≡ cond unmet 1 0 }
{
    if unmet { 1 } else { 0 }
}

// Puts the head, the entries and the foot, and tells whether some command was not done. Nothing was edited yet.
fn put_report<W: Sink>(
    alloc: Global,
    session: &mut CommandSession,
    commands: &[Command],
    out: &mut W,
) -> Result<bool, Want>
    requires built { All IsCommand commands.now }
    requires fresh { session.old.formers ≡ [] }
    ensures { ReportPut W.faults W.taken out.old out.new session.old.model commands.now result }
{
    put_head(alloc, session.model(), out)?;
    let unmet = put_entries(alloc, session, commands, out)?;
    put_foot(alloc, out)?;
    Ok(unmet)
}

// Puts the head and the notes.
fn put_head<W: Sink>(alloc: Global, model: &Model, out: &mut W) -> Result<(), Want>
    ensures { TextPut W.faults W.taken out.old out.new (head_text model.now) result }
{
    let mut text = Vec::new(alloc);
    print_head(model, &mut text)?;
    put(out, text.as_slice())
}

// Puts the last line.
fn put_foot<W: Sink>(alloc: Global, out: &mut W) -> Result<(), Want>
    ensures { TextPut W.faults W.taken out.old out.new foot_text result }
{
    let mut text = Vec::new(alloc);
    print_foot(&mut text)?;
    put(out, text.as_slice())
}

// Puts a piece.
fn put<W: Sink>(out: &mut W, piece: &[u8]) -> Result<(), Want>
    ensures { TextPut W.faults W.taken out.old out.new piece.now result }
{
    match out.put(piece) {
        Ok(()) => Ok(()),
        Err(PutFault) => Err(Want::Fault),
    }
}

// Puts the entries of the commands, and tells whether some command was not done. Nothing was edited yet.
fn put_entries<W: Sink>(
    alloc: Global,
    session: &mut CommandSession,
    commands: &[Command],
    out: &mut W,
) -> Result<bool, Want>
    requires built { All IsCommand commands.now }
    requires fresh { session.old.formers ≡ [] }
    ensures { EntriesPut W.faults W.taken out.old out.new session.old.model commands.now result }
{
    let mut settings = first_settings();
    let mut kept = Kept::new();
    let mut some_unmet = false;
    for command in commands {
        let unmet = put_entry(alloc, session, settings, command, &mut kept, out)?;
        some_unmet = is_either(some_unmet, unmet);
        settings = after(settings, command);
    }
    Ok(some_unmet)
}

// Whether one of the two is so.
fn is_either(first: bool, second: bool) -> bool
    ensures { result ≡ (first || second) }
{
    first || second
}

// Puts the entry of a command, which is done to the program where it edits it, and tells whether it was not done.
fn put_entry<W: Sink>(
    alloc: Global,
    session: &mut CommandSession,
    settings: Settings,
    command: &Command,
    kept: &mut Kept,
    out: &mut W,
) -> Result<bool, Want>
    requires built { IsCommand command.now }
    requires few { settings.budgets.pivots < 2 ^ 63 }
    ensures put { (first : Program) (before : List Command) → session.old ≡ session_at first before
        → settings_of settings ≡ settings_in_force before
        → EntryPut W.faults W.taken out.old out.new first before command.now result }
    ensures goes_on { (first : Program) (before : List Command) → session.old ≡ session_at first before
        → IfOk result (λ unmet. session.new ≡ session_at first (before ++ command.now ∷ [])) }
{
    let answer = answer(alloc, session, settings, command, kept)?;
    let mut text = Vec::new(alloc);
    print_entry(session.model(), command, &answer, &mut text)?;
    put(out, text.as_slice())?;
    Ok(is_unmet(&answer))
}

// Whether an answer says that its command was not done.
fn is_unmet(answer: &Answer) -> bool
    ensures { result ≡ is_unmet_answer answer.now }
{
    matches!(
        answer,
        Answer::Stopped(_) | Answer::Refused(_) | Answer::NotLinear(_)
    )
}
