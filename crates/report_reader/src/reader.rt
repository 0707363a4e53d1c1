//! The reader of reports.
ghost use Rattle.std.specs.Prelude.{◌≡◌, ◌<◌, [], length, Ok, IfOk, IfErr, OnOk, OnErr};
ghost use Rattle.report_text.specs.declared.phrases.Phrase.{Phrase as OnePhrase};
ghost use Rattle.report_text.specs.declared.report.Report.{Report};
ghost use Rattle.report_text.specs.Form.{IsCommand, AreNumbered};
ghost use Rattle.report_reader.specs.Reading.{Reads, IsReportStop};
ghost use Rattle.report_reader.specs.Kinds.{IsCursor, IsRead};
ghost use Rattle.report_reader.specs.Entries.{entries as entries_of, end_of, IsTaken, StaysOn};

use crate::answers::read_answer;
use crate::cursor::{Cursor, Word};
use crate::lists::read_notes;
use report_text::{Command, CommandSession, Entries, Entry, Notes, Phrase, Report};
use std::alloc::{AllocError, Global};
use thiserror::Error;

/// Why a text was not read as a report.
///
/// `BadLine` has the number of the first whole line with which no report goes on. `Truncated` comes where every whole
/// line is right and the bytes end before the report does. `Memory` comes where memory was refused.
#[derive(Clone, Copy, Debug, Error)]
pub enum ReportStop {
    #[error("bad line {0}")]
    BadLine(u32),
    #[error("truncated")]
    Truncated,
    #[error("want of memory")]
    Memory,
}

// Makes an edit or an undo, where the command is one. What is answered to it is not looked at.
fn replay(session: &mut CommandSession, command: &Command) -> Result<(), AllocError>
    requires { IsCommand command.now }
    ensures taken { OnOk result (IsTaken session.old command.now session.new) }
    ensures unchanged { OnErr result (session.new ≡ session.old) }
{
    session.take(command)?;
    Ok(())
}

// The entries of a report. The session takes their commands.
fn read_entries(alloc: Global, cursor: &mut Cursor<'_>, session: &mut CommandSession) -> Entries
    requires fresh { session.old.formers ≡ [] }
    requires stands { IsCursor session.old.model cursor.old }
    ensures read { IsRead session.old.model (entries_of session.old.model) cursor.old cursor.new result }
    ensures numbered { AreNumbered session.old.model [] cursor.old.number result }
    ensures looked { IsCursor session.old.model cursor.new }
    ensures stays { StaysOn session.old session.new }
{
    let mut entries = Vec::new(alloc);
    loop {
        let line = cursor.number;
        let Some(command) = cursor.take_command(alloc, session.model()) else {
            return Entries::new(entries);
        };
        let answer = read_answer(alloc, session.model(), &command, cursor);
        if replay(session, &command).is_err() {
            cursor.give_up();
            return Entries::new(entries);
        }
        let entry = Entry {
            command,
            answer,
            line,
        };
        cursor.push(&mut entries, entry);
    }
}

// What the lines have come to: the report, where the last line says that it ends and nothing is behind it.
fn end(cursor: Cursor<'_>, report: Report) -> Result<Report, ReportStop>
    requires { (p : OnePhrase) → cursor.ahead ≡ Ok p → cursor.number < 4294967295 }
    ensures { result ≡ end_of cursor.entry.number cursor.entry.ahead cursor.entry.rest.now report }
{
    match cursor.ahead {
        Ok(Phrase::Foot) => {
            if cursor.rest.is_empty() {
                Ok(report)
            } else {
                Err(ReportStop::BadLine(cursor.number + 1))
            }
        }
        Ok(_) => Err(ReportStop::BadLine(cursor.number)),
        Err(stop) => Err(stop),
    }
}

// Reads the lines of a report, and makes the edits and undos of its commands.
fn read_lines(
    alloc: Global,
    bytes: &[u8],
    session: &mut CommandSession,
) -> Result<Report, ReportStop>
    requires short { length bytes.now < 2147483648 }
    requires fresh { session.old.formers ≡ [] }
    ensures read { IfOk result (Reads session.old.model bytes.now) }
    ensures one { IfOk result (λ report.
        (other : Report) → Reads session.old.model bytes.now other → other ≡ report) }
    ensures stop { IfErr result (IsReportStop session.old.model bytes.now) }
    ensures stays { StaysOn session.old session.new }
{
    let mut cursor = Cursor::new(alloc, session.model(), bytes);
    cursor.pass_word(alloc, session.model(), Word::Head);
    let notes = read_notes(alloc, session.model(), &mut cursor);
    let entries = read_entries(alloc, &mut cursor, session);
    end(cursor, Report { notes, entries })
}

/// Reads a report on the program of a session in which nothing was edited yet.
///
/// Each line is looked at once, in order, and what is read of it is kept: notes and entries with the numbers of their
/// lines. Names are those of the program. The edits and undos of the report's commands are made while it is read, so that
/// the sets of sites are those of the program as it is edited where they stand. What is made follows from the commands
/// alone: the answers that are printed to edits and undos are not looked at. At the end, and at a stop, all of it is taken
/// back.
///
/// `BadLine` has the number, from 1, of the first whole line with which no report on the program goes on; a byte
/// behind a whole report counts as such a line, whether or not a byte 10 follows it. `Truncated` comes where every
/// whole line is right and the bytes end before the report does. `Memory` comes where memory was refused.
///
/// There are to be fewer than 2^31 bytes.
pub fn read_report(
    alloc: Global,
    bytes: &[u8],
    session: &mut CommandSession,
) -> Result<Report, ReportStop>
    requires short { length bytes.now < 2147483648 }
    requires fresh { session.old.formers ≡ [] }
    // The bytes are the report's.
    ensures read { IfOk result (Reads session.old.model bytes.now) }
    // They are those of no other report.
    ensures one { IfOk result (λ report.
        (other : Report) → Reads session.old.model bytes.now other → other ≡ report) }
    // A stop comes where it is to.
    ensures stop { IfErr result (IsReportStop session.old.model bytes.now) }
    // The session is as it was.
    ensures back { session.new ≡ session.old }
{
    let read = read_lines(alloc, bytes, session);
    session.rewind();
    read
}
