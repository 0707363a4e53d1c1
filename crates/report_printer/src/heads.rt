//! What stands before the entries of a report, and behind them.

ghost use Rattle.std.specs.Prelude.{◌≡◌, ◌++◌, ◌∷◌, [], ◌<◌, OnErr, OnOk, length};
ghost use Rattle.lp_model.specs.Program.{Program, noted_column};
ghost use Rattle.report_text.specs.Grammar.{phrase_line, phrases_text};
ghost use Rattle.report_printer.specs.Evidence.{ended};
ghost use Rattle.report_printer.specs.Printing.{PartsLaw, head_phrases};

use crate::lines::print_phrase;
use crate::words::{append, push_line};
use lp_model::{Model, Note};
use report_text::Phrase;
use std::alloc::AllocError;

// Appends the line of a note.
fn print_note(model: &Model, note: Note, into: &mut Vec<u8>) -> Result<(), AllocError>
    requires { noted_column note < length model.now.columns }
    ensures { OnOk result (into.new.items ≡ into.old.items ++ ended (phrase_line model.now (Phrase.Note note))) }
{
    print_phrase(model, Phrase::Note(note), into)?;
    Ok(())
}

// Appends the lines of a report that stand before its entries.
fn put_head(model: &Model, into: &mut Vec<u8>) -> Result<(), AllocError>
    ensures { OnOk result (into.new.items ≡ into.old.items ++ phrases_text model.now (head_phrases model.now.notes)) }
{
    // That the notes name columns that there are is told with the count.
    let _rows = model.row_count();
    push_line(b"iisan report 2", into)?;
    for note in model.notes() {
        print_note(model, *note, into)?;
    }
    Ok(())
}

/// Appends the lines of a report that stand before its entries: the notes are those of the program's reader. Where memory
/// is refused, the bytes are those that were there.
pub fn print_head(model: &Model, into: &mut Vec<u8>) -> Result<(), AllocError>
    ensures text { OnOk result (into.new.items ≡ into.old.items ++ phrases_text model.now (head_phrases model.now.notes)) }
    ensures kept { OnErr result (into.new.items ≡ into.old.items) }
{
    let mut lines = Vec::new(*into.allocator());
    put_head(model, &mut lines)?;
    append(lines.as_slice(), into)
}

/// Appends the last line of a report. Where memory is refused, the bytes are those that were there.
pub fn print_foot(into: &mut Vec<u8>) -> Result<(), AllocError>
    ensures text { (model : Program) → OnOk result (into.new.items ≡ into.old.items ++ phrases_text model (Phrase.Foot ∷ [])) }
    ensures kept { OnErr result (into.new.items ≡ into.old.items) }
{
    into.extend_from_slice(b"report end\n")
}

/// The text of a report is its head, its entries and its foot.
pub fn report_has_parts()
    ensures { PartsLaw }
{}
