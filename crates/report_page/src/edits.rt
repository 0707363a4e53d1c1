//! Edits: what each asks for, and why one is refused.
ghost use Rattle.std.specs.Prelude.{OnOk};
ghost use Rattle.report_page.specs.Pieces.{IsClosed, IsMarkedUp};

use crate::pieces::Piece::{Fixed, Number, Text};
use crate::pieces::{write, write_fixed};
use frac128::Frac;
use lp_model::{Side, Weight};
use report_text::{EditKind, NamedEdit, Refusal, TargetKind};
use std::alloc::AllocError;

// What is done.
fn done(kind: EditKind) -> &'static str
    ensures { IsClosed result.now }
{
    match kind {
        EditKind::Drop(_) => "Drop the ",
        EditKind::Keep(_) => "Keep the ",
        EditKind::Weigh(_, _) => "Weigh the ",
        EditKind::SetSide(_, _) | EditKind::SetBound(_, _) => "Set the ",
        EditKind::SetMark(_) => "Mark ",
    }
}

// What the page calls a side of a row.
fn side_title(side: Side) -> &'static str
    ensures { IsClosed result.now }
{
    match side {
        Side::Lo => "lower side of row ",
        Side::Up => "upper side of row ",
    }
}

// What it calls a bound of a column.
fn bound_title(side: Side) -> &'static str
    ensures { IsClosed result.now }
{
    match side {
        Side::Lo => "least value of ",
        Side::Up => "greatest value of ",
    }
}

// What it calls a target.
fn target_title(target: TargetKind) -> &'static str
    ensures { IsClosed result.now }
{
    match target {
        TargetKind::Row => "row ",
        TargetKind::RowLo => side_title(Side::Lo),
        TargetKind::RowUp => side_title(Side::Up),
        TargetKind::Lower => bound_title(Side::Lo),
        TargetKind::Upper => bound_title(Side::Up),
        TargetKind::Whole => "whole values of ",
    }
}

// What it calls that of which an edit is.
fn edited_title(kind: EditKind) -> &'static str
    ensures { IsClosed result.now }
{
    match kind {
        EditKind::Drop(target) | EditKind::Keep(target) | EditKind::Weigh(target, _) => {
            target_title(target)
        }
        EditKind::SetSide(side, _) => side_title(side),
        EditKind::SetBound(side, _) => bound_title(side),
        EditKind::SetMark(_) => "",
    }
}

// Writes what a number is set to, or a weight, or words where there is to be none.
fn write_number(
    number: Option<Frac>,
    none: &'static str,
    into: &mut Vec<u8>,
) -> Result<(), AllocError>
    requires { IsClosed none.now }
    ensures { OnOk result (IsMarkedUp into.old.items into.new.items) }
{
    match number {
        Some(number) => write(&[Fixed(": "), Number(number)], into),
        None => write_fixed(none, into),
    }
}

// A weight that is given, where it is not rigid.
fn soft_weight(weight: Weight) -> Option<Frac> {
    match weight {
        Weight::Soft(number) => Some(number),
        Weight::Rigid => None,
    }
}

// Whether a column is to be whole.
fn mark_wanted(whole: bool) -> &'static str
    ensures { IsClosed result.now }
{
    if whole { ": whole" } else { ": plain" }
}

// Writes what an edit makes something, where it does.
fn write_wanted(kind: EditKind, into: &mut Vec<u8>) -> Result<(), AllocError>
    ensures { OnOk result (IsMarkedUp into.old.items into.new.items) }
{
    match kind {
        EditKind::Drop(_) | EditKind::Keep(_) => Ok(()),
        EditKind::Weigh(_, weight) => write_number(soft_weight(weight), ": rigid", into),
        EditKind::SetSide(_, limit) | EditKind::SetBound(_, limit) => {
            write_number(limit, ": none", into)
        }
        EditKind::SetMark(whole) => write_fixed(mark_wanted(whole), into),
    }
}

/// Writes what an edit asks for.
pub(crate) fn write_edit(edit: &NamedEdit, into: &mut Vec<u8>) -> Result<(), AllocError>
    ensures { OnOk result (IsMarkedUp into.old.items into.new.items) }
{
    write_fixed(done(edit.kind), into)?;
    write_fixed(edited_title(edit.kind), into)?;
    write(&[Text(edit.name.bytes())], into)?;
    write_wanted(edit.kind, into)
}

/// Writes why an edit is refused, or an undo.
pub(crate) fn write_refused(reason: Refusal, into: &mut Vec<u8>) -> Result<(), AllocError>
    ensures { OnOk result (IsMarkedUp into.old.items into.new.items) }
{
    match reason {
        Refusal::UnknownName => write_fixed("<p>The model has no such name.</p>\n", into),
        Refusal::NoChange => write_fixed("<p>The model would stay as it is.</p>\n", into),
        Refusal::NothingToUndo => { write_fixed("<p>There is no edit to take back.</p>\n", into) }
    }
}
