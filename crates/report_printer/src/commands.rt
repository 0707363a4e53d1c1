//! The printed text of commands and edits.

ghost use Rattle.std.specs.Prelude.{◌≡◌, ◌++◌, ◌∷◌, [], OnErr, OnOk, decimal};
ghost use Rattle.report_text.specs.Grammar.{◌then◌, method_word, target_word, side_word, limit_word, weight_word, mark_word, edit_words, command_text};
ghost use Rattle.report_printer.specs.Printing.{set_words, Adds};

use crate::words::{append, push_decimal, push_word};
use frac128::Frac;
use lp_model::{Side, Weight};
use report_text::{Command, EditKind, Method, NamedEdit, TargetKind};
use std::alloc::AllocError;

fn method_name(method: Method) -> &'static str
    ensures { result.now ≡ method_word method }
{
    match method {
        Method::Deletion => "deletion",
        Method::Additive => "additive",
        Method::Sensitivity => "sensitivity",
        Method::Elastic => "elastic",
        Method::Alternative => "alternative",
    }
}

// Appends a command that looks for an irreducible set.
fn print_iis(method: Method, into: &mut Vec<u8>) -> Result<(), AllocError>
    ensures { OnOk result (into.new.items ≡ into.old.items ++ command_text (Command.Iis method)) }
{
    push_word(b"iis", into)?;
    into.extend_from_slice(method_name(method).as_bytes())
}

// Appends words, and how many of what they name a budget has.
fn print_budget(what: &[u8], most: u64, into: &mut Vec<u8>) -> Result<(), AllocError>
    ensures { OnOk result (into.new.items ≡ into.old.items ++ (what.now then decimal most)) }
{
    push_word(what, into)?;
    push_decimal(most, into)?;
    Ok(())
}

// The word for what an edit is of.
fn target_name(target: TargetKind) -> &'static str
    ensures { result.now ≡ target_word target }
{
    match target {
        TargetKind::Row => "row",
        TargetKind::RowLo => "rowlo",
        TargetKind::RowUp => "rowup",
        TargetKind::Lower => "lower",
        TargetKind::Upper => "upper",
        TargetKind::Whole => "whole",
    }
}

// The word for a side of a row, or a bound of a column.
fn limit_side(side: Side) -> &'static str
    ensures { result.now ≡ side_word side }
{
    match side {
        Side::Lo => "lower",
        Side::Up => "upper",
    }
}

// The word for the mark that a column is to have.
fn mark_name(whole: bool) -> &'static str
    ensures { result.now ≡ mark_word whole }
{
    if whole { "whole" } else { "plain" }
}

// Appends the number that a side or a bound is set to.
fn print_limit(limit: Option<Frac>, into: &mut Vec<u8>) -> Result<(), AllocError>
    ensures { OnOk result (into.new.items ≡ into.old.items ++ limit_word limit) }
{
    match limit {
        Some(value) => value.print(into),
        None => into.extend_from_slice(b"none"),
    }
}

// Appends a weight.
fn print_weight(weight: Weight, into: &mut Vec<u8>) -> Result<(), AllocError>
    ensures { OnOk result (into.new.items ≡ into.old.items ++ weight_word weight) }
{
    match weight {
        Weight::Soft(value) => value.print(into),
        Weight::Rigid => into.extend_from_slice(b"rigid"),
    }
}

// Appends a word, what an edit is of, and the name of it.
fn print_targeted(
    verb: &[u8],
    target: TargetKind,
    name: &[u8],
    into: &mut Vec<u8>,
) -> Result<(), AllocError>
    ensures { OnOk result (Adds into.old.items (verb.now ∷ target_word target ∷ name.now ∷ []) into.new.items) }
{
    push_word(verb, into)?;
    push_word(target_name(target).as_bytes(), into)?;
    into.extend_from_slice(name)
}

// Appends an edit that weighs.
fn print_weighed(
    target: TargetKind,
    weight: Weight,
    name: &[u8],
    into: &mut Vec<u8>,
) -> Result<(), AllocError>
    ensures { OnOk result (Adds into.old.items (edit_words name.now (EditKind.Weigh target weight)) into.new.items) }
{
    push_word(b"weight", into)?;
    push_word(target_name(target).as_bytes(), into)?;
    push_word(name, into)?;
    print_weight(weight, into)?;
    Ok(())
}

// Appends an edit that sets a side of a row, or a bound of a column, by the word for which of them it is of.
fn print_set(
    place: &[u8],
    side: Side,
    limit: Option<Frac>,
    name: &[u8],
    into: &mut Vec<u8>,
) -> Result<(), AllocError>
    ensures { OnOk result (Adds into.old.items (set_words place.now side limit name.now) into.new.items) }
{
    push_word(b"set", into)?;
    push_word(place, into)?;
    push_word(name, into)?;
    push_word(limit_side(side).as_bytes(), into)?;
    print_limit(limit, into)?;
    Ok(())
}

// Appends an edit that marks.
fn print_mark(whole: bool, name: &[u8], into: &mut Vec<u8>) -> Result<(), AllocError>
    ensures { OnOk result (Adds into.old.items (edit_words name.now (EditKind.SetMark whole)) into.new.items) }
{
    push_word(b"mark", into)?;
    push_word(name, into)?;
    into.extend_from_slice(mark_name(whole).as_bytes())
}

// Appends an edit.
fn print_edit(edit: &NamedEdit, into: &mut Vec<u8>) -> Result<(), AllocError>
    ensures { OnOk result (Adds into.old.items (edit_words edit.now.name edit.now.kind) into.new.items) }
{
    let name = edit.name.bytes();
    match edit.kind {
        EditKind::Drop(target) => print_targeted(b"drop", target, name, into),
        EditKind::Keep(target) => print_targeted(b"keep", target, name, into),
        EditKind::Weigh(target, weight) => print_weighed(target, weight, name, into),
        EditKind::SetSide(side, limit) => print_set(b"row", side, limit, name, into),
        EditKind::SetBound(side, limit) => print_set(b"column", side, limit, name, into),
        EditKind::SetMark(whole) => print_mark(whole, name, into),
    }
}

/// Appends a command.
pub(crate) fn put_command(command: &Command, into: &mut Vec<u8>) -> Result<(), AllocError>
    ensures { OnOk result (into.new.items ≡ into.old.items ++ command_text command.now) }
{
    match command {
        Command::Check => into.extend_from_slice(b"check"),
        Command::Iis(method) => print_iis(*method, into),
        Command::Unbounded => into.extend_from_slice(b"unbounded"),
        Command::Relax => into.extend_from_slice(b"relax"),
        Command::Reduce => into.extend_from_slice(b"reduce"),
        Command::Edit(edit) => print_edit(edit, into),
        Command::Undo => into.extend_from_slice(b"undo"),
        Command::Pivots(most) => print_budget(b"budget pivots", *most, into),
        Command::Nodes(most) => print_budget(b"budget nodes", *most, into),
    }
}

/// Appends a command. Where memory is refused, the bytes are those that were there.
pub fn print_command(command: &Command, into: &mut Vec<u8>) -> Result<(), AllocError>
    ensures text { OnOk result (into.new.items ≡ into.old.items ++ command_text command.now) }
    ensures kept { OnErr result (into.new.items ≡ into.old.items) }
{
    let mut lines = Vec::new(*into.allocator());
    put_command(command, &mut lines)?;
    append(lines.as_slice(), into)
}
