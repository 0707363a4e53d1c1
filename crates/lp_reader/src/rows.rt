//! Rows: their names, their forms and their sides.
ghost use Rattle.std.specs.Prelude.{◌≡◌, ◌+◌, ◌<◌, ◌≤◌, false, Some, None, length, MatchResult, IfOk, OnOk, string_bytes};
ghost use Rattle.std.specs.List.{list_any};
ghost use Rattle.std.specs.Option.{option_map};
ghost use Rattle.std.specs.Str.{bytes_eq};
ghost use Rattle.name_map.specs.Names.{names_of};
ghost use Rattle.lp_model.specs.Shown.{most_rows, longest_name};
ghost use Rattle.lp_statements.specs.Statements.{shown_text, shown_constant};
ghost use Rattle.lp_reader.specs.Numbers.{constant_fault_in, side_of};
ghost use Rattle.lp_reader.specs.Bounds.{said_by};
ghost use Rattle.lp_reader.specs.Names.{row_name as row_name_by};
ghost use Rattle.lp_reader.specs.Faults.{objective_label_fault, label_fault, row_end_fault};
ghost use Rattle.lp_reader.specs.Sides.{lower_side as lower_side_by, upper_side as upper_side_by, ended_row, PutsRow};
ghost use Rattle.text_fields.specs.Faults.{IsFaultOf};

use crate::bounds::Said;
use crate::columns::is_too_long;
use crate::numbers::constant_side;
use frac128::Frac;
use lp_model::{MOST_ROWS, Row, Terms};
use lp_statements::{Constant, Relation, Text};
use name_map::NameMap;
use std::alloc::{AllocError, Global};
use text_fields::{ReadFault, ReadKind};

/// The rows so far.
#[derive(Drop)]
pub(crate) struct Rows {
    pub names: NameMap<()>,
    pub items: Vec<Row>,
}

/// What a constant says of the bound or side that it is; nothing where none is there.
pub(crate) fn said_if(constant: Option<Constant<'_>>) -> Result<Said, ReadFault>
    ensures { MatchResult result
        (λ said. (constant_fault_in (option_map shown_constant constant.entry) ≡ None) × (said ≡ said_by (option_map shown_constant constant.entry)))
        (IsFaultOf (constant_fault_in (option_map shown_constant constant.entry))) }
{
    let Some(constant) = constant else {
        return Ok(Said::Nothing);
    };
    match constant_side(constant) {
        Ok(side) => Ok(Said::of(side)),
        Err(fault) => Err(fault),
    }
}

/// Checks the label of the objective, which is not kept.
#[tactic(auto, unfolding(crate::specs::Faults::objective_label_fault))]
pub(crate) fn check_objective_label(label: Option<Text<'_>>) -> Result<(), ReadFault>
    ensures { MatchResult result (λ _. objective_label_fault (option_map shown_text label.entry) ≡ None) (IsFaultOf (objective_label_fault (option_map shown_text label.entry))) }
{
    let Some(label) = label else {
        return Ok(());
    };
    if is_too_long(label.bytes) {
        return Err(ReadFault::stop_at(label.line, ReadKind::Limit));
    }
    Ok(())
}

/// Checks the label of a row, if it has one.
#[tactic(auto, unfolding(crate::specs::Faults::label_fault))]
pub(crate) fn check_label(rows: &Rows, label: Option<Text<'_>>) -> Result<(), ReadFault>
    ensures { MatchResult result (λ _. label_fault (names_of rows.now.names) (option_map shown_text label.entry) ≡ None) (IsFaultOf (label_fault (names_of rows.now.names) (option_map shown_text label.entry))) }
{
    let Some(label) = label else {
        return Ok(());
    };
    if rows.names.contains(label.bytes) {
        return Err(ReadFault::stop_at(label.line, ReadKind::DuplicateName));
    }
    if rows.names.len() >= MOST_ROWS {
        return Err(ReadFault::stop_at(label.line, ReadKind::Limit));
    }
    if is_too_long(label.bytes) {
        return Err(ReadFault::stop_at(label.line, ReadKind::Limit));
    }
    Ok(())
}

// The lower side of a row by its relation.
fn lower_side(relation: Relation, left: &Said, right: &Option<Frac>) -> Option<Frac>
    ensures { result ≡ lower_side_by relation left.now right.now }
{
    match relation {
        Relation::AtMost => left.after(None),
        Relation::AtLeast => *right,
        Relation::Equal => left.after(*right),
    }
}

// And its upper one.
fn upper_side(relation: Relation, left: &Said, right: &Option<Frac>) -> Option<Frac>
    ensures { result ≡ upper_side_by relation left.now right.now }
{
    match relation {
        Relation::AtMost => *right,
        Relation::AtLeast => left.after(None),
        Relation::Equal => left.after(*right),
    }
}

// A row of this form, whose sides a relation and its constants give.
fn make_row(form: Terms, relation: Relation, left: &Said, right: &Option<Frac>) -> Row
    ensures { result ≡ ended_row form relation left.now right.now }
{
    Row::new(
        form,
        lower_side(relation, left, right),
        upper_side(relation, left, right),
    )
}

// Puts a new row last.
fn put_row(alloc: Global, rows: &mut Rows, name: &[u8], row: Row) -> Result<(), AllocError>
    requires fresh { list_any (bytes_eq name.now) (names_of rows.old.names) ≡ false }
    requires room { length (names_of rows.old.names) < most_rows }
    requires short { length name.now ≤ longest_name }
    ensures { OnOk result (PutsRow rows.old rows.new name.now row) }
{
    rows.names.push(alloc, name, ())?;
    rows.items.push(row)?;
    Ok(())
}

// The name of the n-th row, where it has no label.
fn generated_name(alloc: Global, n: usize) -> Result<String, AllocError>
    ensures { IfOk result (λ name. string_bytes name ≡ row_name_by n None) }
{
    let name = format!(in alloc; "c{n}")?;
    Ok(name)
}

// Ends a row with a label.
fn end_labelled(
    alloc: Global,
    rows: &mut Rows,
    label: Text<'_>,
    form: Terms,
    relation: Relation,
    left: &Said,
    right: Constant<'_>,
) -> Result<(), ReadFault>
    requires { label_fault (names_of rows.old.names) (Some (shown_text label)) ≡ None }
    ensures { MatchResult result
        (λ _. (row_end_fault (names_of rows.old.names) (Some (shown_text label.entry)) (shown_constant right.entry) ≡ None) × PutsRow rows.old rows.new label.entry.bytes.now (ended_row form relation left.now (side_of (shown_constant right.entry))))
        (IsFaultOf (row_end_fault (names_of rows.old.names) (Some (shown_text label.entry)) (shown_constant right.entry))) }
{
    let side = constant_side(right)?;
    put_row(
        alloc,
        rows,
        label.bytes,
        make_row(form, relation, left, &side),
    )?;
    Ok(())
}

// Ends a row without a label: its name is generated at its last token.
fn end_unnamed(
    alloc: Global,
    rows: &mut Rows,
    form: Terms,
    relation: Relation,
    left: &Said,
    right: Constant<'_>,
) -> Result<(), ReadFault>
    requires { length (names_of rows.old.names) ≤ most_rows }
    ensures { MatchResult result
        (λ _. (row_end_fault (names_of rows.old.names) None (shown_constant right.entry) ≡ None) × PutsRow rows.old rows.new (row_name_by (length (names_of rows.old.names) + 1) None) (ended_row form relation left.now (side_of (shown_constant right.entry))))
        (IsFaultOf (row_end_fault (names_of rows.old.names) None (shown_constant right.entry))) }
{
    let name = generated_name(alloc, rows.names.len() + 1)?;
    if rows.names.contains(name.as_bytes()) {
        return Err(ReadFault::stop_at(right.text.line, ReadKind::DuplicateName));
    }
    let side = constant_side(right)?;
    if rows.names.len() >= MOST_ROWS {
        return Err(ReadFault::stop_at(right.text.line, ReadKind::Limit));
    }
    put_row(
        alloc,
        rows,
        name.as_bytes(),
        make_row(form, relation, left, &side),
    )?;
    Ok(())
}

/// Ends a row, whose label was checked, if it has one.
pub(crate) fn end_row(
    alloc: Global,
    rows: &mut Rows,
    label: Option<Text<'_>>,
    form: Terms,
    relation: Relation,
    left: &Said,
    right: Constant<'_>,
) -> Result<(), ReadFault>
    requires few { length (names_of rows.old.names) ≤ most_rows }
    requires checked { label_fault (names_of rows.old.names) (option_map shown_text label) ≡ None }
    ensures { MatchResult result
        (λ _. (row_end_fault (names_of rows.old.names) (option_map shown_text label.entry) (shown_constant right.entry) ≡ None)
        × PutsRow rows.old rows.new (row_name_by (length (names_of rows.old.names) + 1) (option_map shown_text label.entry)) (ended_row form relation left.now (side_of (shown_constant right.entry))))
        (IsFaultOf (row_end_fault (names_of rows.old.names) (option_map shown_text label.entry) (shown_constant right.entry))) }
{
    match label {
        Some(label) => end_labelled(alloc, rows, label, form, relation, left, right),
        None => end_unnamed(alloc, rows, form, relation, left, right),
    }
}
