//! The program that a reader's tables declare.
ghost use Rattle.std.specs.Prelude.{◌≡◌, ◌≢◌, ℕ, ◌<◌, ◌+◌, ◌++◌, ◌∷◌, [], List, IfOk, OnOk, IfSome, cond, false, length, slice_index_or};
ghost use Rattle.std.specs.Option.{option_map_or};
ghost use Rattle.lp_model.specs.Shown.{named_column};
ghost use Rattle.name_map.specs.Names.{name_at};
ghost use Rattle.mps_lines.specs.Steps.{Step};
ghost use Rattle.mps_reader.specs.Meaning.{program_of};
ghost use Rattle.mps_reader.specs.Tables.{is_free};
ghost use Rattle.mps_reader.specs.Held.{Holds, kind_held, column_names_held};
ghost use Rattle.mps_reader.specs.Gathered.{terms_shown};
ghost use Rattle.mps_reader.specs.Built.{AreTermsFrom, IsRead, IsSound, HasSides, upper_held, is_negative_bound, is_removed_held, lower_held, whole_held, column_held, columns_to, terms_held, sides_held, rows_to, program_held};

use crate::numbers::is_less;
use crate::sides::{Sides, right_at, sides_of, sides_with};
use crate::tables::{Reader, is_free_kind, kind_at, names_differ};
use crate::terms::terms_by_row;
use frac128::Frac;
use lp_model::{Column, Model, ModelStop, Note, Row, Term, Terms};
use std::alloc::{AllocError, Global};
use std::mem;

// The upper bound of a column.
fn upper_at(reader: &Reader, column: usize) -> Option<Frac>
    ensures { result ≡ upper_held reader.now column }
{
    match reader.uppers.get(&column) {
        Some(upper) => *upper,
        None => None,
    }
}

// Whether a bound is negative.
fn is_negative(bound: Option<Frac>) -> bool
    ensures { result ≡ is_negative_bound bound }
{
    match bound {
        Some(value) => is_less(value, Frac::whole(0)),
        None => false,
    }
}

// Whether the lower bound 0 of a column is removed: no line sets it, and the upper bound is negative.
fn is_removed_at(reader: &Reader, column: usize) -> bool
    ensures { result ≡ is_removed_held reader.now column }
{
    !reader.lowers.contains_key(&column) && is_negative(upper_at(reader, column))
}

// The lower bound of a column: as a line sets it, or else 0, or none below a negative upper bound.
fn lower_at(reader: &Reader, column: usize) -> Option<Frac>
    ensures { result ≡ lower_held reader.now column }
{
    if let Some(lower) = reader.lowers.get(&column) {
        return *lower;
    }
    if is_negative(upper_at(reader, column)) {
        return None;
    }
    Some(Frac::whole(0))
}

// Whether a column is whole.
fn is_whole_at(reader: &Reader, column: usize) -> bool
    requires { column < length reader.now.columns }
    ensures { result ≡ whole_held reader.now column }
{
    *reader.columns.value(column) || reader.wholes.contains_key(&column)
}

// A column of the program.
fn make_column(reader: &Reader, column: usize) -> Column
    requires { column < length reader.now.columns }
    ensures { named_column (name_at (column_names_held reader.now) column) result ≡ column_held reader.now column }
{
    Column::new(
        lower_at(reader, column),
        upper_at(reader, column),
        is_whole_at(reader, column),
    )
}

// Puts a note that the lower bound of a column is removed, if it is.
fn put_note(model: &mut Model, is_removed: bool, column: u32) -> Result<(), AllocError>
    requires { column < length model.old.columns }
    ensures { OnOk result (model.new ≡ record model.old { notes = model.old.notes ++ cond is_removed (Note.LowerRemoved column ∷ []) [] }) }
{
    if is_removed {
        model.add_note(Note::LowerRemoved(column))?;
    }
    Ok(())
}

// Why a part that may be added is refused: for want of memory alone.
fn want(stop: ModelStop) -> AllocError
    requires { stop ≡ ModelStop.Memory }
{
    match stop {
        ModelStop::Memory => AllocError,
        _ => unreachable!(),
    }
}

// Puts the next column last, and its note.
fn put_column(
    alloc: Global,
    model: &mut Model,
    reader: &Reader,
    index: usize,
) -> Result<(), AllocError>
    requires within { index < length reader.now.columns }
    requires before { model.old ≡ columns_to reader.now index }
    requires sound { IsSound reader.now }
    ensures { OnOk result (model.new ≡ columns_to reader.now (index + 1)) }
{
    let column = make_column(reader, index);
    let place = match model.add_column(alloc, reader.columns.name(index), column) {
        Ok(place) => place,
        Err(stop) => return Err(want(stop)),
    };
    put_note(model, is_removed_at(reader, index), place)?;
    Ok(())
}

// The sides of the row at a place, which is not free.
fn sides_at(reader: &Reader, row: usize) -> Sides
    requires within { row < length reader.now.rows }
    requires kept { is_free (kind_held reader.now row) ≡ false }
    requires fits { HasSides reader.now row }
    ensures { (result.lower, result.upper) ≡ sides_held reader.now row }
{
    let kind = kind_at(reader, row);
    let right = right_at(reader, row);
    let Some(range) = reader.ranges.get(&row) else {
        return sides_of(kind, right);
    };
    match sides_with(kind, right, range) {
        Some(sides) => sides,
        None => unreachable!(),
    }
}

// Puts the next row last, unless it is free.
fn put_row(
    alloc: Global,
    model: &mut Model,
    reader: &Reader,
    index: usize,
    terms: Vec<Term>,
) -> Result<(), AllocError>
    requires within { index < length reader.now.rows }
    requires terms { terms.items ≡ terms_held reader.now index }
    requires before { model.old ≡ rows_to reader.now index }
    requires sound { IsSound reader.now }
    ensures { OnOk result (model.new ≡ rows_to reader.now (index + 1)) }
{
    if is_free_kind(kind_at(reader, index)) {
        return Ok(());
    }
    let sides = sides_at(reader, index);
    let row = Row::new(Terms::new(terms), sides.lower, sides.upper);
    match model.add_row(alloc, reader.rows.name(index), row) {
        Ok(_) => Ok(()),
        Err(stop) => Err(want(stop)),
    }
}

// The objective: the terms of the first free row.
fn objective_terms(
    alloc: Global,
    objective: Option<usize>,
    terms: &[Vec<Term>],
) -> Result<Terms, AllocError>
    requires { IfSome objective (λ row. row < length terms.now) }
    ensures { IfOk result (λ form. form ≡ option_map_or (λ row. slice_index_or (terms_shown terms.now) row []) objective []) }
{
    match objective {
        Some(row) => Ok(Terms::new(Vec::from_slice(alloc, terms[row].as_slice())?)),
        None => Ok(Terms::new(Vec::new(alloc))),
    }
}

// Puts the objective.
fn put_objective(
    alloc: Global,
    model: &mut Model,
    reader: &Reader,
    terms: &[Vec<Term>],
) -> Result<(), AllocError>
    requires len { length terms.now ≡ length reader.now.rows }
    requires terms { AreTermsFrom reader.now 0 (terms_shown terms.now) }
    requires before { model.old ≡ columns_to reader.now (length reader.now.columns) }
    requires sound { IsSound reader.now }
    ensures { OnOk result (model.new ≡ rows_to reader.now 0) }
{
    let form = objective_terms(alloc, reader.objective, terms)?;
    model.set_objective(form, reader.sense.unwrap_or(false));
    Ok(())
}

// Takes the terms at a place out, and leaves none there.
fn taken(alloc: Global, lists: &mut Vec<Vec<Term>>, place: usize) -> Vec<Term>
    requires { place < length lists.old.items }
    ensures taken { result.items ≡ slice_index_or (terms_shown lists.old.items) place [] }
    ensures len { length lists.new.items ≡ length lists.old.items }
    ensures others { (i : ℕ) → i ≢ place → slice_index_or (terms_shown lists.new.items) i [] ≡ slice_index_or (terms_shown lists.old.items) i [] }
{
    mem::replace(&mut lists[place], Vec::new(alloc))
}

// Puts all columns.
fn put_columns(alloc: Global, model: &mut Model, reader: &Reader) -> Result<(), AllocError>
    requires before { model.old ≡ columns_to reader.now 0 }
    requires sound { IsSound reader.now }
    ensures { OnOk result (model.new ≡ columns_to reader.now (length reader.now.columns)) }
{
    for index in 0..reader.columns.len() {
        put_column(alloc, model, reader, index)?;
    }
    Ok(())
}

// Puts all rows that are not free.
fn put_rows(
    alloc: Global,
    model: &mut Model,
    reader: &Reader,
    mut terms: Vec<Vec<Term>>,
) -> Result<(), AllocError>
    requires len { length terms.items ≡ length reader.now.rows }
    requires terms { AreTermsFrom reader.now 0 (terms_shown terms.items) }
    requires before { model.old ≡ rows_to reader.now 0 }
    requires sound { IsSound reader.now }
    ensures { OnOk result (model.new ≡ rows_to reader.now (length reader.now.rows)) }
{
    for index in 0..reader.rows.len() {
        put_row(alloc, model, reader, index, taken(alloc, &mut terms, index))?;
    }
    Ok(())
}

// Puts all columns, the objective and all rows.
fn put_all(alloc: Global, model: &mut Model, reader: &Reader) -> Result<(), AllocError>
    requires before { model.old ≡ columns_to reader.now 0 }
    requires sound { IsSound reader.now }
    ensures { OnOk result (model.new ≡ program_held reader.now) }
{
    put_columns(alloc, model, reader)?;
    let rows = reader.rows.len();
    let columns = reader.columns.len();
    let terms = terms_by_row(alloc, rows, columns, &reader.entries)?;
    put_objective(alloc, model, reader, terms.as_slice())?;
    put_rows(alloc, model, reader, terms)
}

/// The program that the steps declare which the tables keep.
pub fn make_program(alloc: Global, reader: &Reader) -> Result<Model, AllocError>
    requires { IsRead reader.now }
    ensures { IfOk result (λ model. (steps : List Step) → Holds reader.now steps → model ≡ program_of steps) }
{
    names_differ(&reader.rows);
    names_differ(&reader.columns);
    let mut model = Model::new(alloc, reader.sense.unwrap_or(false));
    put_all(alloc, &mut model, reader)?;
    Ok(model)
}
