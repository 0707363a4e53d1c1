//! The model that a reader's tables declare.
ghost use Rattle.std.specs.Prelude.{◌≡◌, ℕ, ◌<◌, ◌≤◌, ◌^◌, List, [], ◌++◌, length, IfOk, OnOk, slice_index_or};
ghost use Rattle.std.specs.List.{All};
ghost use Rattle.rational.specs.Rational.{lt_q, zero_ℚ};
ghost use Rattle.name_map.specs.Names.{names_of, name_at};
ghost use Rattle.lp_model.specs.Program.{IsWellFormedRow};
ghost use Rattle.lp_model.specs.Shown.{named_row, with_more_row, with_more_column, most_rows, most_columns, longest_name, row_names, column_names, empty_program, CanAdd};
ghost use Rattle.lp_statements.specs.Statements.{Statement as StatementOf};
ghost use Rattle.lp_reader.specs.Program.{program_of, is_negative};
ghost use Rattle.lp_reader.specs.State.{plain};
ghost use Rattle.lp_reader.specs.Held.{Holds};
ghost use Rattle.lp_reader.specs.Building.{column_shown, keeps_lower_in, no_row, columns_listed, rows_listed, note_of, notes_listed};

use crate::columns::{Bounds, Columns};
use crate::reader::Reader;
use frac128::Frac;
use lp_model::{Column, Model, ModelStop, Note, Row, Terms};
use name_map::NameMap;
use std::alloc::{AllocError, Global};
use std::mem;

// Want of memory: what fits is refused for nothing else.
fn memory_alone(stop: ModelStop) -> AllocError
    requires { stop ≡ ModelStop.Memory }
{
    match stop {
        ModelStop::Memory => AllocError,
        _ => unreachable!(),
    }
}

// Puts the next column last.
fn put_column(
    alloc: Global,
    model: &mut Model,
    columns: &Columns,
    index: usize,
) -> Result<(), AllocError>
    requires named { index < length columns.now.names }
    requires bounded { index < length columns.now.bounds.items }
    requires fits { CanAdd (column_names model.old) most_columns (name_at (names_of columns.now.names) index) }
    ensures { OnOk result (model.new ≡ with_more_column model.old (column_shown (name_at (names_of columns.now.names) index) (slice_index_or columns.now.bounds.items index plain))) }
{
    let bounds = bounds_at(columns, index);
    let column = Column::new(bounds.lo, bounds.up, bounds.whole);
    match model.add_column(alloc, columns.names.name(index), column) {
        Ok(_) => Ok(()),
        Err(stop) => Err(memory_alone(stop)),
    }
}

// Puts a row last.
fn put_row(alloc: Global, model: &mut Model, name: &[u8], row: Row) -> Result<(), AllocError>
    requires formed { IsWellFormedRow (length model.old.columns) (named_row name.now row) }
    requires fits { CanAdd (row_names model.old) most_rows name.now }
    ensures { OnOk result (model.new ≡ with_more_row model.old (named_row name.now row)) }
{
    match model.add_row(alloc, name, row) {
        Ok(_) => Ok(()),
        Err(stop) => Err(memory_alone(stop)),
    }
}

// Whether a value is below 0.
fn is_below(value: Frac) -> bool
    ensures { result ≡ lt_q value zero_ℚ }
{
    value < Frac::whole(0)
}

// Whether an upper bound is negative.
fn is_negative_bound(bound: Option<Frac>) -> bool
    ensures { result ≡ is_negative bound }
{
    match bound {
        Some(value) => is_below(value),
        None => false,
    }
}

// The bounds of a column.
fn bounds_at(columns: &Columns, index: usize) -> Bounds
    requires { index < length columns.now.bounds.items }
    ensures { result ≡ slice_index_or columns.now.bounds.items index plain }
{
    columns.bounds[index]
}

// Whether a column has a negative upper bound and nothing sets its lower one.
fn keeps_lower(columns: &Columns, index: usize) -> bool
    requires { index < length columns.now.bounds.items }
    ensures { result ≡ keeps_lower_in (slice_index_or columns.now.bounds.items index plain) }
{
    let bounds = bounds_at(columns, index);
    is_negative_bound(bounds.up) && !bounds.lower_set
}

// Puts the columns.
fn put_columns(alloc: Global, model: &mut Model, columns: &Columns) -> Result<(), AllocError>
    requires even { length columns.now.bounds.items ≡ length columns.now.names }
    requires few { length (names_of columns.now.names) ≤ most_columns }
    requires short { All (λ name. length name ≤ longest_name) (names_of columns.now.names) }
    requires none { model.old.columns ≡ [] }
    ensures { OnOk result (model.new ≡ record model.old { columns = columns_listed (names_of columns.now.names) columns.now.bounds.items (length columns.now.names) }) }
{
    for index in 0..columns.names.len() {
        put_column(alloc, model, columns, index)?;
    }
    Ok(())
}

// Puts the rows, which are moved into the model.
fn put_rows(
    alloc: Global,
    model: &mut Model,
    names: &NameMap<()>,
    rows: Vec<Row>,
) -> Result<(), AllocError>
    requires even { length rows.items ≡ length names.now }
    requires few { length (names_of names.now) ≤ most_rows }
    requires short { All (λ name. length name ≤ longest_name) (names_of names.now) }
    requires none { model.old.rows ≡ [] }
    requires formed { (i : ℕ) → i < length rows.items → (name : List ℕ)
        → IsWellFormedRow (length model.old.columns) (named_row name (slice_index_or rows.items i no_row)) }
    ensures { OnOk result (model.new ≡ record model.old { rows = rows_listed (names_of names.now) rows.items (length rows.items) }) }
{
    let mut left = rows.into_iter();
    for index in 0..names.len() {
        let Some(row) = left.next() else {
            unreachable!();
        };
        put_row(alloc, model, names.name(index), row)?;
    }
    Ok(())
}

// Puts the note of a column, if it has one.
fn put_note(model: &mut Model, columns: &Columns, index: usize) -> Result<(), AllocError>
    requires within { index < length columns.now.bounds.items }
    requires small { index < 2 ^ 32 }
    requires known { index < length model.old.columns }
    ensures { OnOk result (model.new ≡ record model.old { notes = model.old.notes ++ note_of index (slice_index_or columns.now.bounds.items index plain) }) }
{
    if !keeps_lower(columns, index) {
        return Ok(());
    }
    model.add_note(Note::LowerKept(index as u32))
}

// Puts the notes.
fn put_notes(model: &mut Model, columns: &Columns) -> Result<(), AllocError>
    requires few { length columns.now.bounds.items ≤ most_columns }
    requires known { length columns.now.bounds.items ≤ length model.old.columns }
    requires none { model.old.notes ≡ [] }
    ensures { OnOk result (model.new ≡ record model.old { notes = notes_listed columns.now.bounds.items (length columns.now.bounds.items) }) }
{
    for index in 0..columns.bounds.len() {
        put_note(model, columns, index)?;
    }
    Ok(())
}

// Puts the columns, the rows, which are moved into the model, the objective, and the notes.
fn put_all(alloc: Global, model: &mut Model, reader: &mut Reader) -> Result<(), AllocError>
    requires holds { (statements : List StatementOf) × Holds reader.old statements }
    requires new { model.old ≡ empty_program reader.old.maximise }
    ensures { OnOk result ((statements : List StatementOf) → Holds reader.old statements → model.new ≡ program_of statements) }
{
    put_columns(alloc, model, &reader.columns)?;
    let rows = mem::replace(&mut reader.rows.items, Vec::new(alloc));
    put_rows(alloc, model, &reader.rows.names, rows)?;
    let objective = mem::replace(&mut reader.objective, Terms::new(Vec::new(alloc)));
    model.set_objective(objective, reader.maximise);
    put_notes(model, &reader.columns)?;
    Ok(())
}

/// The model that the tables declare, from which its rows and its objective are moved.
pub(crate) fn make_model(alloc: Global, reader: &mut Reader) -> Result<Model, AllocError>
    requires { (statements : List StatementOf) × Holds reader.old statements }
    ensures { IfOk result (λ model. (statements : List StatementOf) → Holds reader.old statements → model ≡ program_of statements) }
{
    let mut model = Model::new(alloc, reader.maximise);
    put_all(alloc, &mut model, reader)?;
    Ok(model)
}
