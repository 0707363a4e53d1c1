//! The terms of rows, from entries in any order.
ghost use Rattle.std.specs.Prelude.{◌≡◌, ℕ, ◌<◌, ◌^◌, ◌++◌, ◌∷◌, [], IfOk, OnOk, length, map, slice_index_or};
ghost use Rattle.std.specs.List.{All, IsDistinct};
ghost use Rattle.mps_reader.specs.Gathered.{is_same_pair, cell_shown, cells_shown, cells_in, terms_shown, terms_at, terms_to, factor_kept};

use frac128::Frac;
use indexmap::IndexMap;
use lp_model::Term;
use std::alloc::{AllocError, Global};

/// The number of a row in a column.
#[derive(Clone, Copy)]
pub struct Cell {
    pub row: usize,
    pub value: Frac,
}

// Empty lists, one for each place.
fn empty_cells(alloc: Global, count: usize) -> Result<Vec<Vec<Cell>>, AllocError>
    ensures len { IfOk result (λ v. length v.items ≡ count) }
    ensures each { IfOk result (λ v. All (λ cells. cells ≡ []) (cells_shown v.items)) }
{
    let mut lists = Vec::new(alloc);
    for _ in 0..count {
        lists.push(Vec::new(alloc))?;
    }
    Ok(lists)
}

// Empty lists of terms, one for each row.
fn empty_terms(alloc: Global, count: usize) -> Result<Vec<Vec<Term>>, AllocError>
    ensures len { IfOk result (λ v. length v.items ≡ count) }
    ensures each { IfOk result (λ v. All (λ terms. terms ≡ []) (terms_shown v.items)) }
{
    let mut lists = Vec::new(alloc);
    for _ in 0..count {
        lists.push(Vec::new(alloc))?;
    }
    Ok(lists)
}

// The entries by their columns.
fn by_column(
    alloc: Global,
    columns: usize,
    entries: &IndexMap<(usize, usize), Frac>,
) -> Result<Vec<Vec<Cell>>, AllocError>
    requires { All (λ e. e.0.1 < columns) entries.now.entries }
    ensures len { IfOk result (λ v. length v.items ≡ columns) }
    ensures each { IfOk result (λ v. (j : ℕ) → j < columns → slice_index_or (cells_shown v.items) j [] ≡ cells_in j entries.now.entries) }
{
    let mut lists = empty_cells(alloc, columns)?;
    for place in 0..entries.len() {
        let Some((key, value)) = entries.get_index(place) else {
            return Ok(lists);
        };
        let cell = Cell {
            row: key.0,
            value: *value,
        };
        lists[key.1].push(cell)?;
    }
    Ok(lists)
}

// Puts a term last in its row, unless its factor is 0.
fn put_term(rows: &mut Vec<Vec<Term>>, column: u32, cell: &Cell) -> Result<(), AllocError>
    requires { cell.now.row < length rows.old.items }
    ensures len { OnOk result (length rows.new.items ≡ length rows.old.items) }
    ensures each { OnOk result ((i : ℕ) → i < length rows.old.items → slice_index_or (terms_shown rows.new.items) i [] ≡ slice_index_or (terms_shown rows.old.items) i [] ++ terms_at column i (cell_shown cell.now ∷ [])) }
{
    if cell.value == Frac::whole(0) {
        return Ok(());
    }
    let term = Term {
        column,
        factor: cell.value,
    };
    rows[cell.row].push(term)?;
    Ok(())
}

// Puts the terms of a column last in their rows.
fn put_terms(rows: &mut Vec<Vec<Term>>, column: u32, cells: &[Cell]) -> Result<(), AllocError>
    requires { All (λ c. c.0 < length rows.old.items) (map cell_shown cells.now) }
    ensures len { OnOk result (length rows.new.items ≡ length rows.old.items) }
    ensures each { OnOk result ((i : ℕ) → i < length rows.old.items → slice_index_or (terms_shown rows.new.items) i [] ≡ slice_index_or (terms_shown rows.old.items) i [] ++ terms_at column i (map cell_shown cells.now)) }
{
    for index in 0..cells.len() {
        put_term(rows, column, &cells[index])?;
    }
    Ok(())
}

// No places are there twice.
fn places_differ(entries: &IndexMap<(usize, usize), Frac>)
    ensures { IsDistinct is_same_pair (map (λ e. e.0) entries.now.entries) }
{
    let _ = entries.len();
}

/// The terms of each row by column. The columns are gone through in order, so that no list is sorted.
pub fn terms_by_row(
    alloc: Global,
    rows: usize,
    columns: usize,
    entries: &IndexMap<(usize, usize), Frac>,
) -> Result<Vec<Vec<Term>>, AllocError>
    requires few { columns < 2 ^ 32 }
    requires in_range { All (λ e. (e.0.0 < rows) × (e.0.1 < columns)) entries.now.entries }
    ensures len { IfOk result (λ v. length v.items ≡ rows) }
    ensures each { IfOk result (λ v. (i : ℕ) → i < rows → slice_index_or (terms_shown v.items) i [] ≡ terms_to (factor_kept entries.now.entries i) columns) }
{
    places_differ(entries);
    let cells = by_column(alloc, columns, entries)?;
    let mut terms = empty_terms(alloc, rows)?;
    for column in 0..columns {
        put_terms(&mut terms, column as u32, cells[column].as_slice())?;
    }
    Ok(terms)
}
