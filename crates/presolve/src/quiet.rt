//! Rows at which the rules that take sums need no look, since nothing that they look at has changed since they found nothing.
ghost use Rattle.std.specs.Prelude.{◌≡◌, ◌<◌, IfOk, false, length, map, slice_index_or, slice_set, true};
ghost use Rattle.certs.specs.Rows.{row_of};
ghost use Rattle.certs.specs.System.{SystemRow};
ghost use Rattle.reductions.specs.Reduction.Rule.{ForcingRow, ImpossibleRow, RedundantRow};
ghost use Rattle.reductions.specs.Stage.{Stage as SystemStage};
ghost use Rattle.presolve.specs.Quiet.{AreKept, IsQuiet, has_marked as has_marked_column, marked, touched_rows as rows_touched};

use crate::plans::{NewLimits, NewRow, Plan};
use certs::System;
use lp_model::{Row, Term};
use std::alloc::{AllocError, Global};

/// For each rule that takes sums, and each row, whether the rule is known to find nothing there.
#[derive(Drop)]
pub struct Quiet {
    pub impossible: Vec<bool>,
    pub redundant: Vec<bool>,
    pub forcing: Vec<bool>,
}

impl Quiet {
    /// Nothing is known of so many rows.
    ///
    /// # Errors
    ///
    /// There is no memory for the marks.
    pub(crate) fn new(alloc: Global, rows: usize) -> Result<Quiet, AllocError>
        ensures impossible { (stage : SystemStage) → rows ≡ length stage.system.rows
            → IfOk result (λ q. IsQuiet ImpossibleRow stage q.impossible.items) }
        ensures redundant { (stage : SystemStage) → rows ≡ length stage.system.rows
            → IfOk result (λ q. IsQuiet RedundantRow stage q.redundant.items) }
        ensures forcing { (stage : SystemStage) → rows ≡ length stage.system.rows
            → IfOk result (λ q. IsQuiet ForcingRow stage q.forcing.items) }
    {
        Ok(Quiet {
            impossible: vec![in alloc; false; rows]?,
            redundant: vec![in alloc; false; rows]?,
            forcing: vec![in alloc; false; rows]?,
        })
    }

    /// Forgets what is known of the rows that a plan touches: those that it changes, and those that have a column which
    /// it gives new limits.
    ///
    /// # Errors
    ///
    /// There is no memory for a mark for each column and row.
    pub(crate) fn wake(
        &mut self,
        alloc: Global,
        system: &System,
        plan: &Plan,
    ) -> Result<(), AllocError>
        requires impossible { length self.old.impossible.items ≡ length system.now.rows }
        requires redundant { length self.old.redundant.items ≡ length system.now.rows }
        requires forcing { length self.old.forcing.items ≡ length system.now.rows }
        ensures impossible { let touched = rows_touched plan.now system.now in
            IfOk result (λ done. AreKept touched self.old.impossible.items self.new.impossible.items) }
        ensures redundant { let touched = rows_touched plan.now system.now in
            IfOk result (λ done. AreKept touched self.old.redundant.items self.new.redundant.items) }
        ensures forcing { let touched = rows_touched plan.now system.now in
            IfOk result (λ done. AreKept touched self.old.forcing.items self.new.forcing.items) }
    {
        let touched = touched_rows(alloc, system, plan)?;
        clear(&mut self.impossible, &touched);
        clear(&mut self.redundant, &touched);
        clear(&mut self.forcing, &touched);
        Ok(())
    }
}

// Takes the marks away where others are set.
fn clear(marks: &mut [bool], others: &[bool])
    requires { length others.now ≡ length marks.old }
    ensures { AreKept others.now marks.old marks.new }
{
    for index in 0..marks.len() {
        if others[index] {
            marks[index] = false;
        }
    }
}

// The rows that a plan touches.
fn touched_rows(alloc: Global, system: &System, plan: &Plan) -> Result<Vec<bool>, AllocError>
    ensures { IfOk result (λ marks. marks.items ≡ rows_touched plan.now system.now) }
{
    let columns = touched_columns(alloc, system, &plan.columns)?;
    let mut rows = rows_with(alloc, &system.rows, &columns)?;
    mark_rows(&mut rows, &plan.rows);
    Ok(rows)
}

// The columns that are given new limits.
fn touched_columns(
    alloc: Global,
    system: &System,
    changed: &[NewLimits],
) -> Result<Vec<bool>, AllocError>
    ensures { IfOk result (λ marks. marks.items ≡ marked changed.now (map (λ c. false) system.now.columns)) }
{
    let mut columns = vec![in alloc; false; system.columns.len()]?;
    mark_columns(&mut columns, changed);
    Ok(columns)
}

// The rows that have a marked column.
fn rows_with(alloc: Global, rows: &[Row], columns: &[bool]) -> Result<Vec<bool>, AllocError>
    ensures { IfOk result (λ marks. marks.items ≡ map (has_marked_column columns.now) (map row_of rows.now)) }
{
    let mut marks = Vec::new(alloc);
    for row in rows {
        marks.push(has_marked(row.terms.as_slice(), columns))?;
    }
    Ok(marks)
}

// Whether one of the terms is of a marked column.
fn has_marked(terms: &[Term], columns: &[bool]) -> bool
    ensures { (row : SystemRow) → row.terms ≡ terms.now → result ≡ has_marked_column columns.now row }
{
    for term in terms {
        if is_marked(columns, term.column) {
            return true;
        }
    }
    false
}

// Whether a column is marked.
fn is_marked(columns: &[bool], column: u32) -> bool
    ensures { result ≡ slice_index_or columns.now column false }
{
    let index = column as usize;
    if index < columns.len() {
        return columns[index];
    }
    false
}

// Sets marks at columns.
fn mark_columns(marks: &mut [bool], changed: &[NewLimits])
    ensures { marks.new ≡ marked changed.now marks.old }
{
    for new in changed {
        mark(marks, new.column);
    }
}

// Sets marks at rows.
fn mark_rows(marks: &mut [bool], changed: &[NewRow])
    ensures { marks.new ≡ marked changed.now marks.old }
{
    for new in changed {
        mark(marks, new.index);
    }
}

// Sets a mark, where there is one with that number.
fn mark(marks: &mut [bool], number: u32)
    ensures { marks.new ≡ slice_set marks.old number true }
{
    let index = number as usize;
    if index < marks.len() {
        marks[index] = true;
    }
}
