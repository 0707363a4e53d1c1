//! How far a program is reduced.
ghost use Rattle.std.specs.Prelude.{◌≡◌, ◌<◌, All, IfOk, length, map};
ghost use Rattle.lp_model.specs.Members.{active_members};
ghost use Rattle.lp_model.specs.MemberSets.{active_set};
ghost use Rattle.lp_model.specs.Program.{IsWellFormed};
ghost use Rattle.certs.specs.Checks.{IsSetOf};
ghost use Rattle.certs.specs.Plain.{has_row, rows_in};
ghost use Rattle.reductions.specs.Reduction.{removed_row as row_of};
ghost use Rattle.reductions.specs.Stage.{Stage};
ghost use Rattle.presolve.specs.Reduced.{IsReductionOf, LeadsTo};
ghost use Rattle.presolve.specs.declared.reduction.Reduction.TheVariants.{Decided};
ghost use Rattle.presolve_laws.specs.Answers.{set_system};
ghost use Rattle.trace_back.specs.Listed.{told as short};
ghost use Rattle.report_printer.specs.Printing.{IsKnownAnswer};
ghost use Rattle.analysis.specs.Reduced.{EndsThere, IsStepIn, by_rows, in_program};
ghost use Rattle.analysis.specs.Reduced.{columns_left_by, is_removed, is_row_removed, removed_column as column_of, rows_left_by};
ghost use Rattle.analysis.specs.Right.{IsReduction};

use crate::answering::refuted;
use certs::{Combo, Member, MemberSet, plain_system};
use lp_model::{Items, Model};
use presolve::{Reduction, reduce};
use presolve_oracle::cut_back;
use reductions::{ReduceStep, Step, Trace};
use report_text::{Answer, ReduceSteps, Reduced};
use std::alloc::{AllocError, Global};
use trace_back::listed;

/// How far the plain system of the active members is reduced, in which marks have no part: the steps, and how many
/// rows and columns are left. Where a rule finds that the system has no solution, and the combination comes back, the
/// active members that it uses with a proof of one leaf. (Brearley, Mitra and Williams 1975; Andersen and Andersen
/// 1995.)
///
/// # Errors
///
/// There is no memory for the system, its reduction, or the answer.
pub(crate) fn reduction(alloc: Global, model: &Model) -> Result<Answer, AllocError>
    ensures right { IfOk result (IsReduction model.now) }
    ensures known { IfOk result (IsKnownAnswer model.now) }
{
    // With the counts it is told that the program is well formed, and that it has few rows and columns.
    let _rows = model.row_count();
    let _columns = model.column_count();
    let set = model.members(alloc)?;
    let system = plain_system(alloc, model, &set, false)?;
    let reduction = reduce(alloc, system)?;
    match reduction {
        Reduction::Reduced { trace, .. } => left_by(alloc, model, &set, &trace),
        Reduction::Decided { combo, trace } => decided(alloc, model, &set, &combo, &trace),
    }
}

// The members that a combination uses that decides, with its leaf; or how far the reduction came, where the way back
// is too wide.
fn decided(
    alloc: Global,
    model: &Model,
    set: &MemberSet,
    combo: &Combo,
    trace: &Trace,
) -> Result<Answer, AllocError>
    requires formed { IsWellFormed model.now }
    requires whole { set.now ≡ active_set model.now }
    requires decided { IsReductionOf (set_system model.now (active_members model.now))
        (Decided combo.now trace.now) }
    ensures { IfOk result (IsReduction model.now) }
{
    let proof = cut_back(alloc, model, set, trace, combo)?;
    match proof {
        Some(proof) => refuted(alloc, model, set, proof),
        None => left_by(alloc, model, set, trace),
    }
}

// The steps of a trace by the numbers of the program, and how many rows and columns they leave.
fn left_by(
    alloc: Global,
    model: &Model,
    set: &MemberSet,
    trace: &Trace,
) -> Result<Answer, AllocError>
    requires formed { IsWellFormed model.now }
    requires whole { set.now ≡ active_set model.now }
    requires ends { let system = set_system model.now (active_members model.now) in
        (last : Stage) × (LeadsTo system trace.now last × EndsThere model.now trace.now.steps last) }
    ensures { IfOk result (IsReduction model.now) }
{
    let steps = steps_in(alloc, model, set, trace)?;
    Ok(Answer::Reduced(Reduced {
        steps,
        rows: rows_left(trace),
        columns: columns_left(trace),
    }))
}

// The steps of a trace of the set's plain system, by the numbers of the program.
fn steps_in(
    alloc: Global,
    model: &Model,
    set: &MemberSet,
    trace: &Trace,
) -> Result<ReduceSteps, AllocError>
    requires same { IsSetOf model.now set.now }
    requires known { let rows = length (rows_in model.now set.now.members) in
        All (λ s. IsStepIn rows (short s)) trace.now.steps }
    ensures { IfOk result (λ steps. steps
        ≡ map (λ s. in_program model.now set.now.members (short s)) trace.now.steps) }
{
    let rows = set_rows(alloc, model, set)?;
    let told = listed(alloc, trace)?;
    let steps = steps_by(alloc, rows.as_slice(), told.as_slice())?;
    Ok(Items::new(steps))
}

// Steps, with each row by the one at its place.
fn steps_by(alloc: Global, rows: &[u32], told: &[ReduceStep]) -> Result<Vec<ReduceStep>, AllocError>
    requires { All (IsStepIn (length rows.now)) told.now }
    ensures { IfOk result (λ steps. steps.items ≡ map (by_rows rows.now) told.now) }
{
    let mut steps = Vec::new(alloc);
    for step in told {
        steps.push(step_by(rows, *step))?;
    }
    Ok(steps)
}

// The numbers of the rows of which the set has a side.
pub(crate) fn set_rows(
    alloc: Global,
    model: &Model,
    set: &MemberSet,
) -> Result<Vec<u32>, AllocError>
    requires same { IsSetOf model.now set.now }
    ensures { IfOk result (λ rows. rows.items ≡ rows_in model.now set.now.members) }
{
    let mut rows = Vec::new(alloc);
    for row in 0..model.row_count() {
        if has_side(set, row) {
            rows.push(row)?;
        }
    }
    Ok(rows)
}

// Whether the set has a side of a row.
fn has_side(set: &MemberSet, row: u32) -> bool
    requires { row < set.now.rows }
    ensures { result ≡ has_row set.now.members row }
{
    set.contains(Member::RowLo(row)) || set.contains(Member::RowUp(row))
}

// A step, with each row by the one at its place.
fn step_by(rows: &[u32], step: ReduceStep) -> ReduceStep
    requires { IsStepIn (length rows.now) step }
    ensures { result ≡ by_rows rows.now step }
{
    match step {
        ReduceStep::Empty(row) => ReduceStep::Empty(rows[row as usize]),
        ReduceStep::Singleton(row) => ReduceStep::Singleton(rows[row as usize]),
        ReduceStep::Fixed(column, value) => ReduceStep::Fixed(column, value),
        ReduceStep::Redundant(row) => ReduceStep::Redundant(rows[row as usize]),
        ReduceStep::Forcing(row, side) => ReduceStep::Forcing(rows[row as usize], side),
        ReduceStep::Doubleton(row, column) => ReduceStep::Doubleton(rows[row as usize], column),
    }
}

// How many rows no step removes.
fn rows_left(trace: &Trace) -> u64
    ensures { result ≡ rows_left_by trace.now.steps trace.now.rows }
{
    let mut left: u64 = 0;
    for row in 0..trace.rows {
        if !has_row_step(trace.steps.as_slice(), row) {
            left += 1;
        }
    }
    left
}

// How many columns no step removes.
fn columns_left(trace: &Trace) -> u64
    ensures { result ≡ columns_left_by trace.now.steps trace.now.columns }
{
    let mut left: u64 = 0;
    for column in 0..trace.columns {
        if !has_column_step(trace.steps.as_slice(), column) {
            left += 1;
        }
    }
    left
}

// Whether some step removes the row.
fn has_row_step(steps: &[Step], row: u32) -> bool
    ensures { result ≡ is_row_removed steps.now row }
{
    for step in steps {
        if removed_row(step) == Some(row) {
            return true;
        }
    }
    false
}

// Whether some step removes the column.
fn has_column_step(steps: &[Step], column: u32) -> bool
    ensures { result ≡ is_removed steps.now column }
{
    for step in steps {
        if removed_column(step) == Some(column) {
            return true;
        }
    }
    false
}

// The row that a step removes.
fn removed_row(step: &Step) -> Option<u32>
    ensures { result ≡ row_of step.now }
{
    match step {
        Step::Empty(row) | Step::Redundant(row) => Some(*row),
        Step::Singleton(single) => Some(single.row),
        Step::Fixed(_) => None,
        Step::Forcing(forcing) => Some(forcing.row),
        Step::Doubleton(pair) => Some(pair.row),
    }
}

// The column that a step removes.
fn removed_column(step: &Step) -> Option<u32>
    ensures { result ≡ column_of step.now }
{
    match step {
        Step::Fixed(fixed) => Some(fixed.column),
        Step::Doubleton(pair) => Some(pair.y),
        Step::Empty(_) | Step::Singleton(_) | Step::Redundant(_) | Step::Forcing(_) => None,
    }
}
