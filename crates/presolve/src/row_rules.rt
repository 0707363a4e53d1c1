//! The rules that look at the limits of one variable, or at a row of at most one column: limits that cross, rows
//! without columns, and rows of one column.
ghost use Rattle.std.specs.Prelude.{◌≡◌, ◌+◌, ◌<◌, ◌^◌, ◌∷◌, [], IfOk, None, Some, cond, length, map};
ghost use Rattle.rational.specs.Rational.{one_ℚ};
ghost use Rattle.certs.specs.Named.{named};
ghost use Rattle.certs.specs.Plain.{crossing_shares};
ghost use Rattle.certs.specs.System.{LinearSystem, empty_system_row, limit_on as limit_at};
ghost use Rattle.reductions.specs.Laws.{IsFormed};
ghost use Rattle.reductions.specs.Limited.{is_tighter as is_tighter_one, tightened as tighter_of, turned as turned_by};
ghost use Rattle.reductions.specs.Rules.{crossing_at as crossing_found, empty_at as empty_found, row_variable, share_on, single_limit, single_step, singleton_at as singleton_found};
ghost use Rattle.reductions.specs.Rules.Found.{Goes};
ghost use Rattle.reductions.specs.Stage.{limits_in, row_in, without_row};
ghost use Rattle.presolve.specs.Next.{IsNext};
ghost use Rattle.presolve.specs.Plans.{planned};

use crate::limits::{
    column_limits, is_crossed, is_tighter, limit_on, limits_of, missed_side, row_sides, row_terms,
    single_limits, tightened, turned,
};
use crate::plans::{NewLimits, NewRow, Next, Plan};
use certs::{Limits, Share, Shares, System};
use frac128::Frac;
use lp_model::{Row, Side, Term, Terms};
use reductions::{Singleton, Step};
use simplex::limit_share;
use std::alloc::{AllocError, Global};

/// Where the limits of a variable cross: a contradiction of the two. Variables are the columns, and then the rows.
///
/// # Errors
///
/// There is no memory for the shares.
pub fn crossing_at(
    alloc: Global,
    system: &System,
    variable: u32,
) -> Result<Option<Next>, AllocError>
    requires small { length system.now.columns + length system.now.rows < 2 ^ 31 }
    requires known { variable < length system.now.columns + length system.now.rows }
    ensures { IfOk result (IsNext system.now (crossing_found system.now variable)) }
{
    let limits = limits_of(system, variable);
    if !is_crossed(limits.lo, limits.up) {
        return Ok(None);
    }
    let shares = crossing(alloc, system.columns.len() as u32, variable)?;
    Ok(Some(Next::Contradiction(shares)))
}

// Both limits of a variable, each once.
fn crossing(alloc: Global, columns: u32, variable: u32) -> Result<Shares, AllocError>
    ensures { IfOk result (λ shares. shares ≡ map (named columns) (crossing_shares variable)) }
{
    let one = Frac::whole(1);
    let shares = [
        limit_share(columns, variable, Side::Lo, one),
        limit_share(columns, variable, Side::Up, one),
    ];
    Ok(Shares::new(Vec::from_slice(alloc, &shares)?))
}

/// A side of a row, once.
pub(crate) fn row_share(system: &System, index: u32, side: Side) -> Share
    requires small { length system.now.columns + length system.now.rows < 2 ^ 31 }
    requires known { index < length system.now.rows }
    ensures { let columns = length system.now.columns in
        result ≡ named columns (share_on side (row_variable system.now index) one_ℚ) }
{
    let columns = system.columns.len() as u32;
    limit_share(columns, columns + index, side, Frac::whole(1))
}

/// A row left without terms and sides, as the only new one.
pub(crate) fn emptied(alloc: Global, index: u32) -> Result<Vec<NewRow>, AllocError>
    ensures { IfOk result (λ rows.
        rows.items ≡ record { number = index; item = empty_system_row } ∷ []) }
{
    let mut rows = Vec::new(alloc);
    rows.push(NewRow {
        index,
        row: Row::new(Terms::new(Vec::new(alloc)), None, None),
    })?;
    Ok(rows)
}

/// A step that does nothing but remove a row.
pub(crate) fn removal(alloc: Global, step: Step, index: u32) -> Result<Plan, AllocError>
    ensures step { IfOk result (λ plan. plan.step ≡ step) }
    ensures system { (system : LinearSystem) →
        IfOk result (λ plan. planned plan system ≡ without_row index system) }
{
    let rows = emptied(alloc, index)?;
    Ok(Plan {
        step,
        columns: Vec::new(alloc),
        rows,
        objective: None,
    })
}

/// A row without columns: it is removed where 0 is within its sides, and else the side that 0 misses contradicts
/// it.
///
/// # Errors
///
/// There is no memory for the step or the share.
pub fn empty_at(alloc: Global, system: &System, index: u32) -> Result<Option<Next>, AllocError>
    requires small { length system.now.columns + length system.now.rows < 2 ^ 31 }
    requires known { index < length system.now.rows }
    ensures { let terms = (row_in system.now index).terms in
        IfOk result (IsNext system.now (empty_found system.now index terms)) }
{
    if !row_terms(system, index).is_empty() {
        return Ok(None);
    }
    let Some(side) = missed_side(row_sides(system, index), Frac::whole(0)) else {
        let plan = removal(alloc, Step::Empty(index), index)?;
        return Ok(Some(Next::Plan(plan)));
    };
    let share = row_share(system, index, side);
    let shares = Vec::from_slice(alloc, &[share])?;
    Ok(Some(Next::Contradiction(Shares::new(shares))))
}

/// A row of one column: its sides over the factor become limits of the column where they are strictly tighter, and it
/// is removed. A quotient that is too wide finds nothing.
///
/// # Errors
///
/// There is no memory for the step.
pub fn singleton_at(alloc: Global, system: &System, index: u32) -> Result<Option<Next>, AllocError>
    requires formed { IsFormed system.now }
    requires known { index < length system.now.rows }
    ensures { let terms = (row_in system.now index).terms in
        IfOk result (IsNext system.now (singleton_found system.now index terms)) }
{
    let [term] = row_terms(system, index) else {
        return Ok(None);
    };
    let Ok(made) = single_limits(row_sides(system, index), term.factor) else {
        return Ok(None);
    };
    let plan = singleton(alloc, system, index, *term, made)?;
    Ok(Some(Next::Plan(plan)))
}

// The step at a row of one column, by the limits that its sides make.
fn singleton(
    alloc: Global,
    system: &System,
    index: u32,
    term: Term,
    made: Limits,
) -> Result<Plan, AllocError>
    requires column { term.column < length system.now.columns }
    requires lower { let sides = (row_in system.now index).limits in
        made.lower ≡ single_limit sides term.factor Side.Lo }
    requires upper { let sides = (row_in system.now index).limits in
        made.upper ≡ single_limit sides term.factor Side.Up }
    ensures { let limits = limits_in system.now term.column in
        let step = single_step limits (row_in system.now index).limits index term in
        IfOk result (λ plan. IsNext system.now (Some (Goes step)) (Some (Next.Plan plan))) }
{
    let limits = column_limits(system, term.column);
    let mut columns = Vec::new(alloc);
    columns.push(NewLimits {
        column: term.column,
        limits: both_tightened(&limits, &made),
    })?;
    Ok(Plan {
        step: Step::Singleton(Singleton {
            row: index,
            column: term.column,
            factor: term.factor,
            lower: maker(&limits, &made, term.factor, Side::Lo),
            upper: maker(&limits, &made, term.factor, Side::Up),
        }),
        columns,
        rows: emptied(alloc, index)?,
        objective: None,
    })
}

// The limits, each tightened by a new one.
fn both_tightened(limits: &Limits, made: &Limits) -> Limits
    ensures lower { result.lower ≡ tighter_of Side.Lo limits.now.lower made.now.lower }
    ensures upper { result.upper ≡ tighter_of Side.Up limits.now.upper made.now.upper }
{
    Limits {
        lo: tightened(Side::Lo, limits.lo, made.lo),
        up: tightened(Side::Up, limits.up, made.up),
    }
}

// The side of a row that makes the column's limit on a side, where that is strictly tighter.
fn maker(limits: &Limits, made: &Limits, factor: Frac, side: Side) -> Option<Side>
    ensures { let test = is_tighter_one side (limit_at limits.now side) (limit_at made.now side) in
        result ≡ cond test (Some (turned_by factor side)) None }
{
    if is_tighter(side, limit_on(*limits, side), limit_on(*made, side)) {
        return Some(turned(factor, side));
    }
    None
}
