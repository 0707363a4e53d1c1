//! The rules that look at the least and the greatest sum of a row: rows that can not be met, rows that are redundant,
//! and rows that force their columns.
ghost use Rattle.std.specs.Prelude.{◌≡◌, ◌+◌, ◌<◌, ◌^◌, ◌++◌, All, IfOk, Some, length, map};
ghost use Rattle.certs.specs.Improves.{magnitude as magnitude_of};
ghost use Rattle.certs.specs.Named.{named};
ghost use Rattle.reductions.specs.Laws.{IsFormed};
ghost use Rattle.reductions.specs.Limited.{is_side as is_side_of};
ghost use Rattle.reductions.specs.Rules.{forcing_at as forcing_found, forcing_step, impossible_at as impossible_found, impossible_shares as shares_of_impossible, is_forcing as does_force, is_impossible as can_not_be_met, is_kept as does_keep, is_past as goes_past, redundant_at as redundant_found, side_of_row, sum_of_row, taken_shares};
ghost use Rattle.reductions.specs.Rules.Found.{Goes};
ghost use Rattle.presolve.specs.Next.{IsNext};
ghost use Rattle.presolve.specs.Forced.{forced_columns};

use crate::limits::{limit_on, opposite, row_sides, row_terms, turned};
use crate::plans::{NewLimits, Next, Plan};
use crate::row_rules::{emptied, removal, row_share};
use crate::sums::{extreme, taken_value};
use certs::{Limits, Share, Shares, System, is_less};
use frac128::Frac;
use lp_model::{Side, Term, Terms};
use reductions::{Forcing, Step};
use simplex::limit_share;
use std::alloc::{AllocError, Global};

// A side of a row.
fn row_side(system: &System, index: u32, side: Side) -> Option<Frac>
    requires { index < length system.now.rows }
    ensures { result ≡ side_of_row system.now index side }
{
    limit_on(row_sides(system, index), side)
}

// The least sum of a row (`Lo`), or its greatest one (`Up`).
fn row_sum(system: &System, index: u32, side: Side) -> Option<Frac>
    requires formed { IsFormed system.now }
    requires known { index < length system.now.rows }
    ensures { result ≡ sum_of_row system.now index side }
{
    extreme(system, side, row_terms(system, index))
}

// Whether a value is past a number on its side.
fn is_past(side: Side, number: Frac, value: Frac) -> bool
    ensures { result ≡ goes_past side number value }
{
    match side {
        Side::Lo => is_less(value, number),
        Side::Up => is_less(number, value),
    }
}

// Whether a row can not meet a side, since its sum towards the other side is past it.
fn is_impossible(system: &System, index: u32, side: Side) -> bool
    requires formed { IsFormed system.now }
    requires known { index < length system.now.rows }
    ensures { result ≡ can_not_be_met system.now index side }
{
    let Some(number) = row_side(system, index, side) else {
        return false;
    };
    match row_sum(system, index, opposite(side)) {
        Some(sum) => is_past(side, number, sum),
        None => false,
    }
}

/// A row that can not meet a side: a contradiction of the side and the limits that the sum takes. The upper side is
/// looked at first. A sum that is too wide finds nothing.
///
/// # Errors
///
/// There is no memory for the shares.
pub fn impossible_at(alloc: Global, system: &System, index: u32) -> Result<Option<Next>, AllocError>
    requires formed { IsFormed system.now }
    requires small { length system.now.columns + length system.now.rows < 2 ^ 31 }
    requires known { index < length system.now.rows }
    ensures { IfOk result (IsNext system.now (impossible_found system.now index)) }
{
    if is_impossible(system, index, Side::Up) {
        let shares = impossible_shares(alloc, system, index, Side::Up)?;
        return Ok(Some(Next::Contradiction(shares)));
    }
    if is_impossible(system, index, Side::Lo) {
        let shares = impossible_shares(alloc, system, index, Side::Lo)?;
        return Ok(Some(Next::Contradiction(shares)));
    }
    Ok(None)
}

// The side, and the limits that the sum towards the other side takes: the lower ones first.
fn impossible_shares(
    alloc: Global,
    system: &System,
    index: u32,
    side: Side,
) -> Result<Shares, AllocError>
    requires small { length system.now.columns + length system.now.rows < 2 ^ 31 }
    requires known { index < length system.now.rows }
    ensures { let columns = length system.now.columns in
        let of = shares_of_impossible system.now index side in
        IfOk result (λ shares. shares ≡ map (named columns) of) }
{
    let columns = system.columns.len() as u32;
    let terms = row_terms(system, index);
    let mut shares = Vec::new(alloc);
    shares.push(row_share(system, index, side))?;
    push_taken(columns, terms, opposite(side), Side::Lo, &mut shares)?;
    push_taken(columns, terms, opposite(side), Side::Up, &mut shares)?;
    Ok(Shares::new(shares))
}

// Appends the limits on a side that a sum takes, each as often as the magnitude of the factor says.
fn push_taken(
    columns: u32,
    terms: &[Term],
    sum: Side,
    side: Side,
    shares: &mut Vec<Share>,
) -> Result<(), AllocError>
    ensures { let more = map (named columns) (taken_shares sum terms.now side) in
        IfOk result (λ done. shares.new.items ≡ shares.old.items ++ more) }
{
    for term in terms {
        if is_side(side, turned(term.factor, sum)) {
            shares.push(limit_share(columns, term.column, side, magnitude(term.factor)))?;
        }
    }
    Ok(())
}

// Whether they are one side.
fn is_side(side: Side, other: Side) -> bool
    ensures { result ≡ is_side_of side other }
{
    side == other
}

// A number without its sign.
fn magnitude(number: Frac) -> Frac
    ensures { result ≡ magnitude_of number }
{
    if is_less(number, Frac::whole(0)) {
        return number.negate();
    }
    number
}

// Whether the limits of a row's columns keep a side; an absent side is kept.
fn is_kept(system: &System, index: u32, side: Side) -> bool
    requires formed { IsFormed system.now }
    requires known { index < length system.now.rows }
    ensures { result ≡ does_keep system.now index side }
{
    let Some(number) = row_side(system, index, side) else {
        return true;
    };
    match row_sum(system, index, side) {
        Some(sum) => !is_past(side, number, sum),
        None => false,
    }
}

/// A row that the limits of its columns keep: it is removed. A sum that is too wide finds nothing.
///
/// # Errors
///
/// There is no memory for the step.
pub fn redundant_at(alloc: Global, system: &System, index: u32) -> Result<Option<Next>, AllocError>
    requires formed { IsFormed system.now }
    requires known { index < length system.now.rows }
    ensures { IfOk result (IsNext system.now (redundant_found system.now index)) }
{
    if !is_kept(system, index, Side::Lo) {
        return Ok(None);
    }
    if !is_kept(system, index, Side::Up) {
        return Ok(None);
    }
    let plan = removal(alloc, Step::Redundant(index), index)?;
    Ok(Some(Next::Plan(plan)))
}

// Whether a row meets a side only where each column stands at the limit that the sum towards the other side takes.
fn is_forcing(system: &System, index: u32, side: Side) -> bool
    requires formed { IsFormed system.now }
    requires known { index < length system.now.rows }
    ensures { result ≡ does_force system.now index side }
{
    let Some(number) = row_side(system, index, side) else {
        return false;
    };
    match row_sum(system, index, opposite(side)) {
        Some(sum) => number == sum,
        None => false,
    }
}

/// A row that forces its columns: both limits of each become the one that the sum takes, and the row is removed. The
/// upper side is looked at first. A sum that is too wide finds nothing.
///
/// # Errors
///
/// There is no memory for the step.
pub fn forcing_at(alloc: Global, system: &System, index: u32) -> Result<Option<Next>, AllocError>
    requires formed { IsFormed system.now }
    requires known { index < length system.now.rows }
    ensures { IfOk result (IsNext system.now (forcing_found system.now index)) }
{
    if is_forcing(system, index, Side::Up) {
        let plan = forcing(alloc, system, index, Side::Up)?;
        return Ok(Some(Next::Plan(plan)));
    }
    if is_forcing(system, index, Side::Lo) {
        let plan = forcing(alloc, system, index, Side::Lo)?;
        return Ok(Some(Next::Plan(plan)));
    }
    Ok(None)
}

// The step at a row that forces its columns by a side.
fn forcing(alloc: Global, system: &System, index: u32, side: Side) -> Result<Plan, AllocError>
    requires formed { IsFormed system.now }
    requires known { index < length system.now.rows }
    ensures { let step = forcing_step system.now index side in
        IfOk result (λ plan. IsNext system.now (Some (Goes step)) (Some (Next.Plan plan))) }
{
    let terms = row_terms(system, index);
    let columns = forced(alloc, system, opposite(side), terms)?;
    let rows = emptied(alloc, index)?;
    Ok(Plan {
        step: Step::Forcing(Forcing {
            row: index,
            side,
            terms: Terms::new(Vec::from_slice(alloc, terms)?),
        }),
        columns,
        rows,
        objective: None,
    })
}

// The limits of the columns of a row, made equal to those that a sum takes.
fn forced(
    alloc: Global,
    system: &System,
    sum: Side,
    terms: &[Term],
) -> Result<Vec<NewLimits>, AllocError>
    requires { All (λ t. t.column < length system.now.columns) terms.now }
    ensures { IfOk result (λ columns. columns.items ≡ forced_columns system.now sum terms.now) }
{
    let mut columns = Vec::new(alloc);
    for term in terms {
        let value = taken_value(system, sum, *term);
        columns.push(NewLimits {
            column: term.column,
            limits: Limits {
                lo: Some(value),
                up: Some(value),
            },
        })?;
    }
    Ok(columns)
}
