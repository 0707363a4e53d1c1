//! Sides, limits, and which of two limits is the tighter one.
ghost use Rattle.std.specs.Prelude.{◌≡◌, ◌≢◌, ◌+◌, ◌<◌, MatchResult, None, Some, length};
ghost use Rattle.std.specs.Option.{option_map};
ghost use Rattle.rational.specs.Rational.{◌/ℚ◌, zero_ℚ};
ghost use Rattle.frac128.specs.Limit.{limit};
ghost use Rattle.frac128.specs.Calculation.{first_wide};
ghost use Rattle.certs.specs.Plain.{are_crossed, is_lowered as allows_less, is_raised as asks_more};
ghost use Rattle.certs.specs.System.{limit_on as limit_at, variable_limits};
ghost use Rattle.certs.specs.Turns.{is_over, is_under, missed_side as side_missed};
ghost use Rattle.reductions.specs.Limited.{is_tighter as is_tighter_one, opposite as other_side, tightened as tighter_of, turned as turned_by};
ghost use Rattle.reductions.specs.Rules.{single_limit, single_work};
ghost use Rattle.reductions.specs.Stage.{limits_in, row_in};

use certs::{Limits, System, is_less};
use frac128::{Frac, Wide};
use lp_model::{Side, Term};

/// The other side.
pub(crate) fn opposite(side: Side) -> Side
    ensures { result ≡ other_side side }
{
    match side {
        Side::Lo => Side::Up,
        Side::Up => Side::Lo,
    }
}

/// The side for a factor above 0, and else the other one.
pub(crate) fn turned(factor: Frac, side: Side) -> Side
    ensures { result ≡ turned_by factor side }
{
    if is_less(Frac::whole(0), factor) {
        return side;
    }
    opposite(side)
}

/// The limit on a side.
pub(crate) fn limit_on(limits: Limits, side: Side) -> Option<Frac>
    ensures { result ≡ limit_at limits side }
{
    match side {
        Side::Lo => limits.lo,
        Side::Up => limits.up,
    }
}

/// Whether the second number limits more on the side than the first: it is there, and it is strictly tighter, or there
/// is no first.
pub(crate) fn is_tighter(side: Side, old: Option<Frac>, new: Option<Frac>) -> bool
    ensures { result ≡ is_tighter_one side old new }
{
    match side {
        Side::Lo => is_raised(old, new),
        Side::Up => is_lowered(old, new),
    }
}

// Whether the second number is above the first, or there is no first.
fn is_raised(old: Option<Frac>, new: Option<Frac>) -> bool
    ensures { result ≡ asks_more old new }
{
    let Some(new) = new else {
        return false;
    };
    match old {
        Some(old) => is_less(old, new),
        None => true,
    }
}

// Whether the second number is below the first, or there is no first.
fn is_lowered(old: Option<Frac>, new: Option<Frac>) -> bool
    ensures { result ≡ allows_less old new }
{
    let Some(new) = new else {
        return false;
    };
    match old {
        Some(old) => is_less(new, old),
        None => true,
    }
}

/// The second number where it is strictly tighter on the side, and else the first.
pub(crate) fn tightened(side: Side, old: Option<Frac>, new: Option<Frac>) -> Option<Frac>
    ensures { result ≡ tighter_of side old new }
{
    let (kept, tighter) = (old, new);
    if is_tighter(side, old, new) {
        return tighter;
    }
    kept
}

/// Whether there are two numbers, and the first is above the second.
pub(crate) fn is_crossed(lower: Option<Frac>, upper: Option<Frac>) -> bool
    ensures { result ≡ are_crossed lower upper }
{
    let Some(least) = lower else {
        return false;
    };
    match upper {
        Some(greatest) => is_less(greatest, least),
        None => false,
    }
}

// Whether a value is below a lower limit.
fn is_below(limit: Option<Frac>, value: Frac) -> bool
    ensures { result ≡ is_under limit value }
{
    match limit {
        Some(least) => is_less(value, least),
        None => false,
    }
}

// Whether a value is above an upper limit.
fn is_above(limit: Option<Frac>, value: Frac) -> bool
    ensures { result ≡ is_over limit value }
{
    match limit {
        Some(greatest) => is_less(greatest, value),
        None => false,
    }
}

/// The limit that a value passes, if it passes one.
pub(crate) fn missed_side(limits: Limits, value: Frac) -> Option<Side>
    ensures { result ≡ side_missed limits value }
{
    if is_below(limits.lo, value) {
        return Some(Side::Lo);
    }
    if is_above(limits.up, value) {
        return Some(Side::Up);
    }
    None
}

/// The limits of a column.
pub(crate) fn column_limits(system: &System, column: u32) -> Limits
    requires { column < length system.now.columns }
    ensures { result ≡ limits_in system.now column }
{
    system.columns[column as usize]
}

/// The sides of a row.
pub(crate) fn row_sides(system: &System, index: u32) -> Limits
    requires { index < length system.now.rows }
    ensures { result ≡ (row_in system.now index).limits }
{
    let row = &system.rows[index as usize];
    Limits {
        lo: row.lo,
        up: row.up,
    }
}

/// The limits of a variable: of a column, or of a row, numbered after the columns.
pub(crate) fn limits_of(system: &System, variable: u32) -> Limits
    requires { variable < length system.now.columns + length system.now.rows }
    ensures { result ≡ variable_limits system.now variable }
{
    let columns = system.columns.len();
    let index = variable as usize;
    if index < columns {
        return system.columns[index];
    }
    let row = &system.rows[index - columns];
    Limits {
        lo: row.lo,
        up: row.up,
    }
}

/// The terms of a row.
pub(crate) fn row_terms(system: &System, index: u32) -> &[Term]
    requires { index < length system.now.rows }
    ensures { result.now ≡ (row_in system.now index).terms }
{
    system.rows[index as usize].terms.as_slice()
}

// A side over a factor, where it is there.
fn quotient(side: Option<Frac>, factor: Frac) -> Result<Option<Frac>, Wide>
    requires { factor ≢ zero_ℚ }
    ensures { let work = single_work (record { lower = side; upper = None }) factor in
        MatchResult result
        (λ r. (r ≡ option_map (λ s. s /ℚ factor) side) × (first_wide limit work ≡ None))
        (λ w. first_wide limit work ≡ Some w) }
{
    let Some(number) = side else {
        return Ok(None);
    };
    let quotient = number.over(factor)?;
    Ok(Some(quotient))
}

/// The limits that the sides of a row make of its only column, by the factor there, or the first quotient that is too
/// wide.
pub(crate) fn single_limits(sides: Limits, factor: Frac) -> Result<Limits, Wide>
    requires { factor ≢ zero_ℚ }
    ensures { MatchResult result
        (λ r. ((r.lower ≡ single_limit sides factor Side.Lo)
        × (r.upper ≡ single_limit sides factor Side.Up))
        × (first_wide limit (single_work sides factor) ≡ None))
        (λ w. first_wide limit (single_work sides factor) ≡ Some w) }
{
    let lo = quotient(sides.lo, factor)?;
    let up = quotient(sides.up, factor)?;
    if is_less(Frac::whole(0), factor) {
        return Ok(Limits { lo, up });
    }
    Ok(Limits { lo: up, up: lo })
}
