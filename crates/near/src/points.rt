//! Points near rough ones.
ghost use Rattle.std.specs.Prelude.{◌≤◌};

use crate::drawing::Drawing;
use crate::equations::{Solved, eliminated, fixed_at, put_solved};
use crate::grids::on_grids;
use crate::limits::{is_within, within};
use crate::rounding::{DIGITS, Rounding, exact};
use certs::Limits;
use frac128::Frac;
use guide::{Guide, Rounded, System};
use lp_model::Term;
use std::alloc::Global;

/// Values of the columns, of few digits, that satisfy a system, found by a guide, whose pivots are taken off those that are left.
///
/// The guide is put under limits that are drawn in, ever less where no point is left, so that what it finds may be rounded. The
/// columns are rounded, ever closer, to their bounds at most; those that equations are solved for follow. The first point is
/// given that satisfies the set.
pub fn near(
    alloc: Global,
    system: &System,
    guide: &mut Guide,
    pivots: &mut u64,
) -> Option<Vec<Frac>>
    ensures { pivots.new ≤ pivots.old }
{
    let mut drawing = Drawing::new(alloc, system)?;
    drawing.settle(alloc, guide, pivots)?;
    found(alloc, &mut drawing, guide)
}

// Values near those at which the guide stands.
fn found(alloc: Global, drawing: &mut Drawing<'_>, guide: &Guide) -> Option<Vec<Frac>> {
    let rough = rough_values(alloc, guide, drawing.system.limits.len())?;
    drawing.take_limits(rough.as_slice())?;
    let rooms = drawing.rooms(alloc, rough.as_slice())?;
    let equations = drawing.equations(alloc)?;
    if let Some(elimination) = eliminated(alloc, equations, rooms.as_slice(), false)
        && elimination.rest.is_empty()
    {
        let found = rounded(
            alloc,
            drawing,
            rough.as_slice(),
            elimination.solved.as_slice(),
        );
        if found.is_some() {
            return found;
        }
    }
    let equations = drawing.equations(alloc)?;
    let elimination = eliminated(alloc, equations, rooms.as_slice(), true)?;
    on_grids(
        alloc,
        drawing,
        rough.as_slice(),
        &elimination,
        rooms.as_slice(),
    )
}

// The values that the guide has of so many variables.
fn rough_values(alloc: Global, guide: &Guide, count: usize) -> Option<Vec<Rounded>> {
    let mut values = Vec::new(alloc);
    for variable in 0..u32::try_from(count).ok()? {
        values.push(guide.value(variable)?).ok()?;
    }
    Some(values)
}

// The values, rounded so far that they satisfy all limits.
fn rounded(
    alloc: Global,
    drawing: &Drawing<'_>,
    rough: &[Rounded],
    solved: &[Solved],
) -> Option<Vec<Frac>> {
    for digits in DIGITS {
        for rounding in [
            Rounding::Places(digits),
            Rounding::Bits(digits.saturating_add(1)),
        ] {
            if let Some(values) = values(alloc, drawing, rough, solved, rounding)
                && holds(drawing.system, values.as_slice()) == Some(true)
            {
                return Some(values);
            }
        }
    }
    None
}

// The values of the columns, rounded, of which those that were solved for follow from the others.
fn values(
    alloc: Global,
    drawing: &Drawing<'_>,
    rough: &[Rounded],
    solved: &[Solved],
    rounding: Rounding,
) -> Option<Vec<Frac>> {
    let mut values = Vec::new(alloc);
    for column in 0..drawing.system.columns {
        values.push(value(drawing, rough, column, rounding)?).ok()?;
    }
    put_solved(solved, values.as_mut_slice())?;
    Some(values)
}

// The value of a column, rounded, within its bounds.
fn value(
    drawing: &Drawing<'_>,
    rough: &[Rounded],
    column: u32,
    rounding: Rounding,
) -> Option<Frac> {
    if let Some(value) = fixed_at(drawing.fixed.as_slice(), column) {
        return Some(value);
    }
    let value = exact(*rough.get(column as usize)?, rounding)?;
    Some(within(drawing.system.limit(column)?, value))
}

/// Whether values of the columns satisfy all limits.
pub(crate) fn holds(system: &System, values: &[Frac]) -> Option<bool> {
    for (limit, value) in system.limits.iter().zip(values.iter()) {
        if !is_within(limit, *value) {
            return Some(false);
        }
    }
    for row in 0..system.row_count() {
        let limits = system.limit(system.variable(row)?)?;
        if !row_holds(system.terms(row)?, limits, values)? {
            return Some(false);
        }
    }
    Some(true)
}

// Whether the sum of terms is within limits.
fn row_holds(terms: &[Term], limits: &Limits, values: &[Frac]) -> Option<bool> {
    if limits.lo.is_none() && limits.up.is_none() {
        return Some(true);
    }
    let mut sum = Frac::whole(0);
    for term in terms {
        let value = *values.get(term.column as usize)?;
        sum = sum.plus(term.factor.times(value).ok()?).ok()?;
    }
    Some(is_within(limits, sum))
}
