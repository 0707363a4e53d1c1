//! Points that the basis shows.
ghost use Rattle.std.specs.Prelude.{◌≡◌, IfSome, length};

use crate::bases::{Basis, Blocked};
use crate::choices::Leaving;
use crate::limits::side_of;
use crate::numbers::common_multiple;
use certs::{Point, Side, Values};
use factors::is_zero;
use frac128::Frac;
use lp_model::Model;
use std::alloc::Global;

/// A nonbasic variable, for which `solved` was solved, that moves by a step.
#[derive(Clone, Copy)]
pub struct Step {
    pub variable: u32,
    pub step: Frac,
}

/// The values of the columns, after a step where there is one.
pub fn point(alloc: Global, model: &Model, basis: &Basis, step: Option<Step>) -> Option<Point>
    ensures { IfSome result (λ point. length point.values ≡ length model.now.columns) }
{
    let mut values = Vec::new(alloc);
    for column in 0..model.column_count() {
        values.push(value_after(basis, column, step)?).ok()?;
    }
    Some(Point {
        values: Values::new(values),
    })
}

// The value of a variable, after a step where there is one.
fn value_after(basis: &Basis, variable: u32, step: Option<Step>) -> Option<Frac> {
    let known = basis.variable(variable)?;
    let Some(step) = step else {
        return Some(known.value);
    };
    if variable == step.variable {
        return known.value.plus(step.step).ok();
    }
    let Some(slot) = known.slot else {
        return Some(known.value);
    };
    let factor = basis.solved.value(slot)?;
    if is_zero(factor) {
        return Some(known.value);
    }
    known.fallen(factor, step.step)
}

/// The least number of 64 bits above 0 that makes the values of the row that was solved for whole; 1 where it is wider.
pub fn whole_times(basis: &Basis) -> Frac {
    let one = Frac::whole(1);
    let mut multiple = one;
    for entry in basis.row.entries() {
        match common_multiple(multiple, entry.value) {
            Some(times) if i64::try_from(times.num()).is_ok() => multiple = times,
            _ => return one,
        }
    }
    multiple
}

/// The step after which no variable misses a limit, where just one of the limits is gone with which the blocked row was one:
/// its variable then moves until the basic one of that row stands at its limit. The basis stays as it is.
pub fn read_off(basis: &mut Basis) -> Option<Step> {
    let Blocked { slot, side } = basis.blocked?;
    if let Some(variable) = freed(basis, slot, side)
        && let Some(()) = basis.solve_column(variable)
        && let Some(step) = basis.step_of(Leaving { slot, side })
        && let Some(()) = basis.list_outside()
        && basis.moving_outside() == Some(basis.outside.len())
        && basis.missed_after(variable, step, 1) == Some(0)
    {
        return Some(Step { variable, step });
    }
    None
}

/// Moves the basis to the point that the last suggestion read off, where it did.
pub fn take_over(basis: &mut Basis) -> Option<()> {
    let Some(step) = read_off(basis) else {
        return Some(());
    };
    basis.blocked = None;
    basis.shift(step.variable, step.step)
}

// The one variable of the blocked row whose limit is gone; none where it is not just one, or the basic one misses its no more.
fn freed(basis: &Basis, slot: u32, side: Side) -> Option<u32> {
    if basis.basic(slot)?.missed != Some(side) {
        return None;
    }
    let mut freed = None;
    for entry in basis.row.entries() {
        let side = side_of(entry.value, side);
        let limit = basis.variable(entry.place)?.limit_on(side);
        if !is_zero(entry.value) && limit.is_none() {
            if freed.is_some() {
                return None;
            }
            freed = Some(entry.place);
        }
    }
    freed
}

impl Basis {
    // How many of the basic variables that move with the one that was solved for miss a limit.
    fn moving_outside(&self) -> Option<usize> {
        let mut count: usize = 0;
        for entry in self.solved.entries() {
            if !is_zero(entry.value) && self.basic(entry.place)?.missed.is_some() {
                count = count.saturating_add(1);
            }
        }
        Some(count)
    }
}
