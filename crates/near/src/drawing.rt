//! Limits drawn in, so that what satisfies them stands away from the limits themselves.
ghost use Rattle.std.specs.Prelude.{◌≤◌};

use crate::equations::{Equation, fixed_at};
use crate::limits::limit_on;
use certs::{Limits, Side};
use frac128::Frac;
use guide::{Guide, GuideEnd, Range, RoughWeight, Rounded, System, rough};
use std::alloc::Global;
use std::cmp::Ordering;

// How often limits are drawn in.
const MOST_ROUNDS: u64 = 300;
// The levels of those that are drawn in: at first, from one to the next, and at most.
const FIRST: i32 = 2;

const STEP: i32 = 6;

const LAST: i32 = 27;
// A side that is not drawn in holds with equality where it stands within 2^-21 of it.
const NEAR: i32 = -21;
// The powers of two above no distance, and above any.
const NO_ROOM: i32 = -60;

const WIDE: i32 = 60;

/// How far limits are drawn in: those of a variable, columns and then rows, by 2^-level times its unit, which is the sum of a row's
/// factors, and by nothing past the last level. A variable that is fixed has this value: it is a row that is an equation,
/// or a column that stands at a bound.
#[derive(Drop)]
pub(crate) struct Drawing<'a> {
    pub system: &'a System,
    pub fixed: Vec<Option<Frac>>,
    levels: Vec<i32>,
    units: Vec<Rounded>,
}

impl Drawing<'_> {
    /// All rows are drawn in, and the columns of equations.
    pub(crate) fn new(alloc: Global, system: &System) -> Option<Drawing<'_>> {
        let mut drawing = Drawing {
            fixed: fixed(alloc, system.limits.as_slice())?,
            levels: vec![in alloc; i32::MAX; system.limits.len()].ok()?,
            units: units(alloc, system)?,
            system,
        };
        for row in 0..system.row_count() {
            let variable = system.variable(row)?;
            *drawing.levels.get_mut(variable as usize)? = FIRST;
            if fixed_at(drawing.fixed.as_slice(), variable).is_some() {
                drawing.touch(row)?;
            }
        }
        Some(drawing)
    }

    // Draws in the columns of a row that is an equation.
    fn touch(&mut self, row: u32) -> Option<()> {
        let system = self.system;
        for term in system.terms(row)? {
            let level = self.levels.get_mut(term.column as usize)?;
            if *level == i32::MAX {
                *level = FIRST;
            }
        }
        Some(())
    }

    /// Draws the limits in as far as the guide can follow, which stands at a point of them then.
    pub(crate) fn settle(
        &mut self,
        alloc: Global,
        guide: &mut Guide,
        pivots: &mut u64,
    ) -> Option<()>
        ensures { pivots.new ≤ pivots.old }
    {
        for _round in 0..MOST_ROUNDS {
            self.draw(alloc, guide)?;
            if guide.run(alloc, pivots)? == GuideEnd::Feasible {
                return Some(());
            }
            self.give_way(alloc, guide)?;
        }
        None
    }

    // Puts the guide under the limits as they are drawn in.
    fn draw(&self, alloc: Global, guide: &mut Guide) -> Option<()> {
        let mut ranges = Vec::new(alloc);
        for variable in 0..u32::try_from(self.system.limits.len()).ok()? {
            ranges.push(self.range(variable)?).ok()?;
        }
        guide.limit_to(alloc, ranges.as_slice())
    }

    // The limits of a variable as they are drawn in, at most by a quarter of what is between them.
    fn range(&self, variable: u32) -> Option<Range> {
        if let Some(value) = fixed_at(self.fixed.as_slice(), variable) {
            let value = Some(Rounded::of(value));
            return Some(Range {
                lo: value,
                up: value,
            });
        }
        let limits = self.system.limit(variable)?;
        let (lo, up) = (rough(limits.lo), rough(limits.up));
        let mut step = self.step(variable as usize)?;
        if let (Some(lo), Some(up)) = (lo, up) {
            let quarter = up.minus(lo).shifted(-2);
            if quarter.order(step) == Ordering::Less {
                step = quarter;
            }
        }
        Some(Range {
            lo: sum(lo, step),
            up: sum(up, step.negate()),
        })
    }

    // By how much the limits of a variable are drawn in.
    fn step(&self, index: usize) -> Option<Rounded> {
        let level = *self.levels.get(index)?;
        if level > LAST {
            return Some(Rounded::zero());
        }
        Some(self.units.get(index)?.shifted(level.saturating_neg()))
    }

    // Draws in by less what cannot hold all together: of these limits those of the least level, or where none of them is drawn
    // in they hold with equality.
    fn give_way(&mut self, alloc: Global, guide: &Guide) -> Option<()> {
        let weights = guide.weights(alloc)?;
        let least = self.least_level(weights.as_slice())?;
        if least > LAST {
            return self.stiffen(weights.as_slice());
        }
        for one in weights.iter() {
            let level = self.levels.get_mut(one.variable as usize)?;
            if *level == least {
                *level = least.saturating_add(STEP);
            }
        }
        Some(())
    }

    // The least level of those that are not fixed.
    fn least_level(&self, weights: &[RoughWeight]) -> Option<i32> {
        let mut least = i32::MAX;
        for one in weights {
            if fixed_at(self.fixed.as_slice(), one.variable).is_none() {
                least = least.min(*self.levels.get(one.variable as usize)?);
            }
        }
        Some(least)
    }

    // Fixes what has these limits; none where all of it was fixed.
    fn stiffen(&mut self, weights: &[RoughWeight]) -> Option<()> {
        let mut is_new = false;
        for one in weights {
            if fixed_at(self.fixed.as_slice(), one.variable).is_none() {
                self.fix(one.variable, one.side)?;
                is_new = true;
            }
        }
        if is_new { Some(()) } else { None }
    }

    // Fixes a variable at its limit on a side.
    fn fix(&mut self, variable: u32, side: Side) -> Option<()> {
        let limit = limit_on(self.system.limit(variable)?, side)?;
        *self.fixed.get_mut(variable as usize)? = Some(limit);
        match variable.checked_sub(self.system.columns) {
            Some(row) => self.touch(row),
            None => Some(()),
        }
    }

    /// Fixes the columns that stand at bounds, and the rows that are not drawn in and stand near sides.
    pub(crate) fn take_limits(&mut self, values: &[Rounded]) -> Option<()> {
        for variable in 0..u32::try_from(values.len()).ok()? {
            let value = *values.get(variable as usize)?;
            if fixed_at(self.fixed.as_slice(), variable).is_none()
                && let Some(side) = self.taken_limit(variable, value)?
            {
                self.fix(variable, side)?;
            }
        }
        Some(())
    }

    // The side whose limit a variable is to be fixed at, where there is one.
    fn taken_limit(&self, variable: u32, value: Rounded) -> Option<Option<Side>> {
        let is_row = variable >= self.system.columns;
        if is_row && *self.levels.get(variable as usize)? <= LAST {
            return Some(None);
        }
        let most = if is_row { NEAR } else { NO_ROOM };
        for side in [Side::Lo, Side::Up] {
            if self.room_on(variable, side, value)? <= most {
                return Some(Some(side));
            }
        }
        Some(None)
    }

    // The power of two above the distance of a value to the limit of a variable on a side.
    fn room_on(&self, variable: u32, side: Side, value: Rounded) -> Option<i32> {
        let limits = self.system.limit(variable)?;
        match side {
            Side::Lo => room(rough(limits.lo), Some(value)),
            Side::Up => room(Some(value), rough(limits.up)),
        }
    }

    /// The power of two above the distance of each column to the nearer bound.
    pub(crate) fn rooms(&self, alloc: Global, values: &[Rounded]) -> Option<Vec<i32>> {
        let mut rooms = Vec::new(alloc);
        for column in 0..self.system.columns {
            let value = *values.get(column as usize)?;
            let below = self.room_on(column, Side::Lo, value)?;
            let above = self.room_on(column, Side::Up, value)?;
            rooms.push(below.min(above)).ok()?;
        }
        Some(rooms)
    }

    /// The rows that are equations, without the columns that are fixed.
    pub(crate) fn equations(&self, alloc: Global) -> Option<Vec<Equation>> {
        let fixed = self.fixed.as_slice();
        let mut equations = Vec::new(alloc);
        for row in 0..self.system.row_count() {
            if let Some(right) = fixed_at(fixed, self.system.variable(row)?) {
                let terms = self.system.terms(row)?;
                equations
                    .push(Equation::of(alloc, terms, right, fixed)?)
                    .ok()?;
            }
        }
        Some(equations)
    }
}

// The limits of variables that are as low as high.
fn fixed(alloc: Global, limits: &[Limits]) -> Option<Vec<Option<Frac>>> {
    let mut fixed = Vec::new(alloc);
    for limit in limits {
        let value = if limit.lo == limit.up { limit.lo } else { None };
        fixed.push(value).ok()?;
    }
    Some(fixed)
}

// The units of the variables: 1 of a column, and of a row the sum of the magnitudes of its factors.
fn units(alloc: Global, system: &System) -> Option<Vec<Rounded>> {
    let mut units = vec![in alloc; Rounded::scaled(1, 0); system.columns as usize].ok()?;
    for terms in system.rows.iter() {
        let mut sum = Rounded::zero();
        for term in terms.iter() {
            sum = sum.plus(Rounded::of(term.factor).size());
        }
        units.push(sum).ok()?;
    }
    Some(units)
}

// The sum, where the first number is there.
fn sum(number: Option<Rounded>, step: Rounded) -> Option<Rounded> {
    match number {
        Some(number) => Some(number.plus(step)),
        None => None,
    }
}

// The power of two above the difference of two numbers, where both are there.
fn room(low: Option<Rounded>, high: Option<Rounded>) -> Option<i32> {
    let (Some(low), Some(high)) = (low, high) else {
        return Some(WIDE);
    };
    let difference = high.minus(low);
    if difference.is_zero() || difference.is_negative() {
        return Some(NO_ROOM);
    }
    Some(difference.top().clamp(NO_ROOM, WIDE))
}
