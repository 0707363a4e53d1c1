//! The dual simplex on rounded numbers.
ghost use Rattle.std.specs.Prelude.{◌≤◌};

use crate::guides::{Guide, blocking, made_up};
use crate::rounded::Rounded;
use certs::Side;
use std::alloc::Global;
use std::cmp::Ordering;

// A factor of a row below this power of two is held to be 0.
const TINY: i32 = -30;
// How far costs may pass one another, so that a greater factor can be taken.
const SLACK: i32 = -24;
// A cost that passes 0 is made up anew, times this power of two.
const ANEW: i32 = -10;
// After so many exchanges the inverse is made anew.
const MOST_EXCHANGES: usize = 64;
// Runs look at no more numbers than these.
const MOST_EFFORT: usize = 30_000_000;
// So often it may turn out that the inverse was too rough.
const MOST_REPAIRS: u32 = 20;

/// Where a run ends: no variable misses a limit, or one cannot come to its limit.
#[derive(Clone, Copy, PartialEq, Eq)]
pub enum GuideEnd {
    Feasible,
    Infeasible,
}

/// A slot whose variable leaves, and the side that it misses.
#[derive(Clone, Copy)]
pub(crate) struct Leaving {
    pub slot: u32,
    pub side: Side,
}

// A variable that can enter, the size of its factor in the row, and that of its cost over this.
#[derive(Clone, Copy)]
struct Candidate {
    variable: u32,
    size: Rounded,
    ratio: Rounded,
}

impl Guide {
    /// Makes pivots until an end, and takes them off; none where more are wanted, or numbers are too rough.
    ///
    /// The variable leaves whose distance to its limit is the greatest over its price (dual Devex; Forrest and Goldfarb,
    /// *Steepest-edge simplex algorithms for linear programming*, 1992), and the one enters that keeps the signs of made-up costs,
    /// up to little.
    pub fn run(&mut self, alloc: Global, pivots: &mut u64) -> Option<GuideEnd>
        ensures { pivots.new ≤ pivots.old }
    {
        let mut repairs: u32 = 0;
        let most = (self.head.len() as u64)
            .saturating_mul(20)
            .saturating_add(500);
        for _turn in 0..most {
            if self.effort > MOST_EFFORT {
                return None;
            }
            let end = match self.leaving()? {
                None => {
                    self.blocked = None;
                    GuideEnd::Feasible
                }
                Some(leaving) => {
                    self.row = self.unit_row(alloc, leaving.slot)?;
                    match self.entering(alloc, leaving.side)? {
                        Some(variable) => {
                            *pivots = pivots.checked_sub(1)?;
                            if !self.pivot(alloc, leaving, variable)? {
                                repairs = repairs.saturating_add(1);
                                if repairs > MOST_REPAIRS {
                                    return None;
                                }
                                self.invert(alloc)?;
                            }
                            continue;
                        }
                        None => {
                            self.blocked = Some(leaving);
                            GuideEnd::Infeasible
                        }
                    }
                }
            };
            if self.product.count() == self.inverted {
                return Some(end);
            }
            self.invert(alloc)?;
        }
        None
    }

    // The slot whose variable leaves, where one misses a limit.
    fn leaving(&self) -> Option<Option<Leaving>> {
        let mut best = None;
        let mut most = Rounded::zero();
        for (slot, base) in (0..).zip(self.head.iter()) {
            let (side, distance) = match self.missed(*base)? {
                Some(missed) => missed,
                None => continue,
            };
            let rate = distance
                .times(distance)
                .over(*self.prices.get(*base as usize)?)?;
            if best.is_none() || rate.key() > most.key() {
                most = rate;
                best = Some(Leaving { slot, side });
            }
        }
        Some(best)
    }

    // The side whose limit a variable misses, with the distance to it.
    fn missed(&self, variable: u32) -> Option<Option<(Side, Rounded)>> {
        let value = self.value(variable)?;
        let range = self.ranges.get(variable as usize)?;
        if let Some(lo) = range.lo
            && value.order(lo) == Ordering::Less
        {
            return Some(Some((Side::Lo, lo.minus(value))));
        }
        if let Some(up) = range.up
            && value.order(up) == Ordering::Greater
        {
            return Some(Some((Side::Up, value.minus(up))));
        }
        Some(None)
    }

    // The variable that enters, where one can move so that the one of the row comes nearer to its limit on the missed side: of
    // those whose costs over their factors are least, up to little, the one of the greatest factor.
    fn entering(&self, alloc: Global, missed: Side) -> Option<Option<u32>> {
        let mut candidates = Vec::new(alloc);
        let mut least: Option<Rounded> = None;
        for (variable, factor) in (0..).zip(self.row.iter()) {
            if factor.top() < TINY || !self.can_help(variable, *factor, missed)? {
                continue;
            }
            let size = factor.size();
            let cost = self.costs.get(variable as usize)?.size();
            let ratio = cost.over(size)?;
            let bound = cost.plus(Rounded::scaled(1, SLACK)).over(size)?;
            if least.is_none_or(|least| bound.key() < least.key()) {
                least = Some(bound);
            }
            let candidate = Candidate {
                variable,
                size,
                ratio,
            };
            candidates.push(candidate).ok()?;
        }
        let Some(least) = least else {
            return Some(None);
        };
        let mut best: Option<Candidate> = None;
        for candidate in candidates.iter() {
            if candidate.ratio.key() <= least.key()
                && best.is_none_or(|best| candidate.size.key() > best.size.key())
            {
                best = Some(*candidate);
            }
        }
        Some(Some(best?.variable))
    }

    // Whether a variable without a slot is not at the limit at which it cannot help.
    fn can_help(&self, variable: u32, factor: Rounded, missed: Side) -> Option<bool> {
        let range = self.ranges.get(variable as usize)?;
        Some(match range.limit_on(blocking(factor, missed)) {
            Some(limit) => self.value(variable)?.order(limit) != Ordering::Equal,
            None => true,
        })
    }

    // Makes a pivot; false where the row and the column differ, or the factor is too small.
    fn pivot(&mut self, alloc: Global, leaving: Leaving, variable: u32) -> Option<bool> {
        let Leaving { slot, side } = leaving;
        let solved = self.solved(alloc, variable)?;
        let pivot = *solved.get(slot as usize)?;
        let factor = *self.row.get(variable as usize)?;
        if pivot.top() < TINY || pivot.order(factor) != Ordering::Equal {
            return Some(false);
        }
        let base = *self.head.get(slot as usize)?;
        let limit = self.ranges.get(base as usize)?.limit_on(side)?;
        let step = self.value(base)?.minus(limit).over(pivot)?;
        self.shift(variable, solved.as_slice(), step)?;
        *self.values.get_mut(base as usize)? = limit;
        self.put_prices(slot, variable, solved.as_slice(), pivot)?;
        self.put_costs(base, side, variable)?;
        *self.head.get_mut(slot as usize)? = variable;
        *self.slots.get_mut(base as usize)? = None;
        *self.slots.get_mut(variable as usize)? = Some(slot);
        self.product.push(alloc, slot, solved.as_slice())?;
        if self.product.count().saturating_sub(self.inverted) >= MOST_EXCHANGES {
            self.invert(alloc)?;
        }
        Some(true)
    }

    // Moves a variable without a slot by a step, and the basic ones with it.
    fn shift(&mut self, variable: u32, solved: &[Rounded], step: Rounded) -> Option<()> {
        for (base, factor) in self.head.iter().zip(solved.iter()) {
            if !factor.is_zero() {
                let value = self.values.get_mut(*base as usize)?;
                *value = value.minus(factor.times(step));
            }
        }
        let value = self.values.get_mut(variable as usize)?;
        *value = value.plus(step);
        Some(())
    }

    // The prices after a pivot: of the basic variables, and of the one that enters.
    fn put_prices(
        &mut self,
        slot: u32,
        variable: u32,
        solved: &[Rounded],
        pivot: Rounded,
    ) -> Option<()> {
        let one = Rounded::scaled(1, 0);
        let base = *self.head.get(slot as usize)?;
        let square = pivot.times(pivot);
        let rate = self.prices.get(base as usize)?.over(square)?;
        for (place, factor) in (0..).zip(solved.iter()) {
            if place != slot && !factor.is_zero() {
                let other = *self.head.get(place as usize)?;
                raise(
                    self.prices.get_mut(other as usize)?,
                    factor.times(*factor).times(rate),
                );
            }
        }
        let own = self.prices.get_mut(variable as usize)?;
        *own = one;
        raise(own, rate);
        *self.prices.get_mut(base as usize)? = one;
        Some(())
    }

    // The costs after a pivot, in which a variable leaves to a side: those that would pass 0 are made up anew.
    fn put_costs(&mut self, base: u32, side: Side, variable: u32) -> Option<()> {
        let factor = *self.row.get(variable as usize)?;
        let times = self.costs.get(variable as usize)?.over(factor)?;
        *self.sides.get_mut(base as usize)? = Some(side);
        *self.costs.get_mut(base as usize)? = times.negate();
        *self.row.get_mut(base as usize)? = Rounded::zero();
        for (other, factor) in (0..).zip(self.row.iter()) {
            if !factor.is_zero() || other == base {
                let side = *self.sides.get(other as usize)?;
                let cost = self.costs.get_mut(other as usize)?;
                *cost = cost.minus(factor.times(times));
                if !is_of(*cost, side) {
                    *cost = made_up(other, side).shifted(ANEW);
                }
            }
        }
        *self.costs.get_mut(variable as usize)? = Rounded::zero();
        Some(())
    }
}

// Whether a cost is that of a variable at a side.
fn is_of(cost: Rounded, side: Option<Side>) -> bool {
    match side {
        Some(Side::Lo) => cost.mantissa > 0,
        Some(Side::Up) => cost.mantissa < 0,
        None => false,
    }
}

// Raises a price to another one, where this is above it.
fn raise(price: &mut Rounded, other: Rounded) {
    if other.key() > price.key() {
        *price = other;
    }
}
