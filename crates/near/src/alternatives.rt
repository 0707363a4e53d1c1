//! The alternative of a system: weights of its limits that contradict one another, as a system that is solved itself.
ghost use Rattle.std.specs.Prelude.{◌≤◌};

use crate::closing::{LimitWeights, closed};
use crate::points::near;
use certs::{Limits, Side};
use factors::is_zero;
use frac128::Frac;
use guide::{Guide, Rounded, System};
use lp_model::Term;
use std::alloc::Global;

// What a weight of the alternative system is of: a row's variable, or none where it is that of a column's upper bound. The row's
// own weight is so many times it, below 0 on the lower side.
#[derive(Clone, Copy)]
struct Unknown {
    variable: Option<u32>,
    times: Frac,
}

// The alternative as it is made: what its unknowns are, their prices, and the rows, one of each column.
#[derive(Drop)]
struct Alternative {
    unknowns: Vec<Unknown>,
    prices: Vec<Frac>,
    rows: Vec<Vec<Term>>,
}

/// The contradiction that weights make which are found as a point of the alternative system.
pub(crate) fn by_alternative(
    alloc: Global,
    system: &System,
    pivots: &mut u64,
) -> Option<LimitWeights>
    ensures { pivots.new ≤ pivots.old }
{
    let Alternative {
        unknowns,
        prices,
        rows,
    } = Alternative::of(alloc, system)?;
    let dual = dual_system(alloc, system, prices.as_slice(), rows)?;
    let mut guide = Guide::new(alloc, &dual)?;
    let values = near(alloc, &dual, &mut guide, pivots)?;
    let mut weights = vec![in alloc; Frac::whole(0); system.limits.len()].ok()?;
    put_weights(
        unknowns.as_slice(),
        values.as_slice(),
        weights.as_mut_slice(),
    )?;
    closed(alloc, system, weights.as_mut_slice())
}

// Puts the weights of rows that values of unknowns are.
fn put_weights(unknowns: &[Unknown], values: &[Frac], weights: &mut [Frac]) -> Option<()> {
    for (unknown, value) in unknowns.iter().zip(values.iter()) {
        if let Some(variable) = unknown.variable {
            let weight = weights.get_mut(variable as usize)?;
            *weight = weight.plus(value.times(unknown.times).ok()?).ok()?;
        }
    }
    Some(())
}

impl Alternative {
    // An unknown for each side of a row, and for the upper bound of each column that has a lower one too.
    fn of(alloc: Global, system: &System) -> Option<Alternative> {
        let mut alternative = Alternative {
            unknowns: Vec::new(alloc),
            prices: Vec::new(alloc),
            rows: Vec::new(alloc),
        };
        for _ in 0..system.columns {
            alternative.rows.push(Vec::new(alloc)).ok()?;
        }
        for row in 0..system.row_count() {
            alternative.put_row(system, row)?;
        }
        for column in 0..system.columns {
            let limits = system.limit(column)?;
            if let (Some(lo), Some(up)) = (limits.lo, limits.up) {
                let factor = Frac::whole(1);
                let column_of = alternative.put(None, factor, up.minus(lo).ok()?)?;
                let line = alternative.rows.get_mut(column as usize)?;
                line.push(Term {
                    column: column_of,
                    factor,
                })
                .ok()?;
            }
        }
        Some(alternative)
    }

    // Puts an unknown, and gives its number.
    fn put(&mut self, variable: Option<u32>, times: Frac, price: Frac) -> Option<u32> {
        let number = u32::try_from(self.unknowns.len()).ok()?;
        self.unknowns.push(Unknown { variable, times }).ok()?;
        self.prices.push(price).ok()?;
        Some(number)
    }

    // Puts an unknown for each side of a row, over the power of two above its factors.
    fn put_row(&mut self, system: &System, row: u32) -> Option<()> {
        let terms = system.terms(row)?;
        let variable = system.variable(row)?;
        let limits = system.limit(variable)?;
        let mut least = Frac::whole(0);
        let mut top = i32::MIN;
        for term in terms {
            let shift = shift_of(system.limit(term.column)?);
            least = least.plus(term.factor.times(shift).ok()?).ok()?;
            top = top.max(Rounded::of(term.factor).top());
        }
        let scale = if terms.is_empty() {
            0
        } else {
            top.saturating_neg()
        };
        for (limit, side) in [(limits.lo, Side::Lo), (limits.up, Side::Up)] {
            let Some(limit) = limit else {
                continue;
            };
            let times = power(scale, side == Side::Lo)?;
            let price = limit.minus(least).ok()?.times(times).ok()?;
            let column = self.put(Some(variable), times, price)?;
            for term in terms {
                let factor = term.factor.times(times).ok()?;
                let line = self.rows.get_mut(term.column as usize)?;
                line.push(Term { column, factor }).ok()?;
            }
        }
        Some(())
    }
}

// The value that a column is counted from: a bound, where it has one.
fn shift_of(limits: &Limits) -> Frac {
    limits.lo.or(limits.up).unwrap_or(Frac::whole(0))
}

// A power of two, or its opposite.
fn power(exponent: i32, is_negative: bool) -> Option<Frac> {
    let amount = exponent.unsigned_abs();
    if amount > 120 {
        return None;
    }
    let whole = Frac::new(1 << amount, 1).ok()?;
    let power = if exponent < 0 {
        Frac::new(1, whole.num()).ok()?
    } else {
        whole
    };
    Some(if is_negative { power.negate() } else { power })
}

// The system of the unknowns, none of which is below 0: what the rows leave of each column its bounds take up, and the prices come
// to less than 0.
fn dual_system(
    alloc: Global,
    system: &System,
    prices: &[Frac],
    rows: Vec<Vec<Term>>,
) -> Option<System> {
    let zero = Frac::whole(0);
    let mut rows = rows;
    let mut limits = Vec::new(alloc);
    for _ in prices {
        let (lo, up) = (Some(zero), None);
        limits.push(Limits { lo, up }).ok()?;
    }
    for column in 0..system.columns {
        let bounds = system.limit(column)?;
        let has_lo = bounds.lo.is_some();
        let lo = if has_lo || bounds.up.is_none() {
            Some(zero)
        } else {
            None
        };
        let up = if has_lo { None } else { Some(zero) };
        limits.push(Limits { lo, up }).ok()?;
    }
    rows.push(priced(alloc, prices)?).ok()?;
    let (lo, up) = (None, Some(Frac::whole(-1)));
    limits.push(Limits { lo, up }).ok()?;
    let columns = u32::try_from(prices.len()).ok()?;
    Some(System {
        columns,
        rows,
        limits,
    })
}

// The prices of the unknowns, over the power of two above them.
fn priced(alloc: Global, prices: &[Frac]) -> Option<Vec<Term>> {
    let mut top = i32::MIN;
    for price in prices {
        top = top.max(Rounded::of(*price).top());
    }
    let times = power(top.saturating_neg(), false)?;
    let mut terms = Vec::new(alloc);
    for (column, price) in (0..).zip(prices.iter()) {
        if !is_zero(*price) {
            let factor = price.times(times).ok()?;
            terms.push(Term { column, factor }).ok()?;
        }
    }
    Some(terms)
}
