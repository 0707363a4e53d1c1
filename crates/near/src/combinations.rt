//! Combinations near rough ones.
ghost use Rattle.std.specs.Prelude.{◌≤◌};

use crate::alternatives::by_alternative;
use crate::closing::{LimitWeights, closed};
use crate::modular::multipliers;
use crate::rounding::{DIGITS, Rounding, exact};
use certs::Side;
use frac128::Frac;
use guide::{RoughWeight, Rounded, System};
use std::alloc::Global;

/// A contradiction near a rough one, which is given by weights of limits.
///
/// The weights of the rows are made exact, ever closer: as simple fractions, which find small weights exactly, and in few bits. The
/// bounds of the columns take up the rest, and the first combination is given that is a contradiction. Then the
/// weights are solved for exactly, and at last they are looked for as a point of the alternative system.
pub fn far(
    alloc: Global,
    system: &System,
    weights: &[RoughWeight],
    pivots: &mut u64,
) -> Option<LimitWeights>
    ensures { pivots.new ≤ pivots.old }
{
    let found = simple(alloc, system, weights);
    if found.is_some() {
        return found;
    }
    let found = multipliers(alloc, system, weights);
    if found.is_some() {
        return found;
    }
    by_alternative(alloc, system, pivots)
}

// A contradiction whose weights of rows are simple.
fn simple(alloc: Global, system: &System, weights: &[RoughWeight]) -> Option<LimitWeights> {
    let top = top_of_rows(system.columns, weights);
    for rounding in [Rounding::Simple(24), Rounding::Simple(34)] {
        if let Some(found) = rounded(alloc, system, weights, 0, rounding) {
            return Some(found);
        }
    }
    for digits in DIGITS {
        let digits = digits.saturating_add(1);
        for rounding in [Rounding::Places(digits), Rounding::Bits(digits)] {
            if let Some(found) = rounded(alloc, system, weights, top, rounding) {
                return Some(found);
            }
        }
    }
    None
}

// The power of two above the weights of all rows.
fn top_of_rows(columns: u32, weights: &[RoughWeight]) -> i32 {
    let mut top = i32::MIN;
    for one in weights {
        if one.variable >= columns {
            top = top.max(one.weight.top());
        }
    }
    top
}

// The contradiction whose weights of rows are these over 2^top, made exact, where it is one.
fn rounded(
    alloc: Global,
    system: &System,
    weights: &[RoughWeight],
    top: i32,
    rounding: Rounding,
) -> Option<LimitWeights> {
    let mut list = vec![in alloc; Frac::whole(0); system.limits.len()].ok()?;
    for one in weights {
        if one.variable >= system.columns {
            *list.get_mut(one.variable as usize)? = signed(one, top, rounding)?;
        }
    }
    closed(alloc, system, list.as_mut_slice())
}

// A weight over 2^top, made exact: above 0 on the upper side, and below on the lower one.
fn signed(one: &RoughWeight, top: i32, rounding: Rounding) -> Option<Frac> {
    let weight = exact(
        Rounded {
            mantissa: one.weight.mantissa,
            exponent: one.weight.exponent.checked_sub(top)?,
        },
        rounding,
    )?;
    match one.side {
        Side::Lo => Some(weight.negate()),
        Side::Up => Some(weight),
    }
}
