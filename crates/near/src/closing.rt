//! Combinations from weights of rows: the bounds of the columns take up the rest.
use crate::limits::limit_on;
use certs::{Limits, Side};
use factors::is_zero;
use frac128::Frac;
use guide::System;
use quick_basis::LimitWeight;
use std::alloc::Global;

/// How often the limits of the variables are taken, where they are.
pub type LimitWeights = Vec<Option<LimitWeight>>;

/// The combination that takes each row by its weight and each column by what the rows leave of it, where it is a contradiction.
///
/// There is a weight for each variable, columns and then rows, of which those of the columns are 0. The upper limit is taken where
/// a weight is above 0, and the lower one, so many times without the sign, where it is below.
pub(crate) fn closed(alloc: Global, system: &System, weights: &mut [Frac]) -> Option<LimitWeights> {
    for row in 0..system.row_count() {
        take_off(system, row, weights)?;
    }
    if right_side(system.limits.as_slice(), weights)? >= Frac::whole(0) {
        return None;
    }
    limit_weights(alloc, weights)
}

// Takes a row by its weight off the weights of its columns.
fn take_off(system: &System, row: u32, weights: &mut [Frac]) -> Option<()> {
    let weight = *weights.get(system.variable(row)? as usize)?;
    if is_zero(weight) {
        return Some(());
    }
    for term in system.terms(row)? {
        let sum = weights.get_mut(term.column as usize)?;
        *sum = sum.minus(term.factor.times(weight).ok()?).ok()?;
    }
    Some(())
}

// The right side of the combination; none where a limit is missing.
fn right_side(limits: &[Limits], weights: &[Frac]) -> Option<Frac> {
    let mut sum = Frac::whole(0);
    for (limit, weight) in limits.iter().zip(weights.iter()) {
        if !is_zero(*weight) {
            let number = limit_on(limit, side_of(*weight))?;
            sum = sum.plus(number.times(*weight).ok()?).ok()?;
        }
    }
    Some(sum)
}

// The side of a weight.
fn side_of(weight: Frac) -> Side {
    if weight.num() < 0 { Side::Lo } else { Side::Up }
}

// The weights as those of limits.
fn limit_weights(alloc: Global, weights: &[Frac]) -> Option<Vec<Option<LimitWeight>>> {
    let mut list = Vec::new(alloc);
    for weight in weights {
        list.push(limit_weight(*weight)).ok()?;
    }
    Some(list)
}

// A weight as that of a limit.
fn limit_weight(weight: Frac) -> Option<LimitWeight> {
    let side = side_of(weight);
    let weight = match side {
        Side::Lo => weight.negate(),
        Side::Up => weight,
    };
    Some(LimitWeight { side, weight })
}
