//! The weights of a contradiction, by the limits that it takes: an elimination modulo 2^128, in which no number grows.

use crate::closing::{LimitWeights, closed};
use crate::equations::{Equation, divisor};
use certs::Side;
use frac128::Frac;
use guide::{RoughWeight, System};
use std::alloc::Global;

// How many rows are taken at most.
const MOST_ROWS: usize = 300;
// Of 128 bits as many are lost as the pivots have powers of 2: so many at most.
const MOST_LOST: u32 = 60;

// A row that is taken: the equation in whole numbers that is so many times it, and whether its upper side is taken.
#[derive(Drop)]
struct Taken {
    row: u32,
    times: Frac,
    equation: Equation,
    is_upper: bool,
}

// The equations of the columns over the weights of the rows.
type Matrix = Vec<Vec<i128>>;

// An equation that is solved for a weight, whose factor ends in so many zeros.
#[derive(Drop)]
struct Pivot {
    place: usize,
    zeros: u32,
    factors: Vec<i128>,
}

/// The contradiction that takes the limits of these weights, whatever the weights are: those of its rows are unique up to a common
/// factor where the limits are as few as can be, and are found where their minors have at most about 127 bits.
pub(crate) fn multipliers(
    alloc: Global,
    system: &System,
    weights: &[RoughWeight],
) -> Option<LimitWeights> {
    let rows = taken_rows(alloc, system, weights)?;
    if rows.len() > MOST_ROWS {
        return None;
    }
    let matrix = matrix(alloc, system.columns, weights, rows.as_slice())?;
    let solution = solution(alloc, matrix, rows.len())?;
    let mut list = vec![in alloc; Frac::whole(0); system.limits.len()].ok()?;
    let is_flipped = (*solution.first()? > 0) != rows.first()?.is_upper;
    for (one, number) in rows.iter().zip(solution.iter()) {
        let weight = Frac::new(*number, 1).ok()?.times(one.times).ok()?;
        let variable = system.variable(one.row)?;
        *list.get_mut(variable as usize)? = if is_flipped { weight.negate() } else { weight };
    }
    closed(alloc, system, list.as_mut_slice())
}

// The rows that are taken.
fn taken_rows(alloc: Global, system: &System, weights: &[RoughWeight]) -> Option<Vec<Taken>> {
    let mut rows = Vec::new(alloc);
    for one in weights {
        if let Some(row) = one.variable.checked_sub(system.columns) {
            rows.push(taken_row(alloc, system, row, one.side)?).ok()?;
        }
    }
    Some(rows)
}

// A row that is taken on a side.
fn taken_row(alloc: Global, system: &System, row: u32, side: Side) -> Option<Taken> {
    let terms = system.terms(row)?;
    let equation = Equation::of(alloc, terms, Frac::whole(0), &[])?;
    let factor = terms.first()?.factor;
    let first = Frac::new(equation.entries.first()?.factor, 1).ok()?;
    let inverse = Frac::new(factor.den(), factor.num()).ok()?;
    Some(Taken {
        row,
        times: first.times(inverse).ok()?,
        equation,
        is_upper: side == Side::Up,
    })
}

// The columns without a bound among the limits, each with its factors in the rows.
fn matrix(alloc: Global, columns: u32, weights: &[RoughWeight], rows: &[Taken]) -> Option<Matrix> {
    let bounded = bounded(alloc, columns, weights)?;
    let mut matrix = Vec::new(alloc);
    for _ in 0..columns {
        matrix.push(Vec::new(alloc)).ok()?;
    }
    for (place, one) in rows.iter().enumerate() {
        for entry in one.equation.entries.iter() {
            if !*bounded.get(entry.column as usize)? {
                let line = matrix.get_mut(entry.column as usize)?;
                put(line, rows.len(), place, entry.factor)?;
            }
        }
    }
    matrix.retain(|line| !line.is_empty());
    Some(matrix)
}

// Whether each column has a bound among the limits.
fn bounded(alloc: Global, columns: u32, weights: &[RoughWeight]) -> Option<Vec<bool>> {
    let mut bounded = vec![in alloc; false; columns as usize].ok()?;
    for one in weights {
        if let Some(flag) = bounded.get_mut(one.variable as usize) {
            *flag = true;
        }
    }
    Some(bounded)
}

// Puts a factor in a line, which has as many as this then.
fn put(line: &mut Vec<i128>, count: usize, place: usize, factor: i128) -> Option<()> {
    if line.is_empty() {
        line.resize(count, 0).ok()?;
    }
    *line.get_mut(place)? = factor;
    Some(())
}

// The whole numbers that solve all equations, where they are unique up to a common factor, by which they are divided.
fn solution(alloc: Global, matrix: Matrix, unknowns: usize) -> Option<Vec<i128>> {
    let pivots = pivots(alloc, matrix)?;
    if pivots.len().checked_add(1) != Some(unknowns) {
        return None;
    }
    let mut product: i128 = 1;
    let mut lost: u32 = 0;
    for pivot in pivots.iter() {
        product = product.wrapping_mul(*pivot.factors.get(pivot.place)?);
        lost = lost.saturating_add(pivot.zeros);
    }
    // The one number that no equation is solved for is the product of the pivots.
    let mut numbers = vec![in alloc; product; unknowns].ok()?;
    for pivot in pivots.iter() {
        *numbers.get_mut(pivot.place)? = 0;
    }
    for pivot in pivots.iter().rev() {
        *numbers.get_mut(pivot.place)? = pivot.number(numbers.as_slice())?;
    }
    signed(alloc, numbers.as_slice(), lost)
}

// The equations, each solved for a number over those that come later.
fn pivots(alloc: Global, matrix: Matrix) -> Option<Vec<Pivot>> {
    let mut open = matrix;
    let mut pivots = Vec::new(alloc);
    for _ in 0..open.len() {
        let Some((line, place, zeros)) = fewest_zeros(open.as_slice()) else {
            break;
        };
        if line >= open.len() {
            return None;
        }
        let pivot = Pivot {
            place,
            zeros,
            factors: open.swap_remove(line),
        };
        for factors in open.iter_mut() {
            pivot.reduce(factors.as_mut_slice())?;
        }
        pivots.push(pivot).ok()?;
    }
    Some(pivots)
}

// The line and the place of a factor that ends in the fewest zeros, with how many, where one is not 0.
fn fewest_zeros(lines: &[Vec<i128>]) -> Option<(usize, usize, u32)> {
    let mut best = None;
    let mut fewest = 128;
    for (line, factors) in lines.iter().enumerate() {
        for (place, factor) in factors.iter().enumerate() {
            if factor.trailing_zeros() < fewest {
                fewest = factor.trailing_zeros();
                best = Some((line, place, fewest));
            }
        }
        if fewest == 0 {
            break;
        }
    }
    best
}

impl Pivot {
    // Takes the equation off another one so often that its number is gone from there.
    fn reduce(&self, factors: &mut [i128]) -> Option<()> {
        let factor = *factors.get(self.place)?;
        if factor == 0 {
            return Some(());
        }
        let times = factor
            .checked_shr(self.zeros)?
            .wrapping_mul(self.inverse()?);
        for (factor, own) in factors.iter_mut().zip(self.factors.iter()) {
            *factor = factor.wrapping_sub(own.wrapping_mul(times));
        }
        Some(())
    }

    // The inverse modulo 2^128 of the odd part of the number's factor, by Newton's iteration, which doubles the bits that are right.
    fn inverse(&self) -> Option<i128> {
        let odd = self.factors.get(self.place)?.checked_shr(self.zeros)?;
        let mut inverse = odd.wrapping_mul(3) ^ 2;
        for _ in 0..5 {
            let error = 2i128.wrapping_sub(odd.wrapping_mul(inverse));
            inverse = inverse.wrapping_mul(error);
        }
        Some(inverse)
    }

    // The number that it is solved for, whose own value is 0 so far, by the others.
    fn number(&self, numbers: &[i128]) -> Option<i128> {
        let mut sum: i128 = 0;
        for (factor, number) in self.factors.iter().zip(numbers.iter()) {
            sum = sum.wrapping_sub(factor.wrapping_mul(*number));
        }
        // What is left after the shift has its sign.
        let shifted = sum.checked_shr(self.zeros)?;
        Some(shifted.wrapping_mul(self.inverse()?))
    }
}

// The numbers with their signs, of which so many bits are lost, over the greatest number that divides them.
fn signed(alloc: Global, numbers: &[i128], lost: u32) -> Option<Vec<i128>> {
    if lost > MOST_LOST {
        return None;
    }
    let mut list = Vec::new(alloc);
    let mut common: i128 = 0;
    for number in numbers {
        let number = number.checked_shl(lost)?.checked_shr(lost)?;
        common = divisor(common, number)?;
        list.push(number).ok()?;
    }
    for number in list.iter_mut() {
        *number = number.checked_div(common)?;
    }
    Some(list)
}
