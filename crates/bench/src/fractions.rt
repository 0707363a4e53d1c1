//! Sums and products of small fractions: what `bench/fractions.sh` measures.

use frac128::Frac;

// A small fraction that changes with the turn.
fn make(turn: u64, step: u64) -> Frac {
    let numerator = (turn.wrapping_mul(step) % 19) as i128 - 9;
    let denominator = (turn.wrapping_mul(step).wrapping_add(turn) % 12) as i128 + 1;
    match Frac::new(numerator, denominator) {
        Ok(value) => value,
        Err(_) => Frac::whole(1),
    }
}

// What is added to the check sum for a fraction.
fn mix(sum: u64, value: Frac) -> u64 {
    let numerator = (value.num().unsigned_abs() & 0xffff_ffff) as u64;
    let denominator = (value.den().unsigned_abs() & 0xffff_ffff) as u64;
    sum.wrapping_mul(31)
        .wrapping_add(numerator)
        .wrapping_mul(31)
        .wrapping_add(denominator)
}

/// The check sum over so many turns, each with a sum and a product.
pub(crate) fn run(count: u64) -> u64 {
    let mut sum = 0u64;
    for turn in 0..count {
        let left = make(turn, 7);
        let right = make(turn, 11);
        if let Ok(value) = left.plus(right) {
            sum = mix(sum, value);
        }
        if let Ok(value) = left.times(right) {
            sum = mix(sum, value);
        }
    }
    sum
}
