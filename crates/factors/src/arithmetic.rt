//! Exact arithmetic, without divisions where the numbers are whole and have 64 bits.
use frac128::Frac;

// The number, where it is whole and has 64 bits.
#[inline(always)]
fn word(number: Frac) -> Option<i64> {
    if number.is_whole() {
        i64::try_from(number.num()).ok()
    } else {
        None
    }
}

/// Whether the number is 0.
#[inline(always)]
pub fn is_zero(number: Frac) -> bool {
    number.num() == 0
}

/// A number less so many times a factor, where it fits.
#[inline(always)]
pub(crate) fn reduced(number: Frac, factor: Frac, times: Frac) -> Option<Frac> {
    if let Some(whole) = word(number)
        && let Some(left) = word(factor)
        && let Some(right) = word(times)
        && let Some(product) = left.checked_mul(right)
        && let Some(difference) = whole.checked_sub(product)
    {
        return Some(Frac::whole(difference));
    }
    let product = factor.times(times).ok()?;
    number.minus(product).ok()
}

/// The quotient, where it fits and the divisor is not 0.
#[inline(always)]
pub fn quotient(number: Frac, divisor: Frac) -> Option<Frac> {
    match word(divisor) {
        Some(1) => Some(number),
        Some(-1) => Some(number.negate()),
        _ => number
            .times(Frac::new(divisor.den(), divisor.num()).ok()?)
            .ok(),
    }
}

/// A number without its sign.
pub fn size(number: Frac) -> Frac {
    signed(number, number.num() >= 0)
}

/// A number, or its opposite.
pub fn signed(number: Frac, same: bool) -> Frac {
    if same { number } else { number.negate() }
}

/// How many bits the wider part of the number has.
pub fn width(number: Frac) -> u32 {
    let bits = number.num().unsigned_abs() | number.den().unsigned_abs();
    128u32.saturating_sub(bits.leading_zeros())
}
