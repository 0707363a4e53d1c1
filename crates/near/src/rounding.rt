//! Exact numbers of few digits near rounded ones.
use frac128::Frac;
use guide::Rounded;

/// How many digits are tried.
pub(crate) const DIGITS: [i32; 14] = [0, 1, 2, 3, 4, 6, 8, 11, 14, 18, 22, 28, 34, 40];

// How many steps a continued fraction takes at most.
const MOST_STEPS: u32 = 60;

/// How a number is made exact.
#[derive(Clone, Copy)]
pub(crate) enum Rounding {
    /// The nearest multiple of 2^-n.
    Places(i32),
    /// The nearest number of n significant bits.
    Bits(i32),
    /// The first convergent that differs from it by less than its 2^-n-th part.
    Simple(i32),
}

/// The number, made exact.
pub(crate) fn exact(number: Rounded, rounding: Rounding) -> Option<Frac> {
    if number.mantissa == 0 {
        return Some(Frac::whole(0));
    }
    match rounding {
        Rounding::Places(places) => on_grid(number, places),
        Rounding::Bits(bits) => on_grid(number, bits.saturating_sub(number.top())),
        Rounding::Simple(bits) => simple(number, bits),
    }
}

// The multiple of 2^-places that is nearest to the number.
fn on_grid(number: Rounded, places: i32) -> Option<Frac> {
    let power = power_of_two(places.unsigned_abs())?;
    let whole = nearest(number, places)?;
    if places >= 0 {
        Frac::new(whole, power).ok()
    } else {
        Frac::new(whole.checked_mul(power)?, 1).ok()
    }
}

/// The whole number that is nearest to so many times 2^shift, rounded.
pub(crate) fn nearest(number: Rounded, shift: i32) -> Option<i128> {
    shifted(
        i128::from(number.mantissa),
        number.exponent.checked_add(shift)?,
    )
}

// The whole number that is nearest to so many times 2^shift, of a number below 2^62.
fn shifted(number: i128, shift: i32) -> Option<i128> {
    let amount = shift.unsigned_abs();
    if shift >= 0 {
        return number.checked_mul(power_of_two(amount)?);
    }
    if amount > 100 {
        return Some(0);
    }
    let half = power_of_two(amount.saturating_sub(1))?;
    Some(number.checked_add(half)? >> amount)
}

// A power of two.
fn power_of_two(exponent: u32) -> Option<i128> {
    if exponent > 126 {
        None
    } else {
        Some(1 << exponent)
    }
}

// The first convergent of a number's continued fraction that differs from it by less than its 2^-bits-th part.
fn simple(number: Rounded, bits: i32) -> Option<Frac> {
    let amount = power_of_two(number.exponent.unsigned_abs())?;
    let mantissa = i128::from(number.mantissa.unsigned_abs());
    let mut high = mantissa;
    let mut low = amount;
    if number.exponent >= 0 {
        high = mantissa.checked_mul(amount)?;
        low = 1;
    }
    let mut last = (1, 0);
    let mut before = (0, 1);
    for _ in 0..MOST_STEPS {
        let whole = high.checked_div(low)?;
        let next = (
            continued(whole, last.0, before.0)?,
            continued(whole, last.1, before.1)?,
        );
        let found = signed_quotient(next.0, next.1, number.mantissa < 0)?;
        if is_near(found, number, bits) {
            return Some(found);
        }
        before = last;
        last = next;
        let rest = high.checked_rem(low)?;
        high = low;
        low = rest;
    }
    None
}

// A part of the next convergent, from those of the last one and of the one before.
fn continued(whole: i128, last: i128, before: i128) -> Option<i128> {
    whole.checked_mul(last)?.checked_add(before)
}

// A quotient, or its negative.
fn signed_quotient(high: i128, low: i128, is_negative: bool) -> Option<Frac> {
    let quotient = Frac::new(high, low).ok()?;
    if is_negative {
        Some(quotient.negate())
    } else {
        Some(quotient)
    }
}

// Whether an exact number differs from a rounded one by less than the 2^-bits-th part of that.
fn is_near(found: Frac, number: Rounded, bits: i32) -> bool {
    let difference = Rounded::of(found).minus(number);
    difference.top() < number.top().saturating_sub(bits)
}
