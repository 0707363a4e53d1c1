//! Sums of products over a common denominator.

ghost use Rattle.std.specs.Prelude.{◌≡◌, ◌/◌, ◌<◌, ◌≤◌, ◌*ℤ◌, pos, unsigned_abs, IfSome};
ghost use Rattle.rational.specs.Rational.{zero_ℚ};
ghost use Rattle.frac128.specs.Calculation.{AddsProduct};
ghost use Rattle.frac128.specs.Form.{IsCommon};
ghost use Rattle.frac128.specs.Limit.{limit};

use crate::Frac;
use crate::divisors::word_divisor;
use crate::raw::{MAX_PART, lowest, product_of, scaled, sum_within};
use std::marker::Model;

/// A sum of products as a whole number over a denominator of them all, which is not brought to lowest terms.
#[derive(Drop)]
pub struct CommonSum {
    num: i128,
    den: u64,
}

// Clauses see the sum.
impl Model for CommonSum {
    ghost use Rattle.rational.specs.Rational.{ℚ, frac};

    ghost Value = { ℚ };

    ghost use Rattle.frac128.specs.Form.{IsOver};

    ghost view = { λ s. frac s.num s.den };

    ghost invariant = { λ s. IsOver s.num s.den };
}

impl CommonSum {
    /// No product yet.
    pub fn new() -> CommonSum
        ensures { result ≡ zero_ℚ }
    {
        CommonSum { num: 0, den: 1 }
    }

    /// With a product more; or nothing where a number over the common denominator does not fit, which may be so where no
    /// operation of `Frac` is too wide.
    pub fn plus_product(self, factor: Frac, value: Frac) -> Option<CommonSum>
        ensures { IfSome result (AddsProduct self factor value) }
    {
        let CommonSum { num, den } = self;
        let top = product_of(factor.num, value.num, MAX_PART)?;
        if top == 0 {
            return Some(self);
        }
        let bottom = word(factor.den)?.checked_mul(word(value.den)?)?;
        let common = common_multiple(den, bottom)?;
        let left = over(num, den, common)?;
        let right = over(top, bottom, common)?;
        Some(CommonSum {
            num: sum_within(left, right, MAX_PART)?,
            den: common,
        })
    }

    /// The sum, which always fits.
    pub fn value(self) -> Frac
        ensures { result ≡ self }
    {
        let CommonSum { num, den } = self;
        match lowest(num < 0, num.unsigned_abs(), u128::from(den)) {
            Some(parts) => Frac::of(parts),
            None => unreachable!(),
        }
    }
}

// The number in 64 bits, where it has no more.
fn word(number: u128) -> Option<u64>
    ensures { IfSome result (λ word. word ≡ number) }
{
    u64::try_from(number).ok()
}

// A common multiple, where it fits: the one number, where it is one, and else their least.
fn common_multiple(a: u64, b: u64) -> Option<u64>
    requires left { 0 < a }
    requires right { 0 < b }
    ensures { IfSome result (IsCommon a b) }
{
    if a % b == 0 {
        return Some(a);
    }
    let least = (a / word_divisor(a, b)).checked_mul(b)?;
    Some(least)
}

// The numerator over a multiple of the denominator, where it fits.
fn over(num: i128, den: u64, multiple: u64) -> Option<i128>
    requires some { 0 < den }
    requires fits { unsigned_abs num ≤ limit }
    ensures is { IfSome result (λ n. n ≡ num *ℤ pos (multiple / den)) }
    ensures fits { IfSome result (λ n. unsigned_abs n ≤ limit) }
{
    if den == multiple {
        return Some(num);
    }
    scaled(num, u128::from(multiple / den), MAX_PART)
}
