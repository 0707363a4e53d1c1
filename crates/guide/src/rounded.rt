//! Rounded numbers, by operations on whole numbers alone.
use frac128::Frac;
use std::cmp::Ordering;

// How many bits a mantissa has.
const BITS: i32 = 62;
// A sum that loses more bits than these is 0.
const MOST_LOST: i32 = 44;
// Numbers are held to be equal where they differ by less than 2^-34 of 1, or of the greater one.
const EQUAL: i32 = 34;
// A product below this power of two is 0.
const LEAST: i32 = -200;

/// A whole number of 62 bits times a power of two, or 0.
#[derive(Clone, Copy)]
pub struct Rounded {
    pub mantissa: i64,
    pub exponent: i32,
}

impl Rounded {
    /// Nothing.
    pub fn zero() -> Rounded {
        Rounded {
            mantissa: 0,
            exponent: 0,
        }
    }

    /// A whole number times a power of two, cut to 62 bits.
    pub fn scaled(whole: i128, exponent: i32) -> Rounded {
        if whole == 0 {
            return Rounded::zero();
        }
        let zeros = i32::try_from(whole.unsigned_abs().leading_zeros()).unwrap_or(0);
        let shift = 128i32.saturating_sub(zeros).saturating_sub(BITS);
        let amount = shift.unsigned_abs();
        let mantissa = if shift >= 0 {
            whole.checked_shr(amount)
        } else {
            whole.checked_shl(amount)
        };
        Rounded {
            mantissa: i64::try_from(mantissa.unwrap_or(0)).unwrap_or(0),
            exponent: exponent.saturating_add(shift),
        }
    }

    /// A fraction, rounded.
    pub fn of(number: Frac) -> Rounded {
        let number_over_one = Rounded::scaled(number.num(), 0);
        if number.den() == 1 {
            return number_over_one;
        }
        number_over_one
            .over(Rounded::scaled(number.den(), 0))
            .unwrap_or(Rounded::zero())
    }

    /// Whether it is 0.
    #[inline(always)]
    pub fn is_zero(self) -> bool {
        self.mantissa == 0
    }

    /// Whether it is below 0.
    pub fn is_negative(self) -> bool {
        self.mantissa < 0
    }

    /// The opposite.
    pub fn negate(self) -> Rounded {
        Rounded {
            mantissa: self.mantissa.wrapping_neg(),
            exponent: self.exponent,
        }
    }

    /// The number without its sign.
    pub fn size(self) -> Rounded {
        if self.is_negative() {
            self.negate()
        } else {
            self
        }
    }

    /// The power of two above its size; the least number for 0.
    pub fn top(self) -> i32 {
        if self.is_zero() {
            i32::MIN
        } else {
            self.exponent.saturating_add(BITS)
        }
    }

    /// By these, sizes are ordered exactly.
    #[inline(always)]
    pub fn key(self) -> (i32, u64) {
        (self.top(), self.mantissa.unsigned_abs())
    }

    /// The sum.
    #[inline(always)]
    pub fn plus(self, other: Rounded) -> Rounded {
        if self.is_zero() {
            return other;
        }
        if other.is_zero() {
            return self;
        }
        let (high, low) = if self.exponent >= other.exponent {
            (self, other)
        } else {
            (other, self)
        };
        let shift = high.exponent.abs_diff(low.exponent);
        if shift > 62 {
            return high;
        }
        let shifted = i128::from(high.mantissa).checked_shl(shift).unwrap_or(0);
        let sum = Rounded::scaled(shifted.wrapping_add(i128::from(low.mantissa)), low.exponent);
        if sum.top() < high.top().saturating_sub(MOST_LOST) {
            return Rounded::zero();
        }
        sum
    }

    /// The difference.
    #[inline(always)]
    pub fn minus(self, other: Rounded) -> Rounded {
        self.plus(other.negate())
    }

    /// The product.
    #[inline(always)]
    pub fn times(self, other: Rounded) -> Rounded {
        let product = i128::from(self.mantissa).wrapping_mul(i128::from(other.mantissa));
        let product = Rounded::scaled(product, self.exponent.saturating_add(other.exponent));
        if product.top() < LEAST {
            return Rounded::zero();
        }
        product
    }

    /// The quotient, where the divisor is not 0.
    pub fn over(self, divisor: Rounded) -> Option<Rounded> {
        let dividend = i128::from(self.mantissa).checked_shl(62)?;
        let quotient = dividend.checked_div(i128::from(divisor.mantissa))?;
        let exponent = self.exponent.saturating_sub(divisor.exponent);
        Some(Rounded::scaled(quotient, exponent.saturating_sub(BITS)))
    }

    /// So many times a power of two.
    pub fn shifted(self, power: i32) -> Rounded {
        Rounded {
            mantissa: self.mantissa,
            exponent: self.exponent.saturating_add(power),
        }
    }

    /// The order, in which numbers that differ by little are equal.
    pub fn order(self, other: Rounded) -> Ordering {
        let difference = self.minus(other);
        let top = self.top().max(other.top()).max(0);
        if difference.top() < top.saturating_sub(EQUAL) {
            Ordering::Equal
        } else if difference.is_negative() {
            Ordering::Less
        } else {
            Ordering::Greater
        }
    }
}
