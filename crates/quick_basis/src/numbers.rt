//! Numbers of the factored basis.
use factors::quotient;
use frac128::Frac;
use lp_model::Term;
use std::alloc::Global;

/// Whether both parts of a number fit 32 bits.
pub fn is_narrow(number: Frac) -> bool {
    i32::try_from(number.num()).is_ok() && i32::try_from(number.den()).is_ok()
}

/// The number above 0 with which the terms' factors become whole numbers that no number above 1 divides all together with it.
pub(crate) fn scale_of(terms: &[Term]) -> Option<Frac> {
    let mut multiple = Frac::whole(1);
    for term in terms {
        multiple = common_multiple(multiple, term.factor)?;
    }
    let mut divisor = multiple;
    for term in terms {
        if divisor.num() == 1 {
            break;
        }
        // Over the divisor in lowest terms a factor keeps what the divisor does not share.
        let rest = quotient(term.factor.times(multiple).ok()?, divisor)?;
        divisor = quotient(divisor, Frac::new(rest.den(), 1).ok()?)?;
    }
    quotient(multiple, divisor)
}

/// The least whole number above 0 that a whole one and the denominator of a number divide.
pub(crate) fn common_multiple(whole: Frac, number: Frac) -> Option<Frac> {
    let den = number.den();
    if den == 1 {
        return Some(whole);
    }
    // In lowest terms the quotient's denominator is what the number's has besides.
    let rest = Frac::new(whole.num(), den).ok()?;
    whole.times(Frac::new(rest.den(), 1).ok()?).ok()
}
