//! Signs of fractions and of literals.
ghost use Rattle.std.specs.Prelude.{◌≡◌};
ghost use Rattle.rational.specs.Rational.{lt_q};
ghost use Rattle.mps_reader.specs.Sides.{magnitude as magnitude_of, is_negative as is_literal_negative, is_positive as is_literal_positive};

use frac128::{Frac, Literal};

/// Whether a number is less than another.
pub fn is_less(a: Frac, b: Frac) -> bool
    ensures { result ≡ lt_q a b }
{
    a < b
}

/// Whether a literal is below 0.
pub fn is_negative(literal: &Literal) -> bool
    ensures { result ≡ is_literal_negative literal.now }
{
    match *literal {
        Literal::Fits(value) => is_less(value, Frac::whole(0)),
        Literal::TooWide { negative, .. } => negative,
    }
}

/// Whether a literal is above 0.
pub fn is_positive(literal: &Literal) -> bool
    ensures { result ≡ is_literal_positive literal.now }
{
    match *literal {
        Literal::Fits(value) => is_less(Frac::whole(0), value),
        Literal::TooWide { negative, .. } => !negative,
    }
}

/// The magnitude of a value.
pub fn magnitude(value: Frac) -> Frac
    ensures { result ≡ magnitude_of value }
{
    if is_less(value, Frac::whole(0)) {
        return value.negate();
    }
    value
}
