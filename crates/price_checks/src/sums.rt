//! Sums of products.
ghost use Rattle.std.specs.Prelude.{◌≡◌, ◌<◌, MatchResult, Some, None, All, length};
ghost use Rattle.rational.specs.Rational.{◌+ℚ◌, ◌*ℚ◌};
ghost use Rattle.rational.specs.Linear.{form_value};
ghost use Rattle.frac128.specs.Limit.{limit};
ghost use Rattle.frac128.specs.Calculation.{first_wide};
ghost use Rattle.lp_model.specs.Satisfaction.{values_at};
ghost use Rattle.lp_model.specs.Evaluation.{value_operations};
ghost use Rattle.certs.specs.Combination.{signed as signed_on};
ghost use Rattle.certs.specs.Checks.{share_operations, signed_terms};

use frac128::{Frac, Wide};
use lp_model::{Side, Term};

/// The value of a form, negated on `Lo`: the terms in order, each factor negated on `Lo` times the value of its column, from 0.
/// An error is the first operation that is too wide, and comes just where one is.
///
/// The terms name columns of which there is a value.
pub(crate) fn signed_value(side: Side, terms: &[Term], values: &[Frac]) -> Result<Frac, Wide>
    requires { All (λ t. t.column < length values.now) terms.now }
    ensures { let x = values_at values.now in
        let work = value_operations (signed_terms side terms.now) x in
        MatchResult result
        (λ v. (v ≡ signed_on side (form_value terms.now x)) × (first_wide limit work ≡ None))
        (λ w. first_wide limit work ≡ Some w) }
{
    let mut sum = Frac::whole(0);
    for term in terms {
        let factor = signed(side, term.factor);
        sum = added(sum, factor, values[term.column as usize])?;
    }
    Ok(sum)
}

/// A number, negated on `Lo`.
pub(crate) fn signed(side: Side, number: Frac) -> Frac
    ensures { result ≡ signed_on side number }
{
    match side {
        Side::Lo => number.negate(),
        Side::Up => number,
    }
}

/// The sum with a product more. An error is the first operation that is too wide, and comes just where one is.
pub(crate) fn added(sum: Frac, a: Frac, b: Frac) -> Result<Frac, Wide>
    ensures { let work = share_operations sum Side.Up a b in
        MatchResult result
        (λ r. (r ≡ sum +ℚ a *ℚ b) × (first_wide limit work ≡ None))
        (λ w. first_wide limit work ≡ Some w) }
{
    let product = a.times(b)?;
    sum.plus(product)
}
