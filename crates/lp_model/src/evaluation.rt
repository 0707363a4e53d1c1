//! The value of a form at a point, and whether it is within sides.
ghost use Rattle.std.specs.Prelude.{◌≡◌, ◌<◌, ◌↔◌, MatchResult, Some, None, IsTrue, IfSome, All, length};
ghost use Rattle.rational.specs.Linear.{form_value};
ghost use Rattle.frac128.specs.Limit.{limit};
ghost use Rattle.frac128.specs.Calculation.{first_wide};
ghost use Rattle.lp_model.specs.Satisfaction.{values_at, IsAtLeast, IsAtMost};
ghost use Rattle.lp_model.specs.Evaluation.{value_operations};

use crate::parts::Term;
use frac128::{CommonSum, Frac, Wide};

/// The value of a form where each column has its value, or the first operation that is too wide.
pub(crate) fn value_of(terms: &[Term], values: &[Frac]) -> Result<Frac, Wide>
    requires { All (λ t. t.column < length values.now) terms.now }
    ensures { MatchResult result
        (λ v. (v ≡ form_value terms.now (values_at values.now)) × (first_wide limit (value_operations terms.now (values_at values.now)) ≡ None))
        (λ w. first_wide limit (value_operations terms.now (values_at values.now)) ≡ Some w) }
{
    if let Some(value) = common_value(terms, values) {
        return Ok(value);
    }
    let mut sum = Frac::whole(0);
    for term in terms {
        let product = term.factor.times(values[term.column as usize])?;
        sum = sum.plus(product)?;
    }
    Ok(sum)
}

// The value of the form by a sum over a common denominator, where its numbers are small: then no operation is too wide.
fn common_value(terms: &[Term], values: &[Frac]) -> Option<Frac>
    requires { All (λ t. t.column < length values.now) terms.now }
    ensures { IfSome result (λ v. (v ≡ form_value terms.now (values_at values.now)) ×
        (first_wide limit (value_operations terms.now (values_at values.now)) ≡ None)) }
{
    let mut sum = CommonSum::new();
    for term in terms {
        sum = sum.plus_product(term.factor, values[term.column as usize])?;
    }
    Some(sum.value())
}

/// Whether a value is at least a side, where it is there.
pub(crate) fn is_at_least(side: Option<Frac>, value: Frac) -> bool
    ensures { IsTrue result ↔ IsAtLeast side value }
{
    match side {
        Some(lower) => lower <= value,
        None => true,
    }
}

/// Whether a value is at most a side, where it is there.
pub(crate) fn is_at_most(side: Option<Frac>, value: Frac) -> bool
    ensures { IsTrue result ↔ IsAtMost side value }
{
    match side {
        Some(upper) => value <= upper,
        None => true,
    }
}
