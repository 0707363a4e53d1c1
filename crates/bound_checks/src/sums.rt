//! The columns' sums beside the objective, and the right side.
ghost use Rattle.std.specs.Prelude.{◌≡◌, [], MatchResult, Some, None, All, ℕ, length};
ghost use Rattle.rational.specs.Rational.{zero_ℚ, eq_ℚ};
ghost use Rattle.rational.specs.Linear.{factor_of};
ghost use Rattle.frac128.specs.Limit.{limit};
ghost use Rattle.frac128.specs.Calculation.{first_wide};
ghost use Rattle.lp_model.specs.Program.{IsForm};
ghost use Rattle.lp_model.specs.Satisfaction.{values_at};
ghost use Rattle.certs.specs.Combination.{right_side as right_of};
ghost use Rattle.certs.specs.Bound.{directed as directed_of};
ghost use Rattle.certs.specs.Checks.{every, every_below, right_operations};

use crate::sources::source_number;
use certs::{Share, plus_product};
use frac128::{Frac, Wide};
use lp_model::{Model, Term};

/// Whether the sums are the factors of the objective, each negated when minimising. What is left of the sums
/// tells nothing.
pub(crate) fn are_factors(model: &Model, sums: &mut [Frac]) -> bool
    requires { length sums.old ≡ length model.now.columns }
    ensures { let factor = factor_of model.now.objective in
        let same = λ (j : ℕ). eq_ℚ (values_at sums.old j) (directed_of model.now (factor j)) in
        result ≡ every_below same (length model.now.columns) }
{
    // That the objective is a form in the program's columns is told with the count.
    let _rows = model.row_count();
    are_terms(model, model.objective(), sums)
}

// Whether the sums are the factors of a form, each negated when minimising. A sum that is a term's is made 0.
fn are_terms(model: &Model, terms: &[Term], sums: &mut [Frac]) -> bool
    requires { IsForm (length sums.old) terms.now }
    ensures { let factor = factor_of terms.now in
        let same = λ (j : ℕ). eq_ℚ (values_at sums.old j) (directed_of model.now (factor j)) in
        result ≡ every_below same (length sums.old) }
{
    for term in terms {
        if sums[term.column as usize] != directed(model, term.factor) {
            return false;
        }
        sums[term.column as usize] = Frac::whole(0);
    }
    are_zero(sums)
}

/// Whether all sums are 0.
pub fn are_zero(sums: &[Frac]) -> bool
    ensures { result ≡ every (λ q. eq_ℚ q zero_ℚ) sums.now }
{
    let zero = Frac::whole(0);
    for sum in sums {
        if *sum != zero {
            return false;
        }
    }
    true
}

/// A value of the objective, negated when minimising.
pub fn directed(model: &Model, number: Frac) -> Frac
    ensures { result ≡ directed_of model.now number }
{
    if model.maximise() {
        return number;
    }
    number.negate()
}

/// Sets all sums to 0.
pub fn clear(sums: &mut [Frac])
    ensures length { length sums.new ≡ length sums.old }
    ensures zero { All (λ q. q ≡ zero_ℚ) sums.new }
{
    sums.fill(Frac::whole(0));
}

/// The right side: the number of each share times its weight, in order from 0, plus where its source is on `Up` and minus where
/// it is on `Lo`. An error is the first operation that is too wide, and comes just where one is.
pub fn right_side(model: &Model, shares: &[Share]) -> Result<Frac, Wide>
    ensures { let work = right_operations model.now [] zero_ℚ shares.now in
        MatchResult result
        (λ r. (r ≡ right_of model.now [] shares.now) × (first_wide limit work ≡ None))
        (λ w. first_wide limit work ≡ Some w) }
{
    let zero = Frac::whole(0);
    let mut sum = zero;
    for share in shares {
        let number = source_number(model, share.source).unwrap_or(zero);
        sum = plus_product(sum, share.source.side(), number, share.weight)?;
    }
    Ok(sum)
}
