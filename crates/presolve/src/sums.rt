//! The least and the greatest sum of a row.
ghost use Rattle.std.specs.Prelude.{◌≡◌, ◌<◌, ◌∷◌, [], All, MatchOption, None, Some, true, false, length};
ghost use Rattle.rational.specs.Rational.{◌+ℚ◌, ◌*ℚ◌};
ghost use Rattle.frac128.specs.Width.{operation};
ghost use Rattle.frac128.specs.declared.Op.TheVariants.{Plus, Times};
ghost use Rattle.reductions.specs.Limited.{extreme as extreme_of, is_narrow, taken as limit_taken, taken_value as value_taken};

use crate::limits::{column_limits, limit_on, turned};
use certs::System;
use frac128::Frac;
use lp_model::{Side, Term};

/// The limit of a term's column that the least sum (`Lo`) or the greatest sum (`Up`) takes.
pub(crate) fn taken(system: &System, side: Side, term: Term) -> Option<Frac>
    requires { term.column < length system.now.columns }
    ensures { result ≡ limit_taken system.now side term }
{
    limit_on(
        column_limits(system, term.column),
        turned(term.factor, side),
    )
}

/// The same limit, or 0 where there is none.
pub(crate) fn taken_value(system: &System, side: Side, term: Term) -> Frac
    requires { term.column < length system.now.columns }
    ensures { result ≡ value_taken system.now side term }
{
    match taken(system, side, term) {
        Some(limit) => limit,
        None => Frac::whole(0),
    }
}

// The sum with a product more, where neither is too wide.
fn with_product(sum: Frac, factor: Frac, limit: Frac) -> Option<Frac>
    ensures { let work = operation Times factor limit ∷ operation Plus sum (factor *ℚ limit) ∷ [] in
        MatchOption result (is_narrow work ≡ false)
        (λ r. (r ≡ sum +ℚ factor *ℚ limit) × (is_narrow work ≡ true)) }
{
    let Ok(product) = factor.times(limit) else {
        return None;
    };
    match sum.plus(product) {
        Ok(sum) => Some(sum),
        Err(_) => None,
    }
}

/// The least sum (`Lo`) or the greatest sum (`Up`) of terms where the columns are within their limits: none where a
/// limit that it takes is missing, or an operation is too wide.
pub(crate) fn extreme(system: &System, side: Side, terms: &[Term]) -> Option<Frac>
    requires { All (λ t. t.column < length system.now.columns) terms.now }
    ensures { result ≡ extreme_of system.now side terms.now }
{
    let mut sum = Frac::whole(0);
    for term in terms {
        let limit = taken(system, side, *term)?;
        sum = with_product(sum, term.factor, limit)?;
    }
    Some(sum)
}
