//! The way back of an equation of two columns.
ghost use Rattle.std.specs.Prelude.{◌≡◌, ◌≢◌, MatchResult, Some, None};
ghost use Rattle.rational.specs.Rational.{zero_ℚ, ◌+ℚ◌, ◌-ℚ◌, ◌*ℚ◌};
ghost use Rattle.frac128.specs.Calculation.{first_wide};
ghost use Rattle.frac128.specs.Limit.{limit};
ghost use Rattle.reductions.specs.Back as back;
ghost use Rattle.reductions.specs.Known.{IsKnownStep};
ghost use Rattle.trace_back.specs.Held.{IsHeld, IsNow, weights_in};

use crate::sides::magnitude;
use crate::taking::given_of;
use crate::weights::Weights;
use dictionary::{difference, product, quotient, sum};
use frac128::{Frac, Op, Wide};
use lp_model::Side;
use reductions::{Doubleton, Step};

/// What a limit of x gives where it was made: how often the equation is taken with it, and how often a limit of y
/// is, but for the sign.
#[derive(Clone, Copy)]
pub struct Part {
    pub times: Frac,
    pub worth: Frac,
}

/// The equation and the limits of y take over from the limits of x that they made.
pub(crate) fn pair_back(weights: &mut Weights, pair: &Doubleton) -> Result<(), Wide>
    requires held { IsHeld weights.old }
    requires known { IsKnownStep weights.old.columns weights.old.rows (Step.Doubleton pair.now) }
    ensures { let w = weights_in weights.old in
        let work = back.pair_work_back weights.old.columns pair.now w in
        MatchResult result
        (λ done. IsNow weights.old weights.new (back.pair_before weights.old.columns pair.now w)
        × (first_wide limit work ≡ None))
        (λ wide. first_wide limit work ≡ Some wide) }
{
    let row = weights.variable(pair.row);
    let given = given_of(weights, pair.changes.as_slice())?;
    let lower = lower_part(pair, given, weights.at(Side::Lo, pair.x))?;
    let upper = upper_part(pair, lower.times, weights.at(Side::Up, pair.x))?;
    weights.unmake(pair.x, pair.lower, pair.upper);
    weights.put_made(
        pair.y,
        pair.lower,
        pair.upper,
        magnitude(lower.worth),
        magnitude(upper.worth),
    );
    weights.put_parts(row, upper.times);
    Ok(())
}

/// The part of the lower limit of x, which is taken away.
pub fn lower_part(pair: &Doubleton, so_far: Frac, weight: Frac) -> Result<Part, Wide>
    requires { pair.now.a ≢ zero_ℚ }
    ensures { let q = back.made_quotient pair.now.a pair.now.lower weight in
        let work = back.made_work Op.Minus pair.now so_far pair.now.lower weight in
        MatchResult result
        (λ part. (part.times ≡ so_far -ℚ q)
        × ((part.worth ≡ pair.now.b *ℚ q) × (first_wide limit work ≡ None)))
        (λ wide. first_wide limit work ≡ Some wide) }
{
    let Some(_) = pair.lower else {
        return Ok(Part {
            times: so_far,
            worth: Frac::whole(0),
        });
    };
    let quotient = quotient(weight, pair.a)?;
    let times = difference(so_far, quotient)?;
    let worth = product(pair.b, quotient)?;
    Ok(Part { times, worth })
}

/// The part of the upper limit of x, which is added.
pub fn upper_part(pair: &Doubleton, so_far: Frac, weight: Frac) -> Result<Part, Wide>
    requires { pair.now.a ≢ zero_ℚ }
    ensures { let q = back.made_quotient pair.now.a pair.now.upper weight in
        let work = back.made_work Op.Plus pair.now so_far pair.now.upper weight in
        MatchResult result
        (λ part. (part.times ≡ so_far +ℚ q)
        × ((part.worth ≡ pair.now.b *ℚ q) × (first_wide limit work ≡ None)))
        (λ wide. first_wide limit work ≡ Some wide) }
{
    let Some(_) = pair.upper else {
        return Ok(Part {
            times: so_far,
            worth: Frac::whole(0),
        });
    };
    let quotient = quotient(weight, pair.a)?;
    let times = sum(so_far, quotient)?;
    let worth = product(pair.b, quotient)?;
    Ok(Part { times, worth })
}
