//! The ways back of a row of one column, and of a column with a value.
ghost use Rattle.std.specs.Prelude.{◌≡◌, ◌≢◌, MatchResult, Some, None};
ghost use Rattle.rational.specs.Rational.{zero_ℚ};
ghost use Rattle.frac128.specs.Calculation.{first_wide};
ghost use Rattle.frac128.specs.Limit.{limit};
ghost use Rattle.certs.specs.Improves as improves;
ghost use Rattle.reductions.specs.Back as back;
ghost use Rattle.reductions.specs.Known.{IsKnownStep};
ghost use Rattle.trace_back.specs.Ends.{Gives};
ghost use Rattle.trace_back.specs.Held.{IsHeld, IsNow, weights_in};

use crate::sides::magnitude;
use crate::taking::taken_of;
use crate::weights::Weights;
use dictionary::quotient;
use frac128::{Frac, Wide};
use lp_model::Side;
use reductions::{Fixed, Singleton, Step};

/// The sides of a row of one column take over from the limits that they made.
pub(crate) fn single_back(weights: &mut Weights, single: &Singleton) -> Result<(), Wide>
    requires held { IsHeld weights.old }
    requires known { IsKnownStep weights.old.columns weights.old.rows (Step.Singleton single.now) }
    ensures { let w = weights_in weights.old in
        MatchResult result
        (λ done. IsNow weights.old weights.new (back.single_before weights.old.columns single.now w)
        × (first_wide limit (back.single_work_back single.now w) ≡ None))
        (λ wide. first_wide limit (back.single_work_back single.now w) ≡ Some wide) }
{
    let row = weights.variable(single.row);
    let lower = made_quotient(
        single.factor,
        single.lower,
        weights.at(Side::Lo, single.column),
    )?;
    let upper = made_quotient(
        single.factor,
        single.upper,
        weights.at(Side::Up, single.column),
    )?;
    weights.unmake(single.column, single.lower, single.upper);
    weights.put_made(row, single.lower, single.upper, lower, upper);
    Ok(())
}

// The weight of a limit that was made over the magnitude of the factor, and 0 for one that was not.
fn made_quotient(factor: Frac, made: Option<Side>, weight: Frac) -> Result<Frac, Wide>
    requires { factor ≢ zero_ℚ }
    ensures { Gives result (back.made_quotient (improves.magnitude factor) made weight)
        (back.single_side_work factor made weight) }
{
    match made {
        None => Ok(Frac::whole(0)),
        Some(_) => quotient(weight, magnitude(factor)),
    }
}

/// The limits of a column with a value make up for what the rows that had it leave of it.
pub(crate) fn fixed_back(weights: &mut Weights, fixed: &Fixed) -> Result<(), Wide>
    requires held { IsHeld weights.old }
    requires known { IsKnownStep weights.old.columns weights.old.rows (Step.Fixed fixed.now) }
    ensures { let w = weights_in weights.old in
        let work = back.taken_work weights.old.columns w zero_ℚ fixed.now.changes in
        MatchResult result
        (λ done. IsNow weights.old weights.new
        (back.fixed_before weights.old.columns fixed.now.column fixed.now.changes w)
        × (first_wide limit work ≡ None))
        (λ wide. first_wide limit work ≡ Some wide) }
{
    let taken = taken_of(weights, fixed.changes.as_slice())?;
    weights.put_parts(fixed.column, taken.negate());
    Ok(())
}
