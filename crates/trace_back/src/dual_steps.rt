//! The ways back of a dual's weights over a step.
ghost use Rattle.std.specs.Prelude.{◌≡◌, MatchResult, Some, None};
ghost use Rattle.frac128.specs.Calculation.{first_wide};
ghost use Rattle.frac128.specs.Limit.{limit};
ghost use Rattle.reductions.specs.Known.{IsKnownStep};
ghost use Rattle.trace_back.specs.Ends.{Gives, IsBackStop};
ghost use Rattle.trace_back.specs.Held.{IsHeld, IsNow, weights_in};
ghost use Rattle.trace_back.specs.Back as back;

use crate::{BackStop, Weights, given_of, lower_part, magnitude, taken_of, upper_part};
use dictionary::{difference, sum};
use frac128::{Frac, Wide};
use lp_model::Side;
use reductions::{Doubleton, Fixed, Step};
use std::alloc::Global;

/// Brings the weights of a dual back over a step.
pub(crate) fn dual_before(alloc: Global, step: &Step, weights: &mut Weights) -> Result<(), BackStop>
    requires held { IsHeld weights.old }
    requires known { IsKnownStep weights.old.columns weights.old.rows step.now }
    ensures { let w = weights_in weights.old in
        let work = back.dual_step_work weights.old.columns step.now w in
        MatchResult result
        (λ done. IsNow weights.old weights.new (back.dual_before weights.old.columns step.now w)
        × (first_wide limit work ≡ None))
        (IsBackStop work) }
{
    match step {
        Step::Fixed(fixed) => Ok(fixed_before(weights, fixed)?),
        Step::Doubleton(pair) => Ok(pair_before(weights, pair)?),
        Step::Empty(_) | Step::Singleton(_) | Step::Redundant(_) | Step::Forcing(_) => {
            crate::step_back(alloc, step, weights)
        }
    }
}

// The limits of a column with a value make up for what the rows that had it and the objective leave of it.
fn fixed_before(weights: &mut Weights, fixed: &Fixed) -> Result<(), Wide>
    requires held { IsHeld weights.old }
    requires known { IsKnownStep weights.old.columns weights.old.rows (Step.Fixed fixed.now) }
    ensures { let w = weights_in weights.old in
        let work = back.left_work weights.old.columns fixed.now w in
        MatchResult result
        (λ done. IsNow weights.old weights.new
        (back.dual_before weights.old.columns (Step.Fixed fixed.now) w)
        × (first_wide limit work ≡ None))
        (λ wide. first_wide limit work ≡ Some wide) }
{
    let taken = taken_of(weights, fixed.changes.as_slice())?;
    let left = difference(taken, fixed.objective)?;
    weights.put_parts(fixed.column, left.negate());
    Ok(())
}

// The equation and the limits of y take over from the limits of x that they made, and the equation makes up for the
// objective.
fn pair_before(weights: &mut Weights, pair: &Doubleton) -> Result<(), Wide>
    requires held { IsHeld weights.old }
    requires known { IsKnownStep weights.old.columns weights.old.rows (Step.Doubleton pair.now) }
    ensures { let w = weights_in weights.old in
        let work = back.dual_pair_work weights.old.columns pair.now w in
        MatchResult result
        (λ done. IsNow weights.old weights.new
        (back.dual_before weights.old.columns (Step.Doubleton pair.now) w)
        × (first_wide limit work ≡ None))
        (λ wide. first_wide limit work ≡ Some wide) }
{
    let row = weights.variable(pair.row);
    let asked = asked_of_equation(weights, pair)?;
    let lower = lower_part(pair, asked, weights.at(Side::Lo, pair.x))?;
    let upper = upper_part(pair, lower.times, weights.at(Side::Up, pair.x))?;
    weights.unmake(pair.x, pair.lower, pair.upper);
    weights.put_made(
        pair.y,
        pair.lower,
        pair.upper,
        magnitude(lower.worth),
        magnitude(upper.worth),
    );
    weights.put_parts(row, upper.times);
    Ok(())
}

// How often the changed rows leave the equation to be taken, with what the objective asks of it.
fn asked_of_equation(weights: &Weights, pair: &Doubleton) -> Result<Frac, Wide>
    requires held { IsHeld weights.now }
    requires known { IsKnownStep weights.now.columns weights.now.rows (Step.Doubleton pair.now) }
    ensures { let w = weights_in weights.now in
        Gives result (back.asked_of_equation weights.now.columns pair.now w)
        (back.asked_work weights.now.columns pair.now w) }
{
    let given = given_of(weights, pair.changes.as_slice())?;
    sum(given, pair.objective)
}
