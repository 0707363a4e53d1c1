//! Rays of reduced systems as rays of the systems before.
ghost use Rattle.std.specs.Prelude.{◌≡◌, ◌≢◌, ◌++◌, ℕ, MatchResult, Some, None, All, length};
ghost use Rattle.rational.specs.Rational.{zero_ℚ, neg_ℚ, ◌*ℚ◌, ◌/ℚ◌};
ghost use Rattle.frac128.specs.Calculation.{first_wide};
ghost use Rattle.frac128.specs.Limit.{limit};
ghost use Rattle.lp_model.specs.Satisfaction.{values_at};
ghost use Rattle.certs.specs.Turns.{counted};
ghost use Rattle.reductions.specs.Known.{IsKnownStep, IsTraceOf};
ghost use Rattle.trace_back.specs.Ends.{Gives, IsBackStop};
ghost use Rattle.trace_back.specs.Back.{ray_before, ray_step_work, ray_work};
ghost use Rattle.trace_back.specs.OptimalEnds.{IsRayBack};

use crate::BackStop;
use certs::{Ray, Values};
use dictionary::{product, quotient};
use frac128::{Frac, Op, Wide};
use reductions::{Doubleton, Step, Trace};
use std::alloc::Global;

/// The ray of the system before the steps that a ray of the reduced system comes back to: a column that had a value
/// does not move, a column that an equation removed moves as the equation asks, the last step first; all other
/// columns move as they do.
///
/// The trace is of a system with as many columns as the ray has values. `Wide` comes with the first operation that is
/// too wide, and only where one is; an operation with an operand 0 is not made. `Memory` comes where memory was
/// refused.
pub fn ray_back(alloc: Global, trace: &Trace, ray: &Ray) -> Result<Ray, BackStop>
    requires { IsTraceOf (length ray.now.values) trace.now.rows trace.now }
    ensures { MatchResult result (λ back. IsRayBack trace.now.steps ray.now.values back.values)
        (IsBackStop (ray_work trace.now.steps (values_at ray.now.values))) }
{
    let mut values = Vec::from_slice(alloc, ray.values.as_slice())?;
    all_back(trace.steps.as_slice(), &mut values)?;
    Ok(Ray {
        values: Values::new(values),
    })
}

// Moves the removed columns, the last step first.
fn all_back(steps: &[Step], values: &mut [Frac]) -> Result<(), Wide>
    requires { (rows : ℕ) × All (IsKnownStep (length values.old) rows) steps.now }
    ensures { MatchResult result (λ done. IsRayBack steps.now values.old values.new)
        (λ wide. first_wide limit (ray_work steps.now (values_at values.old)) ≡ Some wide) }
{
    let mut rest = steps;
    while let Some((step, front)) = rest.split_last() {
        step_back(step, values)?;
        rest = front;
    }
    Ok(())
}

// Moves the column that a step removed.
fn step_back(step: &Step, values: &mut [Frac]) -> Result<(), Wide>
    requires { (rows : ℕ) × IsKnownStep (length values.old) rows step.now }
    ensures { MatchResult result
        (λ done. (values_at values.new ≡ ray_before step.now (values_at values.old))
        × (first_wide limit (ray_step_work step.now (values_at values.old)) ≡ None))
        (λ wide. first_wide limit (ray_step_work step.now (values_at values.old)) ≡ Some wide) }
{
    match step {
        Step::Fixed(fixed) => {
            values[fixed.column as usize] = Frac::whole(0);
            Ok(())
        }
        Step::Doubleton(pair) => {
            let change = pair_move(pair, values[pair.x as usize])?;
            values[pair.y as usize] = change;
            Ok(())
        }
        Step::Empty(_) | Step::Singleton(_) | Step::Redundant(_) | Step::Forcing(_) => Ok(()),
    }
}

// How y moves by the equation, where x moves so.
fn pair_move(pair: &Doubleton, x: Frac) -> Result<Frac, Wide>
    requires { pair.now.b ≢ zero_ℚ }
    ensures { let ratio = neg_ℚ (pair.now.a /ℚ pair.now.b) in
        Gives result (ratio *ℚ x)
        (counted Op.Over pair.now.a pair.now.b ++ counted Op.Times ratio x) }
{
    let ratio = quotient(pair.a, pair.b)?;
    product(ratio.negate(), x)
}
