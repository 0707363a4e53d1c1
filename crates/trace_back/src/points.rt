//! Points of reduced systems as points of the systems before.
ghost use Rattle.std.specs.Prelude.{◌≡◌, ◌≢◌, ◌++◌, ◌<◌, ℕ, MatchResult, Some, None, All, length};
ghost use Rattle.rational.specs.Rational.{zero_ℚ, ◌-ℚ◌, ◌*ℚ◌, ◌/ℚ◌};
ghost use Rattle.frac128.specs.Calculation.{first_wide};
ghost use Rattle.frac128.specs.Limit.{limit};
ghost use Rattle.lp_model.specs.Satisfaction.{values_at};
ghost use Rattle.certs.specs.Turns.{counted};
ghost use Rattle.reductions.specs.Back.{point_before, point_step_work, point_work};
ghost use Rattle.reductions.specs.Known.{IsKnownStep, IsTraceOf};
ghost use Rattle.trace_back.specs.Ends.{Gives, IsBackStop, IsPointBack};

use crate::stops::BackStop;
use certs::{Point, Values};
use dictionary::{difference, product, quotient};
use frac128::{Frac, Op, Wide};
use reductions::{Doubleton, Step, Trace};
use std::alloc::Global;

/// The point of the system before the steps that a point of the reduced system comes back to: a column that a step
/// removed has the value that the step gives it, the last step first; all other values stay.
///
/// The trace is of a system with as many columns as the point has values. `Wide` comes with the first operation
/// that is too wide, and only where one is; an operation with an operand 0 is not made. `Memory` comes where memory
/// was refused. (The method is that of Brearley, Mitra and Williams 1975; Andersen and Andersen 1995.)
pub fn point_back(alloc: Global, trace: &Trace, point: &Point) -> Result<Point, BackStop>
    requires { IsTraceOf (length point.now.values) trace.now.rows trace.now }
    ensures { MatchResult result (λ back. IsPointBack trace.now.steps point.now.values back.values)
        (IsBackStop (point_work trace.now.steps (values_at point.now.values))) }
{
    let mut values = Vec::from_slice(alloc, point.values.as_slice())?;
    all_back(trace.steps.as_slice(), &mut values)?;
    Ok(Point {
        values: Values::new(values),
    })
}

// Gives the removed columns their values, the last step first.
fn all_back(steps: &[Step], values: &mut [Frac]) -> Result<(), Wide>
    requires { (rows : ℕ) × All (IsKnownStep (length values.old) rows) steps.now }
    ensures { MatchResult result (λ done. IsPointBack steps.now values.old values.new)
        (λ wide. first_wide limit (point_work steps.now (values_at values.old)) ≡ Some wide) }
{
    let mut rest = steps;
    while let Some((step, front)) = rest.split_last() {
        step_back(step, values)?;
        rest = front;
    }
    Ok(())
}

// Gives the column that a step removed its value.
fn step_back(step: &Step, values: &mut [Frac]) -> Result<(), Wide>
    requires { (rows : ℕ) × IsKnownStep (length values.old) rows step.now }
    ensures { MatchResult result
        (λ done. (values_at values.new ≡ point_before step.now (values_at values.old))
        × (first_wide limit (point_step_work step.now (values_at values.old)) ≡ None))
        (λ wide. first_wide limit (point_step_work step.now (values_at values.old)) ≡ Some wide) }
{
    match step {
        Step::Fixed(fixed) => {
            values[fixed.column as usize] = fixed.value;
            Ok(())
        }
        Step::Doubleton(pair) => {
            let value = pair_value(pair, values[pair.x as usize])?;
            values[pair.y as usize] = value;
            Ok(())
        }
        Step::Empty(_) | Step::Singleton(_) | Step::Redundant(_) | Step::Forcing(_) => Ok(()),
    }
}

// The value of y by the equation, where x has this value.
fn pair_value(pair: &Doubleton, x: Frac) -> Result<Frac, Wide>
    requires { pair.now.b ≢ zero_ℚ }
    ensures { let rest = pair.now.c -ℚ pair.now.a *ℚ x in
        Gives result (rest /ℚ pair.now.b)
        (counted Op.Times pair.now.a x
        ++ (counted Op.Minus pair.now.c (pair.now.a *ℚ x) ++ counted Op.Over rest pair.now.b)) }
{
    let part = product(pair.a, x)?;
    let rest = difference(pair.c, part)?;
    quotient(rest, pair.b)
}
