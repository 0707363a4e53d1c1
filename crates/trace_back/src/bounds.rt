//! The way back of a dual's bound.
ghost use Rattle.rational.specs.Rational.{◌+ℚ◌, ◌*ℚ◌};
ghost use Rattle.trace_back.specs.Ends.{Gives};
ghost use Rattle.trace_back.specs.Back as back;

use dictionary::{product, sum};
use frac128::{Frac, Wide};
use reductions::Step;

/// The bound before a step: with what the column that it removed gives to the objective.
pub(crate) fn bound_before(step: &Step, bound: Frac) -> Result<Frac, Wide>
    ensures { Gives result (back.bound_before step.now bound)
        (back.bound_step_work step.now bound) }
{
    match step {
        Step::Fixed(fixed) => with_product(bound, fixed.objective, fixed.value),
        Step::Doubleton(pair) => with_product(bound, pair.objective, pair.c),
        Step::Empty(_) | Step::Singleton(_) | Step::Redundant(_) | Step::Forcing(_) => Ok(bound),
    }
}

// A number with a product added.
fn with_product(so_far: Frac, factor: Frac, value: Frac) -> Result<Frac, Wide>
    ensures { Gives result (so_far +ℚ factor *ℚ value) (back.added_work so_far factor value) }
{
    let product = product(factor, value)?;
    sum(so_far, product)
}
