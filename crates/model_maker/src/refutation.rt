//! That production plans cannot be met.
ghost use Rattle.model_maker.specs.Refutation.{UnsatisfiableLaw};

/// No values of the columns satisfy the active members of a plan, of any number of periods but 0.
pub fn plan_is_unsatisfiable()
    ensures { UnsatisfiableLaw }
{}
