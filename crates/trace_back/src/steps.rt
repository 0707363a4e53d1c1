//! The steps of a trace, told in short.
ghost use Rattle.std.specs.Prelude.{◌≡◌, IfOk, map};
ghost use Rattle.trace_back.specs.Listed as short;

use reductions::{ReduceStep, Step, Trace};
use std::alloc::{AllocError, Global};

/// The steps of a trace in the order in which they were made. It fails only for want of memory.
pub fn listed(alloc: Global, trace: &Trace) -> Result<Vec<ReduceStep>, AllocError>
    ensures { IfOk result (λ steps. steps.items ≡ map short.told trace.now.steps) }
{
    trace.steps.as_slice().iter().map(told).collect(alloc)
}

// A step, told in short.
fn told(step: &Step) -> ReduceStep
    ensures { result ≡ short.told step.now }
{
    match step {
        Step::Empty(row) => ReduceStep::Empty(*row),
        Step::Singleton(single) => ReduceStep::Singleton(single.row),
        Step::Fixed(fixed) => ReduceStep::Fixed(fixed.column, fixed.value),
        Step::Redundant(row) => ReduceStep::Redundant(*row),
        Step::Forcing(forcing) => ReduceStep::Forcing(forcing.row, forcing.side),
        Step::Doubleton(pair) => ReduceStep::Doubleton(pair.row, pair.y),
    }
}
