//! The loop of a reduction.
ghost use Rattle.std.specs.Prelude.{◌≡◌, ◌+◌, ◌<◌, ◌^◌, IfOk, length};
ghost use Rattle.reductions.specs.Laws.{IsFormed};
ghost use Rattle.presolve.specs.Reduced.{IsReductionOf};

use crate::looking::next_found;
use crate::making::make;
use crate::plans::Next;
use crate::quiet::Quiet;
use crate::reduction::Reduction;
use crate::stages::Stage;
use certs::{Combo, System};
use lp_model::Items;
use reductions::{Step, Trace};
use std::alloc::{AllocError, Global};

/// Reduces a system: makes the step of the first rule that finds something, at the least place, and again in the
/// system that this leaves, until no rule finds anything or one finds a contradiction. It asks for a formed system
/// of fewer than 2^31 columns and rows. A step whose numbers are too wide is not found, so no number is ever
/// refused. (Brearley, Mitra and Williams 1975; Andersen and Andersen 1995.)
///
/// # Errors
///
/// There is no memory for the rows that are left, the steps, or what they make.
pub fn reduce(alloc: Global, system: System) -> Result<Reduction, AllocError>
    requires formed { IsFormed system }
    requires small { length system.columns + length system.rows < 2 ^ 31 }
    ensures { IfOk result (IsReductionOf system) }
{
    let columns = system.columns.len() as u32;
    let rows = system.rows.len() as u32;
    let live = vec![in alloc; true; system.rows.len()]?;
    let mut quiet = Quiet::new(alloc, system.rows.len())?;
    let mut stage = Stage { system, live };
    let mut steps: Vec<Step> = Vec::new(alloc);
    loop {
        let Some(next) = next_found(alloc, &stage, &mut quiet)? else {
            return Ok(Reduction::Reduced {
                system: stage.system,
                trace: trace_of(columns, rows, steps),
            });
        };
        let plan = match next {
            Next::Plan(plan) => plan,
            Next::Contradiction(shares) => {
                return Ok(Reduction::Decided {
                    combo: Combo { shares },
                    trace: trace_of(columns, rows, steps),
                });
            }
        };
        quiet.wake(alloc, &stage.system, &plan)?;
        let step = make(&mut stage, plan);
        steps.push(step)?;
    }
}

// The trace of these steps.
fn trace_of(columns: u32, rows: u32, steps: Vec<Step>) -> Trace
    ensures columns { result.columns ≡ columns }
    ensures rows { result.rows ≡ rows }
    ensures steps { result.steps ≡ steps.items }
{
    Trace {
        columns,
        rows,
        steps: Items::new(steps),
    }
}
