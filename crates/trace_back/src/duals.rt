//! Duals of reduced systems as duals of the systems before.
ghost use Rattle.std.specs.Prelude.{◌≡◌, MatchResult, None, List, All};
ghost use Rattle.frac128.specs.Calculation.{first_wide};
ghost use Rattle.frac128.specs.Limit.{limit};
ghost use Rattle.certs.specs.System.{VariableShare};
ghost use Rattle.reductions.specs.Back.{weights_of};
ghost use Rattle.reductions.specs.Known.{IsKnownStep, IsTraceOf};
ghost use Rattle.trace_back.specs.Ends.{AreLimitShares, IsBackStop};
ghost use Rattle.trace_back.specs.Held.{IsHeld, IsNow, weights_in};
ghost use Rattle.trace_back.specs.Back as back;
ghost use Rattle.trace_back.specs.OptimalEnds.{IsDualBack};

use crate::bounds::bound_before;
use crate::dual_steps::dual_before;
use crate::{BackStop, Weights, fill, shares_of};
use certs::{Combo, Dual, Shares};
use frac128::Frac;
use reductions::{Step, Trace};
use std::alloc::Global;

/// The dual of the system before the steps that a dual of the reduced system comes back to, the last step first. Its
/// shares come back as those of a combination, but that the limits of a column that had a value, and an equation that
/// removed a column, also make up for the column's factor in the objective; and to the bound comes what that column
/// gives to the objective. The shares come in order: the sides of the rows, the lower side first; the lower limits of
/// the columns; their upper ones. None has the weight 0.
///
/// The shares given name limits of columns and sides of rows, none of them twice. `Wide` comes with the first
/// operation that is too wide, and only where one is; an operation with an operand 0 is not made. `Memory` comes
/// where memory was refused.
pub fn dual_back(alloc: Global, trace: &Trace, dual: &Dual) -> Result<Dual, BackStop>
    requires known { IsTraceOf trace.now.columns trace.now.rows trace.now }
    requires shares { (of : List VariableShare)
        × AreLimitShares trace.now.columns trace.now.rows of dual.now.combo.shares }
    ensures { let columns = trace.now.columns in
        let rows = trace.now.rows in
        let steps = trace.now.steps in
        (of : List VariableShare) → AreLimitShares columns rows of dual.now.combo.shares
        → MatchResult result (IsDualBack columns rows steps of dual.now.bound)
        (IsBackStop (back.duals_work columns steps (weights_of of) dual.now.bound)) }
{
    let mut weights = Weights::zeros(alloc, trace.columns, trace.rows)?;
    fill(&mut weights, dual.combo.shares.as_slice());
    let bound = all_back(alloc, trace.steps.as_slice(), &mut weights, dual.bound)?;
    let shares = shares_of(alloc, &weights)?;
    Ok(Dual {
        combo: Combo {
            shares: Shares::new(shares),
        },
        bound,
    })
}

// Brings the weights back over steps, the last step first, and gives the bound that comes back.
fn all_back(
    alloc: Global,
    steps: &[Step],
    weights: &mut Weights,
    bound: Frac,
) -> Result<Frac, BackStop>
    requires held { IsHeld weights.old }
    requires known { All (IsKnownStep weights.old.columns weights.old.rows) steps.now }
    ensures { let w = weights_in weights.old in
        let work = back.duals_work weights.old.columns steps.now w bound in
        MatchResult result
        (λ b. (b ≡ back.bound_back steps.now bound)
        × (IsNow weights.old weights.new (back.duals_back weights.old.columns steps.now w)
        × (first_wide limit work ≡ None)))
        (IsBackStop work) }
{
    let mut rest = steps;
    let mut so_far = bound;
    while let Some((step, front)) = rest.split_last() {
        dual_before(alloc, step, weights)?;
        so_far = bound_before(step, so_far)?;
        rest = front;
    }
    Ok(so_far)
}
