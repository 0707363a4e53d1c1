//! Combinations of reduced systems as combinations of the systems before.
ghost use Rattle.std.specs.Prelude.{◌≡◌, MatchResult, None, List, All};
ghost use Rattle.frac128.specs.Calculation.{first_wide};
ghost use Rattle.frac128.specs.Limit.{limit};
ghost use Rattle.certs.specs.System.{VariableShare};
ghost use Rattle.reductions.specs.Back as back;
ghost use Rattle.reductions.specs.Known.{IsKnownStep, IsTraceOf};
ghost use Rattle.trace_back.specs.Ends.{AreLimitShares, AreSharesBack, IsBackStop};
ghost use Rattle.trace_back.specs.Held.{IsHeld, IsNow, weights_in};

use crate::doubletons::pair_back;
use crate::filling::fill;
use crate::forcing::forcing_back;
use crate::listing::shares_of;
use crate::singletons::{fixed_back, single_back};
use crate::stops::BackStop;
use crate::weights::Weights;
use certs::{Combo, Shares};
use reductions::{Step, Trace};
use std::alloc::Global;

/// The combination of the system before the steps that a combination of the reduced system comes back to: what is
/// taken of a limit that a step made goes to the row and the limits that it came from, and the limits of a column
/// that a step removed make up for what is left of it, the last step first. The shares come in order: the sides of
/// the rows, the lower side first; the lower limits of the columns; their upper ones. None has the weight 0.
///
/// The shares given name limits of columns and sides of rows, none of them twice. `Wide` comes with the first
/// operation that is too wide, and only where one is; an operation with an operand 0 is not made. `Memory` comes
/// where memory was refused. (The method is that of Brearley, Mitra and Williams 1975; Andersen and Andersen 1995.)
pub fn combo_back(alloc: Global, trace: &Trace, combo: &Combo) -> Result<Combo, BackStop>
    requires known { IsTraceOf trace.now.columns trace.now.rows trace.now }
    requires shares { (of : List VariableShare)
        × AreLimitShares trace.now.columns trace.now.rows of combo.now.shares }
    ensures { let columns = trace.now.columns in
        (of : List VariableShare) → AreLimitShares columns trace.now.rows of combo.now.shares
        → MatchResult result
        (λ combo. AreSharesBack columns trace.now.rows trace.now.steps of combo.shares)
        (IsBackStop (back.weights_work columns trace.now.steps (back.weights_of of))) }
{
    let mut weights = Weights::zeros(alloc, trace.columns, trace.rows)?;
    fill(&mut weights, combo.shares.as_slice());
    all_back(alloc, trace.steps.as_slice(), &mut weights)?;
    let shares = shares_of(alloc, &weights)?;
    Ok(Combo {
        shares: Shares::new(shares),
    })
}

// Brings the weights back over steps, the last step first.
fn all_back(alloc: Global, steps: &[Step], weights: &mut Weights) -> Result<(), BackStop>
    requires held { IsHeld weights.old }
    requires known { All (IsKnownStep weights.old.columns weights.old.rows) steps.now }
    ensures { let w = weights_in weights.old in
        MatchResult result
        (λ done. IsNow weights.old weights.new (back.weights_back weights.old.columns steps.now w)
        × (first_wide limit (back.weights_work weights.old.columns steps.now w) ≡ None))
        (IsBackStop (back.weights_work weights.old.columns steps.now w)) }
{
    let mut rest = steps;
    while let Some((step, front)) = rest.split_last() {
        step_back(alloc, step, weights)?;
        rest = front;
    }
    Ok(())
}

/// Brings the weights back over a step.
pub fn step_back(alloc: Global, step: &Step, weights: &mut Weights) -> Result<(), BackStop>
    requires held { IsHeld weights.old }
    requires known { IsKnownStep weights.old.columns weights.old.rows step.now }
    ensures { let w = weights_in weights.old in
        MatchResult result
        (λ done. IsNow weights.old weights.new (back.weights_before weights.old.columns step.now w)
        × (first_wide limit (back.weights_step_work weights.old.columns step.now w) ≡ None))
        (IsBackStop (back.weights_step_work weights.old.columns step.now w)) }
{
    match step {
        Step::Empty(_) | Step::Redundant(_) => Ok(()),
        Step::Singleton(single) => Ok(single_back(weights, single)?),
        Step::Fixed(fixed) => Ok(fixed_back(weights, fixed)?),
        Step::Forcing(forcing) => forcing_back(alloc, weights, forcing),
        Step::Doubleton(pair) => Ok(pair_back(weights, pair)?),
    }
}
