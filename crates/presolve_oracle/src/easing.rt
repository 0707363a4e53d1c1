//! Sets whose plain systems their reduction makes easy.
ghost use Rattle.std.specs.Prelude.{◌≡◌, ◌≢◌, ◌≤◌, ◌<◌, ◌^◌, [], ℕ, false, IfOk, List};
ghost use Rattle.lp_model.specs.Program.{IsWellFormed, Program};
ghost use Rattle.lp_model.specs.declared.members.Member.{Member as OneMember};
ghost use Rattle.certs.specs.Checks.{IsSetOf};
ghost use Rattle.two_widths.specs.Ends.{IsStopOf};
ghost use Rattle.presolve.specs.Reduced.{IsReductionOf};
ghost use Rattle.presolve.specs.declared.reduction.Reduction.TheVariants.{Reduced};
ghost use Rattle.presolve_laws.specs.Answers.{set_system};
ghost use Rattle.presolve_laws.specs.Eased.{IsEased};
ghost use Rattle.presolve_oracle.specs.Easing.{IsEasing, IsEasingEnd};

use crate::backs::{cut_back, infeasible, shares_back, values_back};
use certs::{MemberSet, Stop, System, Verdict, plain_system};
use linear_oracle::stop_end;
use lp_model::Model;
use presolve::{Reduction, reduce};
use reductions::Trace;
use simplex::RunStop;
use std::alloc::{AllocError, Global};
use two_widths::{End, solve};

/// What the reduction of a set's plain system leads to.
#[derive(Drop)]
pub enum Easing {
    /// A verdict that comes back.
    Back(Verdict),
    /// Nothing is reduced, and the system's own run stops so.
    Stopped(Stop),
    /// Nothing comes back, and the system's own run is still to be made.
    Uneased,
}

/// What the reduction of the set's plain system leads to: a verdict of what decides there, or of the run of what is
/// left, with so many pivots, exactly where the system is eased. The pivots that the run makes are added to a count.
///
/// # Errors
///
/// There is no memory for the system, its reduction, the run, or the way back.
pub(crate) fn eased(
    alloc: Global,
    model: &Model,
    set: &MemberSet,
    pivots: u64,
    made: &mut u64,
) -> Result<Easing, AllocError>
    requires same { IsSetOf model.now set.now }
    requires budget { pivots < 2 ^ 63 }
    ensures eased { IfOk result (IsEasingEnd model.now set.now.members pivots) }
    ensures made { made.old ≤ made.new }
{
    // With the counts it is told that the program is well formed, and that it has few rows and columns.
    let _rows = model.row_count();
    let _columns = model.column_count();
    let system = plain_system(alloc, model, set, false)?;
    let reduction = reduce(alloc, system)?;
    match reduction {
        Reduction::Reduced { system, trace } => {
            run_back(alloc, model, set, &system, &trace, pivots, made)
        }
        Reduction::Decided { combo, trace } => {
            let proof = cut_back(alloc, model, set, &trace, &combo)?;
            Ok(easing_of(infeasible(proof)))
        }
    }
}

// What leads to a verdict, or to nothing.
fn easing_of(found: Option<Verdict>) -> Easing
    ensures { (model : Program) (set : List OneMember) (pivots : ℕ)
        → IsEasing model set pivots found → IsEasingEnd model set pivots result }
{
    match found {
        Some(verdict) => Easing::Back(verdict),
        None => Easing::Uneased,
    }
}

// Whether a run stops because memory was refused.
fn is_refused(stop: &RunStop) -> bool
    ensures { result ≡ false → stop.now ≢ RunStop.Memory }
{
    match stop {
        RunStop::Memory => true,
        _ => false,
    }
}

// What a run that stops leads to: where nothing was reduced it is the plain system's own run.
fn stopped(alloc: Global, set: &MemberSet, trace: &Trace, stop: RunStop) -> Easing
    ensures { (model : Program) (pivots : ℕ) → let system = set_system model set.now.members in
        IsSetOf model set.now → (IsEased system pivots → ⊥)
        → (trace.now.steps ≡ [] → IsStopOf system pivots stop)
        → IsEasingEnd model set.now.members pivots result }
{
    if trace.steps.as_slice().is_empty() {
        Easing::Stopped(stop_end(alloc, set, &[], stop))
    } else {
        Easing::Uneased
    }
}

// The same, or want of memory where the run was refused it.
fn stop_told(
    alloc: Global,
    set: &MemberSet,
    trace: &Trace,
    stop: RunStop,
) -> Result<Easing, AllocError>
    ensures { (model : Program) (pivots : ℕ) → let system = set_system model set.now.members in
        IsSetOf model set.now → (stop ≢ RunStop.Memory → IsEased system pivots → ⊥)
        → (trace.now.steps ≡ [] → IsStopOf system pivots stop)
        → IfOk result (IsEasingEnd model set.now.members pivots) }
{
    if is_refused(&stop) {
        return Err(AllocError);
    }
    Ok(stopped(alloc, set, trace, stop))
}

// What the run of the reduced system gives, brought back. The pivots that it makes are added to a count.
fn run_back(
    alloc: Global,
    model: &Model,
    set: &MemberSet,
    system: &System,
    trace: &Trace,
    pivots: u64,
    made: &mut u64,
) -> Result<Easing, AllocError>
    requires same { IsSetOf model.now set.now }
    requires budget { pivots < 2 ^ 63 }
    requires formed { IsWellFormed model.now }
    requires reduced { IsReductionOf (set_system model.now set.now.members)
        (Reduced system.now trace.now) }
    ensures eased { IfOk result (IsEasingEnd model.now set.now.members pivots) }
    ensures made { made.old ≤ made.new }
{
    let solved = match solve(alloc, system, pivots) {
        Ok(solved) => solved,
        Err(stop) => return stop_told(alloc, set, trace, stop),
    };
    *made = made.saturating_add(solved.made);
    match solved.end {
        End::Feasible => {
            let found = values_back(alloc, &solved.dictionary, trace)?;
            Ok(easing_of(found))
        }
        End::Infeasible(variable) => {
            let found = shares_back(alloc, model, set, &solved.dictionary, trace, variable)?;
            Ok(easing_of(found))
        }
        End::Optimal => unreachable!(),
        End::Ray(_) => unreachable!(),
    }
}
