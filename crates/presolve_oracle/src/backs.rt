//! Ends of reduced systems, brought back to a set.
ghost use Rattle.std.specs.Prelude.{◌≡◌, ◌≤◌, ◌<◌, ℕ, List, IfOk, None, IsSome, true, length};
ghost use Rattle.std.specs.Option.{option_map};
ghost use Rattle.frac128.specs.Calculation.{Calculation, first_wide};
ghost use Rattle.frac128.specs.Limit.{limit};
ghost use Rattle.lp_model.specs.Program.{IsWellFormed, Program};
ghost use Rattle.lp_model.specs.declared.members.Member.{Member as OneMember};
ghost use Rattle.certs.specs.Checks.{IsSetOf};
ghost use Rattle.certs.specs.Runs.End.{Feasible as IsFeasible, Infeasible as IsInfeasible};
ghost use Rattle.certs.specs.System.{VariableShare};
ghost use Rattle.certs.specs.Turns.{limited, settle_choice, settle_values};
ghost use Rattle.dictionary.specs.Value.{tableau_of};
ghost use Rattle.simplex.specs.Ends.{IsEnd};
ghost use Rattle.simplex.specs.declared.settling.Settled.TheVariants.{Feasible, Infeasible};
ghost use Rattle.reductions.specs.Known.{IsTraceOf};
ghost use Rattle.reductions.specs.Reduction.{IsReduced};
ghost use Rattle.reductions.specs.Stage.{Stage};
ghost use Rattle.presolve.specs.Reduced.{LeadsTo};
ghost use Rattle.trace_back.specs.Ends.{AreLimitShares, IsBackStop};
ghost use Rattle.linear_oracle.specs.Ended.{HasEnded};
ghost use Rattle.presolve_laws.specs.Answers.{set_system};
ghost use Rattle.presolve_oracle.specs.Easing.{IsCutBack, IsEasing};

use certs::{Combo, MemberSet, Proof, Verdict, named_combo};
use dictionary::Dictionary;
use frac128::Frac;
use linear_oracle::leaf_proof;
use lp_model::Model;
use reductions::Trace;
use simplex::{combo_of, point_of};
use std::alloc::{AllocError, Global};
use trace_back::{BackStop, combo_back, point_back};

/// The values at the end of a run that settles, brought back; nothing where that is too wide.
///
/// # Errors
///
/// There is no memory for the values.
pub(crate) fn values_back(
    alloc: Global,
    dictionary: &Dictionary<Frac>,
    trace: &Trace,
) -> Result<Option<Verdict>, AllocError>
    requires usable { dictionary.now.usable ≡ true }
    requires columns { dictionary.now.columns ≤ limited (tableau_of dictionary.now) }
    requires settled { IsEnd Feasible (settle_choice (tableau_of dictionary.now)) }
    requires narrow { first_wide limit (settle_values (tableau_of dictionary.now)) ≡ None }
    requires trace { IsTraceOf dictionary.now.columns trace.now.rows trace.now }
    ensures { (model : Program) (set : List OneMember) (pivots : ℕ) (last : Stage)
        → LeadsTo (set_system model set) trace.now last → IsReduced last
        → HasEnded last.system pivots dictionary.now IsFeasible
        → IfOk result (IsEasing model set pivots) }
{
    let point = point_of(alloc, dictionary)?;
    match point_back(alloc, trace, &point) {
        Ok(back) => Ok(Some(Verdict::Feasible(back))),
        Err(stop) => none_where_wide(stop),
    }
}

/// The combination at the end of a run that is infeasible by a variable, brought back; nothing where that is too wide.
///
/// # Errors
///
/// There is no memory for the shares.
pub(crate) fn shares_back(
    alloc: Global,
    model: &Model,
    set: &MemberSet,
    dictionary: &Dictionary<Frac>,
    trace: &Trace,
    variable: u32,
) -> Result<Option<Verdict>, AllocError>
    requires formed { IsWellFormed model.now }
    requires same { IsSetOf model.now set.now }
    requires usable { dictionary.now.usable ≡ true }
    requires columns { dictionary.now.columns ≤ limited (tableau_of dictionary.now) }
    requires blocked { IsEnd (Infeasible variable) (settle_choice (tableau_of dictionary.now)) }
    requires narrow { first_wide limit (settle_values (tableau_of dictionary.now)) ≡ None }
    requires reduced { (last : Stage)
        × (LeadsTo (set_system model.now set.now.members) trace.now last × (IsReduced last
        × ((pivots : ℕ) × HasEnded last.system pivots dictionary.now (IsInfeasible variable)))) }
    ensures { (pivots : ℕ) (last : Stage)
        → LeadsTo (set_system model.now set.now.members) trace.now last → IsReduced last
        → HasEnded last.system pivots dictionary.now (IsInfeasible variable)
        → IfOk result (IsEasing model.now set.now.members pivots) }
{
    let combo = combo_of(alloc, dictionary, variable)?;
    let proof = cut_back(alloc, model, set, trace, &combo)?;
    Ok(infeasible(proof))
}

/// The proof of one leaf that a combination of a reduced system comes back to, as a combination of the set; nothing
/// where the way back is too wide.
///
/// The trace is of the set's plain system, and the combination names limits of its columns and sides of its rows, none
/// of them twice.
///
/// # Errors
///
/// There is no memory for the shares.
pub fn cut_back(
    alloc: Global,
    model: &Model,
    set: &MemberSet,
    trace: &Trace,
    combo: &Combo,
) -> Result<Option<Proof>, AllocError>
    requires same { IsSetOf model.now set.now }
    requires trace { let system = set_system model.now set.now.members in
        IsTraceOf (length system.columns) (length system.rows) trace.now }
    requires shares { let system = set_system model.now set.now.members in
        (of : List VariableShare)
        × AreLimitShares (length system.columns) (length system.rows) of combo.now.shares }
    ensures { let system = set_system model.now set.now.members in
        (of : List VariableShare)
        → AreLimitShares (length system.columns) (length system.rows) of combo.now.shares
        → IfOk result (IsCutBack model.now set.now.members trace.now.steps of) }
{
    let back = match combo_back(alloc, trace, combo) {
        Ok(back) => back,
        Err(stop) => return none_where_wide(stop),
    };
    let named = named_combo(alloc, model, set, &back)?;
    let proof = leaf_proof(alloc, named)?;
    Ok(Some(proof))
}

/// The infeasible verdict of a proof, where there is one.
pub(crate) fn infeasible(proof: Option<Proof>) -> Option<Verdict>
    ensures { result ≡ option_map (λ p. Verdict.Infeasible p) proof }
{
    match proof {
        Some(proof) => Some(Verdict::Infeasible(proof)),
        None => None,
    }
}

// Nothing where an operation is too wide; want of memory is passed on.
fn none_where_wide<T>(stop: BackStop) -> Result<Option<T>, AllocError>
    ensures { IfOk result (λ found. (found ≡ None)
        × ((work : Calculation) → IsBackStop work stop → IsSome (first_wide limit work))) }
{
    match stop {
        BackStop::Wide(_) => Ok(None),
        BackStop::Memory => Err(AllocError),
    }
}
