//! How little of the active members must give way.
ghost use Rattle.std.specs.Prelude.{◌≡◌, ◌<◌, ◌^◌, None, IfOk, IfSome};
ghost use Rattle.lp_model.specs.Members.{active_members};
ghost use Rattle.lp_model.specs.MemberSets.{active_set};
ghost use Rattle.certs.specs.Sites.{Budgets as OneBudgets};
ghost use Rattle.certs.specs.Violation.{rigid_members};
ghost use Rattle.relaxation.specs.Laws.{RefutesEnforced};
ghost use Rattle.relaxation.specs.Relaxed.{IsRelaxed};
ghost use Rattle.analysis.specs.Answers.{budgets_of};
ghost use Rattle.analysis.specs.Least.{IsLeastTold, IsRelaxation};
ghost use Rattle.analysis.specs.Linear.{first_mark};

use crate::answering::Budgets;
use crate::linear::not_begun;
use crate::searching::{is_wide, stopped};
use certs::{Combo, MemberSet, PackedPoint, members_used};
use least_checks::rigid_set;
use linear_oracle::leaf_proof;
use lp_model::Model;
use quick_answers::{Kept, is_small, quick_least};
use relaxation::{Relaxed, relax};
use report_text::{Answer, MemberList};
use std::alloc::{AllocError, Global};

/// How little of the active members must give way: a point of least weighted violation among those that satisfy the rigid
/// ones, with the dual that shows so; or a combination of the rigid ones; or the column of the first active mark; or the size
/// of the elastic system, where it passes the most (Chinneck 2008). What is kept of the program serves the next command too.
pub(crate) fn relaxation(
    alloc: Global,
    model: &Model,
    budgets: Budgets,
    kept: &mut Kept,
) -> Result<Answer, AllocError>
    requires few { budgets.pivots < 2 ^ 63 }
    ensures { IfOk result (IsRelaxation model.now (budgets_of budgets)) }
{
    let set = model.members(alloc)?;
    let rigid = rigid_set(alloc, model, &set)?;
    if let Some(answer) = not_begun(alloc, model, &set, &rigid)? {
        return Ok(answer);
    }
    relaxed(alloc, model, budgets, &set, kept)
}

// What is told of it, where there is no mark: what quick runs show, or else the run of the elastic system; of a small set that
// comes second, where a number did not fit.
fn relaxed(
    alloc: Global,
    model: &Model,
    budgets: Budgets,
    set: &MemberSet,
    kept: &mut Kept,
) -> Result<Answer, AllocError>
    requires few { budgets.pivots < 2 ^ 63 }
    requires whole { set.now ≡ active_set model.now }
    requires linear { first_mark (active_members model.now) ≡ None }
    ensures { IfOk result (IsLeastTold model.now (budgets_of budgets)) }
{
    let is_small = is_small(model, set);
    if !is_small && let Some(answer) = quickly_relaxed(alloc, model, budgets, set, kept)? {
        return Ok(answer);
    }
    let answer = relaxed_by_run(alloc, model, budgets, set)?;
    if is_small
        && is_wide(&answer)
        && let Some(answer) = quickly_relaxed(alloc, model, budgets, set, kept)?
    {
        return Ok(answer);
    }
    Ok(answer)
}

// What quick runs show of it.
fn quickly_relaxed(
    alloc: Global,
    model: &Model,
    budgets: Budgets,
    set: &MemberSet,
    kept: &mut Kept,
) -> Result<Option<Answer>, AllocError>
    requires { set.now ≡ active_set model.now }
    ensures { IfOk result (λ found. IfSome found (IsLeastTold model.now (budgets_of budgets))) }
{
    let Some(found) = quick_least(alloc, model, set, kept, budgets.pivots) else {
        return Ok(None);
    };
    let answer = told(alloc, model, set, found)?;
    Ok(Some(answer))
}

// The same by the run of the elastic system.
fn relaxed_by_run(
    alloc: Global,
    model: &Model,
    budgets: Budgets,
    set: &MemberSet,
) -> Result<Answer, AllocError>
    requires few { budgets.pivots < 2 ^ 63 }
    requires whole { set.now ≡ active_set model.now }
    requires linear { first_mark (active_members model.now) ≡ None }
    ensures { IfOk result (IsLeastTold model.now (budgets_of budgets)) }
{
    set.stands_in_order();
    match relax(alloc, model, set, budgets.pivots) {
        Ok(found) => told(alloc, model, set, found),
        Err(stop) => stopped(alloc, model, stop),
    }
}

// What is found, as an answer.
fn told(alloc: Global, model: &Model, set: &MemberSet, found: Relaxed) -> Result<Answer, AllocError>
    requires whole { set.now ≡ active_set model.now }
    requires found { IsRelaxed model.now (active_members model.now) found }
    ensures { (budgets : OneBudgets) → IfOk result (IsLeastTold model.now budgets) }
{
    match found {
        Relaxed::Least { point, dual } => {
            Ok(Answer::Least(PackedPoint::of(alloc, &point)?, dual))
        }
        Relaxed::RigidInfeasible(combo) => rigid_refuted(alloc, model, set, combo),
    }
}

// The rigid members that a combination uses, with a proof of one leaf.
fn rigid_refuted(
    alloc: Global,
    model: &Model,
    set: &MemberSet,
    combo: Combo,
) -> Result<Answer, AllocError>
    requires whole { set.now ≡ active_set model.now }
    requires refutes { let rigid = rigid_members model.now (active_members model.now) in
        RefutesEnforced model.now rigid combo.shares }
    ensures { (budgets : OneBudgets) → IfOk result (IsLeastTold model.now budgets) }
{
    set.stands_in_order();
    let proof = leaf_proof(alloc, combo)?;
    let used = members_used(alloc, set, &proof)?;
    Ok(Answer::RigidInfeasible(MemberList::of(alloc, &used)?, proof))
}
