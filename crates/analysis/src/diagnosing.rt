//! Whether the objective runs away over the active members, or how far it can go.
ghost use Rattle.std.specs.Prelude.{◌≡◌, ◌<◌, ◌^◌, Err, IfOk, IfSome, Ok};
ghost use Rattle.lp_model.specs.MemberSets.{active_set};
ghost use Rattle.analysis.specs.Answers.{budgets_of};
ghost use Rattle.analysis.specs.Objectives.{IsDiagnosed, IsFoundBy, IsTold};

use crate::answering::{Budgets, refuted};
use crate::asking::{keep, quick_oracle};
use crate::searching::{is_wide, stopped};
use crate::sizing::too_large;
use certs::{MemberSet, PackedPoint, PackedRay, Stop};
use lp_model::Model;
use quick_answers::{Kept, is_small, quick_best};
use report_text::{Answer, Bounded};
use std::alloc::{AllocError, Global};
use unbounded::{Diagnosis, diagnose};

/// Whether the objective runs away over the active members, or how far it can go; or the size of their plain system with the
/// objective, where that passes the most. What is kept of the program serves the next command too.
pub(crate) fn diagnosis(
    alloc: Global,
    model: &Model,
    budgets: Budgets,
    kept: &mut Kept,
) -> Result<Answer, AllocError>
    requires few { budgets.pivots < 2 ^ 63 }
    ensures { IfOk result (IsDiagnosed model.now (budgets_of budgets)) }
{
    let set = model.members(alloc)?;
    if let Some(answer) = too_large(alloc, model, &set, 1)? {
        return Ok(answer);
    }
    diagnosed(alloc, model, budgets, &set, kept)
}

// What is told of the objective, where the dictionary is not too large: what quick runs show, or else the improve run; of a small
// set that comes second, where a number did not fit.
fn diagnosed(
    alloc: Global,
    model: &Model,
    budgets: Budgets,
    set: &MemberSet,
    kept: &mut Kept,
) -> Result<Answer, AllocError>
    requires few { budgets.pivots < 2 ^ 63 }
    requires whole { set.now ≡ active_set model.now }
    ensures { IfOk result (IsTold model.now (budgets_of budgets)) }
{
    let is_small = is_small(model, set);
    if !is_small && let Some(answer) = quickly_diagnosed(alloc, model, budgets, set, kept)? {
        return Ok(answer);
    }
    let answer = diagnosed_by_run(alloc, model, budgets, set, kept)?;
    if is_small
        && is_wide(&answer)
        && let Some(answer) = quickly_diagnosed(alloc, model, budgets, set, kept)?
    {
        return Ok(answer);
    }
    Ok(answer)
}

// What quick runs show of it.
fn quickly_diagnosed(
    alloc: Global,
    model: &Model,
    budgets: Budgets,
    set: &MemberSet,
    kept: &mut Kept,
) -> Result<Option<Answer>, AllocError>
    requires { set.now ≡ active_set model.now }
    ensures { IfOk result (λ found. IfSome found (IsTold model.now (budgets_of budgets))) }
{
    let Some(found) = quick_best(alloc, model, set, kept, budgets.pivots) else {
        return Ok(None);
    };
    let answer = told(alloc, model, budgets, set, Ok(found))?;
    Ok(Some(answer))
}

// The same by the improve run.
fn diagnosed_by_run(
    alloc: Global,
    model: &Model,
    budgets: Budgets,
    set: &MemberSet,
    kept: &mut Kept,
) -> Result<Answer, AllocError>
    requires few { budgets.pivots < 2 ^ 63 }
    requires whole { set.now ≡ active_set model.now }
    ensures { IfOk result (IsTold model.now (budgets_of budgets)) }
{
    let mut oracle = quick_oracle(alloc, model, budgets, 0, kept);
    let found = diagnose(alloc, model, &mut oracle, budgets.pivots);
    keep(kept, oracle.into_kept());
    told(alloc, model, budgets, set, found)
}

// What is found of the objective, as an answer.
fn told(
    alloc: Global,
    model: &Model,
    budgets: Budgets,
    set: &MemberSet,
    found: Result<Diagnosis, Stop>,
) -> Result<Answer, AllocError>
    requires whole { set.now ≡ active_set model.now }
    requires found { IsFoundBy model.now (budgets_of budgets) found }
    ensures { IfOk result (IsTold model.now (budgets_of budgets)) }
{
    match found {
        Ok(Diagnosis::Unbounded(point, ray)) => {
            let point = PackedPoint::of(alloc, &point)?;
            Ok(Answer::Unbounded(point, PackedRay::of(alloc, &ray)?))
        }
        Ok(Diagnosis::Bounded(point, objective, dual)) => Ok(Answer::Bounded(Bounded {
            point: PackedPoint::of(alloc, &point)?,
            objective,
            dual,
        })),
        Ok(Diagnosis::Infeasible(proof)) => refuted(alloc, model, set, proof),
        Err(stop) => stopped(alloc, model, stop),
    }
}
