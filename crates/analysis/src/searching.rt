//! Searches for irreducible sets of the active members, and stops of solves as answers.
ghost use Rattle.std.specs.Prelude.{◌≡◌, ◌<◌, ◌^◌, IfErr, IfOk};
ghost use Rattle.lp_model.specs.MemberSets.{active_set};
ghost use Rattle.analysis.specs.Answers.{IsAnswerOf, IsFoundInOrder, IsRunStop, IsToldStop, answer_of, budgets_of};
ghost use Rattle.analysis.specs.Right.{IsCoreFound, IsEarlyFound, IsFound, IsLateFound};

use crate::answering::Budgets;
use crate::asking::{keep, quick_oracle, reference_oracle};
use crate::enforcing::enforced_search;
use crate::sizing::too_large;
use crate::telling::told_site;
use crate::weighing::weighed_search;
use certs::{Irreducible, MemberSet, PackedPoint, Stop};
use lp_model::Model;
use quick_answers::{Kept, is_small};
use report_text::{Answer, Core, MemberList, Method, ToldStop, Witnesses};
use std::alloc::{AllocError, Global};

/// What a method leaves of the active members, where no point satisfies them; or a point, or a stop; or the size of the
/// dictionary, where it passes the most. What is kept of the program serves the next command too.
pub(crate) fn search(
    alloc: Global,
    model: &Model,
    budgets: Budgets,
    method: Method,
    kept: &mut Kept,
) -> Result<Answer, AllocError>
    requires few { budgets.pivots < 2 ^ 63 }
    ensures { IfOk result (IsFound method model.now (budgets_of budgets)) }
{
    let set = model.members(alloc)?;
    match (method, too_large(alloc, model, &set, 0)?) {
        (Method::Elastic, _) => enforced_search(alloc, model, budgets, &set, kept),
        (Method::Alternative, _) => weighed_search(alloc, model, budgets, &set, kept),
        (_, Some(answer)) => Ok(answer),
        (Method::Deletion, None) => late_search(alloc, model, budgets, &set, kept),
        (Method::Additive, None) => early_search(alloc, model, budgets, &set, kept),
        (Method::Sensitivity, None) => core_search(alloc, model, budgets, &set, kept),
    }
}

// What the deletion filter leaves of the active members, by a quick oracle.
fn late_search(
    alloc: Global,
    model: &Model,
    budgets: Budgets,
    set: &MemberSet,
    kept: &mut Kept,
) -> Result<Answer, AllocError>
    requires few { budgets.pivots < 2 ^ 63 }
    requires whole { set.now ≡ active_set model.now }
    ensures { IfOk result (IsLateFound model.now (budgets_of budgets)) }
{
    let mut oracle = quick_oracle(alloc, model, budgets, budgets.nodes, kept);
    let given = deletion_filter::isolate(alloc, &mut oracle, set);
    keep(kept, oracle.into_kept());
    concluded(alloc, model, None, given)
}

// What the additive filter leaves of the active members, by a quick oracle.
fn early_search(
    alloc: Global,
    model: &Model,
    budgets: Budgets,
    set: &MemberSet,
    kept: &mut Kept,
) -> Result<Answer, AllocError>
    requires few { budgets.pivots < 2 ^ 63 }
    requires whole { set.now ≡ active_set model.now }
    ensures { IfOk result (IsEarlyFound model.now (budgets_of budgets)) }
{
    let mut oracle = quick_oracle(alloc, model, budgets, budgets.nodes, kept);
    let given = additive_filter::isolate(alloc, &mut oracle, set);
    keep(kept, oracle.into_kept());
    concluded(alloc, model, None, given)
}

// A point of the active members by quick runs, or else what the sensitivity filter leaves of them; of a small set that comes
// second, where a number did not fit.
fn core_search(
    alloc: Global,
    model: &Model,
    budgets: Budgets,
    set: &MemberSet,
    kept: &mut Kept,
) -> Result<Answer, AllocError>
    requires few { budgets.pivots < 2 ^ 63 }
    requires whole { set.now ≡ active_set model.now }
    ensures { IfOk result (IsCoreFound model.now (budgets_of budgets)) }
{
    let Budgets { pivots, nodes } = budgets;
    let is_small = is_small(model, set);
    if !is_small && let Some(point) = kept.find_point(alloc, model, set, pivots, nodes) {
        return Ok(Answer::Feasible(PackedPoint::of(alloc, &point)?));
    }
    let answer = core_search_by_run(alloc, model, budgets, set, kept)?;
    if is_small
        && is_wide(&answer)
        && let Some(point) = kept.find_point(alloc, model, set, pivots, nodes)
    {
        return Ok(Answer::Feasible(PackedPoint::of(alloc, &point)?));
    }
    Ok(answer)
}

// What the sensitivity filter leaves of the active members, by a quick oracle. It asks for all of them by a run of the budget,
// since the first core is the one of that run.
fn core_search_by_run(
    alloc: Global,
    model: &Model,
    budgets: Budgets,
    set: &MemberSet,
    kept: &mut Kept,
) -> Result<Answer, AllocError>
    requires few { budgets.pivots < 2 ^ 63 }
    requires whole { set.now ≡ active_set model.now }
    ensures { IfOk result (IsCoreFound model.now (budgets_of budgets)) }
{
    let mut first = reference_oracle(alloc, model, budgets);
    let mut oracle = quick_oracle(alloc, model, budgets, budgets.nodes, kept);
    let given = sensitivity_filter::isolate_with(alloc, &mut first, &mut oracle, set);
    keep(kept, oracle.into_kept());
    concluded(alloc, model, None, given)
}

/// What a filter gives, with the rounds before it, as an answer.
pub(crate) fn concluded(
    alloc: Global,
    model: &Model,
    rounds: Option<u64>,
    given: Result<Irreducible, Stop>,
) -> Result<Answer, AllocError>
    requires { IfErr given (IsRunStop model.now) }
    ensures { IfOk result (IsAnswerOf model.now rounds given) }
{
    match given {
        Ok(found) => isolated(alloc, rounds, found),
        Err(stop) => stopped(alloc, model, stop),
    }
}

// What a filter finds, with the rounds before it, as an answer.
fn isolated(alloc: Global, rounds: Option<u64>, found: Irreducible) -> Result<Answer, AllocError>
    ensures given { IfOk result (λ answer. answer ≡ answer_of rounds found) }
    ensures in_order { IsFoundInOrder found }
{
    match found {
        Irreducible::Set {
            members,
            witnesses,
            proof,
        } => {
            members.stands_in_order();
            Ok(Answer::Irreducible(Core {
                members: MemberList::of(alloc, &members)?,
                witnesses: Witnesses::new(witnesses),
                proof,
                rounds,
                price: None,
            }))
        }
        Irreducible::Feasible(point) => Ok(Answer::Feasible(PackedPoint::of(alloc, &point)?)),
    }
}

/// A stop of a run as an answer, but for want of memory.
pub(crate) fn stopped(alloc: Global, model: &Model, stop: Stop) -> Result<Answer, AllocError>
    requires { IsRunStop model.now stop }
    ensures { IfOk result (IsToldStop model.now stop) }
{
    let told = match stop {
        Stop::Wide(site, turn, wide) => ToldStop::Wide(told_site(alloc, model, site)?, turn, wide),
        Stop::Pivots(site) => ToldStop::Pivots(told_site(alloc, model, site)?),
        Stop::Nodes(site) => ToldStop::Nodes(told_site(alloc, model, site)?),
        Stop::Large(_) => unreachable!(),
        Stop::Memory => return Err(AllocError),
    };
    Ok(Answer::Stopped(told))
}

/// Whether an answer is that a number did not fit.
pub(crate) fn is_wide(answer: &Answer) -> bool {
    matches!(answer, Answer::Stopped(ToldStop::Wide(..)))
}
