//! The irreducible set that a cheapest weighting of the active members uses.
ghost use Rattle.std.specs.Prelude.{◌≡◌, ◌<◌, ◌^◌, IfOk, IfSome, None};
ghost use Rattle.lp_model.specs.Members.{active_members};
ghost use Rattle.lp_model.specs.MemberSets.{active_set};
ghost use Rattle.lp_model.specs.Satisfaction.{IsSatisfiable};
ghost use Rattle.certs.specs.Sites.{Budgets as OneBudgets};
ghost use Rattle.quick_answers.specs.Cores.{IsWeighed};
ghost use Rattle.report_text.specs.declared.report.Method.TheVariants.{Alternative};
ghost use Rattle.analysis.specs.Answers.{budgets_of, fresh_oracle, weighed_answer};
ghost use Rattle.analysis.specs.Linear.{first_mark};
ghost use Rattle.analysis.specs.Right.{IsFound, IsWeighedTold};

use crate::answering::Budgets;
use crate::asking::{Reference, keep, quick_oracle};
use crate::linear::not_weighed;
use crate::searching::{is_wide, stopped};
use crate::witnesses::{witness, witnesses};
use alt_polyhedron::{Priced, cheapest};
use certs::{MemberSet, PackedPoint, Point, Proof};
use frac128::Frac;
use linear_oracle::leaf_proof;
use lp_model::Model;
use quick_answers::{Kept, QuickCore, QuickOracle, Weighed, is_small, quick_cheapest};
use report_text::{Answer, Core, MemberList, Witnesses};
use std::alloc::{AllocError, Global};

/// The members that a cheapest weighting of the active members uses, which are irreducible, with the weighting as their
/// proof, its cost, and a price that shows that no weighting costs less (Gleeson and Ryan 1990); or a point; or the column
/// of the first active mark; or the size of the system of the alternative, where it passes the most. What is kept of the
/// program serves the next command too.
pub(crate) fn weighed_search(
    alloc: Global,
    model: &Model,
    budgets: Budgets,
    set: &MemberSet,
    kept: &mut Kept,
) -> Result<Answer, AllocError>
    requires few { budgets.pivots < 2 ^ 63 }
    requires whole { set.now ≡ active_set model.now }
    ensures { IfOk result (IsFound Alternative model.now (budgets_of budgets)) }
{
    if let Some(answer) = not_weighed(alloc, model, set)? {
        return Ok(answer);
    }
    weighed(alloc, model, budgets, set, kept)
}

// The same where there is no mark: what quick runs show, or else the run of the system of the alternative; of a small set that
// comes second, where a number did not fit.
fn weighed(
    alloc: Global,
    model: &Model,
    budgets: Budgets,
    set: &MemberSet,
    kept: &mut Kept,
) -> Result<Answer, AllocError>
    requires few { budgets.pivots < 2 ^ 63 }
    requires whole { set.now ≡ active_set model.now }
    requires linear { first_mark (active_members model.now) ≡ None }
    ensures { IfOk result (IsWeighedTold model.now (budgets_of budgets)) }
{
    let is_small = is_small(model, set);
    if !is_small && let Some(answer) = quickly_weighed(alloc, model, budgets, set, kept) {
        return Ok(answer);
    }
    let mut oracle = quick_oracle(alloc, model, budgets, budgets.nodes, kept);
    let answer = weighed_by_run(alloc, model, budgets, &mut oracle, set);
    keep(kept, oracle.into_kept());
    let answer = answer?;
    if is_small
        && is_wide(&answer)
        && let Some(answer) = quickly_weighed(alloc, model, budgets, set, kept)
    {
        return Ok(answer);
    }
    Ok(answer)
}

// What quick runs show of it.
fn quickly_weighed(
    alloc: Global,
    model: &Model,
    budgets: Budgets,
    set: &MemberSet,
    kept: &mut Kept,
) -> Option<Answer>
    requires { set.now ≡ active_set model.now }
    ensures { IfSome result (IsWeighedTold model.now (budgets_of budgets)) }
{
    let found = quick_cheapest(alloc, model, set, kept, budgets.pivots)?;
    told(alloc, model, found).ok()
}

// What they show, as an answer.
fn told(alloc: Global, model: &Model, found: Weighed) -> Result<Answer, AllocError>
    requires { IsWeighed model.now (active_members model.now) found }
    ensures { (budgets : OneBudgets) → IfOk result (IsWeighedTold model.now budgets) }
{
    match found {
        Weighed::Feasible(point) => Ok(Answer::Feasible(PackedPoint::of(alloc, &point)?)),
        Weighed::Core(core) => {
            core.members.stands_in_order();
            let QuickCore {
                members,
                proof,
                total,
                price,
                witnesses,
            } = core;
            weighed_core(alloc, members, witnesses, proof, total, &price)
        }
    }
}

// The same by the run of the system of the alternative, where there is no mark. The oracle, which was asked nothing yet, is
// asked for all of the members where they can be satisfied, and else for these members without each.
fn weighed_by_run(
    alloc: Global,
    model: &Model,
    budgets: Budgets,
    oracle: &mut QuickOracle<'_, Reference<'_>>,
    set: &MemberSet,
) -> Result<Answer, AllocError>
    requires few { budgets.pivots < 2 ^ 63 }
    requires whole { set.now ≡ active_set model.now }
    requires linear { first_mark (active_members model.now) ≡ None }
    requires inner { oracle.old.inner ≡ fresh_oracle model.now (budgets_of budgets) }
    ensures { IfOk result (IsWeighedTold model.now (budgets_of budgets)) }
{
    set.stands_in_order();
    match cheapest(alloc, model, set, budgets.pivots) {
        Ok(Priced::Feasible) => satisfied(alloc, model, budgets, oracle, set),
        Ok(
            Priced::Set {
                members,
                combo,
                total,
                price,
            },
        ) => match witnesses(alloc, model, budgets, oracle, &members) {
            Ok(points) => {
                members.stands_in_order();
                let proof = leaf_proof(alloc, combo)?;
                weighed_core(alloc, members, points, proof, total, &price)
            }
            Err(stop) => stopped(alloc, model, stop),
        },
        Err(stop) => stopped(alloc, model, stop),
    }
}

// A point of the active members, where some point satisfies them.
fn satisfied(
    alloc: Global,
    model: &Model,
    budgets: Budgets,
    oracle: &mut QuickOracle<'_, Reference<'_>>,
    set: &MemberSet,
) -> Result<Answer, AllocError>
    requires whole { set.now ≡ active_set model.now }
    requires can { IsSatisfiable model.now (active_members model.now) }
    requires inner { oracle.old.inner ≡ fresh_oracle model.now (budgets_of budgets) }
    ensures { IfOk result (IsWeighedTold model.now (budgets_of budgets)) }
{
    match witness(alloc, model, budgets, oracle, set) {
        Ok(point) => Ok(Answer::Feasible(PackedPoint::of(alloc, &point)?)),
        Err(stop) => stopped(alloc, model, stop),
    }
}

// Members with their witnesses as an answer, with a proof, and a total with its price.
fn weighed_core(
    alloc: Global,
    members: MemberSet,
    witnesses: Vec<PackedPoint>,
    proof: Proof,
    total: Frac,
    price: &Point,
) -> Result<Answer, AllocError>
    ensures { let answer = weighed_answer members witnesses.items proof (total, price.now) in
        IfOk result (λ told. told ≡ answer) }
{
    let price = PackedPoint::of(alloc, price)?;
    Ok(Answer::Irreducible(Core {
        members: MemberList::of(alloc, &members)?,
        witnesses: Witnesses::new(witnesses),
        proof,
        rounds: None,
        price: Some((total, price)),
    }))
}
