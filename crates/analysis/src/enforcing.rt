//! What the elastic filter leaves of the active members.
ghost use Rattle.std.specs.Prelude.{◌≡◌, ◌<◌, ◌^◌, IfOk, None};
ghost use Rattle.lp_model.specs.Members.{active_members};
ghost use Rattle.lp_model.specs.MemberSets.{active_set};
ghost use Rattle.report_text.specs.declared.report.Method.TheVariants.{Elastic};
ghost use Rattle.analysis.specs.Answers.{budgets_of};
ghost use Rattle.analysis.specs.Linear.{first_mark};
ghost use Rattle.analysis.specs.Right.{IsEnforcedTold, IsFound};

use crate::answering::Budgets;
use crate::asking::{keep, quick_oracle};
use crate::linear::not_begun;
use crate::searching::{concluded, stopped};
use certs::{MemberSet, PackedPoint};
use elastic_filter::{Enforced, enforce};
use lp_model::Model;
use quick_answers::{Kept, QuickStretcher};
use report_text::Answer;
use std::alloc::{AllocError, Global};
use std::mem;

/// What the deletion filter leaves of the active members that the rounds of the elastic filter enforce, with the number of
/// rounds; or a point; or the column of the first active mark; or the size of the elastic system of all active members, where it
/// passes the most (Chinneck and Dravnieks 1991). The rounds go by quick runs where what these suggest is confirmed. What is
/// kept of the program serves the rounds, then the deletion filter, and the next command too.
pub(crate) fn enforced_search(
    alloc: Global,
    model: &Model,
    budgets: Budgets,
    set: &MemberSet,
    kept: &mut Kept,
) -> Result<Answer, AllocError>
    requires few { budgets.pivots < 2 ^ 63 }
    requires whole { set.now ≡ active_set model.now }
    ensures { IfOk result (IsFound Elastic model.now (budgets_of budgets)) }
{
    let none = set.emptied(alloc)?;
    if let Some(answer) = not_begun(alloc, model, set, &none)? {
        return Ok(answer);
    }
    enforced(alloc, model, budgets, set, kept)
}

// The same where there is no mark.
fn enforced(
    alloc: Global,
    model: &Model,
    budgets: Budgets,
    set: &MemberSet,
    kept: &mut Kept,
) -> Result<Answer, AllocError>
    requires few { budgets.pivots < 2 ^ 63 }
    requires whole { set.now ≡ active_set model.now }
    requires linear { first_mark (active_members model.now) ≡ None }
    ensures { IfOk result (IsEnforcedTold model.now (budgets_of budgets)) }
{
    set.stands_in_order();
    let taken = mem::replace(kept, Kept::new());
    let mut stretcher = QuickStretcher::new(alloc, model, taken, budgets.pivots);
    let ended = enforce(alloc, &mut stretcher, set);
    keep(kept, stretcher.into_kept());
    match ended {
        Ok(
            Enforced::Set {
                members,
                rounds,
                ..
            },
        ) => {
            let mut oracle = quick_oracle(alloc, model, budgets, budgets.nodes, kept);
            let given = deletion_filter::isolate(alloc, &mut oracle, &members);
            keep(kept, oracle.into_kept());
            concluded(alloc, model, Some(rounds), given)
        }
        Ok(Enforced::Feasible(point)) => Ok(Answer::Feasible(PackedPoint::of(alloc, &point)?)),
        Err(stop) => stopped(alloc, model, stop),
    }
}
