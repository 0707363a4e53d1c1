//! The answer to a command.
ghost use Rattle.std.specs.Prelude.{◌≡◌, ◌<◌, ◌^◌, IfOk, All};
ghost use Rattle.lp_model.specs.Members.{active_members};
ghost use Rattle.lp_model.specs.MemberSets.{active_set};
ghost use Rattle.certs.specs.Order.{AreLeavesInOrder};
ghost use Rattle.certs.specs.Proof.{IsFittingNode, IsProof};
ghost use Rattle.report_text.specs.Form.{IsCommand};
ghost use Rattle.report_printer.specs.Printing.{IsKnownAnswer};
ghost use Rattle.analysis.specs.Answers.{IsNext, IsRefutedBy, budgets_of, fresh_oracle, settings_of};
ghost use Rattle.analysis.specs.Right.{BoxLaw, IsChecked, IsSolved, first_settings as settings_at_first, settings_after};

use crate::asking::{Reference, keep, quick_oracle};
use crate::diagnosing::diagnosis;
use crate::reducing::reduction;
use crate::relaxing::relaxation;
use crate::searching::{search, stopped};
use crate::sizing::too_large;
use certs::{MemberSet, Oracle, PackedPoint, Proof, Verdict, members_used};
use lp_model::Model;
use quick_answers::{Kept, QuickOracle};
use report_text::{Answer, Command, CommandSession, MemberList};
use std::alloc::{AllocError, Global};

/// What each solve may spend.
#[derive(Clone, Copy)]
pub struct Budgets {
    pub pivots: u64,
    pub nodes: u64,
}

/// What is in force before a command: what each solve may spend.
#[derive(Clone, Copy)]
pub(crate) struct Settings {
    pub(crate) budgets: Budgets,
}

/// The settings at first.
pub(crate) fn first_settings() -> Settings
    ensures { settings_of result ≡ settings_at_first }
{
    Settings {
        budgets: Budgets {
            pivots: 100_000,
            nodes: 10_000,
        },
    }
}

/// The settings after a command.
pub(crate) fn after(settings: Settings, command: &Command) -> Settings
    ensures { settings_of result ≡ settings_after (settings_of settings) command.now }
{
    let mut budgets = settings.budgets;
    match command {
        Command::Pivots(pivots) => budgets.pivots = *pivots,
        Command::Nodes(nodes) => budgets.nodes = *nodes,
        _ => {}
    }
    Settings { budgets }
}

/// The right answer to a command, where memory allows; an edit or an undo is done. What is kept of the program serves the
/// next command too, whatever is edited between: an edit changes no form.
pub(crate) fn answer(
    alloc: Global,
    session: &mut CommandSession,
    settings: Settings,
    command: &Command,
    kept: &mut Kept,
) -> Result<Answer, AllocError>
    requires built { IsCommand command.now }
    requires few { settings.budgets.pivots < 2 ^ 63 }
    ensures next { IfOk result (IsNext session.old session.new (settings_of settings) command.now) }
    ensures known { IfOk result (IsKnownAnswer session.new.model) }
{
    let budgets = settings.budgets;
    match command {
        Command::Check => check(alloc, session.model(), budgets, kept),
        Command::Iis(method) => search(alloc, session.model(), budgets, *method, kept),
        Command::Relax => relaxation(alloc, session.model(), budgets, kept),
        Command::Unbounded => diagnosis(alloc, session.model(), budgets, kept),
        Command::Reduce => reduction(alloc, session.model()),
        Command::Edit(edit) => session.take_edit(edit),
        Command::Undo => Ok(session.take_undo()),
        Command::Pivots(_) | Command::Nodes(_) => Ok(Answer::Done),
    }
}

/// Where the columns with marks stand in a box, twice its points are nodes enough for `check`.
pub fn box_has_nodes_enough()
    ensures { BoxLaw }
{}

// Whether some point satisfies the active members; or the size of the dictionary, where it passes the most.
fn check(
    alloc: Global,
    model: &Model,
    budgets: Budgets,
    kept: &mut Kept,
) -> Result<Answer, AllocError>
    requires few { budgets.pivots < 2 ^ 63 }
    ensures { IfOk result (IsChecked model.now (budgets_of budgets)) }
{
    let set = model.members(alloc)?;
    if let Some(answer) = too_large(alloc, model, &set, 0)? {
        return Ok(answer);
    }
    let mut oracle = quick_oracle(alloc, model, budgets, 0, kept);
    let answer = check_by(alloc, model, budgets, &mut oracle, &set);
    keep(kept, oracle.into_kept());
    answer
}

// Whether some point satisfies the active members, by a quick oracle. Its quick trees may take no nodes: where there is a mark
// the answer is that of the reference tree, so that a stop comes just where that one stops.
fn check_by(
    alloc: Global,
    model: &Model,
    budgets: Budgets,
    oracle: &mut QuickOracle<'_, Reference<'_>>,
    set: &MemberSet,
) -> Result<Answer, AllocError>
    requires whole { set.now ≡ active_set model.now }
    requires fresh { oracle.old.inner ≡ fresh_oracle model.now (budgets_of budgets) }
    requires no_trees { oracle.old.nodes ≡ 0 }
    ensures { IfOk result (IsSolved model.now (budgets_of budgets)) }
{
    match oracle.ask(alloc, set) {
        Ok(Verdict::Feasible(point)) => Ok(Answer::Feasible(PackedPoint::of(alloc, &point)?)),
        Ok(Verdict::Infeasible(proof)) => refuted(alloc, model, set, proof),
        Err(stop) => stopped(alloc, model, stop),
    }
}

/// The active members that a proof uses, with the proof.
pub(crate) fn refuted(
    alloc: Global,
    model: &Model,
    set: &MemberSet,
    proof: Proof,
) -> Result<Answer, AllocError>
    requires whole { set.now ≡ active_set model.now }
    requires proof { IsProof model.now (active_members model.now) proof.nodes }
    requires ordered { AreLeavesInOrder proof.nodes }
    requires fits { All IsFittingNode proof.nodes }
    ensures { IfOk result (IsRefutedBy model.now proof) }
{
    set.stands_in_order();
    let used = members_used(alloc, set, &proof)?;
    Ok(Answer::Infeasible(MemberList::of(alloc, &used)?, proof))
}
