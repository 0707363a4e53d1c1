//! Whether the entries of a report hold.
ghost use Rattle.std.specs.Prelude.{◌≡◌, ◌+◌, ◌<◌, [], List, MatchResult, None, OnOk, length, flat_map};
ghost use Rattle.lp_model.specs.Program.{Program};
ghost use Rattle.lp_model.specs.Members.{active_members};
ghost use Rattle.certs.specs.Checks.{IsSetOf};
ghost use Rattle.report_text.specs.History.{history_of};
ghost use Rattle.report_text.specs.Session.{session_at};
ghost use Rattle.report_text.specs.declared.report.Command.{Command as OneCommand};
ghost use Rattle.report_text.specs.declared.report.Answer.TheVariants.{Refused as RefusedBy};
ghost use Rattle.report_text.specs.Form.{IsProofFor, IsPointFor, IsListed, IsCoreFor, IsAnswerFor, IsEntryFor, AreEntriesFor};
ghost use Rattle.report_text.specs.Grammar.{answer_phrases, node_phrases, rounds_phrases, witness_phrases};
ghost use Rattle.cert_check.specs.Trials.{witnesses_of, feasible_trials, refuted_trials, rigid_active, rounds_trials, irreducible_trials, answer_trials, claim_trials, linear_trials, settles as settles_command, reply_trials, same_reply, tail_trials, entries_trials};
ghost use Rattle.cert_check.specs.Stops.{first_stop, IsStop, Says};
ghost use Rattle.cert_check.specs.Uses.{IsShort, AreShort};
ghost use Rattle.cert_check.specs.Replay.{Replays};
ghost use Rattle.cert_check.specs.Sparse.{IsKept, IsRoom};

use crate::active::{Active, Kept, check_active};
use crate::leasts::check_least;
use crate::members::{check_members, used_members};
use crate::objectives::{check_bounded, check_unbounded};
use crate::outcome::{Stop, settle};
use crate::prices::check_priced;
use crate::trees::{check_tree, line_behind};
use crate::witnesses::check_witnesses;
use certs::{PackedPoint, Proof};
use frac128::Frac;
use least_checks::rigid_set;
use lp_model::{MemberSet, Model};
use report_text::{
    Answer, CommandSession, Core, Entry, MemberList, OPENING_LINES, PROOF_LINES, Refusal,
};
use std::alloc::Global;

/// Checks the entries, in order, from a program of which nothing was edited yet.
pub(crate) fn check_entries(
    alloc: Global,
    session: &mut CommandSession,
    entries: &[Entry],
) -> Result<(), Stop>
    requires fresh { session.old ≡ history_of session.old.model [] }
    requires form { AreEntriesFor session.old.model [] entries.now }
    requires short { AreShort session.old.model [] entries.now }
    ensures { Says (first_stop (entries_trials session.old.model [] entries.now)) result }
{
    let columns = session.model().column_count();
    let Ok(room) = vec![in alloc; Frac::whole(0); columns as usize] else {
        return Err(Stop::Memory);
    };
    let mut kept = Kept { active: None, room };
    for entry in entries {
        check_entry(alloc, session, &mut kept, entry)?;
    }
    Ok(())
}

// Checks an entry against the program as it stands, and then does to it what the command does. The active members are kept
// until an edit or an undo.
fn check_entry(
    alloc: Global,
    session: &mut CommandSession,
    kept: &mut Kept,
    entry: &Entry,
) -> Result<(), Stop>
    requires form { IsEntryFor session.old.model entry.now }
    requires short { IsShort session.old.model entry.now }
    requires kept { IsKept session.old.model kept.old }
    ensures replays { Replays session.old entry.now result session.new }
    ensures kept { OnOk result ((first : Program) (before : List OneCommand)
        → session.old ≡ session_at first before → IsKept session.new.model kept.new) }
{
    check_claim(alloc, session.model(), kept, entry)?;
    let Ok(right) = session.take(&entry.command) else {
        return Err(Stop::Memory);
    };
    if right.is_some() {
        kept.active = None;
    }
    check_reply(right, &entry.answer, entry.line)
}

// Checks the answer to an edit or an undo against the one that is right. There is none for other commands.
fn check_reply(right: Option<Answer>, answer: &Answer, line: u32) -> Result<(), Stop>
    requires { line + 1 < 4294967296 }
    ensures { Says (first_stop (reply_trials right line answer.now)) result }
{
    let Some(right) = right else {
        return Ok(());
    };
    if !is_same_reply(&right, answer) {
        return Err(Stop::Rejected(line + 1));
    }
    Ok(())
}

// Whether both answers say that a command is done, or that it is refused for one reason.
fn is_same_reply(right: &Answer, answer: &Answer) -> bool
    ensures { result ≡ same_reply right.now answer.now }
{
    match right {
        Answer::Done => matches!(answer, Answer::Done),
        Answer::Refused(refusal) => is_refused(answer, *refusal),
        _ => false,
    }
}

// Whether an answer refuses a command for this reason.
fn is_refused(answer: &Answer, reason: Refusal) -> bool
    ensures { result ≡ same_reply (RefusedBy reason) answer.now }
{
    match answer {
        Answer::Refused(refusal) => reason == *refusal,
        _ => false,
    }
}

// Checks what an entry claims of the program.
fn check_claim(alloc: Global, model: &Model, kept: &mut Kept, entry: &Entry) -> Result<(), Stop>
    requires form { IsAnswerFor model.now entry.now.answer }
    requires short { IsShort model.now entry.now }
    requires kept { IsKept model.now kept.old }
    ensures says { Says (first_stop (claim_trials model.now entry.now)) result }
    ensures kept { OnOk result (IsKept model.now kept.new) }
{
    check_linear(alloc, model, kept, entry)?;
    check_answer(alloc, model, kept, &entry.answer, entry.line)
}

// Checks that no active member is a mark, where the answer settles a command that is for linear constraints alone.
fn check_linear(alloc: Global, model: &Model, kept: &mut Kept, entry: &Entry) -> Result<(), Stop>
    requires short { entry.now.line + 1 < 4294967296 }
    requires kept { IsKept model.now kept.old }
    ensures says { Says (first_stop (linear_trials model.now entry.now)) result }
    ensures kept { OnOk result (IsKept model.now kept.new) }
{
    if !entry.command.asks().linear || !settles(&entry.answer) {
        return Ok(());
    }
    let Ok(active) = Active::taken(alloc, model, &mut kept.active) else {
        return Err(Stop::Memory);
    };
    if active.marked {
        return Err(Stop::Rejected(entry.line + 1));
    }
    kept.active = Some(active);
    Ok(())
}

/// Whether an answer settles its command.
pub fn settles(answer: &Answer) -> bool
    ensures { result ≡ settles_command answer.now }
{
    match answer {
        Answer::Reduced(_) | Answer::NotLinear(_) | Answer::Stopped(_) => false,
        _ => true,
    }
}

// Checks an answer, of which the command stands on the given line.
fn check_answer(
    alloc: Global,
    model: &Model,
    kept: &mut Kept,
    answer: &Answer,
    line: u32,
) -> Result<(), Stop>
    requires form { IsAnswerFor model.now answer.now }
    requires short { line + length (answer_phrases model.now answer.now) < 4294967280 }
    requires kept { IsKept model.now kept.old }
    ensures says { Says (first_stop (answer_trials model.now line answer.now)) result }
    ensures kept { OnOk result (IsKept model.now kept.new) }
{
    match answer {
        Answer::Feasible(point) => check_feasible(alloc, model, kept, point, line),
        Answer::Infeasible(members, proof) => {
            check_infeasible(alloc, model, kept, members, proof, line)
        }
        Answer::RigidInfeasible(members, proof) => {
            check_rigid(alloc, model, kept, members, proof, line)
        }
        Answer::Irreducible(core) => check_core(alloc, model, kept, core, line),
        Answer::Unbounded(point, ray) => check_unbounded(alloc, model, kept, point, ray, line),
        Answer::Bounded(bounded) => check_bounded(alloc, model, kept, bounded, line),
        Answer::Least(point, dual) => check_least(alloc, model, kept, point, dual, line),
        Answer::Reduced(_)
        | Answer::Done
        | Answer::Refused(_)
        | Answer::NotLinear(_)
        | Answer::Stopped(_) => Ok(()),
    }
}

// Checks a point against the active members.
fn check_feasible(
    alloc: Global,
    model: &Model,
    kept: &mut Kept,
    point: &PackedPoint,
    line: u32,
) -> Result<(), Stop>
    requires form { IsPointFor model.now point.now }
    requires short { line + 2 < 4294967296 }
    requires kept { IsKept model.now kept.old }
    ensures says { Says (first_stop (feasible_trials model.now line point.now)) result }
    ensures kept { OnOk result (IsKept model.now kept.new) }
{
    let Ok((found, _)) = check_active(alloc, model, kept, point) else {
        return Err(Stop::Memory);
    };
    settle(line + OPENING_LINES, found)
}

// Checks active members and a proof that no point satisfies them.
fn check_infeasible(
    alloc: Global,
    model: &Model,
    kept: &mut Kept,
    members: &MemberList,
    proof: &Proof,
    line: u32,
) -> Result<(), Stop>
    requires members { IsListed model.now members.now }
    requires proof { IsProofFor model.now proof.now }
    requires short { let nodes = flat_map node_phrases proof.now.nodes in
        line + (length members.now.members + length nodes) < 4294967290 }
    requires kept { IsKept model.now kept.old }
    ensures says { let active = active_members model.now in
        Says (first_stop (refuted_trials model.now active line members.now proof.now)) result }
    ensures kept { OnOk result (IsKept model.now kept.new) }
{
    let Ok(active) = Active::taken(alloc, model, &mut kept.active) else {
        return Err(Stop::Memory);
    };
    let room = &mut kept.room;
    check_refuted(alloc, model, &active.set, members, proof, room, line)?;
    kept.active = Some(active);
    Ok(())
}

// Checks rigid active members and a proof that no point satisfies them.
fn check_rigid(
    alloc: Global,
    model: &Model,
    kept: &mut Kept,
    members: &MemberList,
    proof: &Proof,
    line: u32,
) -> Result<(), Stop>
    requires members { IsListed model.now members.now }
    requires proof { IsProofFor model.now proof.now }
    requires short { let nodes = flat_map node_phrases proof.now.nodes in
        line + (length members.now.members + length nodes) < 4294967290 }
    requires kept { IsKept model.now kept.old }
    ensures says { let rigid = rigid_active model.now in
        Says (first_stop (refuted_trials model.now rigid line members.now proof.now)) result }
    ensures kept { OnOk result (IsKept model.now kept.new) }
{
    let Ok(active) = Active::taken(alloc, model, &mut kept.active) else {
        return Err(Stop::Memory);
    };
    let Ok(rigid) = rigid_set(alloc, model, &active.set) else {
        return Err(Stop::Memory);
    };
    kept.active = Some(active);
    let room = &mut kept.room;
    check_refuted(alloc, model, &rigid, members, proof, room, line)
}

// Checks members, each of a set, and a proof that no point satisfies them.
fn check_refuted(
    alloc: Global,
    model: &Model,
    among: &MemberSet,
    members: &MemberList,
    proof: &Proof,
    room: &mut Vec<Frac>,
    line: u32,
) -> Result<(), Stop>
    requires same { IsSetOf model.now among.now }
    requires members { IsListed model.now members.now }
    requires proof { IsProofFor model.now proof.now }
    requires short { let nodes = flat_map node_phrases proof.now.nodes in
        line + (length members.now.members + length nodes) < 4294967290 }
    requires room { IsRoom (length model.now.columns) room.old.items }
    ensures says { let among = among.now.members in
        Says (first_stop (refuted_trials model.now among line members.now proof.now)) result }
    ensures room { OnOk result (IsRoom (length model.now.columns) room.new.items) }
{
    let Ok(used) = used_members(alloc, model, proof) else {
        return Err(Stop::Memory);
    };
    let Ok(members) = members.unpacked(alloc, model) else {
        return Err(Stop::Memory);
    };
    let end = check_members(model, among, &members, &used, line + OPENING_LINES)?;
    check_tree(alloc, model, &members, proof, room, end + PROOF_LINES)
}

// Checks an irreducible set: its members with their witnesses, its proof, and what stands behind that.
fn check_core(
    alloc: Global,
    model: &Model,
    kept: &mut Kept,
    core: &Core,
    line: u32,
) -> Result<(), Stop>
    requires form { IsCoreFor model.now core.now }
    requires short { let witnesses = flat_map witness_phrases (witnesses_of core.now) in
        let nodes = flat_map node_phrases core.now.proof.nodes in
        line + (length witnesses + length nodes) < 4294967290 }
    requires kept { IsKept model.now kept.old }
    ensures says { Says (first_stop (irreducible_trials model.now line core.now)) result }
    ensures kept { OnOk result (IsKept model.now kept.new) }
{
    let Ok(members) = core.members.unpacked(alloc, model) else {
        return Err(Stop::Memory);
    };
    let Ok(mut others) = members.copy(alloc) else {
        return Err(Stop::Memory);
    };
    let (witnesses, room) = (core.witnesses.as_slice(), &mut kept.room);
    let start = line + OPENING_LINES;
    let end = check_witnesses(alloc, model, &members, &mut others, witnesses, room, start)?;
    check_tree(alloc, model, &members, &core.proof, room, end + PROOF_LINES)?;
    let behind = line_behind(&core.proof, end + PROOF_LINES);
    check_tail(alloc, model, core, behind)
}

// Checks what stands behind the proof of an irreducible set, from the given line on: the rounds, and the total with its price,
// where they are told.
fn check_tail(alloc: Global, model: &Model, core: &Core, line: u32) -> Result<(), Stop>
    requires form { IsCoreFor model.now core.now }
    requires short { line + 2 < 4294967296 }
    ensures { Says (first_stop (tail_trials model.now line core.now)) result }
{
    let next = check_rounds(core, line)?;
    check_priced(alloc, model, core, next)
}

// Checks the rounds of an irreducible set on the given line, where they are told. It gives the number of the line behind them.
fn check_rounds(core: &Core, line: u32) -> Result<u32, Stop>
    requires { line + 1 < 4294967296 }
    ensures { let members = length core.now.members.members in
        let stop = first_stop (rounds_trials members line core.now.rounds) in
        MatchResult result
        (λ next. (stop ≡ None) × (next ≡ line + length (rounds_phrases core.now.rounds)))
        (IsStop stop) }
{
    let Some(rounds) = core.rounds else {
        return Ok(line);
    };
    if rounds >= 1 && rounds - 1 <= core.members.count() {
        return Ok(line + 1);
    }
    Err(Stop::Rejected(line))
}
