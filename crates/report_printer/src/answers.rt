//! The printed lines of answers.

ghost use Rattle.std.specs.Prelude.{◌≡◌, ◌++◌, OnErr, OnOk};
ghost use Rattle.certs.specs.Checks.{IsSetOf};
ghost use Rattle.report_text.specs.Grammar.{phrase_line, answer_front, answer_end, answer_phrases, phrases_text};
ghost use Rattle.report_printer.specs.EvidenceNumbers.{HasValuesWithin, IsProofWithin};
ghost use Rattle.report_printer.specs.Evidence.{ended, IsKnownProof, IsKnownPoint};
ghost use Rattle.report_printer.specs.Numbers.{HasNumbersWithin, IsCoreWithin};
ghost use Rattle.report_printer.specs.Printing.{CanPrintLaw, IsKnownCore, IsKnownAnswer};

use crate::least::{print_least, print_rounds};
use crate::lines::print_phrase;
use crate::members::print_members;
use crate::nodes::print_proof;
use crate::objectives::{print_bounded, print_unbounded};
use crate::points::{print_point, print_witnesses};
use crate::prices::print_price;
use crate::steps::print_reduced;
use crate::stops::print_stop;
use crate::words::{append, push_line};
use certs::{PackedPoint, Proof};
use lp_model::Model;
use report_text::{Answer, Command, Core, MemberList, Phrase};
use std::alloc::AllocError;

// Appends the lines of a point that is an answer, but for its end.
fn print_feasible(model: &Model, point: &PackedPoint, into: &mut Vec<u8>) -> Result<(), AllocError>
    requires { IsKnownPoint model.now point.now }
    ensures text { OnOk result (into.new.items ≡ into.old.items ++ phrases_text model.now (answer_front model.now (Answer.Feasible point.now))) }
    ensures within { OnOk result (HasValuesWithin point.now) }
{
    push_line(b"feasible", into)?;
    print_point(model, point, into)
}

// Appends the lines of members and a proof that are an answer, but for its end.
fn print_infeasible(
    model: &Model,
    set: &MemberList,
    proof: &Proof,
    into: &mut Vec<u8>,
) -> Result<(), AllocError>
    requires set { IsSetOf model.now set.now }
    requires proof { IsKnownProof model.now proof.now }
    ensures text { OnOk result (into.new.items ≡ into.old.items ++ phrases_text model.now (answer_front model.now (Answer.Infeasible set.now proof.now))) }
    ensures within { OnOk result (IsProofWithin proof.now) }
{
    push_line(b"infeasible", into)?;
    print_members(model, set, into)?;
    print_proof(model, proof, into)?;
    Ok(())
}

// Appends the lines of an irreducible set that is an answer, but for its end.
fn print_irreducible(model: &Model, core: &Core, into: &mut Vec<u8>) -> Result<(), AllocError>
    requires { IsKnownCore model.now core.now }
    ensures text { OnOk result (into.new.items ≡ into.old.items ++ phrases_text model.now (answer_front model.now (Answer.Irreducible core.now))) }
    ensures within { OnOk result (IsCoreWithin core.now) }
{
    push_line(b"irreducible", into)?;
    print_witnesses(model, &core.members, core.witnesses.as_slice(), into)?;
    print_proof(model, &core.proof, into)?;
    print_rounds(model, core.rounds, into)?;
    print_price(model, &core.price, into)?;
    Ok(())
}

// Appends the lines of rigid members and a proof that are an answer, but for its end.
fn print_rigid(
    model: &Model,
    set: &MemberList,
    proof: &Proof,
    into: &mut Vec<u8>,
) -> Result<(), AllocError>
    requires set { IsSetOf model.now set.now }
    requires proof { IsKnownProof model.now proof.now }
    ensures text { OnOk result (into.new.items ≡ into.old.items ++ phrases_text model.now (answer_front model.now (Answer.RigidInfeasible set.now proof.now))) }
    ensures within { OnOk result (IsProofWithin proof.now) }
{
    push_line(b"rigid infeasible", into)?;
    print_members(model, set, into)?;
    print_proof(model, proof, into)?;
    Ok(())
}

// Appends the lines of an answer, but for the last.
fn print_front(model: &Model, answer: &Answer, into: &mut Vec<u8>) -> Result<(), AllocError>
    requires { IsKnownAnswer model.now answer.now }
    ensures text { OnOk result (into.new.items ≡ into.old.items ++ phrases_text model.now (answer_front model.now answer.now)) }
    ensures within { OnOk result (HasNumbersWithin answer.now) }
{
    match answer {
        Answer::Feasible(point) => print_feasible(model, point, into),
        Answer::Infeasible(set, proof) => print_infeasible(model, set, proof, into),
        Answer::Irreducible(core) => print_irreducible(model, core, into),
        Answer::Unbounded(point, ray) => print_unbounded(model, point, ray, into),
        Answer::Bounded(bounded) => print_bounded(model, bounded, into),
        Answer::Least(point, dual) => print_least(model, point, dual, into),
        Answer::RigidInfeasible(set, proof) => print_rigid(model, set, proof, into),
        Answer::Reduced(reduced) => print_reduced(model, reduced, into),
        Answer::Done | Answer::Refused(_) | Answer::NotLinear(_) => Ok(()),
        Answer::Stopped(stop) => print_stop(model, stop, into),
    }
}

// The last line of an answer.
fn last_phrase(answer: &Answer) -> Phrase
    ensures { result ≡ answer_end answer.now }
{
    match answer {
        Answer::Done => Phrase::Done,
        Answer::Refused(refusal) => Phrase::Refused(*refusal),
        Answer::NotLinear(column) => Phrase::NotLinear(*column),
        _ => Phrase::End,
    }
}

// Appends the last line of an answer.
fn print_last(model: &Model, answer: &Answer, into: &mut Vec<u8>) -> Result<(), AllocError>
    requires { IsKnownAnswer model.now answer.now }
    ensures { OnOk result (into.new.items ≡ into.old.items ++ ended (phrase_line model.now (answer_end answer.now))) }
{
    print_phrase(model, last_phrase(answer), into)?;
    Ok(())
}

/// Appends the lines of an answer.
pub(crate) fn put_answer(
    model: &Model,
    answer: &Answer,
    into: &mut Vec<u8>,
) -> Result<(), AllocError>
    requires { IsKnownAnswer model.now answer.now }
    ensures text { OnOk result (into.new.items ≡ into.old.items ++ phrases_text model.now (answer_phrases model.now answer.now)) }
    ensures within { OnOk result (HasNumbersWithin answer.now) }
{
    print_front(model, answer, into)?;
    print_last(model, answer, into)?;
    Ok(())
}

/// Appends the lines of an answer to a command. As yet none is printed otherwise for one command than for another.
/// Fractions are printed whose parts are at most 2^127 - 1, and counts below 2^64. Where memory is refused, the bytes are
/// those that were there.
pub fn print_answer(
    model: &Model,
    _command: &Command,
    answer: &Answer,
    into: &mut Vec<u8>,
) -> Result<(), AllocError>
    requires { IsKnownAnswer model.now answer.now }
    ensures text { OnOk result (into.new.items ≡ into.old.items ++ phrases_text model.now (answer_phrases model.now answer.now)) }
    ensures kept { OnErr result (into.new.items ≡ into.old.items) }
    ensures within { OnOk result (HasNumbersWithin answer.now) }
{
    let mut lines = Vec::new(*into.allocator());
    put_answer(model, answer, &mut lines)?;
    append(lines.as_slice(), into)
}

/// What is in the form of an answer can be printed.
pub fn answers_can_be_printed()
    ensures { CanPrintLaw }
{}
