//! The answers of a report in short, each in a line.
ghost use Rattle.std.specs.Prelude.{OnOk};
ghost use Rattle.report_page.specs.Pieces.{IsClosed, IsMarkedUp};

use crate::answers::write_command;
use crate::members::count_requirements;
use crate::numbers::write_number;
use crate::pieces::Piece::{Count, Fixed};
use crate::pieces::{write, write_fixed};
use crate::reasons::gap_of;
use certs::Node;
use frac128::Frac;
use lp_model::Model;
use report_text::{Answer, Command, Entry};
use std::alloc::AllocError;

// Whether a command asks for an answer that is more than that it is done.
fn is_question(command: &Command) -> bool {
    match command {
        Command::Check | Command::Iis(_) | Command::Unbounded | Command::Relax | Command::Reduce =>
            { true }
        _ => false,
    }
}

// Writes by how much requirements miss one another, where that is known, and what to do next.
fn write_gap(gap: &Option<Frac>, into: &mut Vec<u8>) -> Result<(), AllocError>
    ensures { OnOk result (IsMarkedUp into.old.items into.new.items) }
{
    let Some(gap) = gap else {
        return write_fixed(" Next: give way in one of them.", into);
    };
    write_fixed(" Together they miss one another by ", into)?;
    write_number(*gap, into)?;
    write_fixed(
        ". Next: give way in one of them; by itself as far as it says there.",
        into,
    )
}

// Writes that so many requirements cannot all be met.
fn write_conflict(
    model: &Model,
    count: u64,
    what: &'static str,
    nodes: &[Node],
    into: &mut Vec<u8>,
) -> Result<(), AllocError>
    requires { IsClosed what.now }
    ensures { OnOk result (IsMarkedUp into.old.items into.new.items) }
{
    write(
        &[
            Fixed("Requirements that contradict one another: "),
            Count(count),
        ],
        into,
    )?;
    write_fixed(what, into)?;
    write_gap(&gap_of(model, nodes), into)
}

// Writes how far the objective can go, or how little must give way.
fn write_bound(what: &'static str, bound: Frac, into: &mut Vec<u8>) -> Result<(), AllocError>
    requires { IsClosed what.now }
    ensures { OnOk result (IsMarkedUp into.old.items into.new.items) }
{
    write_fixed(what, into)?;
    write_number(bound, into)?;
    write_fixed(".", into)
}

// What is said in short of an answer without numbers.
fn short(answer: &Answer) -> &'static str
    ensures { IsClosed result.now }
{
    match answer {
        Answer::Feasible(_) => "All requirements can be met.",
        Answer::Unbounded(_, _) => "Yes: it gets better without end.",
        Answer::NotLinear(_) =>
            "Not asked: a quantity has to be whole. Next: ask without whole values.",
        Answer::Stopped(_) => "No answer: the calculation stopped. Next: what it says there.",
        _ => "The steps stand there.",
    }
}

// Writes an answer in short.
fn write_short(model: &Model, answer: &Answer, into: &mut Vec<u8>) -> Result<(), AllocError>
    ensures { OnOk result (IsMarkedUp into.old.items into.new.items) }
{
    match answer {
        Answer::Infeasible(set, proof) => {
            write_conflict(
                model,
                count_requirements(model, set),
                ".",
                proof.nodes.as_slice(),
                into,
            )
        }
        Answer::Irreducible(core) => {
            let count = count_requirements(model, &core.members);
            let nodes = core.proof.nodes.as_slice();
            write_conflict(model, count, ", each of them needed for that.", nodes, into)
        }
        Answer::Bounded(bounded) => write_bound("No: never better than ", bounded.dual.bound, into),
        Answer::Least(_, dual) => write_bound(
            "What has to give way, weighted, is at the least ",
            dual.bound,
            into,
        ),
        Answer::RigidInfeasible(set, proof) => {
            write_conflict(
                model,
                count_requirements(model, set),
                ", all rigid.",
                proof.nodes.as_slice(),
                into,
            )
        }
        _ => write_fixed(short(answer), into),
    }
}

/// Writes the answer to a question in short, with a link to it.
pub(crate) fn write_verdict(
    model: &Model,
    entry: &Entry,
    into: &mut Vec<u8>,
) -> Result<(), AllocError>
    ensures { OnOk result (IsMarkedUp into.old.items into.new.items) }
{
    if !is_question(&entry.command) {
        return Ok(());
    }
    write(
        &[
            Fixed("<li><a href='#line-"),
            Count(u64::from(entry.line)),
            Fixed("'>"),
        ],
        into,
    )?;
    write_command(&entry.command, into)?;
    write_fixed("</a><br>\n", into)?;
    write_short(model, &entry.answer, into)?;
    write_fixed("</li>\n", into)
}
