//! Commands and their answers.
ghost use Rattle.std.specs.Prelude.{OnOk};
ghost use Rattle.report_page.specs.Pieces.{IsMarkedUp};

use crate::bars::write_bars;
use crate::edits::{write_edit, write_refused};
use crate::leasts::{write_least, write_price};
use crate::members::{Among, Conflict, write_list};
use crate::objectives::{write_bounded, write_unbounded};
use crate::parts::column_name;
use crate::pieces::Piece::{Count, Fixed, Text};
use crate::pieces::{write, write_fixed};
use crate::points::{Told, write_fold};
use crate::reasons::{gap_of, leaf_shares, write_reason};
use crate::steps::write_reduced;
use crate::stops::write_stopped;
use certs::{Node, PackedPoint};
use lp_model::Model;
use report_text::{Answer, Command, Core, MemberList, Method};
use std::alloc::AllocError;

// Writes which contradiction is asked for, and by which method.
fn write_method(method: Method, into: &mut Vec<u8>) -> Result<(), AllocError>
    ensures { OnOk result (IsMarkedUp into.old.items into.new.items) }
{
    write_fixed("Which requirements contradict one another", into)?;
    match method {
        Method::Deletion => write_fixed("? (deletion)", into),
        Method::Additive => write_fixed("? (additive)", into),
        Method::Sensitivity => write_fixed("? (sensitivity)", into),
        Method::Elastic => write_fixed("? (elastic)", into),
        Method::Alternative => write_fixed(" at the least cost? (alternative)", into),
    }
}

/// Writes what a command asks, or sets.
pub(crate) fn write_command(command: &Command, into: &mut Vec<u8>) -> Result<(), AllocError>
    ensures { OnOk result (IsMarkedUp into.old.items into.new.items) }
{
    match command {
        Command::Check => write_fixed("Can all requirements be met?", into),
        Command::Iis(method) => write_method(*method, into),
        Command::Unbounded => write_fixed("Can the objective get better without end?", into),
        Command::Relax => write_fixed("How little must give way?", into),
        Command::Reduce => write_fixed("How far is the program reduced before it is solved?", into),
        Command::Edit(edit) => write_edit(edit, into),
        Command::Undo => write_fixed("Take back the last edit that stands", into),
        Command::Pivots(most) => write(
            &[
                Fixed("From here on, how many pivots a calculation may take: "),
                Count(*most),
            ],
            into,
        ),
        Command::Nodes(most) => write(
            &[
                Fixed("From here on, how many cases a calculation may tell apart: "),
                Count(*most),
            ],
            into,
        ),
    }
}

// Writes a point that meets all members.
fn write_feasible(model: &Model, point: &PackedPoint, into: &mut Vec<u8>) -> Result<(), AllocError>
    ensures { OnOk result (IsMarkedUp into.old.items into.new.items) }
{
    write_fixed("<p>All requirements can be met at once.</p>\n", into)?;
    let point = point.unpacked(*into.allocator())?;
    write_fold(model, Told::Value, point.values.as_slice(), into)
}

// Writes members that cannot all be met, with their witnesses as far as there are witnesses, and why.
fn write_conflict(
    model: &Model,
    among: Among,
    set: &MemberList,
    witnesses: &[PackedPoint],
    nodes: &[Node],
    into: &mut Vec<u8>,
) -> Result<(), AllocError>
    ensures { OnOk result (IsMarkedUp into.old.items into.new.items) }
{
    let conflict = Conflict {
        among,
        shares: leaf_shares(nodes),
        gap: gap_of(model, nodes),
    };
    write_list(model, &conflict, set, witnesses, into)?;
    write_reason(model, nodes, into)?;
    write_bars(model, conflict.shares, into)
}

// Writes in how many rounds members were enforced, where it is told, which the check does not look into.
fn write_rounds(rounds: Option<u64>, into: &mut Vec<u8>) -> Result<(), AllocError>
    ensures { OnOk result (IsMarkedUp into.old.items into.new.items) }
{
    let Some(rounds) = rounds else {
        return Ok(());
    };
    write(
        &[
            Fixed(
                "<p>Rounds of enforcing, until the enforced requirements contradicted one another: ",
            ),
            Count(rounds),
            Fixed(". The check does not look into this.</p>\n"),
        ],
        into,
    )
}

// Writes an irreducible set.
fn write_irreducible(model: &Model, core: &Core, into: &mut Vec<u8>) -> Result<(), AllocError>
    ensures { OnOk result (IsMarkedUp into.old.items into.new.items) }
{
    write_conflict(
        model,
        Among::Any,
        &core.members,
        core.witnesses.as_slice(),
        core.proof.nodes.as_slice(),
        into,
    )?;
    write_rounds(core.rounds, into)?;
    write_price(model, &core.price, into)
}

// Writes that a question is not asked where this column is to be whole.
fn write_not_linear(model: &Model, column: u32, into: &mut Vec<u8>) -> Result<(), AllocError>
    ensures { OnOk result (IsMarkedUp into.old.items into.new.items) }
{
    write(
        &[
            Fixed(
                "<p>This is asked only where no quantity has to be whole. The first that has to be is ",
            ),
            Text(column_name(model, column)),
            Fixed(". The check does not look into this.</p>\n"),
        ],
        into,
    )
}

/// Writes an answer; that a command is done needs no words.
pub(crate) fn write_answer(
    model: &Model,
    answer: &Answer,
    into: &mut Vec<u8>,
) -> Result<(), AllocError>
    ensures { OnOk result (IsMarkedUp into.old.items into.new.items) }
{
    match answer {
        Answer::Feasible(point) => write_feasible(model, point, into),
        Answer::Infeasible(set, proof) => {
            write_conflict(model, Among::Any, set, &[], proof.nodes.as_slice(), into)
        }
        Answer::Irreducible(core) => write_irreducible(model, core, into),
        Answer::Unbounded(point, ray) => write_unbounded(model, point, ray, into),
        Answer::Bounded(bounded) => write_bounded(model, bounded, into),
        Answer::Least(point, dual) => {
            write_least(model, point, dual.combo.shares.as_slice(), dual.bound, into)
        }
        Answer::RigidInfeasible(set, proof) => {
            write_conflict(model, Among::Rigid, set, &[], proof.nodes.as_slice(), into)
        }
        Answer::Reduced(reduced) => write_reduced(model, reduced, into),
        Answer::Done => Ok(()),
        Answer::Refused(reason) => write_refused(*reason, into),
        Answer::NotLinear(column) => write_not_linear(model, *column, into),
        Answer::Stopped(stop) => write_stopped(model, stop, into),
    }
}
