//! Calculations that stopped.
ghost use Rattle.std.specs.Prelude.{OnOk};
ghost use Rattle.report_page.specs.Pieces.{IsClosed, IsMarkedUp};

use crate::folds::begin_fold;
use crate::members::write_asking;
use crate::parts::column_name;
use crate::pieces::Piece::{Count, Fixed, Number, Text, Whole};
use crate::pieces::{write, write_fixed};
use certs::{Branch, SiteKind};
use frac128::{Op, Wide};
use lp_model::{Member, Model};
use report_text::{ToldSite, ToldStop};
use std::alloc::{AllocError, Global};

// The sign of an operation.
fn sign_of(op: Op) -> &'static str
    ensures { IsClosed result.now }
{
    match op {
        Op::Plus => " + ",
        Op::Minus => " - ",
        Op::Times => " * ",
        Op::Over => " / ",
    }
}

// Writes what a branch asks for.
fn write_branch(model: &Model, branch: Branch, into: &mut Vec<u8>) -> Result<(), AllocError>
    ensures { OnOk result (IsMarkedUp into.old.items into.new.items) }
{
    let name = column_name(model, branch.column);
    if branch.upper {
        return write(&[Text(name), Fixed(" &lt;= "), Whole(branch.at)], into);
    }
    write(&[Text(name), Fixed(" &gt;= "), Whole(branch.at)], into)
}

// What stands before a branch.
fn lead(is_first: bool) -> &'static str
    ensures { IsClosed result.now }
{
    if is_first { ", where " } else { ", " }
}

// Writes the branches of a path.
fn write_path(model: &Model, path: &[Branch], into: &mut Vec<u8>) -> Result<(), AllocError>
    ensures { OnOk result (IsMarkedUp into.old.items into.new.items) }
{
    let mut is_first = true;
    for branch in path {
        write_fixed(lead(is_first), into)?;
        write_branch(model, *branch, into)?;
        is_first = false;
    }
    Ok(())
}

// What a run asks.
fn asking(kind: SiteKind) -> &'static str
    ensures { IsClosed result.now }
{
    match kind {
        SiteKind::Improve => " It was asking how far the objective can go while ",
        SiteKind::Stretch => " It was asking for the least violation, with all weights 1, of ",
        SiteKind::Relax => " It was asking for the least weighted violation of ",
        SiteKind::Alternative => {
            " It was asking for the cheapest way to show a contradiction among "
        }
        _ => " It was asking whether ",
    }
}

// What it asks of its members.
fn asking_members(kind: SiteKind) -> &'static str
    ensures { IsClosed result.now }
{
    match kind {
        SiteKind::Improve => " requirements are met",
        SiteKind::Stretch | SiteKind::Relax | SiteKind::Alternative => " requirements",
        _ => " requirements can be met together",
    }
}

// How many members a run was of: the active ones without those left out.
fn member_count(alloc: Global, model: &Model, left: &[Member]) -> Result<u64, AllocError> {
    let active = model.members(alloc)?;
    Ok(active.count().saturating_sub(left.len() as u64))
}

// Writes the site of a stop.
fn write_site(model: &Model, site: &ToldSite, into: &mut Vec<u8>) -> Result<(), AllocError>
    ensures { OnOk result (IsMarkedUp into.old.items into.new.items) }
{
    let count = member_count(*into.allocator(), model, site.left.as_slice())?;
    write_fixed(asking(site.kind), into)?;
    write(&[Count(count)], into)?;
    write_fixed(asking_members(site.kind), into)?;
    write_path(model, site.path.as_slice(), into)?;
    write_fixed(".", into)
}

// Writes the operation that is too wide, in the turn with this number.
fn write_operation(step: u64, operation: &Wide, into: &mut Vec<u8>) -> Result<(), AllocError>
    ensures { OnOk result (IsMarkedUp into.old.items into.new.items) }
{
    write(
        &[
            Fixed(" That was in turn "),
            Count(step),
            Fixed(", at "),
            Number(operation.left),
        ],
        into,
    )?;
    write_fixed(sign_of(operation.op), into)?;
    write(&[Number(operation.right), Fixed(".</p>\n")], into)
}

// Writes enforced members in a fold, where there are any.
fn write_enforced(model: &Model, enforced: &[Member], into: &mut Vec<u8>) -> Result<(), AllocError>
    ensures { OnOk result (IsMarkedUp into.old.items into.new.items) }
{
    if enforced.is_empty() {
        return Ok(());
    }
    begin_fold(
        "Enforced requirements, which had to be met: ",
        enforced.len() as u64,
        into,
    )?;
    write_fixed("<ol>\n", into)?;
    for member in enforced {
        write_asking(model, *member, into)?;
        write_fixed("</li>\n", into)?;
    }
    write_fixed("</ol>\n</details>\n", into)
}

// Writes why a calculation stopped at a site.
fn write_why(
    model: &Model,
    reason: &'static str,
    site: &ToldSite,
    into: &mut Vec<u8>,
) -> Result<(), AllocError>
    requires { IsClosed reason.now }
    ensures { OnOk result (IsMarkedUp into.old.items into.new.items) }
{
    write_fixed(
        "<p>This calculation stopped before there was an answer: ",
        into,
    )?;
    write_fixed(reason, into)?;
    write_site(model, site, into)
}

// Writes that an operation is too wide.
fn write_wide(
    model: &Model,
    site: &ToldSite,
    step: u64,
    operation: &Wide,
    into: &mut Vec<u8>,
) -> Result<(), AllocError>
    ensures { OnOk result (IsMarkedUp into.old.items into.new.items) }
{
    write_why(
        model,
        "a number became too long to be kept exactly. What helps: fewer digits in the numbers of the model, or another method.",
        site,
        into,
    )?;
    write_operation(step, operation, into)?;
    write_enforced(model, site.enforced.as_slice(), into)
}

// Writes that a budget is spent.
fn write_spent(
    model: &Model,
    budget: &'static str,
    site: &ToldSite,
    into: &mut Vec<u8>,
) -> Result<(), AllocError>
    requires { IsClosed budget.now }
    ensures { OnOk result (IsMarkedUp into.old.items into.new.items) }
{
    write_why(model, budget, site, into)?;
    write_fixed("</p>\n", into)?;
    write_enforced(model, site.enforced.as_slice(), into)
}

/// Writes why a calculation stopped, where, and what was enforced there.
pub(crate) fn write_stopped(
    model: &Model,
    stop: &ToldStop,
    into: &mut Vec<u8>,
) -> Result<(), AllocError>
    ensures { OnOk result (IsMarkedUp into.old.items into.new.items) }
{
    match stop {
        ToldStop::Wide(site, step, operation) => write_wide(model, site, *step, operation, into),
        ToldStop::Pivots(site) => {
            write_spent(
                model,
                "the pivots that it may take were used up. What helps: a larger budget of pivots.",
                site,
                into,
            )
        }
        ToldStop::Nodes(site) => write_spent(
            model,
            "the cases that it may tell apart were used up. What helps: a larger budget of nodes, bounds on the whole quantities, or the question without whole values.",
            site,
            into,
        ),
        ToldStop::Large(size) => write(
            &[
                Fixed("<p>This calculation stopped before there was an answer: "),
                Fixed("it is too large, of size "),
                Count(*size),
                Fixed(". What helps: to drop requirements, or to make them rigid.</p>\n"),
            ],
            into,
        ),
    }
}
