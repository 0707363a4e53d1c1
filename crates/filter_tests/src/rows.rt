//! What the filters answer over the rows A: x <= 0, B: x >= 1 and C: x <= 0, with answers from a list and by runs.
ghost use Rattle.std.specs.Prelude.{◌≡◌, true, None, IfOk};
ghost use Rattle.lp_model.specs.Members.{is_mark};
ghost use Rattle.certs.specs.Checks.{IsSetOf};
ghost use Rattle.certs.specs.Answers.{is_linear};

use certs::{
    Combo, Irreducible, MemberSet, Oracle, PackedPoint, Point, Share, Shares, Source, Stop, Values,
};
use filter_steps::listed;
use frac128::Frac;
use linear_oracle::LinearOracle;
use lp_model::{Member, Model};
use mps_reader::read_mps;
use std::alloc::{AllocError, Global};
use table_oracle::{TableAnswer, TableOracle};

const ROWS: &str = "ROWS\n L A\n G B\n L C\nCOLUMNS\n x A 1\n x B 1\n x C 1\nRHS\n B 1\nENDATA\n";

/// An answer: x at this value, this row with row B, or that no pivot is left.
#[derive(Clone, Copy)]
pub enum Plan {
    At(i64),
    WithB(u32),
    Spent,
}

/// The three filters.
#[derive(Clone, Copy, Debug)]
pub enum Filter {
    Deletion,
    Additive,
    Sensitivity,
}

// A member, once.
fn share(member: Member) -> Share {
    Share {
        source: Source::Member(member),
        weight: Frac::whole(1),
    }
}

fn answer(alloc: Global, plan: Plan) -> Result<TableAnswer, AllocError> {
    match plan {
        Plan::At(value) => {
            let values = Vec::from_slice(alloc, &[Frac::whole(value)])?;
            Ok(TableAnswer::Point(Point {
                values: Values::new(values),
            }))
        }
        Plan::WithB(row) => {
            let (other, b) = (share(Member::RowUp(row)), share(Member::RowLo(1)));
            let shares = if row < 1 { [other, b] } else { [b, other] };
            Ok(TableAnswer::Leaf(Combo {
                shares: Shares::new(Vec::from_slice(alloc, &shares)?),
            }))
        }
        Plan::Spent => Ok(TableAnswer::Spent),
    }
}

fn answers(alloc: Global, plans: &[Plan]) -> Result<Vec<TableAnswer>, AllocError> {
    let mut list = Vec::new(alloc);
    for plan in plans {
        list.push(answer(alloc, *plan)?)?;
    }
    Ok(list)
}

fn program(alloc: Global) -> Result<Model, AllocError> {
    match read_mps(alloc, ROWS.as_bytes()) {
        Ok(model) => Ok(model),
        Err(_) => Err(AllocError),
    }
}

// The active members, without row B where there is to be a point.
fn active(alloc: Global, model: &Model, without_b: bool) -> Result<MemberSet, AllocError>
    ensures { IfOk result (IsSetOf model.now) }
{
    let mut set = model.members(alloc)?;
    if without_b && model.row_count() > 1 {
        set.remove(Member::RowLo(1));
    }
    Ok(set)
}

fn isolated<O: Oracle>(
    alloc: Global,
    filter: Filter,
    oracle: &mut O,
    set: &MemberSet,
) -> Result<Irreducible, Stop>
    requires same { IsSetOf (O.state oracle.old).model set.now }
    requires served { (O.state oracle.old).serves set.now.members ≡ true }
    requires fresh { (O.state oracle.old).tale.first_core ≡ None }
{
    match filter {
        Filter::Deletion => deletion_filter::isolate(alloc, oracle, set),
        Filter::Additive => additive_filter::isolate(alloc, oracle, set),
        Filter::Sensitivity => sensitivity_filter::isolate(alloc, oracle, set),
    }
}

fn letter(member: Member) -> char {
    match member {
        Member::RowUp(0) => 'A',
        Member::RowLo(1) => 'B',
        Member::RowUp(2) => 'C',
        Member::Lower(_) => 'l',
        _ => '?',
    }
}

// Appends the letters of a set.
fn say_set(alloc: Global, set: &MemberSet, text: &mut String) -> Result<(), AllocError> {
    let members = listed(alloc, set)?;
    for member in members.as_slice() {
        text.push(letter(*member))?;
    }
    Ok(())
}

// Appends the values of points.
fn say_points(alloc: Global, points: &[PackedPoint], text: &mut String) -> Result<(), AllocError> {
    for packed in points {
        let point = packed.unpacked(alloc)?;
        for value in point.values.as_slice() {
            text.push(if *value == Frac::whole(0) { '0' } else { '1' })?;
        }
    }
    Ok(())
}

fn say_stop(alloc: Global, stop: &Stop, text: &mut String) -> Result<(), AllocError> {
    match stop {
        Stop::Pivots(site) => {
            text.push_str("spent at ")?;
            say_set(alloc, &site.set, text)
        }
        _ => text.push_str("another stop"),
    }
}

fn say_answer(alloc: Global, answer: &Irreducible, text: &mut String) -> Result<(), AllocError> {
    match answer {
        Irreducible::Set {
            members,
            witnesses,
            ..
        } => {
            text.push_str("set ")?;
            say_set(alloc, members, text)?;
            text.push_str(" by ")?;
            say_points(alloc, witnesses.as_slice(), text)
        }
        Irreducible::Feasible(_) => text.push_str("point"),
    }
}

/// What a filter answers where its oracle has these answers, and how often it asks. Without row B there is a point.
///
/// # Errors
///
/// Where there is no memory for it.
pub fn said(
    alloc: Global,
    filter: Filter,
    without_b: bool,
    plans: &[Plan],
) -> Result<String, AllocError> {
    let model = program(alloc)?;
    let set = active(alloc, &model, without_b)?;
    let mut oracle = TableOracle::new(alloc, &model, answers(alloc, plans)?);
    let result = isolated(alloc, filter, &mut oracle, &set);
    say(alloc, &result, oracle.tale().asks())
}

// An answer, and how often it took an ask.
fn say(alloc: Global, given: &Result<Irreducible, Stop>, asks: u64) -> Result<String, AllocError> {
    let mut text = String::new(alloc);
    match given {
        Ok(answer) => say_answer(alloc, answer, &mut text)?,
        Err(stop) => say_stop(alloc, stop, &mut text)?,
    }
    format!(in alloc; "{text}, asks {asks}")
}

// Whether a member is a mark.
fn is_whole(member: Member) -> bool
    ensures { result ≡ is_mark member }
{
    matches!(member, Member::Whole(_))
}

// Whether none of the members is a mark.
fn are_unmarked(members: &[Member]) -> bool
    ensures { result ≡ is_linear members.now }
{
    for member in members {
        if is_whole(*member) {
            return false;
        }
    }
    true
}

/// What a filter answers with runs of systems, and how often it asks.
///
/// # Errors
///
/// Where there is no memory for it.
pub fn said_by_runs(alloc: Global, filter: Filter, without_b: bool) -> Result<String, AllocError> {
    let model = program(alloc)?;
    let set = active(alloc, &model, without_b)?;
    if !are_unmarked(listed(alloc, &set)?.as_slice()) {
        return Err(AllocError);
    }
    let mut oracle = LinearOracle::new(alloc, &model, 100);
    let result = isolated(alloc, filter, &mut oracle, &set);
    say(alloc, &result, oracle.tale().asks())
}
