//! Members that no point satisfies, one after another.
ghost use Rattle.std.specs.Prelude.{OnOk};
ghost use Rattle.report_page.specs.Pieces.{IsClosed, IsMarkedUp};

use crate::demands::{write_demand, write_equation, write_title, write_values};
use crate::families::{count_items, write_families};
use crate::folds::begin_fold_of;
use crate::numbers::{quotient, sum, write_number};
use crate::parts::{asked, member_name};
use crate::pieces::Piece::{Count, Fixed, Text};
use crate::pieces::{write, write_fixed};
use certs::{PackedPoint, Share, Source};
use frac128::Frac;
use lp_model::{Member, Model};
use report_text::MemberList;
use std::alloc::{AllocError, Global};

/// Which members cannot all be met: any, or rigid ones alone.
#[derive(Clone, Copy, PartialEq, Eq)]
pub(crate) enum Among {
    Any,
    Rigid,
}

/// What is known of members that cannot all be met: of which kind they are, and where the proof has no cases its shares, and
/// the number that 0 would have to be at least by these, unless an operation on the way to it is too wide.
#[derive(Clone, Copy)]
pub(crate) struct Conflict<'a> {
    pub among: Among,
    pub shares: &'a [Share],
    pub gap: Option<Frac>,
}

// Whether a share is of a member.
fn is_share_of(share: &Share, member: Member) -> bool {
    match share.source {
        Source::Member(other) => member == other,
        Source::Below(_) | Source::Above(_) => false,
    }
}

// The weight of the first share of a member, where it has one.
fn weight_of(shares: &[Share], member: Member) -> Option<Frac> {
    for share in shares {
        if is_share_of(share, member) {
            return Some(share.weight);
        }
    }
    None
}

/// Writes how often a member is taken.
pub(crate) fn write_taken(weight: Frac, into: &mut Vec<u8>) -> Result<(), AllocError>
    ensures { OnOk result (IsMarkedUp into.old.items into.new.items) }
{
    if weight == Frac::whole(1) {
        return write_fixed("\n<span class=times>taken once</span>", into);
    }
    write_fixed("\n<span class=times>taken ", into)?;
    write_number(weight, into)?;
    write_fixed(" times</span>", into)
}

// The number to which a member would have to be moved by itself, so that the sum of a gap, in which it is taken so often, is
// no contradiction. There is none where an operation on the way to it is too wide.
fn moved(model: &Model, member: Member, gap: &Option<Frac>, weight: Frac) -> Option<Frac> {
    let Some(gap) = gap else {
        return None;
    };
    let change = quotient(*gap, weight)?;
    match member {
        Member::RowLo(_) | Member::Lower(_) => sum(asked(model, member), change.negate()),
        Member::RowUp(_) | Member::Upper(_) => sum(asked(model, member), change),
        Member::Whole(_) => None,
    }
}

// Which way a member would have to be moved.
fn way(member: Member) -> &'static str
    ensures { IsClosed result.now }
{
    match member {
        Member::RowLo(_) | Member::Lower(_) => "\n<span class=alone>alone: down to ",
        _ => "\n<span class=alone>alone: up to ",
    }
}

// Writes how far a member would have to be moved by itself, where that is known.
fn write_alone(
    model: &Model,
    member: Member,
    gap: &Option<Frac>,
    weight: Frac,
    into: &mut Vec<u8>,
) -> Result<(), AllocError>
    ensures { OnOk result (IsMarkedUp into.old.items into.new.items) }
{
    let Some(moved) = moved(model, member, gap, weight) else {
        return Ok(());
    };
    write_fixed(way(member), into)?;
    write_number(moved, into)?;
    write_fixed("</span>", into)
}

/// Writes what a member is and what it asks for.
pub(crate) fn write_asking(
    model: &Model,
    member: Member,
    into: &mut Vec<u8>,
) -> Result<(), AllocError>
    ensures { OnOk result (IsMarkedUp into.old.items into.new.items) }
{
    write_fixed("<li><b>", into)?;
    write_title(model, member, into)?;
    write_fixed("</b>", into)?;
    write_demand(model, member, into)
}

// Whether a member only asks that a column is not negative.
fn is_not_negative(model: &Model, member: Member) -> bool {
    matches!(member, Member::Lower(_)) && asked(model, member) == Frac::whole(0)
}

// Whether some of the members do.
fn has_not_negative(model: &Model, set: &MemberList) -> bool {
    for member in set.iter() {
        if is_not_negative(model, member) {
            return true;
        }
    }
    false
}

// Writes the column of a member that only asks that it is not negative, and how often that is taken if not once.
fn write_column(
    model: &Model,
    shares: &[Share],
    member: Member,
    into: &mut Vec<u8>,
) -> Result<(), AllocError>
    ensures { OnOk result (IsMarkedUp into.old.items into.new.items) }
{
    if !is_not_negative(model, member) {
        return Ok(());
    }
    let name = Text(member_name(model, member));
    write(&[Fixed(" <code>"), name, Fixed("</code>")], into)?;
    match weight_of(shares, member) {
        Some(weight) if weight != Frac::whole(1) => write_taken(weight, into),
        _ => Ok(()),
    }
}

// Whether a set has a member.
fn has(set: &MemberList, member: Member) -> bool {
    for other in set.iter() {
        if other == member {
            return true;
        }
    }
    false
}

// Whether a set has both sides of a row, which ask for one number.
fn is_equation(model: &Model, set: &MemberList, row: u32) -> bool {
    let (lower, upper) = (Member::RowLo(row), Member::RowUp(row));
    asked(model, lower) == asked(model, upper) && has(set, lower) && has(set, upper)
}

// Whether a member is the upper side of an equation, which stands with the lower one.
fn is_second(model: &Model, set: &MemberList, member: Member) -> bool {
    match member {
        Member::RowUp(row) => is_equation(model, set, row),
        _ => false,
    }
}

/// How many requirements the members of a set are: both sides of an equation are one.
pub(crate) fn count_requirements(model: &Model, set: &MemberList) -> u64 {
    let mut count: u64 = 0;
    for member in set.iter() {
        if !is_second(model, set, member) {
            count = count.saturating_add(1);
        }
    }
    count
}

// The members that stand by themselves.
fn standing(model: &Model, set: &MemberList, alloc: Global) -> Result<Vec<Member>, AllocError> {
    let mut members = Vec::new(alloc);
    for member in set.iter() {
        if !is_not_negative(model, member) && !is_second(model, set, member) {
            members.push(member)?;
        }
    }
    Ok(members)
}

// Writes in one item which columns are only asked not to be negative, where there are any.
fn write_not_negative(
    model: &Model,
    shares: &[Share],
    set: &MemberList,
    into: &mut Vec<u8>,
) -> Result<(), AllocError>
    ensures { OnOk result (IsMarkedUp into.old.items into.new.items) }
{
    if !has_not_negative(model, set) {
        return Ok(());
    }
    write_fixed("<li class=signs>Not negative:", into)?;
    for member in set.iter() {
        write_column(model, shares, member, into)?;
    }
    write_fixed("</li>\n", into)
}

/// Writes a member, how often it is taken, and how far it would have to be moved by itself. Both sides of an equation are one.
pub(crate) fn write_member(
    model: &Model,
    conflict: &Conflict<'_>,
    set: &MemberList,
    member: Member,
    into: &mut Vec<u8>,
) -> Result<(), AllocError>
    ensures { OnOk result (IsMarkedUp into.old.items into.new.items) }
{
    match member {
        Member::RowLo(row) if is_equation(model, set, row) => {
            write_equation(model, row, into)?;
            write_share(model, conflict, member, into)?;
            write_share(model, conflict, Member::RowUp(row), into)?;
        }
        _ => {
            write_asking(model, member, into)?;
            write_share(model, conflict, member, into)?;
        }
    }
    write_fixed("</li>\n", into)
}

// Writes how far a member would have to be moved by itself, and how often it is taken, where it is.
fn write_share(
    model: &Model,
    conflict: &Conflict<'_>,
    member: Member,
    into: &mut Vec<u8>,
) -> Result<(), AllocError>
    ensures { OnOk result (IsMarkedUp into.old.items into.new.items) }
{
    let Some(weight) = weight_of(conflict.shares, member) else {
        return Ok(());
    };
    write_alone(model, member, &conflict.gap, weight, into)?;
    write_taken(weight, into)
}

// Writes what the first of some witnesses gives the columns of a member's form.
fn write_witness(
    model: &Model,
    member: Member,
    witnesses: &[PackedPoint],
    into: &mut Vec<u8>,
) -> Result<(), AllocError>
    ensures { OnOk result (IsMarkedUp into.old.items into.new.items) }
{
    let [witness, ..] = witnesses else {
        return Ok(());
    };
    write_fixed("<li>Without <q>", into)?;
    write_title(model, member, into)?;
    write_fixed("</q> the others can be met", into)?;
    let point = witness.unpacked(*into.allocator())?;
    write_values(model, point.values.as_slice(), member, into)?;
    write_fixed(".</li>\n", into)
}

// The witnesses behind the first.
fn others(witnesses: &[PackedPoint]) -> &[PackedPoint] {
    if witnesses.is_empty() {
        return witnesses;
    }
    &witnesses[1..]
}

// Writes the witness of each member, as far as there are witnesses.
fn write_witnesses(
    model: &Model,
    set: &MemberList,
    witnesses: &[PackedPoint],
    into: &mut Vec<u8>,
) -> Result<(), AllocError>
    ensures { OnOk result (IsMarkedUp into.old.items into.new.items) }
{
    if witnesses.is_empty() {
        return Ok(());
    }
    write(
        &[
            Fixed("<details>\n<summary>Each of them is needed: without it the others can be met"),
            Fixed("</summary>\n<ul>\n"),
        ],
        into,
    )?;
    let mut rest = witnesses;
    for member in set.iter() {
        write_witness(model, member, rest, into)?;
        rest = others(rest);
    }
    write_fixed("</ul>\n</details>\n", into)
}

// That one member cannot be met.
fn one_cannot(among: Among) -> &'static str
    ensures { IsClosed result.now }
{
    match among {
        Among::Any => "<p class=lead>This requirement cannot be met: it must give way.</p>\n",
        Among::Rigid => {
            "<p class=lead>This requirement is rigid, and it cannot be met, whatever else gives way.</p>\n"
        }
    }
}

// That some members cannot all be met.
fn some_cannot(among: Among) -> &'static str
    ensures { IsClosed result.now }
{
    match among {
        Among::Any => {
            " requirements cannot all be met. At least one of them must give way.</p>\n"
        }
        Among::Rigid => {
            " requirements are rigid, and they cannot all be met, whatever else gives way.</p>\n"
        }
    }
}

// Writes that so many members cannot all be met.
fn write_lead(among: Among, count: u64, into: &mut Vec<u8>) -> Result<(), AllocError>
    ensures { OnOk result (IsMarkedUp into.old.items into.new.items) }
{
    if count == 1 {
        return write_fixed(one_cannot(among), into);
    }
    write(&[Fixed("<p class=lead>These "), Count(count)], into)?;
    write_fixed(some_cannot(among), into)
}

// Writes the members, in a fold.
fn write_items(
    model: &Model,
    conflict: &Conflict<'_>,
    set: &MemberList,
    members: &[Member],
    into: &mut Vec<u8>,
) -> Result<(), AllocError>
    ensures { OnOk result (IsMarkedUp into.old.items into.new.items) }
{
    let count = count_requirements(model, set);
    begin_fold_of("Requirements: ", count, count_items(model, members), into)?;
    write_fixed("<ol>\n", into)?;
    write_families(model, conflict, set, members, into)?;
    write_not_negative(model, conflict.shares, set, into)?;
    write_fixed("</ol>\n</details>\n", into)
}

/// Writes that members cannot all be met, and the members, with their witnesses as far as there are witnesses.
pub(crate) fn write_list(
    model: &Model,
    conflict: &Conflict<'_>,
    set: &MemberList,
    witnesses: &[PackedPoint],
    into: &mut Vec<u8>,
) -> Result<(), AllocError>
    ensures { OnOk result (IsMarkedUp into.old.items into.new.items) }
{
    let members = standing(model, set, *into.allocator())?;
    write_lead(conflict.among, count_requirements(model, set), into)?;
    write_items(model, conflict, set, members.as_slice(), into)?;
    write_witnesses(model, set, witnesses, into)
}
