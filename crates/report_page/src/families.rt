//! Families of members, which are folded: those that stand one after another and ask alike, and whose names begin alike.
ghost use Rattle.std.specs.Prelude.{OnOk};
ghost use Rattle.report_page.specs.Pieces.{IsMarkedUp};

use crate::folds::fold_tag;
use crate::members::{Conflict, write_member};
use crate::parts::member_name;
use crate::pieces::Piece::{Count, Fixed, Text};
use crate::pieces::{write, write_fixed};
use lp_model::{Member, Model};
use report_text::MemberList;
use std::alloc::AllocError;

/// How many members a family has at least that is folded.
const LEAST_FAMILY: usize = 4;

// Whether a byte ends the part of a name that a family shares.
fn ends_family(byte: u8) -> bool {
    matches!(byte, b'0'..=b'9' | b'_' | b'[' | b'(' | b'.' | b',')
}

// The part of a member's name that its family shares.
fn family_name(model: &Model, member: Member) -> &[u8] {
    let name = member_name(model, member);
    match name.iter().position(|byte| ends_family(*byte)) {
        Some(end) => &name[..end],
        None => name,
    }
}

// Whether two members ask for the same kind of thing.
fn ask_alike(first: Member, second: Member) -> bool {
    matches!(
        (first, second),
        (Member::RowLo(_), Member::RowLo(_))
            | (Member::RowUp(_), Member::RowUp(_))
            | (Member::Lower(_), Member::Lower(_))
            | (Member::Upper(_), Member::Upper(_))
            | (Member::Whole(_), Member::Whole(_))
    )
}

// Whether two members are of one family.
fn are_alike(model: &Model, first: Member, second: Member) -> bool {
    let name = family_name(model, first);
    !name.is_empty() && name == family_name(model, second) && ask_alike(first, second)
}

/// How many items members have in a list, in which a family is one.
pub(crate) fn count_items(model: &Model, members: &[Member]) -> u64 {
    let mut count: u64 = 0;
    for family in members.chunk_by(|first, second| are_alike(model, *first, *second)) {
        let items = if family.len() < LEAST_FAMILY {
            family.len() as u64
        } else {
            1
        };
        count = count.saturating_add(items);
    }
    count
}

// Writes members one by one.
fn write_each(
    model: &Model,
    conflict: &Conflict<'_>,
    set: &MemberList,
    members: &[Member],
    into: &mut Vec<u8>,
) -> Result<(), AllocError>
    ensures { OnOk result (IsMarkedUp into.old.items into.new.items) }
{
    for member in members {
        write_member(model, conflict, set, *member, into)?;
    }
    Ok(())
}

// Begins the fold of a family.
fn begin_family(name: &[u8], count: u64, into: &mut Vec<u8>) -> Result<(), AllocError>
    ensures { OnOk result (IsMarkedUp into.old.items into.new.items) }
{
    write_fixed("<li>", into)?;
    write_fixed(fold_tag(count), into)?;
    write(
        &[
            Text(name),
            Fixed("…: "),
            Count(count),
            Fixed(" requirements</summary>\n<ol>\n"),
        ],
        into,
    )
}

// Writes a family, in a fold of its own where it has many members.
fn write_family(
    model: &Model,
    conflict: &Conflict<'_>,
    set: &MemberList,
    members: &[Member],
    into: &mut Vec<u8>,
) -> Result<(), AllocError>
    ensures { OnOk result (IsMarkedUp into.old.items into.new.items) }
{
    let [first, ..] = members else {
        return Ok(());
    };
    if members.len() < LEAST_FAMILY {
        return write_each(model, conflict, set, members, into);
    }
    begin_family(family_name(model, *first), members.len() as u64, into)?;
    write_each(model, conflict, set, members, into)?;
    write_fixed("</ol>\n</details></li>\n", into)
}

/// Writes members, family by family.
pub(crate) fn write_families(
    model: &Model,
    conflict: &Conflict<'_>,
    set: &MemberList,
    members: &[Member],
    into: &mut Vec<u8>,
) -> Result<(), AllocError>
    ensures { OnOk result (IsMarkedUp into.old.items into.new.items) }
{
    for family in members.chunk_by(|first, second| are_alike(model, *first, *second)) {
        write_family(model, conflict, set, family, into)?;
    }
    Ok(())
}
