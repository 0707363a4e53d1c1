//! Lists of lines, each in its order.
ghost use Rattle.std.specs.Prelude.{◌≡◌};
ghost use Rattle.std.specs.List.{list_all};
ghost use Rattle.lp_model.specs.Members.{IsInOrder, comes_before as member_before};
ghost use Rattle.certs.specs.Order.{AreSharesInOrder, source_before};
ghost use Rattle.report_text.specs.Form.{IsNamedMember, AreMembers};
ghost use Rattle.report_reader.specs.Kinds.{IsCursor, IsLookedAt, IsRead, next_in};
ghost use Rattle.report_reader.specs.Things.{found, values as values_of, value_of, next_value as next_value_by, point_at, uses, share_of, may_use, members as members_by, member_of, may_list, may_stand as may_stand_by, branches as branches_of, branch_of, steps as steps_by, step_of, notes as notes_by, note_of};

use crate::cursor::Cursor;
use crate::reader::ReportStop;
use certs::{Branch, PackedValues, Path, Share, Shares, Source, stands_before};
use frac128::Frac;
use lp_model::{Member, Model, Note};
use reductions::ReduceStep;
use report_text::{Members, Notes, Phrase, ReduceSteps, StopPhrase};
use std::alloc::Global;

/// What a list of members is of: a set, or those that are left out at a site, or enforced there.
#[derive(Clone, Copy, PartialEq, Eq)]
pub(crate) enum Listing {
    Listed,
    LeftOut,
    Enforced,
}

// The column and the value that the next line tells.
fn value_in(ahead: &Result<Phrase, ReportStop>) -> Option<(u32, Frac)>
    ensures { result ≡ found value_of ahead.now }
{
    match ahead {
        Ok(Phrase::Value(column, value)) => Some((*column, *value)),
        _ => None,
    }
}

// The share that the next line tells.
fn share_in(ahead: &Result<Phrase, ReportStop>) -> Option<Share>
    ensures { result ≡ found share_of ahead.now }
{
    match ahead {
        Ok(Phrase::Use(share)) => Some(*share),
        _ => None,
    }
}

// The member that the next line tells, in a list of this kind.
fn member_in(listing: Listing, ahead: &Result<Phrase, ReportStop>) -> Option<Member>
    ensures { result ≡ found (member_of listing) ahead.now }
{
    match listing {
        Listing::Listed => match ahead {
            Ok(Phrase::Member(member)) => Some(*member),
            _ => None,
        },
        Listing::LeftOut => match ahead {
            Ok(Phrase::Stop(StopPhrase::Without(member))) => Some(*member),
            _ => None,
        },
        Listing::Enforced => match ahead {
            Ok(Phrase::Stop(StopPhrase::Enforced(member))) => Some(*member),
            _ => None,
        },
    }
}

// The branch that the next line tells.
fn branch_in(ahead: &Result<Phrase, ReportStop>) -> Option<Branch>
    ensures { result ≡ found branch_of ahead.now }
{
    match ahead {
        Ok(Phrase::Stop(StopPhrase::Branch(branch))) => Some(*branch),
        _ => None,
    }
}

// The step that the next line tells.
fn step_in(ahead: &Result<Phrase, ReportStop>) -> Option<ReduceStep>
    ensures { result ≡ found step_of ahead.now }
{
    match ahead {
        Ok(Phrase::Reduction(step)) => Some(*step),
        _ => None,
    }
}

// The note that the next line tells.
fn note_in(ahead: &Result<Phrase, ReportStop>) -> Option<Note>
    ensures { result ≡ found note_of ahead.now }
{
    match ahead {
        Ok(Phrase::Note(note)) => Some(*note),
        _ => None,
    }
}

// Whether a member stands before another.
fn comes_before(first: Member, second: Member) -> bool
    ensures { result ≡ member_before first second }
{
    first < second
}

// Whether a member comes after all the members of a list.
fn member_follows(members: &[Member], member: Member) -> bool
    requires { IsInOrder members.now }
    ensures { result ≡ list_all (λ n. member_before n member) members.now }
{
    match members.last() {
        Some(last) => comes_before(*last, member),
        None => true,
    }
}

// Whether a source comes after those of all the shares of a list.
fn source_follows(shares: &[Share], source: Source) -> bool
    requires { AreSharesInOrder shares.now }
    ensures { result ≡ list_all (λ t. source_before t.source source) shares.now }
{
    match shares.last() {
        Some(last) => stands_before(last.source, source),
        None => true,
    }
}

// Whether a member may stand in a list of this kind.
fn may_stand(model: &Model, listing: Listing, member: Member) -> bool
    requires { IsNamedMember model.now member }
    ensures { result ≡ may_stand_by model.now listing member }
{
    match listing {
        Listing::Listed => true,
        Listing::LeftOut => model.is_active(member),
        Listing::Enforced => model.exists(member),
    }
}

// The value that comes next behind so many.
fn next_value(count: usize, ahead: &Result<Phrase, ReportStop>) -> Option<(u32, Frac)>
    ensures { result ≡ next_value_by count (found value_of ahead.now) }
{
    let (column, value) = value_in(ahead)?;
    if count > column as usize {
        return None;
    }
    Some((column, value))
}

// The share that comes next in a list.
fn next_share(shares: &[Share], ahead: &Result<Phrase, ReportStop>) -> Option<Share>
    requires { AreSharesInOrder shares.now }
    ensures { result ≡ next_in may_use shares.now (found share_of ahead.now) }
{
    let share = share_in(ahead)?;
    if !source_follows(shares, share.source) {
        return None;
    }
    Some(share)
}

/// The member that comes next in a list of this kind.
pub(crate) fn next_member(
    model: &Model,
    listing: Listing,
    members: &[Member],
    ahead: &Result<Phrase, ReportStop>,
) -> Option<Member>
    requires in_order { IsInOrder members.now }
    requires said { IsLookedAt model.now ahead.now }
    ensures { result ≡ next_in (may_list model.now listing) members.now
        (found (member_of listing) ahead.now) }
{
    let member = member_in(listing, ahead)?;
    if !may_stand(model, listing, member) {
        return None;
    }
    if !member_follows(members, member) {
        return None;
    }
    Some(member)
}

/// Values, each of a later column, and 0 for each column without one.
pub(crate) fn read_values(alloc: Global, model: &Model, cursor: &mut Cursor<'_>) -> PackedValues
    requires { IsCursor model.now cursor.old }
    ensures read { IsRead model.now (values_of model.now) cursor.old cursor.new (point_at result) }
    ensures stands { IsCursor model.now cursor.new }
{
    let mut values = PackedValues::new(alloc);
    while let Some(entry) = next_value(values.len(), &cursor.ahead) {
        cursor.pass(alloc, model, true);
        values.fill(entry.0 as usize);
        if values.push(entry.1).is_err() {
            cursor.give_up();
            return values;
        }
    }
    values.fill(model.column_count() as usize);
    values
}

/// Shares, each after those before it.
pub(crate) fn read_shares(alloc: Global, model: &Model, cursor: &mut Cursor<'_>) -> Shares
    requires { IsCursor model.now cursor.old }
    ensures read { IsRead model.now (uses model.now) cursor.old cursor.new result }
    ensures stands { IsCursor model.now cursor.new }
{
    let mut shares = Vec::new(alloc);
    while let Some(share) = next_share(shares.as_slice(), &cursor.ahead) {
        cursor.pass(alloc, model, true);
        cursor.push(&mut shares, share);
    }
    Shares::new(shares)
}

/// Members of a list of this kind, each after those before it.
pub(crate) fn read_members(
    alloc: Global,
    model: &Model,
    cursor: &mut Cursor<'_>,
    listing: Listing,
) -> Vec<Member>
    requires { IsCursor model.now cursor.old }
    ensures read { IsRead model.now (members_by model.now listing) cursor.old cursor.new result.items }
    ensures form { AreMembers model.now result.items }
    ensures stands { IsCursor model.now cursor.new }
{
    let mut members = Vec::new(alloc);
    while let Some(member) = next_member(model, listing, members.as_slice(), &cursor.ahead) {
        cursor.pass(alloc, model, true);
        cursor.push(&mut members, member);
    }
    members
}

/// The branches of a path.
pub(crate) fn read_branches(alloc: Global, model: &Model, cursor: &mut Cursor<'_>) -> Path
    requires { IsCursor model.now cursor.old }
    ensures read { IsRead model.now (branches_of model.now) cursor.old cursor.new result }
    ensures stands { IsCursor model.now cursor.new }
{
    let mut branches = Vec::new(alloc);
    while let Some(branch) = branch_in(&cursor.ahead) {
        cursor.pass(alloc, model, true);
        cursor.push(&mut branches, branch);
    }
    Path::new(branches)
}

/// The steps of a reduction.
pub(crate) fn read_steps(alloc: Global, model: &Model, cursor: &mut Cursor<'_>) -> ReduceSteps
    requires { IsCursor model.now cursor.old }
    ensures read { IsRead model.now (steps_by model.now) cursor.old cursor.new result }
    ensures stands { IsCursor model.now cursor.new }
{
    let mut steps = Vec::new(alloc);
    while let Some(step) = step_in(&cursor.ahead) {
        cursor.pass(alloc, model, true);
        cursor.push(&mut steps, step);
    }
    ReduceSteps::new(steps)
}

/// The notes of a report.
pub(crate) fn read_notes(alloc: Global, model: &Model, cursor: &mut Cursor<'_>) -> Notes
    requires { IsCursor model.now cursor.old }
    ensures read { IsRead model.now (notes_by model.now) cursor.old cursor.new result }
    ensures stands { IsCursor model.now cursor.new }
{
    let mut notes = Vec::new(alloc);
    while let Some(note) = note_in(&cursor.ahead) {
        cursor.pass(alloc, model, true);
        cursor.push(&mut notes, note);
    }
    Notes::new(notes)
}
