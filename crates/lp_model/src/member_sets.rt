//! Sets of members.
ghost use Rattle.std.specs.Prelude.{◌≡◌, ◌<◌, ◌≤◌, ◌↔◌, Option, MatchOption, IfOk, IsTrue, [], ⊤, filter, length};
ghost use Rattle.lp_model.specs.Members.{has, IsInOrder, possible_members};
ghost use Rattle.lp_model.specs.Shown.{most_rows, most_columns};
ghost use Rattle.lp_model.specs.MemberSets.{possible_in, IsMemberFor, IsPossibleIn, IsWithin, HaveCommon, empty_set, active_set, set_with, set_without, next_after, place_count, place_in, place_after, word_count};

use crate::members::Member;
use crate::models::Model;
use lane_scan::{count, first_bit, has_bit, meets, put_bit, subset};
use std::alloc::{AllocError, Global};

/// A set of members of a program.
///
/// Contracts see how many rows and columns the program has, and the members in member order: the sides of rows, row by
/// row, lower bounds, upper bounds, marks.
#[derive(Drop)]
pub struct MemberSet {
    rows: u32,
    columns: u32,
    words: Vec<u64>,
}

impl std::marker::Model for MemberSet {
    ghost use Rattle.lp_model.specs.MemberSets.{SetValue, marked_set, IsMarking};

    ghost Value = { SetValue };

    ghost view = { λ s. marked_set s.rows s.columns s.words.items };

    ghost invariant = { λ s. IsMarking s.rows s.columns s.words.items };
}

impl MemberSet {
    /// A set of no members, for those of a program.
    pub fn empty(alloc: Global, model: &Model) -> Result<MemberSet, AllocError>
        ensures { IfOk result (λ set. set ≡ empty_set model.now) }
    {
        let rows = model.row_count();
        let columns = model.column_count();
        let words = vec![in alloc; 0; count_words(rows, columns)]?;
        Ok(MemberSet {
            rows,
            columns,
            words,
        })
    }

    /// The same set once more.
    pub fn copy(&self, alloc: Global) -> Result<MemberSet, AllocError>
        ensures { IfOk result (λ set. set ≡ self.now) }
    {
        Ok(MemberSet {
            rows: self.rows,
            columns: self.columns,
            words: Vec::from_slice(alloc, self.words.as_slice())?,
        })
    }

    /// A set of no members, for those of the same program.
    pub fn emptied(&self, alloc: Global) -> Result<MemberSet, AllocError>
        ensures { IfOk result (λ set. set ≡ record self.now { members = [] }) }
    {
        Ok(MemberSet {
            rows: self.rows,
            columns: self.columns,
            words: vec![in alloc; 0; self.words.len()]?,
        })
    }

    /// How many rows the program has.
    pub fn rows(&self) -> u32
        ensures { result ≡ self.now.rows }
    {
        self.rows
    }

    /// How many columns the program has.
    pub fn columns(&self) -> u32
        ensures { result ≡ self.now.columns }
    {
        self.columns
    }

    /// Whether the member is in the set. It need not exist in the program, but its number must be below that of the
    /// rows, or of the columns.
    pub fn contains(&self, member: Member) -> bool
        requires { IsPossibleIn self.now member }
        ensures { result ≡ has self.now.members member }
    {
        let place = place_of(self.rows, self.columns, member);
        has_bit(self.words.as_slice(), place)
    }

    /// Puts the member in its place in the set. Where it is there, the set stays as it was.
    pub fn insert(&mut self, member: Member)
        requires { IsPossibleIn self.old member }
        ensures { self.new ≡ set_with self.old member }
    {
        let place = place_of(self.rows, self.columns, member);
        put_bit(self.words.as_mut_slice(), place, true);
    }

    /// Takes the member out of the set. Where it is not there, the set stays as it was.
    pub fn remove(&mut self, member: Member)
        requires { IsPossibleIn self.old member }
        ensures { self.new ≡ set_without self.old member }
    {
        let place = place_of(self.rows, self.columns, member);
        put_bit(self.words.as_mut_slice(), place, false);
    }

    /// How many members the set has.
    pub fn count(&self) -> u64
        ensures { result ≡ length self.now.members }
    {
        let words = self.words.as_slice();
        count(words)
    }

    /// Whether each of its members is in another set of the same model.
    pub fn within(&self, other: &MemberSet) -> bool
        requires rows { self.now.rows ≡ other.now.rows }
        requires columns { self.now.columns ≡ other.now.columns }
        ensures { IsTrue result ↔ IsWithin self.now other.now }
    {
        let words = self.words.as_slice();
        subset(words, other.words.as_slice())
    }

    /// Whether some member is in this set and in another one of the same model.
    pub fn meets(&self, other: &MemberSet) -> bool
        requires rows { self.now.rows ≡ other.now.rows }
        requires columns { self.now.columns ≡ other.now.columns }
        ensures { IsTrue result ↔ HaveCommon self.now other.now }
    {
        let words = self.words.as_slice();
        meets(words, other.words.as_slice())
    }

    /// Its members are possible members, and stand in order. This is for proofs, and does nothing.
    pub fn stands_in_order(&self)
        ensures possible { self.now.members ≡ filter (has self.now.members) (possible_in self.now) }
        ensures in_order { IsInOrder self.now.members }
    {
        let _ = self.words.len();
    }

    /// Its members, one by one, in member order.
    pub fn iter(&self) -> Members<'_>
        ensures { result ≡ self.now.members }
    {
        Members {
            set: self,
            after: None,
        }
    }

    /// The first member of the set that comes after the given one in member order, or its first member where none is
    /// given.
    pub fn next(&self, after: Option<Member>) -> Option<Member>
        requires { MatchOption after ⊤ (IsPossibleIn self.now) }
        ensures { result ≡ next_after self.now after }
    {
        let first = first_place(self.rows, self.columns, after);
        let place = first_bit(self.words.as_slice(), first);
        if place < count_places(self.rows, self.columns) {
            return Some(member_at(self.rows, self.columns, place));
        }
        None
    }
}

/// The members of a set that are still to come, in member order. From [`MemberSet::iter`].
///
/// Contracts see the list of them.
#[derive(Drop)]
pub struct Members<'a> {
    set: &'a MemberSet,
    after: Option<Member>,
}

impl<'a> std::marker::Model for Members<'a> {
    ghost use Rattle.std.specs.Prelude.{List, MatchOption, ⊤};
    ghost use Rattle.lp_model.specs.Members.{Member as OneMember};
    ghost use Rattle.lp_model.specs.MemberSets.{IsPossibleIn, members_after};

    ghost Value = { List OneMember };

    ghost view = { λ s. members_after s.set.now s.after };

    ghost invariant = { λ s. MatchOption s.after ⊤ (IsPossibleIn s.set.now) };
}

impl<'a> Iterator for Members<'a> {
    ghost use Rattle.std.specs.Iterator.{YieldsFirst, item_count};

    type Item = Member;

    ghost next_gives = { YieldsFirst (λ members. members) };

    ghost remaining = { item_count (λ members. members) };

    fn next(&mut self) -> Option<Member> {
        self.set.stands_in_order();
        let member = self.set.next(self.after)?;
        self.after = Some(member);
        Some(member)
    }
}

/// The members that a program may have and that are still to come, in member order. From [`Model::possible_members`].
///
/// Contracts see the list of them.
#[derive(Drop)]
pub struct PossibleMembers {
    rows: u32,
    columns: u32,
    place: usize,
}

impl std::marker::Model for PossibleMembers {
    ghost use Rattle.std.specs.Prelude.{List, ◌≤◌, drop};
    ghost use Rattle.lp_model.specs.Members.{Member as OneMember};
    ghost use Rattle.lp_model.specs.Shown.{most_rows, most_columns};
    ghost use Rattle.lp_model.specs.MemberSets.{members_for};

    ghost Value = { List OneMember };

    ghost view = { λ s. drop s.place (members_for s.rows s.columns) };

    ghost invariant = { λ s. (s.rows ≤ most_rows) × (s.columns ≤ most_columns) };
}

impl Iterator for PossibleMembers {
    ghost use Rattle.std.specs.Iterator.{YieldsFirst, item_count};

    type Item = Member;

    ghost next_gives = { YieldsFirst (λ members. members) };

    ghost remaining = { item_count (λ members. members) };

    fn next(&mut self) -> Option<Member> {
        if self.place >= count_places(self.rows, self.columns) {
            return None;
        }
        let member = member_at(self.rows, self.columns, self.place);
        self.place += 1;
        Some(member)
    }
}

impl Model {
    /// Each member that the program may have, whether it has it or not: both sides of every row, and both bounds and the
    /// mark of every column.
    pub fn possible_members(&self) -> PossibleMembers
        ensures { result ≡ possible_members self.now }
    {
        PossibleMembers {
            rows: self.row_count(),
            columns: self.column_count(),
            place: 0,
        }
    }

    /// The set of the active members.
    pub fn members(&self, alloc: Global) -> Result<MemberSet, AllocError>
        ensures { IfOk result (λ set. set ≡ active_set self.now) }
    {
        let mut set = MemberSet::empty(alloc, self)?;
        for member in self.possible_members() {
            if self.is_active(member) {
                set.insert(member);
            }
        }
        Ok(set)
    }
}

// How many members a program with so many rows and columns may have.
fn count_places(rows: u32, columns: u32) -> usize
    requires few_rows { rows ≤ most_rows }
    requires few_columns { columns ≤ most_columns }
    ensures { result ≡ place_count rows columns }
{
    2 * rows as usize + (columns as usize + (columns as usize + columns as usize))
}

// How many words have a bit for each of them.
fn count_words(rows: u32, columns: u32) -> usize
    requires few_rows { rows ≤ most_rows }
    requires few_columns { columns ≤ most_columns }
    ensures { result ≡ word_count rows columns }
{
    count_places(rows, columns).div_ceil(64)
}

// The place of a member among them, in order.
fn place_of(rows: u32, columns: u32, member: Member) -> usize
    requires few_rows { rows ≤ most_rows }
    requires few_columns { columns ≤ most_columns }
    requires in_range { IsMemberFor rows columns member }
    ensures place { result ≡ place_in rows columns member }
    ensures within { result < place_count rows columns }
{
    let (sides, columns) = (2 * rows as usize, columns as usize);
    match member {
        Member::RowLo(index) => 2 * index as usize,
        Member::RowUp(index) => 2 * index as usize + 1,
        Member::Lower(index) => sides + index as usize,
        Member::Upper(index) => sides + (columns + index as usize),
        Member::Whole(index) => sides + (columns + (columns + index as usize)),
    }
}

// The first place after that of the given member.
fn first_place(rows: u32, columns: u32, after: Option<Member>) -> usize
    requires few_rows { rows ≤ most_rows }
    requires few_columns { columns ≤ most_columns }
    requires in_range { MatchOption after ⊤ (IsMemberFor rows columns) }
    ensures place { result ≡ place_after rows columns after }
    ensures within { result ≤ place_count rows columns }
{
    match after {
        Some(member) => place_of(rows, columns, member) + 1,
        None => 0,
    }
}

// The member at a place.
fn member_at(rows: u32, columns: u32, place: usize) -> Member
    requires few_rows { rows ≤ most_rows }
    requires few_columns { columns ≤ most_columns }
    requires within { place < place_count rows columns }
    ensures in_range { IsMemberFor rows columns result }
    ensures place { place ≡ place_in rows columns result }
{
    let lowers = 2 * rows as usize;
    let uppers = lowers + columns as usize;
    let wholes = uppers + columns as usize;
    if place < lowers && place % 2 == 0 {
        return Member::RowLo((place / 2) as u32);
    }
    if place < lowers {
        return Member::RowUp((place / 2) as u32);
    }
    if place < uppers {
        return Member::Lower((place - lowers) as u32);
    }
    if place < wholes {
        return Member::Upper((place - uppers) as u32);
    }
    Member::Whole((place - wholes) as u32)
}
