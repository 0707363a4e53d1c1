//! Sets of members that take little memory where they have few.
ghost use Rattle.std.specs.Prelude.{◌≡◌, IfOk, All, filter, length};
ghost use Rattle.lp_model.specs.Members.{has, IsInOrder};
ghost use Rattle.lp_model.specs.MemberSets.{IsMemberFor, empty_set, possible_in};
ghost use Rattle.certs.specs.Checks.{IsSetOf};

use lp_model::{Member, MemberSet, Model};
use std::alloc::{AllocError, Global};

/// A set of members of a program, kept by its members. Contracts see what they see of a [`MemberSet`].
#[derive(Drop)]
pub struct MemberList {
    rows: u32,
    columns: u32,
    members: Vec<Member>,
}

impl std::marker::Model for MemberList {
    ghost use Rattle.std.specs.Prelude.{◌≡◌, filter};
    ghost use Rattle.lp_model.specs.Members.{has};
    ghost use Rattle.lp_model.specs.MemberSets.{SetValue, members_for};

    ghost Value = { SetValue };

    ghost view = { λ s. record { rows = s.rows; columns = s.columns; members = s.members.items } };

    ghost invariant = { λ s. s.members.items ≡ filter (has s.members.items) (members_for s.rows s.columns) };
}

impl MemberList {
    /// The set of these members, each after the one before it in member order.
    pub fn new(model: &Model, members: Vec<Member>) -> MemberList
        requires possible { All (IsMemberFor (length model.now.rows) (length model.now.columns)) members.items }
        requires in_order { IsInOrder members.items }
        ensures { result ≡ record (empty_set model.now) { members = members.items } }
    {
        MemberList {
            rows: model.row_count(),
            columns: model.column_count(),
            members,
        }
    }

    /// What is kept of a set.
    pub fn of(alloc: Global, set: &MemberSet) -> Result<MemberList, AllocError>
        ensures { IfOk result (λ list. list ≡ set.now) }
    {
        set.stands_in_order();
        let mut members = Vec::new(alloc);
        for member in set.iter() {
            members.push(member)?;
        }
        Ok(MemberList {
            rows: set.rows(),
            columns: set.columns(),
            members,
        })
    }

    /// The whole set.
    pub fn unpacked(&self, alloc: Global, model: &Model) -> Result<MemberSet, AllocError>
        requires { IsSetOf model.now self.now }
        ensures { IfOk result (λ set. set ≡ self.now) }
    {
        let mut set = MemberSet::empty(alloc, model)?;
        for member in &self.members {
            set.insert(*member);
        }
        Ok(set)
    }

    /// How many members it has.
    pub fn count(&self) -> u64
        ensures { result ≡ length self.now.members }
    {
        self.members.len() as u64
    }

    /// Its members are possible members, and stand in order. This is for proofs, and does nothing.
    pub fn stands_in_order(&self)
        ensures possible { self.now.members ≡ filter (has self.now.members) (possible_in self.now) }
    {
        let _ = self.members.len();
    }

    /// Its members, one by one, in member order.
    pub fn iter(&self) -> ListedMembers<'_>
        ensures { result ≡ self.now.members }
    {
        ListedMembers {
            rest: self.members.as_slice(),
        }
    }
}

/// The members of a list that are still to come. From [`MemberList::iter`].
///
/// Contracts see the list of them.
#[derive(Drop)]
pub struct ListedMembers<'a> {
    rest: &'a [Member],
}

impl<'a> std::marker::Model for ListedMembers<'a> {
    ghost use Rattle.std.specs.Prelude.{List};
    ghost use Rattle.lp_model.specs.declared.members.Member.{Member as OneMember};

    ghost Value = { List OneMember };

    ghost view = { λ s. s.rest.now };
}

impl<'a> Iterator for ListedMembers<'a> {
    ghost use Rattle.std.specs.Iterator.{YieldsFirst, item_count};

    type Item = Member;

    ghost next_gives = { YieldsFirst (λ members. members) };

    ghost remaining = { item_count (λ members. members) };

    fn next(&mut self) -> Option<Member> {
        let [first, rest @ ..] = self.rest else {
            return None;
        };
        self.rest = rest;
        Some(*first)
    }
}
