//! The oracle.
ghost use Rattle.std.specs.Prelude.{◌≡◌, ◌≤◌, false, true};
ghost use Rattle.lp_model.specs.Members.{is_mark as mark_test};
ghost use Rattle.certs.specs.Answers.{IsTreeAnswer, IsTreeVerdict};
ghost use Rattle.certs.specs.Bound.{without_marks};
ghost use Rattle.certs.specs.Checks.{IsSetOf};
ghost use Rattle.certs.specs.Tales.{asked_after, no_tale};
ghost use Rattle.certs.specs.Trees.{has_mark as some_mark};
ghost use Rattle.branch_oracle.specs.Answers.{IsAsked, IsBranchAnswer, branch_holds, branch_ordered, branch_within, part_without_marks};
ghost use Rattle.branch_oracle.specs.Value.{BranchValue, state_with};

use crate::trees::solve_tree;
use certs::{BranchAsk, Member, MemberSet, Oracle, Stop, Tale, Verdict};
use lp_model::Model;
use std::alloc::Global;

/// An oracle that answers a set with marks by its reference tree, and one without by the inner oracle.
///
/// The nodes of a tree are taken in preorder, each by a run of the inner oracle, which starts anew. A node whose run is
/// infeasible is a leaf. One whose point breaks a mark is split at the least column whose mark is broken, at the floor of
/// its value; the lower child comes first. One whose point breaks none ends the tree.
#[derive(Drop)]
pub struct BranchOracle<'a, B: BranchAsk> {
    model: &'a Model,
    inner: B,
    nodes: u64,
    taken: u64,
    tale: Tale,
}

impl<'a, B: BranchAsk> std::marker::Model for BranchOracle<'a, B> {
    ghost use Rattle.std.specs.Prelude.{◌≡◌};
    ghost use Rattle.branch_oracle.specs.Value.{BranchValue};

    ghost Value = { BranchValue B };

    ghost view = { λ o. record { inner = o.inner; nodes = o.nodes; taken = o.taken; tale = o.tale } };

    ghost invariant = { λ o. (B.state o.inner).model ≡ o.model.now };
}

impl<'a, B: BranchAsk> BranchOracle<'a, B> {
    /// An oracle for the program of the inner oracle, with so many nodes for each tree. It was asked nothing yet.
    pub fn new(alloc: Global, model: &'a Model, inner: B, nodes: u64) -> BranchOracle<'a, B>
        requires { (B.state inner).model ≡ model.now }
        ensures { result ≡ record { inner = inner; nodes = nodes; taken = 0; tale = no_tale } }
    {
        BranchOracle {
            model,
            inner,
            nodes,
            taken: 0,
            tale: Tale::new(alloc),
        }
    }

    /// The inner oracle.
    pub fn inner(&self) -> &B
        ensures { result.now ≡ self.now.inner }
    {
        &self.inner
    }

    /// What it tells of its calls.
    pub fn tale(&self) -> &Tale
        ensures { result.now ≡ self.now.tale }
    {
        &self.tale
    }

    /// How many nodes its trees took so far, for measurements; it stays at its greatest value once there.
    pub fn nodes_taken(&self) -> u64
        ensures { result ≡ self.now.taken }
    {
        self.taken
    }
}

impl<B: BranchAsk> Oracle for BranchOracle<'_, B> {
    ghost state = { λ o. state_with (B.state o.inner) o.nodes o.tale };

    ghost answers = { λ model budgets set result. IsBranchAnswer B.answers model budgets set result };

    ghost holds = { λ model budgets set verdict h. branch_holds B.answers model budgets set verdict (λ allowed k. B.holds model allowed set verdict k) h };

    ghost ordered = { λ model budgets set proof h. branch_ordered B.answers model budgets set proof (λ allowed k. B.ordered model allowed set proof k) h };

    ghost within = { λ model budgets set stop h. branch_within B.answers model budgets set stop (λ allowed k. B.within model allowed set stop k) h };

    ghost parts = { λ oracle set part of h. B.parts oracle.inner (without_marks set) (without_marks part) (part_without_marks set part of) h };

    fn ask(&mut self, alloc: Global, set: &MemberSet) -> Result<Verdict, Stop>
        requires same { IsSetOf (B.state self.old.inner).model set.now }
        requires served { (B.state self.old.inner).serves (without_marks set.now.members) ≡ true }
        ensures answered { IsBranchAnswer B.answers (B.state self.old.inner).model
            (record { pivots = (B.state self.old.inner).budgets.pivots; nodes = self.old.nodes }) set.now.members result }
        ensures told { state_with (B.state self.new.inner) self.new.nodes self.new.tale
            ≡ asked_after (state_with (B.state self.old.inner) self.old.nodes self.old.tale) set.now.members result }
        // Where the set has a mark it is answered by its tree, and nothing is put into the inner oracle's tale.
        ensures marked { some_mark set.now.members ≡ true
            → IsTreeAnswer (B.state self.old.inner).model
            (record { pivots = (B.state self.old.inner).budgets.pivots; nodes = self.old.nodes }) set.now.members result
            × (B.state self.new.inner ≡ B.state self.old.inner) }
        // Where it has none, the inner oracle is asked.
        ensures plain { some_mark set.now.members ≡ false
            → IsAsked B.answers (B.state self.old.inner) (B.state self.new.inner)
            set.now.members result }
        ensures nodes { self.new.nodes ≡ self.old.nodes }
        ensures taken { self.old.taken ≤ self.new.taken }
    {
        // That the program is well formed is told with its count of rows.
        let _rows = self.model.row_count();
        set.stands_in_order();
        let answer = answered(
            alloc,
            self.model,
            &mut self.inner,
            set,
            self.nodes,
            &mut self.taken,
        );
        self.tale.tell(alloc, set, answer)
    }
}

// What the tree of a set with a mark gives, or what the inner oracle answers to one without.
fn answered<B: BranchAsk>(
    alloc: Global,
    model: &Model,
    inner: &mut B,
    set: &MemberSet,
    nodes: u64,
    taken: &mut u64,
) -> Result<Verdict, Stop>
    requires same { IsSetOf model.now set.now }
    requires program { (B.state inner.old).model ≡ model.now }
    requires served { (B.state inner.old).serves (without_marks set.now.members) ≡ true }
    ensures marked { some_mark set.now.members ≡ true
        → IsTreeVerdict (B.state inner.old).model (record { pivots = (B.state inner.old).budgets.pivots; nodes = nodes }) set.now.members result
        × (B.state inner.new ≡ B.state inner.old) }
    ensures plain { some_mark set.now.members ≡ false
        → B.answers (B.state inner.old).model (B.state inner.old).budgets set.now.members result
        × (B.state inner.new ≡ asked_after (B.state inner.old) set.now.members result) }
    ensures taken { taken.old ≤ taken.new }
{
    if has_mark(set) {
        solve_tree(alloc, model, inner, set, nodes, taken)
    } else {
        inner.ask(alloc, set)
    }
}

// Whether a set has a mark.
fn has_mark(set: &MemberSet) -> bool
    ensures { result ≡ some_mark set.now.members }
{
    for member in set.iter() {
        if is_mark(member) {
            return true;
        }
    }
    false
}

// Whether a member is a mark.
fn is_mark(member: Member) -> bool
    ensures { result ≡ mark_test member }
{
    matches!(member, Member::Whole(_))
}
