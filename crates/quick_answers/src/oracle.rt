//! The oracle.
ghost use Rattle.std.specs.Prelude.{◌≡◌, true};
ghost use Rattle.certs.specs.Checks.{IsSetOf};
ghost use Rattle.certs.specs.Tales.{asked_after, no_tale};
ghost use Rattle.quick_answers.specs.Alone.{is_small, stands_alone};
ghost use Rattle.quick_answers.specs.Answers.{Came, IsAsked, IsAskedFirst, IsQuickAnswer, quick_holds, quick_ordered, quick_within};
ghost use Rattle.quick_answers.specs.Value.{QuickValue, most_pivots, state_with};
ghost use Rattle.quick_run.specs.Pivots.{Allows};

use crate::alone::{is_small, stands_alone};
use crate::kept::{Budget, Kept};
use certs::{MemberSet, Oracle, Stop, Tale, Verdict};
use lp_model::Model;
use quick_run::{QuickRun, Suggest};
use std::alloc::Global;

/// An oracle that answers by quick runs where their answers are confirmed, and else by the inner oracle.
#[derive(Drop)]
pub struct QuickOracle<'a, O: Oracle, S: Suggest = QuickRun> {
    model: &'a Model,
    kept: Kept<S>,
    inner: O,
    pivots: u64,
    nodes: u64,
    tale: Tale,
}

impl<'a, O: Oracle, S: Suggest> std::marker::Model for QuickOracle<'a, O, S> {
    ghost use Rattle.std.specs.Prelude.{◌≡◌};
    ghost use Rattle.quick_answers.specs.Value.{QuickValue};

    ghost Value = { QuickValue O };

    ghost view = { λ o. record { inner = o.inner; pivots = o.pivots; nodes = o.nodes; allowed = o.kept; tale = o.tale } };

    ghost invariant = { λ o. (O.state o.inner).model ≡ o.model.now };
}

impl<'a, O: Oracle, S: Suggest> QuickOracle<'a, O, S> {
    /// An oracle for a program, with what was kept of it, that makes quick runs of so many pivots an ask, or where the set has
    /// a mark of so many pivots a node, in a quick tree of at most so many nodes. It was asked nothing yet.
    pub fn new(
        alloc: Global,
        model: &'a Model,
        kept: Kept<S>,
        inner: O,
        pivots: u64,
        nodes: u64,
    ) -> QuickOracle<'a, O, S>
        requires { (O.state inner).model ≡ model.now }
        ensures { result ≡ record {
          inner = inner;
          pivots = pivots;
          nodes = nodes;
          allowed = kept;
          tale = no_tale;
        } }
    {
        QuickOracle {
            model,
            kept,
            inner,
            pivots,
            nodes,
            tale: Tale::new(alloc),
        }
    }

    /// The inner oracle.
    pub fn inner(&self) -> &O
        ensures { result.now ≡ self.now.inner }
    {
        &self.inner
    }

    /// What it tells of its calls.
    pub fn tale(&self) -> &Tale
        ensures { result.now ≡ self.now.tale }
    {
        &self.tale
    }
}

impl<'a, O: Oracle + Drop, S: Suggest> QuickOracle<'a, O, S> {
    /// What is kept of the program, for the next oracle.
    pub fn into_kept(self) -> Kept<S>
        ensures { result ≡ self.entry.allowed }
    {
        self.kept
    }
}

impl<O: Oracle, S: Suggest> Oracle for QuickOracle<'_, O, S> {
    ghost state = { λ o. state_with (O.state o.inner) o.tale };

    ghost answers = { λ model budgets set result. IsQuickAnswer O.answers model budgets set result };

    ghost holds = { λ model budgets set verdict h. quick_holds O.answers model budgets set verdict (λ k. O.holds model budgets set verdict k) h };

    ghost ordered = { λ model budgets set proof h. quick_ordered O.answers model budgets set proof (λ k. O.ordered model budgets set proof k) h };

    ghost within = { λ model budgets set stop h. quick_within O.answers model budgets set stop (λ k. O.within model budgets set stop k) h };

    ghost parts = { λ oracle set part of h. O.parts oracle.inner set part of h };

    fn ask(&mut self, alloc: Global, set: &MemberSet) -> Result<Verdict, Stop>
        requires same { IsSetOf (O.state self.old.inner).model set.now }
        requires served { (O.state self.old.inner).serves set.now.members ≡ true }
        ensures answered { IsQuickAnswer O.answers (O.state self.old.inner).model
            (O.state self.old.inner).budgets set.now.members result }
        ensures told { state_with (O.state self.new.inner) self.new.tale
            ≡ asked_after (state_with (O.state self.old.inner) self.old.tale) set.now.members result }
        // A confirmed verdict comes without an ask of the inner oracle, or after one that met a number that does not fit; all
        // else is what the inner oracle answers.
        ensures came { Came O.answers (O.state self.old.inner) (O.state self.new.inner)
            set.now.members result }
        // Where the set is small, the inner oracle is asked first.
        ensures first { is_small (O.state self.old.inner).model set.now.members ≡ true
            → IsAskedFirst O.answers (O.state self.old.inner) (O.state self.new.inner)
            set.now.members result }
        // Where the set is tiny, and where it has a mark and quick trees may have no nodes, it alone is asked.
        ensures alone { stands_alone (O.state self.old.inner).model set.now.members self.old.nodes ≡ true
            → IsAsked O.answers (O.state self.old.inner) (O.state self.new.inner)
            set.now.members result }
        // Its quick runs are allowed no more pivots than so many: for each node, where the set has a mark.
        ensures allowed { let most = most_pivots set.now.members self.old.pivots self.old.nodes in
            Allows self.old.allowed self.new.allowed most }
        ensures budget { self.new.pivots ≡ self.old.pivots }
        ensures nodes { self.new.nodes ≡ self.old.nodes }
    {
        set.stands_in_order();
        let is_first = self.tale.asks() == 0;
        let answer = answered(
            alloc,
            self.model,
            &mut self.kept,
            &mut self.inner,
            set,
            Budget {
                pivots: self.pivots,
                nodes: self.nodes,
            },
            is_first,
        );
        self.tale.tell(alloc, set, answer)
    }
}

// A confirmed verdict by quick runs, or else what the inner oracle answers; of a small set the inner oracle is asked first.
fn answered<O: Oracle, S: Suggest>(
    alloc: Global,
    model: &Model,
    kept: &mut Kept<S>,
    inner: &mut O,
    set: &MemberSet,
    budget: Budget,
    is_first: bool,
) -> Result<Verdict, Stop>
    requires same { IsSetOf model.now set.now }
    requires program { (O.state inner.old).model ≡ model.now }
    requires served { (O.state inner.old).serves set.now.members ≡ true }
    ensures came { Came O.answers (O.state inner.old) (O.state inner.new) set.now.members result }
    ensures first { is_small model.now set.now.members ≡ true
        → IsAskedFirst O.answers (O.state inner.old) (O.state inner.new) set.now.members result }
    ensures alone { stands_alone model.now set.now.members budget.nodes ≡ true
        → IsAsked O.answers (O.state inner.old) (O.state inner.new) set.now.members result }
    ensures allowed { let most = most_pivots set.now.members budget.pivots budget.nodes in
        Allows kept.old kept.new most }
{
    if stands_alone(model, set, budget.nodes) {
        return inner.ask(alloc, set);
    }
    let is_small = is_small(model, set);
    if !is_small && let Some(verdict) = kept.verdict(alloc, model, set, budget, is_first) {
        return Ok(verdict);
    }
    let answer = inner.ask(alloc, set);
    if is_small
        && let Err(Stop::Wide(..)) = &answer
        && let Some(verdict) = kept.verdict(alloc, model, set, budget, is_first)
    {
        return Ok(verdict);
    }
    answer
}
