//! What is kept from ask to ask, and what it gives.
ghost use Rattle.std.specs.Prelude.{◌≡◌, ◌*◌, not, IfSome};
ghost use Rattle.certs.specs.Answers.{is_linear};
ghost use Rattle.certs.specs.Checks.{IsSetOf};
ghost use Rattle.certs.specs.Tales.{IsPointOf};
ghost use Rattle.quick_answers.specs.Answers.{IsConfirmed};
ghost use Rattle.quick_answers.specs.Value.{most_pivots};
ghost use Rattle.quick_run.specs.Pivots.{Allows};

use crate::alone::{has_mark, stands_alone};
use crate::confirmed::{
    copied_combo, copied_point, copied_proof, is_combo, is_point, leaf_verdict,
};
use crate::trees::quick_tree;
use certs::{Combo, MemberSet, Point, Proof, Verdict};
use lp_model::Model;
use quick_run::{Guess, QuickRun, Suggest, Suggestion};
use std::alloc::Global;

// After so many asks in a row that gave nothing, no quick run is made.
const MOST_FAILURES: u32 = 2;

/// What the quick runs of an ask may take: so many pivots, or where the set has a mark so many for each node, and so many
/// nodes.
#[derive(Clone, Copy)]
pub(crate) struct Budget {
    pub pivots: u64,
    pub nodes: u64,
}

/// What is kept from ask to ask, and from one oracle to the next, on one program: what suggests, as the basis of the quick
/// runs, and the last point, the last combination and the last proof by a tree that were confirmed.
#[derive(Drop)]
pub struct Kept<S: Suggest = QuickRun> {
    /// What suggests.
    pub run: S,
    point: Option<Point>,
    combo: Option<Combo>,
    proof: Option<Proof>,
    failures: u32,
    tree_failures: u32,
    is_guided: bool,
}

// Contracts see how many pivots were allowed.
impl<S: Suggest> std::marker::Model for Kept<S> {
    ghost use Rattle.std.specs.Prelude.{ℕ};

    ghost Value = { ℕ };

    ghost view = { λ k. S.allowed k.run };
}

impl Kept<QuickRun> {
    /// Nothing was run and nothing confirmed yet.
    pub fn new() -> Kept<QuickRun> {
        Kept {
            run: QuickRun::new(),
            point: None,
            combo: None,
            proof: None,
            failures: 0,
            tree_failures: 0,
            is_guided: false,
        }
    }
}

impl<S: Suggest> Kept<S> {
    /// A confirmed point of a set, by what is kept or by quick runs of so many pivots, and where the set has a mark a quick tree of
    /// at most so many nodes. None where nothing was confirmed, and where the set stands alone.
    pub fn find_point(
        &mut self,
        alloc: Global,
        model: &Model,
        set: &MemberSet,
        pivots: u64,
        nodes: u64,
    ) -> Option<Point>
        requires { IsSetOf model.now set.now }
        ensures found { IfSome result (IsPointOf model.now set.now.members) }
        ensures allowed { Allows self.old self.new (most_pivots set.now.members pivots nodes) }
    {
        if stands_alone(model, set, nodes) {
            return None;
        }
        let budget = Budget { pivots, nodes };
        match self.verdict(alloc, model, set, budget, true)? {
            Verdict::Feasible(point) => Some(point),
            Verdict::Infeasible(_) => None,
        }
    }

    /// A confirmed verdict for a set, by what is kept where it is the first ask, or else by quick runs: one for a set without
    /// marks, and a tree of them for one with a mark. None where nothing was confirmed, and once two asks in a row for sets of
    /// its kind gave nothing.
    pub(crate) fn verdict(
        &mut self,
        alloc: Global,
        model: &Model,
        set: &MemberSet,
        budget: Budget,
        is_first: bool,
    ) -> Option<Verdict>
        requires { IsSetOf model.now set.now }
        ensures confirmed { IfSome result (IsConfirmed model.now set.now.members) }
        ensures allowed { let most = most_pivots set.now.members budget.pivots budget.nodes in
            Allows self.old self.new most }
    {
        let is_marked = has_mark(set, model.column_count());
        let before = if is_marked {
            self.tree_failures
        } else {
            self.failures
        };
        if before >= MOST_FAILURES {
            return None;
        }
        let found = self.found(alloc, model, set, budget, is_first, is_marked);
        let failures = match &found {
            Some(_) => 0,
            None => before.saturating_add(1),
        };
        if is_marked {
            self.tree_failures = failures;
        } else {
            self.failures = failures;
        }
        found
    }

    // A confirmed verdict by what is kept where it is the first ask, or else by a quick tree or by quick runs.
    fn found(
        &mut self,
        alloc: Global,
        model: &Model,
        set: &MemberSet,
        budget: Budget,
        is_first: bool,
        is_marked: bool,
    ) -> Option<Verdict>
        requires same { IsSetOf model.now set.now }
        requires marked { is_marked ≡ not (is_linear set.now.members) }
        ensures confirmed { IfSome result (IsConfirmed model.now set.now.members) }
        ensures allowed { let most = most_pivots set.now.members budget.pivots budget.nodes in
            Allows self.old self.new most }
    {
        if is_first && let Some(verdict) = self.remembered(alloc, model, set) {
            return Some(verdict);
        }
        if is_marked {
            return self.found_by_tree(alloc, model, set, budget);
        }
        self.run.allow(budget.pivots);
        if let Some(verdict) = self.found_alone(alloc, model, set) {
            return Some(verdict);
        }
        self.is_guided = !self.is_guided;
        self.found_alone(alloc, model, set)
    }

    // A confirmed verdict by exact quick runs, or by a guide where it gave the last one.
    fn found_alone(&mut self, alloc: Global, model: &Model, set: &MemberSet) -> Option<Verdict>
        requires { IsSetOf model.now set.now }
        ensures confirmed { IfSome result (IsConfirmed model.now set.now.members) }
        ensures kept { self.new ≡ self.old }
    {
        if self.is_guided {
            return self.found_by_guide(alloc, model, set);
        }
        let suggestion = self.run.suggest(alloc, model, set, &[]);
        if let Some(verdict) = self.confirmed(alloc, model, set, suggestion) {
            return Some(verdict);
        }
        if !self.run.restart() {
            return None;
        }
        let suggestion = self.run.suggest(alloc, model, set, &[]);
        self.confirmed(alloc, model, set, suggestion)
    }

    // A confirmed verdict by a guide: the vertex or the row of its basis, or what is near.
    fn found_by_guide(&mut self, alloc: Global, model: &Model, set: &MemberSet) -> Option<Verdict>
        requires { IsSetOf model.now set.now }
        ensures confirmed { IfSome result (IsConfirmed model.now set.now.members) }
        ensures kept { self.new ≡ self.old }
    {
        let vertex = self
            .run
            .suggest_by_guide(alloc, model, set, &[], Guess::Vertex);
        if let Some(verdict) = self.confirmed(alloc, model, set, vertex) {
            return Some(verdict);
        }
        let near = self
            .run
            .suggest_by_guide(alloc, model, set, &[], Guess::Near);
        self.confirmed(alloc, model, set, near)
    }

    // A confirmed verdict by a quick tree.
    fn found_by_tree(
        &mut self,
        alloc: Global,
        model: &Model,
        set: &MemberSet,
        budget: Budget,
    ) -> Option<Verdict>
        requires { IsSetOf model.now set.now }
        ensures confirmed { IfSome result (IsConfirmed model.now set.now.members) }
        ensures allowed { Allows self.old self.new (budget.pivots * budget.nodes) }
    {
        let last = match &self.proof {
            Some(proof) => proof.nodes.as_slice(),
            None => &[],
        };
        let verdict = quick_tree(alloc, model, set, &mut self.run, last, budget)?;
        keep(alloc, &verdict, &mut self.point, &mut self.proof);
        Some(verdict)
    }

    // A confirmed verdict by what is kept: the combination, or else the point.
    fn remembered(&mut self, alloc: Global, model: &Model, set: &MemberSet) -> Option<Verdict>
        requires { IsSetOf model.now set.now }
        ensures confirmed { IfSome result (IsConfirmed model.now set.now.members) }
        ensures kept { self.new ≡ self.old }
    {
        if let Some(combo) = &self.combo {
            let combo = copied_combo(alloc, combo).ok()?;
            if let Some(verdict) = refuted(alloc, model, set, combo, &mut self.combo) {
                return Some(verdict);
            }
        }
        let point = copied_point(alloc, self.point.as_ref()?).ok()?;
        satisfied(alloc, model, set, point, &mut self.point)
    }

    // The verdict of a suggestion, where it is confirmed.
    fn confirmed(
        &mut self,
        alloc: Global,
        model: &Model,
        set: &MemberSet,
        suggestion: Option<Suggestion>,
    ) -> Option<Verdict>
        requires { IsSetOf model.now set.now }
        ensures confirmed { IfSome result (IsConfirmed model.now set.now.members) }
        ensures kept { self.new ≡ self.old }
    {
        match suggestion? {
            Suggestion::Point(point) => satisfied(alloc, model, set, point, &mut self.point),
            Suggestion::Combo(combo) => refuted(alloc, model, set, combo, &mut self.combo),
        }
    }
}

// Keeps a copy of the verdict's point or proof, where memory allows.
fn keep(alloc: Global, verdict: &Verdict, point: &mut Option<Point>, proof: &mut Option<Proof>) {
    match verdict {
        Verdict::Feasible(found) => *point = copied_point(alloc, found).ok(),
        Verdict::Infeasible(found) => *proof = copied_proof(alloc, found).ok(),
    }
}

// The verdict of a point, where it is confirmed. A copy of it is kept, where memory allows.
fn satisfied(
    alloc: Global,
    model: &Model,
    set: &MemberSet,
    point: Point,
    kept: &mut Option<Point>,
) -> Option<Verdict>
    ensures { IfSome result (IsConfirmed model.now set.now.members) }
{
    if !is_point(model, set, &point) {
        return None;
    }
    *kept = copied_point(alloc, &point).ok();
    Some(Verdict::Feasible(point))
}

// The verdict of a combination, where it is confirmed. A copy of it is kept, where memory allows.
fn refuted(
    alloc: Global,
    model: &Model,
    set: &MemberSet,
    combo: Combo,
    kept: &mut Option<Combo>,
) -> Option<Verdict>
    requires { IsSetOf model.now set.now }
    ensures { IfSome result (IsConfirmed model.now set.now.members) }
{
    if !is_combo(alloc, model, set, &combo) {
        return None;
    }
    *kept = copied_combo(alloc, &combo).ok();
    leaf_verdict(alloc, combo)
}
