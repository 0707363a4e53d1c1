//! Runs on a basis that is kept.
ghost use Rattle.std.specs.Prelude.{◌≡◌, ◌+◌, ◌-◌, ◌^◌, ◌<◌, ◌≤◌, IfSome, length};
ghost use Rattle.certs.specs.Checks.{IsSetOf};
ghost use Rattle.quick_run.specs.Pivots.{Allows, IsSpent};
ghost use Rattle.quick_run.specs.Shape.{HasShape, IsSuggestion};

use crate::alternative::cheapest;
use crate::combinations::{combo, crossing};
use crate::guesses::guided;
use crate::improving::best;
use crate::optima::Pricing::{Shortest, Steepest};
use crate::optima::{BestSuggestion, CheapestSuggestion, Costs, LeastSuggestion, Pricing};
use crate::relaxing::{descend_first, least};
use crate::suggestions::{Guess, Suggest, Suggestion};
use certs::{Branch, MemberSet};
use guide::Guide;
use lp_model::Model;
use quick_basis::{Basis, End, Saved, point, read_off, settle, start};
use std::alloc::Global;
use std::mem;

/// Runs on one program, with the basis that is kept from one to the next, and the last one that refuted a set without branches,
/// where runs went on from it.
#[derive(Drop)]
pub struct QuickRun {
    basis: Option<Basis>,
    refuted: Option<Saved>,
    is_away: bool,
    was_kept: bool,
    pricing: Pricing,
    guide: Option<Guide>,
    left: u64,
    allowed: u64,
}

// Contracts see how many pivots are left, and how many were allowed.
impl std::marker::Model for QuickRun {
    ghost use Rattle.quick_run.specs.Pivots.{PivotsValue};

    ghost Value = { PivotsValue };

    ghost view = { λ r. record { left = r.left; allowed = r.allowed } };
}

impl QuickRun {
    /// Nothing was run yet.
    pub fn new() -> QuickRun
        ensures { result ≡ record { left = 0; allowed = 0 } }
    {
        QuickRun {
            basis: None,
            refuted: None,
            is_away: false,
            was_kept: false,
            pricing: Steepest,
            guide: None,
            left: 0,
            allowed: 0,
        }
    }

    // A suggestion by the basis under the limits of a set and a path: the one that is kept, or where the last run went away from it
    // the one that refuted a set without branches, or a first one. Where none is returned, it is of no more use.
    fn suggested(
        &mut self,
        alloc: Global,
        model: &Model,
        set: &MemberSet,
        path: &[Branch],
    ) -> Option<Suggestion>
        requires same { IsSetOf model.now set.now }
        ensures shape { IfSome result (IsSuggestion model.now set.now.members path.now) }
        ensures spent { IsSpent self.old self.new }
    {
        self.was_kept = self.basis.is_some();
        if let Some(basis) = &mut self.basis {
            if path.is_empty()
                && self.is_away
                && let Some(saved) = &self.refuted
            {
                basis.restore(alloc, saved)?;
            }
            basis.limit(alloc, model, set, path)?;
        } else {
            let first = first_basis(alloc, model, set, path, &mut self.left)?;
            put(&mut self.basis, Some(first));
        }
        suggested(
            alloc,
            model,
            set,
            path,
            self.basis.as_mut()?,
            &mut self.left,
        )
    }

    // Keeps the basis once more where it refutes a set without branches, and no run has kept it so before.
    fn remember(&mut self, alloc: Global, is_moved: bool)
        ensures { self.new ≡ self.old }
    {
        let Some(basis) = &self.basis else {
            return;
        };
        self.is_away = basis.blocked.is_none();
        if !self.is_away && (is_moved || self.refuted.is_none()) {
            self.refuted = basis.save(alloc);
        }
    }
}

impl Suggest for QuickRun {
    ghost allowed = { λ r. r.allowed };

    fn allow(&mut self, pivots: u64)
        ensures allowed { Allows self.old.allowed self.new.allowed pivots }
        ensures counted { self.new.allowed < 2 ^ 64 - 1 → self.old.allowed + pivots ≤ self.new.allowed }
        ensures left { self.new.left ≤ pivots }
    {
        self.left = pivots;
        self.allowed = self.allowed.saturating_add(pivots);
    }

    /// A point or a combination that may show whether some point on a path satisfies the set's members, marks left out; none
    /// where a number does not fit, more pivots are wanted, memory is refused, or a branch is on no column. Nothing is promised of
    /// it but its shape, so what it shows is to be checked: a point with a value for each column, or shares of members of the set
    /// and of branches in order, with weights above 0.
    ///
    /// The first run on a program is a primal simplex on the sum of violations, in numbers of 32 bits, where that finds an end;
    /// then, as in all runs, the dual simplex goes on, from the basis at which the last run ended, with the limits of this set,
    /// which the branches narrow; after a point of a set without branches, from the one that refuted another. Where the
    /// limits of a variable cross, they are the combination. Where the last ask ended infeasible and one of its limits is
    /// gone, the point is first looked for by moving that variable alone. Where none is returned the basis is thrown away.
    fn suggest(
        &mut self,
        alloc: Global,
        model: &Model,
        set: &MemberSet,
        path: &[Branch],
    ) -> Option<Suggestion>
        requires same { IsSetOf model.now set.now }
        ensures shape { IfSome result (IsSuggestion model.now set.now.members path.now) }
        ensures kept { self.new.allowed ≡ self.old.allowed }
        ensures spent { self.new.left ≤ self.old.left }
    {
        let before = self.left;
        let found = self.suggested(alloc, model, set, path);
        if found.is_none() {
            put(&mut self.basis, None);
        } else if path.is_empty() {
            self.remember(alloc, self.left < before);
        }
        found
    }

    /// A point or a combination that may show the same, by a guide, which is kept from one to the next. A vertex is that of its
    /// basis; what is near is so to what it finds with limits drawn in, of a guide that ran for a vertex just before.
    fn suggest_by_guide(
        &mut self,
        alloc: Global,
        model: &Model,
        set: &MemberSet,
        path: &[Branch],
        guess: Guess,
    ) -> Option<Suggestion>
        requires same { IsSetOf model.now set.now }
        ensures kept { self.new.allowed ≡ self.old.allowed }
        ensures spent { self.new.left ≤ self.old.left }
    {
        let QuickRun { guide, left, .. } = self;
        let found = guided(alloc, model, set, path, guess, guide, left);
        if found.is_none() {
            put(guide, None);
        }
        found?
    }

    /// A point and shares that may show how little of a set must give way, where the rigid members may not be missed, from the
    /// basis that the last suggestion left; none where there is no basis, where a number does not fit, or where more pivots are
    /// wanted or memory is refused. Nothing is promised of them but that the point has a value for each column.
    ///
    /// The run is a primal simplex on the sum of weight times violation, which is piecewise linear: a basic variable that misses
    /// a limit has its weight as its slope, and a variable that enters passes the limits of others as long as the sum falls
    /// (the long step; Maros, *Computational Techniques of the Simplex Method*, 2003, chapter 9). Of those that can enter the
    /// steepest is taken, or after a restart that of the shortest column. Where none is returned the basis is thrown away.
    fn suggest_least(
        &mut self,
        alloc: Global,
        model: &Model,
        set: &MemberSet,
        rigid: &MemberSet,
        costs: Costs,
    ) -> Option<LeastSuggestion>
        requires same { IsSetOf model.now set.now }
        ensures shape { IfSome result (λ least. length least.point.values ≡ length model.now.columns) }
        ensures kept { self.new.allowed ≡ self.old.allowed }
        ensures spent { self.new.left ≤ self.old.left }
    {
        let basis = self.basis.as_mut()?;
        self.refuted = None;
        let pricing = mem::replace(&mut self.pricing, Steepest);
        let left = &mut self.left;
        let found = least(alloc, model, set, rigid, costs, basis, pricing, left);
        if found.is_none() {
            put(&mut self.basis, None);
        }
        found
    }

    /// Shares, their cost and a price that may show the cheapest weighting of a set that refutes it (Gleeson and Ryan 1990), from
    /// the basis that the last suggestion left, which was a combination of the set; none where there is no such basis, where a
    /// number does not fit, or where more pivots are wanted or memory is refused. Nothing is promised of them but that the price
    /// has a value for each column.
    ///
    /// A row that shows that the set cannot be satisfied is a vertex of the alternative polyhedron. The run makes limits wider
    /// by so many times their weights, as little as will do, and improves the vertex by dual simplex pivots: each variable
    /// stands at a number with a multiple of that extent. Where none is returned the basis is thrown away.
    fn suggest_cheapest(
        &mut self,
        alloc: Global,
        model: &Model,
        set: &MemberSet,
    ) -> Option<CheapestSuggestion>
        requires same { IsSetOf model.now set.now }
        ensures shape { IfSome result (λ cheapest. length cheapest.price.values ≡ length model.now.columns) }
        ensures kept { self.new.allowed ≡ self.old.allowed }
        ensures spent { self.new.left ≤ self.old.left }
    {
        let found = cheapest(alloc, model, set, self.basis.as_mut()?, &mut self.left);
        if found.is_none() {
            put(&mut self.basis, None);
        }
        self.remember(alloc, true);
        found
    }

    /// A point with shares that may show how far the objective can go over a set, or with a ray that may show that it has no
    /// end, from the basis that the last suggestion left, which was a point of the set; none where there is no basis, where a
    /// number does not fit, or where more pivots are wanted or memory is refused. Nothing is promised of them but that the point
    /// and the ray have a value for each column. Of the variables that can enter the steepest is taken, or after a restart that of
    /// the shortest column. Where none is returned the basis is thrown away.
    fn suggest_best(
        &mut self,
        alloc: Global,
        model: &Model,
        set: &MemberSet,
    ) -> Option<BestSuggestion>
        requires same { IsSetOf model.now set.now }
        ensures shape { IfSome result (HasShape (length model.now.columns)) }
        ensures kept { self.new.allowed ≡ self.old.allowed }
        ensures spent { self.new.left ≤ self.old.left }
    {
        let basis = self.basis.as_mut()?;
        self.refuted = None;
        let pricing = mem::replace(&mut self.pricing, Steepest);
        let found = best(alloc, model, set, basis, pricing, &mut self.left);
        if found.is_none() {
            put(&mut self.basis, None);
        }
        found
    }

    /// Throws the basis away, and has the next run that optimises price by the shortest columns. True where the last suggestion was
    /// asked of a basis that had been kept, and the basis was not thrown away since: then a suggestion of a basis that is built
    /// anew may be another.
    fn restart(&mut self) -> bool
        ensures kept { self.new.allowed ≡ self.old.allowed }
        ensures spent { self.new.left ≤ self.old.left }
    {
        put(&mut self.basis, None);
        self.refuted = None;
        self.pricing = Shortest;
        mem::replace(&mut self.was_kept, false)
    }
}

/// Puts a value, or none, in place of one that was kept.
pub(crate) fn put<T: Drop>(kept: &mut Option<T>, value: Option<T>) {
    *kept = value;
}

// The basis of a first run, under the limits of a set and a path: without branches that at which violations add up to least, as
// far as a primal run in numbers of 32 bits comes to that, and else that of the rows.
fn first_basis(
    alloc: Global,
    model: &Model,
    set: &MemberSet,
    path: &[Branch],
    pivots: &mut u64,
) -> Option<Basis>
    requires same { IsSetOf model.now set.now }
    ensures { pivots.new ≤ pivots.old }
{
    let mut basis = limited_start(alloc, model, set, path)?;
    if !path.is_empty() || basis.crossed.is_some() {
        return Some(basis);
    }
    basis.is_narrow = true;
    if descend_first(alloc, model, &mut basis, pivots).is_none() {
        return limited_start(alloc, model, set, path);
    }
    basis.is_narrow = false;
    Some(basis)
}

/// The basis of the rows, under the limits of a set and a path.
pub(crate) fn limited_start(
    alloc: Global,
    model: &Model,
    set: &MemberSet,
    path: &[Branch],
) -> Option<Basis>
    requires same { IsSetOf model.now set.now }
{
    let mut basis = start(alloc, model, set)?;
    basis.limit(alloc, model, set, path)?;
    Some(basis)
}

// What the basis shows under its limits: where those of a variable cross, that, and else what can be read off without a pivot, or
// the end of a run.
fn suggested(
    alloc: Global,
    model: &Model,
    set: &MemberSet,
    path: &[Branch],
    basis: &mut Basis,
    pivots: &mut u64,
) -> Option<Suggestion>
    requires same { IsSetOf model.now set.now }
    ensures shape { IfSome result (IsSuggestion model.now set.now.members path.now) }
    ensures spent { pivots.new ≤ pivots.old }
{
    if let Some(variable) = basis.crossed {
        return Some(Suggestion::Combo(crossing(alloc, model, basis, set, path, variable)?));
    }
    if let Some(step) = read_off(basis) {
        return Some(Suggestion::Point(point(alloc, model, basis, Some(step))?));
    }
    match settle(alloc, basis, pivots)? {
        End::Settled => Some(Suggestion::Point(point(alloc, model, basis, None)?)),
        End::Blocked(blocked) => {
            Some(Suggestion::Combo(combo(alloc, basis, set, path, blocked)?))
        }
    }
}
