//! What is suggested, and what suggests it.
ghost use Rattle.std.specs.Prelude.{◌≡◌, ℕ, ◌+◌, ◌-◌, ◌^◌, ◌<◌, ◌≤◌};
ghost use Rattle.certs.specs.Checks.{IsSetOf};
ghost use Rattle.quick_run.specs.Pivots.{Allows};

use crate::optima::{BestSuggestion, CheapestSuggestion, Costs, LeastSuggestion};
use certs::{Branch, Combo, MemberSet, Point};
use lp_model::Model;
use std::alloc::Global;

/// What may show whether a set can be satisfied: a point, or a combination. Neither has been checked.
#[derive(Drop)]
pub enum Suggestion {
    Point(Point),
    Combo(Combo),
}

/// How a suggestion is made of rounded numbers: the vertex or the row of the guide's last basis, exactly, or evidence of few
/// digits near what the guide found.
#[derive(Clone, Copy, PartialEq, Eq)]
pub enum Guess {
    Vertex,
    Near,
}

/// What suggests whether sets of one program's members can be satisfied on paths, and what is least or best of them. Nothing is
/// promised of a suggestion, so all of it is to be checked. Calls make as many pivots as are left of those last allowed, and take
/// off those that they make.
pub trait Suggest {
    /// How many pivots were allowed so far, in all.
    ghost allowed: { Self → ℕ };

    /// From now on so many pivots are left. The number of all stays at its greatest value once there.
    fn allow(&mut self, pivots: u64)
        ensures allowed { Allows (allowed self.old) (allowed self.new) pivots }
        ensures counted { allowed self.new < 2 ^ 64 - 1 → allowed self.old + pivots ≤ allowed self.new };

    /// What may show whether some point on a path satisfies the set's members, marks left out.
    fn suggest(
        &mut self,
        alloc: Global,
        model: &Model,
        set: &MemberSet,
        path: &[Branch],
    ) -> Option<Suggestion>
        requires same { IsSetOf model.now set.now }
        ensures kept { allowed self.new ≡ allowed self.old };

    /// What may show the same by a guide that runs on rounded numbers, where exact ones do not fit.
    fn suggest_by_guide(
        &mut self,
        alloc: Global,
        model: &Model,
        set: &MemberSet,
        path: &[Branch],
        guess: Guess,
    ) -> Option<Suggestion>
        requires same { IsSetOf model.now set.now }
        ensures kept { allowed self.new ≡ allowed self.old };

    /// What may show how little of a set must give way, where the rigid members may not be missed. It goes on from the last
    /// suggestion, which was for the rigid members or, where there are none, for the set; none where nothing is kept of that.
    fn suggest_least(
        &mut self,
        alloc: Global,
        model: &Model,
        set: &MemberSet,
        rigid: &MemberSet,
        costs: Costs,
    ) -> Option<LeastSuggestion>
        requires same { IsSetOf model.now set.now }
        ensures kept { allowed self.new ≡ allowed self.old };

    /// What may be the cheapest weighting of a set that refutes it. It goes on from the last suggestion, which was a combination
    /// of the set; none where nothing is kept of that.
    fn suggest_cheapest(
        &mut self,
        alloc: Global,
        model: &Model,
        set: &MemberSet,
    ) -> Option<CheapestSuggestion>
        requires same { IsSetOf model.now set.now }
        ensures kept { allowed self.new ≡ allowed self.old };

    /// What may show how far the objective can go over a set. It goes on from the last suggestion, which was a point of the set;
    /// none where nothing is kept of that.
    fn suggest_best(
        &mut self,
        alloc: Global,
        model: &Model,
        set: &MemberSet,
    ) -> Option<BestSuggestion>
        requires same { IsSetOf model.now set.now }
        ensures kept { allowed self.new ≡ allowed self.old };

    /// Gives up what is kept from one suggestion to the next. True where one that is made from nothing may be another.
    fn restart(&mut self) -> bool
        ensures { allowed self.new ≡ allowed self.old };
}
