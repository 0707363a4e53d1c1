//! Rounds of the elastic filter, by quick runs where they show what a round gives.
ghost use Rattle.std.specs.Prelude.{◌≡◌, ◌<◌, ◌^◌, [], false, true, All, IfErr};
ghost use Rattle.lp_model.specs.Members.{is_mark};
ghost use Rattle.lp_model.specs.Satisfaction.{IsPart};
ghost use Rattle.certs.specs.Checks.{IsSetOf};
ghost use Rattle.certs.specs.Tales.{one_more, stops_after};
ghost use Rattle.quick_run.specs.Pivots.{Allows};
ghost use Rattle.relaxation.specs.Stretching.{IsRound, round_holds, round_stopped};
ghost use Rattle.quick_answers.specs.Alone.{is_small, stands_alone};
ghost use Rattle.quick_answers.specs.Stretching.{budgets_of};

use crate::alone::is_small;
use crate::kept::Kept;
use crate::rounds::quick_round;
use certs::{MemberSet, Stop, StopRecord, Stretched, Stretcher, told_stop};
use lp_model::Model;
use quick_run::{QuickRun, Suggest};
use relaxation::ElasticStretcher;
use std::alloc::Global;

/// What makes rounds of the elastic filter: each by quick runs of at most so many pivots where what they suggest is confirmed,
/// and else as the reference makes it, by a run of the elastic system of the set with its enforced part, all weights 1; of a
/// small set this comes first. Only such a run stops a round.
#[derive(Drop)]
pub struct QuickStretcher<'a, S: Suggest = QuickRun> {
    model: &'a Model,
    kept: Kept<S>,
    inner: ElasticStretcher<'a>,
    pivots: u64,
    rounds: u64,
    stops: Vec<StopRecord>,
}

impl<'a, S: Suggest> std::marker::Model for QuickStretcher<'a, S> {
    ghost use Rattle.std.specs.Prelude.{◌≡◌};
    ghost use Rattle.quick_answers.specs.Stretching.{QuickStretcherValue};

    ghost Value = { QuickStretcherValue };

    ghost view = { λ s. record { inner = s.inner; pivots = s.pivots; rounds = s.rounds; stops = s.stops.items; allowed = s.kept } };

    ghost invariant = { λ s. s.inner.model ≡ s.model.now };
}

impl<'a, S: Suggest> QuickStretcher<'a, S> {
    /// For a program, with what was kept of it and so many pivots in each round. It made no round yet.
    pub fn new(alloc: Global, model: &'a Model, kept: Kept<S>, pivots: u64) -> QuickStretcher<'a, S>
        requires { pivots < 2 ^ 63 }
        ensures { result ≡ record {
          inner = record { model = model.now; pivots = pivots; rounds = 0; stops = [] };
          pivots = pivots;
          rounds = 0;
          stops = [];
          allowed = kept;
        } }
    {
        QuickStretcher {
            model,
            kept,
            inner: ElasticStretcher::new(alloc, model, pivots),
            pivots,
            rounds: 0,
            stops: Vec::new(alloc),
        }
    }

    /// What is kept of the program, for the next command.
    pub fn into_kept(self) -> Kept<S>
        ensures { result ≡ self.entry.allowed }
    {
        self.kept
    }
}

impl<S: Suggest> Stretcher for QuickStretcher<'_, S> {
    ghost model = { λ s. s.inner.model };

    ghost budgets = { budgets_of };

    ghost rounds = { λ s. s.rounds };

    ghost stops = { λ s. s.stops };

    ghost answers = { IsRound };

    ghost holds = { round_holds };

    ghost stopped = { round_stopped };

    fn stretch(
        &mut self,
        alloc: Global,
        set: &MemberSet,
        enforced: &MemberSet,
    ) -> Result<Stretched, Stop>
        requires same { IsSetOf self.old.inner.model set.now }
        requires enforced { IsSetOf self.old.inner.model enforced.now }
        requires linear { All (λ m. is_mark m ≡ false) set.now.members }
        requires part { IsPart enforced.now.members set.now.members }
        ensures answered { let budgets = budgets_of self.old in
            IsRound self.old.inner.model budgets set.now.members enforced.now.members result }
        ensures rounds { self.new.rounds ≡ one_more self.old.rounds }
        ensures stops { let enforced = enforced.now.members in
            self.new.stops ≡ stops_after self.old.stops set.now.members enforced result }
        ensures model { self.new.inner.model ≡ self.old.inner.model }
        ensures budgets { budgets_of self.new ≡ budgets_of self.old }
        // Only a round of the reference stops; where the set is small the reference makes the round first, and where it stands
        // alone no other is made.
        ensures stopped { let before = self.old.inner.rounds in
            IfErr result (λ stop. self.new.inner.rounds ≡ one_more before) }
        ensures first { let before = self.old.inner.rounds in
            is_small self.old.inner.model set.now.members ≡ true
            → self.new.inner.rounds ≡ one_more before }
        ensures alone { let before = self.old.inner.rounds in
            stands_alone self.old.inner.model set.now.members 0 ≡ true
            → self.new.inner.rounds ≡ one_more before }
        // Its quick runs are allowed no more pivots than so many.
        ensures allowed { Allows self.old.allowed self.new.allowed self.old.pivots }
        ensures budget { self.new.pivots ≡ self.old.pivots }
    {
        self.rounds = self.rounds.saturating_add(1);
        let is_small = is_small(self.model, set);
        let pivots = self.pivots;
        let kept = &mut self.kept;
        if !is_small
            && let Some(found) = quick_round(alloc, self.model, set, enforced, kept, pivots)
        {
            return Ok(found);
        }
        match self.inner.stretch(alloc, set, enforced) {
            Ok(stretched) => Ok(stretched),
            Err(stop) => {
                if is_small
                    && matches!(stop, Stop::Wide(..))
                    && let Some(found) = quick_round(
                        alloc, self.model, set, enforced, kept, pivots,
                    )
                {
                    return Ok(found);
                }
                Err(told_stop(alloc, &mut self.stops, set, enforced, stop))
            }
        }
    }
}
