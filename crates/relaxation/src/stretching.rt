//! Rounds of the elastic filter.
ghost use Rattle.std.specs.Prelude.{◌≡◌, ◌<◌, ◌^◌, []};
ghost use Rattle.relaxation.specs.Stretching.{IsRound, round_holds, round_stopped};

use crate::rounds::round;
use certs::{MemberSet, Stop, StopRecord, Stretched, Stretcher, told_stop};
use lp_model::Model;
use std::alloc::Global;

/// What makes rounds of the elastic filter: each is one run of the elastic system of the set with its enforced part, all
/// weights 1, with so many pivots (Chinneck and Dravnieks 1991).
#[derive(Drop)]
pub struct ElasticStretcher<'a> {
    model: &'a Model,
    pivots: u64,
    rounds: u64,
    stops: Vec<StopRecord>,
}

impl<'a> std::marker::Model for ElasticStretcher<'a> {
    ghost use Rattle.std.specs.Prelude.{◌<◌, ◌^◌};
    ghost use Rattle.relaxation.specs.Stretching.{StretcherValue};

    ghost Value = { StretcherValue };

    ghost view = { λ s. record { model = s.model.now; pivots = s.pivots; rounds = s.rounds; stops = s.stops.items } };

    ghost invariant = { λ s. s.pivots < 2 ^ 63 };
}

impl<'a> ElasticStretcher<'a> {
    /// For a program, with so many pivots in each round. It made no round yet.
    pub fn new(alloc: Global, model: &'a Model, pivots: u64) -> ElasticStretcher<'a>
        requires { pivots < 2 ^ 63 }
        ensures { result ≡ record { model = model.now; pivots = pivots; rounds = 0; stops = [] } }
    {
        ElasticStretcher {
            model,
            pivots,
            rounds: 0,
            stops: Vec::new(alloc),
        }
    }
}

impl Stretcher for ElasticStretcher<'_> {
    ghost model = { λ s. s.model };

    ghost budgets = { λ s. record { pivots = s.pivots; nodes = 0 } };

    ghost rounds = { λ s. s.rounds };

    ghost stops = { λ s. s.stops };

    ghost answers = { IsRound };

    ghost holds = { round_holds };

    ghost stopped = { round_stopped };

    fn stretch(
        &mut self,
        alloc: Global,
        set: &MemberSet,
        enforced: &MemberSet,
    ) -> Result<Stretched, Stop> {
        self.rounds = self.rounds.saturating_add(1);
        match round(alloc, self.model, set, enforced, self.pivots) {
            Ok(stretched) => Ok(stretched),
            Err(stop) => Err(told_stop(alloc, &mut self.stops, set, enforced, stop)),
        }
    }
}
