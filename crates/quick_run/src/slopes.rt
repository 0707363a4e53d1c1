//! At what rates a sum of costs falls as nonbasic variables move.
use crate::candidates::Candidates;
use crate::optima::Pricing;
use crate::prices::Prices;
use certs::Side;
use factors::{at, is_zero, put, signed};
use frac128::Frac;
use quick_basis::{Basis, Variable, is_narrow};
use std::alloc::Global;

/// A nonbasic variable that moves up or down, and at what rate the sum falls by it.
#[derive(Clone, Copy)]
pub(crate) struct Way {
    pub variable: u32,
    pub rises: bool,
    pub rate: Frac,
}

/// A run that makes least what it costs that variables miss limits, with the costs of an objective: which side each basic
/// variable counts as missing, and the reduced cost of each nonbasic one, which is how the sum rises with it by the basic ones
/// and by the objective.
///
/// A basic variable that stands at a limit may count as missing it. So what was passed is not forgotten where a step has no
/// length, and the run does not go back.
#[derive(Drop)]
pub(crate) struct Descent {
    pub prices: Prices,
    pub missed: Vec<Option<Side>>,
    pub reduced: Vec<Frac>,
    pub idle: u64,
    pub candidates: Candidates,
}

impl Descent {
    /// The run from where the basis stands, with the costs of the columns in an objective, or of none; none where the limits of
    /// a variable cross, or one misses a wall.
    pub(crate) fn new(
        alloc: Global,
        basis: &mut Basis,
        prices: Prices,
        costs: &[Frac],
        pricing: Pricing,
    ) -> Option<Descent> {
        let candidates = Candidates::new(alloc, basis.variables.len(), pricing)?;
        let mut descent = Descent {
            prices,
            missed: Vec::new(alloc),
            reduced: Vec::new(alloc),
            idle: 0,
            candidates,
        };
        descent.take_in(&basis.variables, costs)?;
        descent.begin(basis)?;
        Some(descent)
    }

    // Takes all variables in, the reduced cost of each of which is what it costs.
    fn take_in(&mut self, variables: &[Variable], costs: &[Frac]) -> Option<()> {
        for (variable, known) in (0..).zip(variables.iter()) {
            if known.is_crossed() {
                return None;
            }
            self.prices.slope(variable, known.missed)?;
            self.missed.push(known.missed).ok()?;
        }
        self.reduced.extend_from_slice(costs).ok()?;
        self.reduced.resize(variables.len(), Frac::whole(0)).ok()
    }

    // Finds the reduced costs of all nonbasic variables, and the rates by them.
    fn begin(&mut self, basis: &mut Basis) -> Option<()> {
        self.put_slopes(basis)?;
        self.solve(basis)?;
        for (variable, known) in (0..).zip(basis.variables.iter()) {
            if known.slot.is_none() {
                self.rate_anew(basis, variable)?;
            }
        }
        Some(())
    }

    // Puts how the sum rises with the basic variable of each slot, whose reduced cost is what it costs.
    fn put_slopes(&self, basis: &mut Basis) -> Option<()> {
        basis.costs.clear();
        for slot in 0..u32::try_from(basis.head.len()).ok()? {
            let base = basis.base(slot)?;
            let cost = at(&self.reduced, base)?;
            let slope = self.basic_slope(base)?.plus(cost).ok()?;
            if !is_zero(slope) {
                basis.costs.set(slot, slope)?;
            }
        }
        Some(())
    }

    /// Whether so many steps in a row had no length that the least variable is to be taken.
    pub(crate) fn is_stuck(&self, basis: &Basis) -> bool {
        let patience = (basis.head.len() as u64)
            .saturating_mul(2)
            .saturating_add(200);
        self.idle > patience
    }

    /// By how much what it costs to miss limits rises with a basic variable.
    pub(crate) fn basic_slope(&self, variable: u32) -> Option<Frac> {
        let missed = at(&self.missed, variable)?;
        self.prices.slope(variable, missed)
    }

    /// Solves for how the reduced costs change by the changed slopes of basic variables in `costs`, and changes them.
    pub(crate) fn solve(&mut self, basis: &mut Basis) -> Option<()> {
        basis.solve_row()?;
        for entry in basis.row.entries() {
            if !is_zero(entry.value) {
                let reduced = at(&self.reduced, entry.place)?;
                self.put(basis, entry.place, reduced.minus(entry.value).ok()?)?;
            }
        }
        Some(())
    }

    /// Puts down the reduced cost of a nonbasic variable, and the rate by it.
    pub(crate) fn put(&mut self, basis: &Basis, variable: u32, reduced: Frac) -> Option<()> {
        if basis.is_narrow && !is_narrow(reduced) {
            return None;
        }
        put(&mut self.reduced, variable, reduced)?;
        self.rate_anew(basis, variable)
    }

    /// Puts down for the candidates at what rate the sum falls by a nonbasic variable.
    pub(crate) fn rate_anew(&mut self, basis: &Basis, variable: u32) -> Option<()> {
        let way = self.way(variable, basis.variable(variable)?)?;
        let rate = way.map_or(Frac::whole(0), |way| way.rate);
        self.candidates.put(variable, rate)
    }

    /// How the next variable that enters moves; none in it where the sum falls by none.
    pub(crate) fn next_way(&mut self, basis: &Basis) -> Option<Option<Way>> {
        let is_stuck = self.is_stuck(basis);
        let Some(variable) = self.candidates.best(&basis.by_column, is_stuck)? else {
            return Some(None);
        };
        self.way(variable, basis.variable(variable)?)?.map(Some)
    }

    // The way of a nonbasic variable on which the sum falls; none in it where there is none.
    fn way(&self, variable: u32, known: &Variable) -> Option<Option<Way>> {
        for rises in [true, false] {
            let rate = self.rate(variable, known, rises)?;
            if rate.num() > 0 {
                return Some(Some(Way {
                    variable,
                    rises,
                    rate,
                }));
            }
        }
        Some(None)
    }

    // At what rate the sum falls as a nonbasic variable rises or falls; 0 where a wall is in the way.
    fn rate(&self, variable: u32, known: &Variable, rises: bool) -> Option<Frac> {
        let reduced = at(&self.reduced, variable)?;
        if is_zero(reduced) && known.missed.is_none() {
            return Some(reduced);
        }
        let missed = missed_on_the_way(known, rises);
        let Some(slope) = self.prices.slope(variable, missed) else {
            return Some(Frac::whole(0));
        };
        Some(signed(slope.plus(reduced).ok()?, !rises))
    }
}

/// The side that a nonbasic variable misses as soon as it moves up or down.
pub(crate) fn missed_on_the_way(known: &Variable, rises: bool) -> Option<Side> {
    let side = if rises { Side::Up } else { Side::Lo };
    if known.is_at(side) {
        return Some(side);
    }
    known.missed
}
