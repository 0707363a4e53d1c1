//! Limits that are wider by an extent times what they cost, and where variables stand under them.
use crate::optima::Costs;
use crate::prices::Prices;
use certs::Side;
use factors::{SparseVector, at, is_zero, put, quotient, signed};
use frac128::Frac;
use lp_model::Model;
use quick_basis::{Basis, Blocked, side_of, take_off};
use std::alloc::Global;

/// How far outside a limit a variable stands: so far at the extent 0, and farther by so many times the extent. At the extent that
/// is the one over the other's opposite it stands at the limit.
#[derive(Clone, Copy)]
pub(crate) struct Gap {
    pub now: Frac,
    pub rate: Frac,
}

/// By variable what its limits cost, which are their rates, and its own rate: where the limits are wider by an extent, it stands at its value in the basis
/// with so many times the extent. And the row of the vertex, over the nonbasic variables.
#[derive(Drop)]
pub(crate) struct Extents {
    pub costs: Prices,
    pub rates: Vec<Frac>,
    pub vertex_row: SparseVector,
}

impl Extents {
    /// The rates at a vertex, whose row was solved for last: each nonbasic variable that counts in it goes with the limit at
    /// which it stands, and the others stay. None where the row shows no contradiction.
    pub(crate) fn at_vertex(
        alloc: Global,
        model: &Model,
        basis: &mut Basis,
        vertex: Blocked,
    ) -> Option<Extents> {
        if basis.basic(vertex.slot)?.missed == Some(vertex.side)
            && let Some(vertex_row) = SparseVector::new(alloc, basis.variables.len())
            && let Some(costs) = Prices::of_weights(alloc, model, Costs::Weights)
        {
            let mut extents = Extents {
                costs,
                rates: Vec::new(alloc),
                vertex_row,
            };
            extents.put_rates(alloc, basis, vertex.side)?;
            return Some(extents);
        }
        None
    }

    /// Keeps the row that was solved for last as that of the vertex.
    pub(crate) fn keep_row(&mut self, basis: &Basis) -> Option<()> {
        self.vertex_row.clear();
        for entry in basis.row.entries() {
            self.vertex_row.set(entry.place, entry.value)?;
        }
        Some(())
    }

    // Keeps the row of a vertex, and puts the rates of the nonbasic variables that count in it, and those of the basic ones by
    // them.
    fn put_rates(&mut self, alloc: Global, basis: &mut Basis, missed: Side) -> Option<()> {
        let count = basis.variables.len();
        if self.keep_row(basis).is_some()
            && self.rates.resize(count, Frac::whole(0)).is_ok()
            && let Some(mut right) = SparseVector::new(alloc, basis.head.len())
            && self.put_limits(&mut right, basis, missed).is_some()
            && let Some(()) = basis.factors.solve(right.entries(), &mut basis.solved)
        {
            return self.shift_basics(basis, Frac::whole(-1));
        }
        None
    }

    // Puts those of the nonbasic ones, each of which must stand at the limit that blocks, and the right side that the basic ones
    // are to add up to.
    fn put_limits(&mut self, right: &mut SparseVector, basis: &Basis, missed: Side) -> Option<()> {
        for entry in basis.row.entries() {
            if !is_zero(entry.value) {
                let side = side_of(entry.value, missed);
                if !basis.variable(entry.place)?.is_at(side) {
                    return None;
                }
                let rate = self.costs.slope(entry.place, Some(side))?;
                put(&mut self.rates, entry.place, rate)?;
                take_off(right, &basis.by_column, entry.place, rate)?;
            }
        }
        Some(())
    }

    // Changes the rates of the basic variables against so many times what was solved for.
    fn shift_basics(&mut self, basis: &Basis, step: Frac) -> Option<()> {
        for entry in basis.solved.entries() {
            if !is_zero(entry.value) {
                let rate = self.rates.get_mut(basis.base(entry.place)? as usize)?;
                *rate = rate.minus(entry.value.times(step).ok()?).ok()?;
            }
        }
        Some(())
    }

    /// Changes the rate of a nonbasic variable, for which `solved` was solved, by a step, and those of the basic ones with it.
    pub(crate) fn shift(&mut self, basis: &Basis, variable: u32, step: Frac) -> Option<()> {
        if is_zero(step) {
            return Some(());
        }
        self.shift_basics(basis, step)?;
        let rate = self.rates.get_mut(variable as usize)?;
        *rate = rate.plus(step).ok()?;
        Some(())
    }

    /// Puts the variable that enters in the row of the vertex for the one that leaves, whose row was solved for last.
    pub(crate) fn exchange(&mut self, basis: &Basis, enters: u32, leaves: u32) -> Option<()> {
        let own = self.vertex_row.value(enters)?;
        let times = quotient(own, basis.row.value(enters)?)?;
        if is_zero(times) {
            return Some(());
        }
        for entry in basis.row.entries() {
            self.vertex_row.subtract(entry.place, entry.value, times)?;
        }
        self.vertex_row.set(leaves, times.negate())
    }

    /// How far a variable stands outside its limit on a side; none where it has none there.
    pub(crate) fn gap(&self, basis: &Basis, variable: u32, side: Side) -> Option<Gap> {
        let is_below = side == Side::Lo;
        if let Some(known) = basis.variable(variable)
            && let Some(limit) = known.limit_on(side)
            && let Ok(now) = limit.minus(known.value)
            && let Some(limit_rate) = self.costs.slope(variable, Some(side))
            && let Some(own) = at(&self.rates, variable)
            && let Ok(rate) = limit_rate.minus(own)
        {
            let (now, rate) = (signed(now, is_below), signed(rate, is_below));
            return Some(Gap { now, rate });
        }
        None
    }

    /// The extent of a vertex, above 0: the one at which its basic variable comes to its wider limit.
    pub(crate) fn extent(&self, basis: &Basis, vertex: Blocked) -> Option<Frac> {
        let base = basis.base(vertex.slot)?;
        let Gap { now, rate } = self.gap(basis, base, vertex.side)?;
        let extent = quotient(now, rate.negate())?;
        (extent.num() > 0).then_some(extent)
    }

    /// The side on which a variable is outside its wider limit, where it is so.
    pub(crate) fn off_side(
        &self,
        basis: &Basis,
        variable: u32,
        extent: Frac,
    ) -> Option<Option<Side>> {
        for side in [Side::Lo, Side::Up] {
            if self.is_off(basis, variable, side, extent)? {
                return Some(Some(side));
            }
        }
        Some(None)
    }

    // Whether a variable is outside its wider limit on a side. Where the signs of its gap say so, nothing is divided.
    fn is_off(&self, basis: &Basis, variable: u32, side: Side, extent: Frac) -> Option<bool> {
        let known = basis.variable(variable)?;
        if known.limit_on(side).is_none() {
            return Some(false);
        }
        let is_outside = known.missed == Some(side);
        let rate = at(&self.rates, variable)?;
        let limit_rate = self.costs.slope(variable, Some(side))?;
        let recedes = match side {
            Side::Lo => rate < limit_rate,
            Side::Up => rate > limit_rate,
        };
        if is_outside == recedes || rate == limit_rate {
            return Some(is_outside);
        }
        let gap = self.gap(basis, variable, side)?;
        let end = quotient(gap.now, gap.rate.negate())?;
        Some(if is_outside {
            end > extent
        } else {
            end < extent
        })
    }

    /// Whether a variable stands at its wider limit on a side, at whatever extent.
    pub(crate) fn is_at(&self, basis: &Basis, variable: u32, side: Side) -> Option<bool> {
        if !basis.variable(variable)?.is_at(side) {
            return Some(false);
        }
        Some(at(&self.rates, variable)? == self.costs.slope(variable, Some(side))?)
    }
}
