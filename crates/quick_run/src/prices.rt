//! What it costs to miss the limits of variables.
use crate::optima::Costs;
use certs::{MemberSet, Side};
use frac128::Frac;
use lp_model::{Model, Weight};
use quick_basis::variable_of;
use std::alloc::Global;

// What it costs to miss the limits of a variable by one; none at a wall, which may not be missed.
#[derive(Clone, Copy)]
struct LimitPrices {
    lo: Option<Frac>,
    up: Option<Frac>,
}

/// The prices of the limits of the columns and then the rows of a program, of which some may be walls.
#[derive(Drop)]
pub struct Prices {
    limits: Vec<LimitPrices>,
}

impl Prices {
    /// The prices where the rigid members are walls, and a limit that has no weight of its own under these costs counts 1.
    pub fn new(alloc: Global, model: &Model, rigid: &MemberSet, costs: Costs) -> Option<Prices> {
        let mut prices = Prices::of_weights(alloc, model, costs)?;
        for member in rigid.iter() {
            if let Some(variable) = variable_of(model.column_count(), member) {
                let limits = prices.limits.get_mut(variable as usize)?;
                match member.side() {
                    Side::Lo => limits.lo = None,
                    Side::Up => limits.up = None,
                }
            }
        }
        Some(prices)
    }

    /// The prices where no limit is a wall.
    pub(crate) fn of_weights(alloc: Global, model: &Model, costs: Costs) -> Option<Prices> {
        let mut limits = Vec::new(alloc);
        for index in 0..model.column_count() {
            let column = model.column(index);
            let lo = price(column.lower_weight, costs);
            let up = price(column.upper_weight, costs);
            limits.push(LimitPrices { lo, up }).ok()?;
        }
        for index in 0..model.row_count() {
            let row = model.row(index);
            let lo = price(row.lo_weight, costs);
            let up = price(row.up_weight, costs);
            limits.push(LimitPrices { lo, up }).ok()?;
        }
        Some(Prices { limits })
    }

    /// The prices where the bounds of columns are walls, and the sides of all rows have this price.
    pub(crate) fn of_rows(alloc: Global, model: &Model, row: Option<Frac>) -> Option<Prices> {
        let columns = model.column_count();
        let count = columns.checked_add(model.row_count())?;
        let walls = LimitPrices { lo: None, up: None };
        let mut limits = vec![in alloc; walls; columns as usize].ok()?;
        let (lo, up) = (row, row);
        limits.resize(count as usize, LimitPrices { lo, up }).ok()?;
        Some(Prices { limits })
    }

    /// What it costs to miss the limit of a variable on a side by one; none where that is a wall.
    pub(crate) fn cost(&self, variable: u32, side: Side) -> Option<Frac> {
        let limits = self.limits.get(variable as usize)?;
        match side {
            Side::Lo => limits.lo,
            Side::Up => limits.up,
        }
    }

    /// By how much the sum of all costs rises as a variable rises by one that misses its limit on a side, or none; no number
    /// where that limit is a wall.
    pub(crate) fn slope(&self, variable: u32, missed: Option<Side>) -> Option<Frac> {
        match missed {
            None => Some(Frac::whole(0)),
            Some(Side::Lo) => Some(self.cost(variable, Side::Lo)?.negate()),
            Some(Side::Up) => self.cost(variable, Side::Up),
        }
    }
}

// The price of a limit of this weight.
fn price(weight: Weight, costs: Costs) -> Option<Frac> {
    match weight {
        Weight::Soft(cost) if costs == Costs::Weights => Some(cost),
        _ => Some(Frac::whole(1)),
    }
}
