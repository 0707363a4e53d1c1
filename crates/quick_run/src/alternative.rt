//! The cheapest weighting of a set that refutes it.
ghost use Rattle.std.specs.Prelude.{◌≡◌, ◌≤◌, IfSome, length};
ghost use Rattle.certs.specs.Checks.{IsSetOf};

use crate::extents::Extents;
use crate::optima::CheapestSuggestion;
use crate::widening::widen;
use certs::{MemberSet, Point, Values};
use factors::{at, quotient};
use frac128::Frac;
use lp_model::Model;
use quick_basis::{Basis, row_weights, weighed_combo};
use std::alloc::Global;

/// The cheapest weighting, with its cost and its price, from the row that the last run left blocked, with as many pivots as
/// are left; none where there is no such row, where a number does not fit, or where more are wanted. The row that is the
/// cheapest vertex is then the blocked one, so that a point of its members without one of them can be read off.
///
/// A blocked row is a vertex of the alternative polyhedron: over how far its variable is outside its limit, its factors
/// weigh limits so that they refute one another by 1. What it costs is one over its extent: by so many times what they cost
/// the limits must be wider until the row refutes them no more (Gleeson and Ryan, *Identifying minimally infeasible
/// subsystems of inequalities*, 1990).
pub fn cheapest(
    alloc: Global,
    model: &Model,
    set: &MemberSet,
    basis: &mut Basis,
    pivots: &mut u64,
) -> Option<CheapestSuggestion>
    requires same { IsSetOf model.now set.now }
    ensures shape { IfSome result (λ cheapest. length cheapest.price.values ≡ length model.now.columns) }
    ensures spent { pivots.new ≤ pivots.old }
{
    let start = basis.blocked?;
    let mut extents = Extents::at_vertex(alloc, model, basis, start)?;
    let vertex = widen(alloc, basis, &mut extents, start, pivots)?;
    basis.solve_unit_row(vertex.slot)?;
    basis.blocked = Some(vertex);
    let one = Frac::whole(1);
    if let Some(base) = basis.base(vertex.slot)
        && let Some(gap) = extents.gap(basis, base, vertex.side)
        && let Some(times) = quotient(one, gap.now)
        && let Some(extent) = extents.extent(basis, vertex)
        && let Some(total) = quotient(one, extent)
        && let Some(weights) = row_weights(alloc, basis, vertex, times)
        && let Some(combo) = weighed_combo(alloc, basis.columns, set, weights.as_slice())
        && let Some(price) = price(alloc, model, basis, &extents, total)
    {
        return Some(CheapestSuggestion {
            combo,
            total,
            price,
        });
    }
    None
}

// The price for a cost: where the columns stand, times the cost.
fn price(
    alloc: Global,
    model: &Model,
    basis: &Basis,
    extents: &Extents,
    total: Frac,
) -> Option<Point>
    ensures { IfSome result (λ price. length price.values ≡ length model.now.columns) }
{
    let mut values = Vec::new(alloc);
    for column in 0..model.column_count() {
        let value = basis.variable(column)?.value.times(total).ok()?;
        let rate = at(&extents.rates, column)?;
        values.push(value.plus(rate).ok()?).ok()?;
    }
    Some(Point {
        values: Values::new(values),
    })
}
