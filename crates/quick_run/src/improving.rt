//! How far the objective can go over a set.
ghost use Rattle.std.specs.Prelude.{◌≡◌, ◌≤◌, IfSome, length};
ghost use Rattle.certs.specs.Checks.{IsSetOf};
ghost use Rattle.quick_run.specs.Shape.{HasShape};

use crate::descending::{End, descend, shares};
use crate::optima::{BestSuggestion, Pricing};
use crate::prices::Prices;
use crate::slopes::{Descent, Way};
use certs::{MemberSet, Ray, Values};
use factors::{put, signed};
use frac128::Frac;
use lp_model::Model;
use quick_basis::{Basis, point, take_over};
use std::alloc::Global;

/// How far the objective can go over a set, from a basis that has the limits of the set, with as many pivots as are left: a point
/// and shares that bound the objective by its value there, or a point and a ray. None where a variable misses a limit.
pub fn best(
    alloc: Global,
    model: &Model,
    set: &MemberSet,
    basis: &mut Basis,
    pricing: Pricing,
    pivots: &mut u64,
) -> Option<BestSuggestion>
    requires same { IsSetOf model.now set.now }
    ensures shape { IfSome result (HasShape (length model.now.columns)) }
    ensures spent { pivots.new ≤ pivots.old }
{
    if let Some(mut descent) = begin(alloc, model, basis, pricing)
        && let Some(end) = descend(alloc, basis, &mut descent, pivots)
        && let Some(point) = point(alloc, model, basis, None)
    {
        if let End::Endless(way) = end {
            let ray = ray(alloc, model, basis, way)?;
            return Some(BestSuggestion::Unbounded(point, ray));
        }
        let combo = shares(alloc, basis, &descent, set)?;
        return Some(BestSuggestion::Bounded(point, combo));
    }
    None
}

// The run from where the basis stands, with factors made anew.
fn begin(alloc: Global, model: &Model, basis: &mut Basis, pricing: Pricing) -> Option<Descent> {
    if basis.refactor(alloc).is_some()
        && take_over(basis).is_some()
        && let Some(costs) = costs(alloc, model)
        && let Some(prices) = Prices::of_rows(alloc, model, None)
    {
        return Descent::new(alloc, basis, prices, costs.as_slice(), pricing);
    }
    None
}

// What the columns cost where the objective is made least.
fn costs(alloc: Global, model: &Model) -> Option<Vec<Frac>> {
    let mut costs = vec![in alloc; Frac::whole(0); model.column_count() as usize].ok()?;
    for term in model.objective() {
        let cost = signed(term.factor, !model.maximise());
        put(&mut costs, term.column, cost)?;
    }
    Some(costs)
}

// How the columns change where a nonbasic variable moves by 1, for which `solved` was solved.
fn ray(alloc: Global, model: &Model, basis: &Basis, way: Way) -> Option<Ray>
    ensures { IfSome result (λ ray. length ray.values ≡ length model.now.columns) }
{
    let mut values = Vec::new(alloc);
    for column in 0..model.column_count() {
        let fall = fall(basis, column, way.variable)?;
        values.push(signed(fall, !way.rises)).ok()?;
    }
    Some(Ray {
        values: Values::new(values),
    })
}

// How much a variable falls where a nonbasic one rises by 1.
fn fall(basis: &Basis, variable: u32, rising: u32) -> Option<Frac> {
    if variable == rising {
        return Some(Frac::whole(-1));
    }
    match basis.variable(variable)?.slot {
        Some(slot) => basis.solved.value(slot),
        None => Some(Frac::whole(0)),
    }
}
