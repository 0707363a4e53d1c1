//! How little of a set must give way.
ghost use Rattle.std.specs.Prelude.{◌≡◌, ◌≤◌, IfSome, length};
ghost use Rattle.certs.specs.Checks.{IsSetOf};

use crate::descending::{End, descend, shares};
use crate::optima::{Costs, LeastSuggestion, Pricing};
use crate::prices::Prices;
use crate::slopes::Descent;
use certs::MemberSet;
use frac128::Frac;
use lp_model::Model;
use quick_basis::{Basis, point, take_over};
use std::alloc::Global;

/// A point at which the sum of all costs of a set is least, where the rigid members are walls, and shares of members that show it,
/// found from where the basis stands with as many pivots as are left, of which those that it makes are taken off: no wall may be
/// missed there.
pub fn least(
    alloc: Global,
    model: &Model,
    set: &MemberSet,
    rigid: &MemberSet,
    costs: Costs,
    basis: &mut Basis,
    pricing: Pricing,
    pivots: &mut u64,
) -> Option<LeastSuggestion>
    requires same { IsSetOf model.now set.now }
    ensures shape { IfSome result (λ least. length least.point.values ≡ length model.now.columns) }
    ensures spent { pivots.new ≤ pivots.old }
{
    if basis.refactor(alloc).is_some()
        && take_over(basis).is_some()
        && basis.put_all_limits(model, set).is_some()
        && let Some(prices) = Prices::new(alloc, model, rigid, costs)
        && let Some(mut descent) = Descent::new(alloc, basis, prices, &[], pricing)
        && let Some(End::Least) = descend(alloc, basis, &mut descent, pivots)
        && let Some(combo) = shares(alloc, basis, &descent, set)
        && let Some(point) = point(alloc, model, basis, None)
    {
        return Some(LeastSuggestion { point, combo });
    }
    None
}

/// Makes the sum of what rows miss least, where no column may miss a bound, from where the basis stands; none where one
/// misses a bound there, where a number does not fit, or where more pivots are wanted than are left.
pub fn descend_first(
    alloc: Global,
    model: &Model,
    basis: &mut Basis,
    pivots: &mut u64,
) -> Option<()>
    ensures spent { pivots.new ≤ pivots.old }
{
    if let Some(prices) = Prices::of_rows(alloc, model, Some(Frac::whole(1)))
        && let Some(mut descent) = Descent::new(alloc, basis, prices, &[], Pricing::Steepest)
        && let Some(End::Least) = descend(alloc, basis, &mut descent, pivots)
    {
        return Some(());
    }
    None
}
