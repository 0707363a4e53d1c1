//! How far the objective can go over a set, by quick runs.
ghost use Rattle.std.specs.Prelude.{◌≡◌, IfSome, None, false, true};
ghost use Rattle.certs.specs.Checks.{IsSetOf};
ghost use Rattle.certs.specs.Trees.{has_mark};
ghost use Rattle.quick_run.specs.Pivots.{Allows};
ghost use Rattle.quick_answers.specs.Alone.{stands_alone as is_alone};
ghost use Rattle.quick_answers.specs.Best.{IsBestOf};

use crate::alone::stands_alone;
use crate::confirmed::{is_point, is_yes};
use crate::kept::Kept;
use bound_checks::{check_bound, check_ray, check_value, checked_value, directed, right_side};
use certs::{Combo, Dual, Point, Ray, are_in_order};
use frac128::Frac;
use lp_model::{MemberSet, Model};
use quick_run::{BestSuggestion, Suggest, Suggestion};
use std::alloc::Global;
use unbounded::Diagnosis;

/// Whether the objective runs away over a set, or how far it can go, where quick runs of at most so many pivots suggest it and
/// the checks of `bound_checks` confirm it: the point satisfies the set and reaches the bound that the dual shows, or the ray
/// improves the objective and keeps the set. Where what was kept gives nothing, it is tried once more from nothing. None where
/// nothing was confirmed, and where the set stands alone: it is tiny, or it has a mark.
pub fn quick_best<S: Suggest>(
    alloc: Global,
    model: &Model,
    set: &MemberSet,
    kept: &mut Kept<S>,
    pivots: u64,
) -> Option<Diagnosis>
    requires same { IsSetOf model.now set.now }
    ensures found { IfSome result (IsBestOf model.now set.now.members) }
    ensures alone { is_alone model.now set.now.members 0 ≡ true → result ≡ None }
    ensures allowed { Allows kept.old kept.new pivots }
{
    if stands_alone(model, set, 0) {
        return None;
    }
    kept.run.allow(pivots);
    if let Some(found) = best_once(alloc, model, set, kept) {
        return Some(found);
    }
    kept.run.restart();
    best_once(alloc, model, set, kept)
}

// The same by what is kept: the set is settled, and then the objective is improved.
fn best_once<S: Suggest>(
    alloc: Global,
    model: &Model,
    set: &MemberSet,
    kept: &mut Kept<S>,
) -> Option<Diagnosis>
    requires same { IsSetOf model.now set.now }
    requires linear { has_mark set.now.members ≡ false }
    ensures found { IfSome result (IsBestOf model.now set.now.members) }
    ensures kept { kept.new ≡ kept.old }
{
    let Suggestion::Point(_) = kept.run.suggest(alloc, model, set, &[])? else {
        return None;
    };
    match kept.run.suggest_best(alloc, model, set)? {
        BestSuggestion::Bounded(point, combo) => bounded(alloc, model, set, point, combo),
        BestSuggestion::Unbounded(point, ray) => unbounded(model, set, point, ray),
    }
}

// A point, and a bound that shares show, where the checks confirm that the point reaches it.
fn bounded(
    alloc: Global,
    model: &Model,
    set: &MemberSet,
    point: Point,
    combo: Combo,
) -> Option<Diagnosis>
    requires same { IsSetOf model.now set.now }
    requires linear { has_mark set.now.members ≡ false }
    ensures { IfSome result (IsBestOf model.now set.now.members) }
{
    checked_value();
    if are_in_order(combo.shares.as_slice())
        && is_point(model, set, &point)
        && let Ok(right) = right_side(model, combo.shares.as_slice())
        && let Ok(mut sums) = vec![in alloc; Frac::whole(0); model.column_count() as usize]
    {
        let bound = directed(model, right);
        let dual = Dual { combo, bound };
        if is_yes(check_bound(model, set, &dual, sums.as_mut_slice()))
            && is_yes(check_value(model, &point, bound))
        {
            return Some(Diagnosis::Bounded(point, Some(bound), dual));
        }
    }
    None
}

// A point and a ray, where the checks confirm them.
fn unbounded(model: &Model, set: &MemberSet, point: Point, ray: Ray) -> Option<Diagnosis>
    requires linear { has_mark set.now.members ≡ false }
    ensures { IfSome result (IsBestOf model.now set.now.members) }
{
    if ray.values.as_slice().len() != model.column_count() as usize
        || !is_point(model, set, &point)
        || !is_yes(check_ray(model, set, &ray))
    {
        return None;
    }
    Some(Diagnosis::Unbounded(point, ray))
}
