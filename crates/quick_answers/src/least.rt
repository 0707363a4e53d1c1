//! How little of a set must give way, by quick runs.
ghost use Rattle.std.specs.Prelude.{◌≡◌, IfSome, None, true};
ghost use Rattle.certs.specs.Checks.{IsSetOf};
ghost use Rattle.certs.specs.Violation.{rigid_members};
ghost use Rattle.quick_run.specs.Pivots.{Allows};
ghost use Rattle.quick_answers.specs.Alone.{stands_alone as is_alone};
ghost use Rattle.relaxation.specs.Relaxed.{IsRelaxed};

use crate::alone::stands_alone;
use crate::confirmed::{is_combo, is_point, is_yes};
use crate::kept::Kept;
use bound_checks::right_side;
use certs::{Combo, Dual, are_in_order};
use frac128::Frac;
use least_checks::{check_least, check_violation, checked_violation, reached_is_least, rigid_set};
use lp_model::{MemberSet, Model};
use quick_run::{Costs, LeastSuggestion, Suggest, Suggestion};
use relaxation::Relaxed;
use std::alloc::Global;

/// How little of a set's members must give way, where quick runs of at most so many pivots suggest it and the checks of
/// `least_checks` confirm it: the point satisfies the rigid members, and its weighted violation is the total that the dual
/// shows; or a combination of the rigid members. Where some members are rigid the run goes on from where the whole set was
/// settled. Where what was kept gives nothing, it is tried once more from nothing. None where nothing was confirmed, and where
/// the set stands alone: it is tiny, or it has a mark.
pub fn quick_least<S: Suggest>(
    alloc: Global,
    model: &Model,
    set: &MemberSet,
    kept: &mut Kept<S>,
    pivots: u64,
) -> Option<Relaxed>
    requires same { IsSetOf model.now set.now }
    ensures found { IfSome result (IsRelaxed model.now set.now.members) }
    ensures alone { is_alone model.now set.now.members 0 ≡ true → result ≡ None }
    ensures allowed { Allows kept.old kept.new pivots }
{
    if stands_alone(model, set, 0) {
        return None;
    }
    let rigid = rigid_set(alloc, model, set).ok()?;
    kept.run.allow(pivots);
    if rigid.count() > 0 {
        // The basis of the whole set stands nearer to what is least than that of the rigid members alone.
        let _settled = kept.run.suggest(alloc, model, set, &[]);
    }
    if let Some(found) = least_once(alloc, model, set, &rigid, kept) {
        return Some(found);
    }
    kept.run.restart();
    least_once(alloc, model, set, &rigid, kept)
}

// The same by what is kept: the rigid members are settled, or where there are none the set, and then the violation is made least.
fn least_once<S: Suggest>(
    alloc: Global,
    model: &Model,
    set: &MemberSet,
    rigid: &MemberSet,
    kept: &mut Kept<S>,
) -> Option<Relaxed>
    requires same { IsSetOf model.now set.now }
    requires rigid { IsSetOf model.now rigid.now }
    requires rigid_are { rigid.now.members ≡ rigid_members model.now set.now.members }
    ensures found { IfSome result (IsRelaxed model.now set.now.members) }
    ensures kept { kept.new ≡ kept.old }
{
    let has_rigid = rigid.count() > 0;
    let first = if has_rigid { rigid } else { set };
    let settled = kept.run.suggest(alloc, model, first, &[])?;
    if has_rigid && let Suggestion::Combo(combo) = settled {
        let is_refuted = is_combo(alloc, model, rigid, &combo);
        return is_refuted.then_some(Relaxed::RigidInfeasible(combo));
    }
    let weights = Costs::Weights;
    let found = kept.run.suggest_least(alloc, model, set, rigid, weights)?;
    confirmed(alloc, model, set, rigid, found)
}

// A point and the dual of the shares, where the checks confirm that they show the same total.
fn confirmed(
    alloc: Global,
    model: &Model,
    set: &MemberSet,
    rigid: &MemberSet,
    found: LeastSuggestion,
) -> Option<Relaxed>
    requires same { IsSetOf model.now set.now }
    requires rigid_are { rigid.now.members ≡ rigid_members model.now set.now.members }
    ensures { IfSome result (IsRelaxed model.now set.now.members) }
{
    checked_violation();
    reached_is_least();
    let LeastSuggestion { point, combo } = found;
    if are_in_order(combo.shares.as_slice())
        && is_point(model, rigid, &point)
        && let Ok(right) = right_side(model, combo.shares.as_slice())
        && let Ok(mut sums) = vec![in alloc; Frac::whole(0); model.column_count() as usize]
    {
        let bound = right.negate();
        let dual = Dual { combo, bound };
        if is_yes(check_least(model, set, &dual, sums.as_mut_slice()))
            && is_yes(check_violation(model, set, &point, bound))
        {
            return Some(Relaxed::Least { point, dual });
        }
    }
    None
}
