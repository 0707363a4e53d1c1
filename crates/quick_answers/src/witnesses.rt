//! Witnesses of members, by quick runs.
ghost use Rattle.std.specs.Prelude.{◌≡◌, IfSome};
ghost use Rattle.certs.specs.Checks.{IsSetOf};
ghost use Rattle.certs.specs.Tales.{IsPointOf};
ghost use Rattle.filter_steps.specs.Isolated.{AreWitnesses};

use crate::confirmed::is_point;
use crate::kept::Kept;
use certs::PackedPoint;
use lp_model::{MemberSet, Model};
use quick_run::{Suggest, Suggestion};
use std::alloc::Global;

/// A point for each member of a set, in member order, which satisfies all the others, where quick runs suggest them
/// with the pivots that are left, and the check confirms each.
pub(crate) fn witnesses<S: Suggest>(
    alloc: Global,
    model: &Model,
    set: &MemberSet,
    kept: &mut Kept<S>,
) -> Option<Vec<PackedPoint>>
    requires same { IsSetOf model.now set.now }
    ensures found { IfSome result (λ points. AreWitnesses model.now set.now.members points.items) }
    ensures kept { kept.new ≡ kept.old }
{
    set.stands_in_order();
    let mut points = Vec::new(alloc);
    for member in set.iter() {
        let Ok(mut others) = set.copy(alloc) else {
            return None;
        };
        others.remove(member);
        let point = witness(alloc, model, &others, kept)?;
        let Ok(()) = points.push(point) else {
            return None;
        };
    }
    Some(points)
}

// A point of a set.
fn witness<S: Suggest>(
    alloc: Global,
    model: &Model,
    set: &MemberSet,
    kept: &mut Kept<S>,
) -> Option<PackedPoint>
    requires same { IsSetOf model.now set.now }
    ensures found { IfSome result (IsPointOf model.now set.now.members) }
    ensures kept { kept.new ≡ kept.old }
{
    let Suggestion::Point(point) = kept.run.suggest(alloc, model, set, &[])? else {
        return None;
    };
    if !is_point(model, set, &point) {
        return None;
    }
    PackedPoint::of(alloc, &point).ok()
}
