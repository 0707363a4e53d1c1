//! One round of the elastic filter, by quick runs.
ghost use Rattle.std.specs.List.{list_all};
ghost use Rattle.std.specs.Prelude.{◌≡◌, ◌&&◌, not, All, IfSome, None, length, true};
ghost use Rattle.rational.specs.Rational.{lt_q, zero_ℚ};
ghost use Rattle.lp_model.specs.Members.{has};
ghost use Rattle.lp_model.specs.MemberSets.{IsPossibleIn};
ghost use Rattle.lp_model.specs.Satisfaction.{values_at};
ghost use Rattle.certs.specs.Checks.{IsSetOf};
ghost use Rattle.certs.specs.Named.{IsKnownSource};
ghost use Rattle.certs.specs.Tales.{IsStretched};
ghost use Rattle.quick_run.specs.Pivots.{Allows};
ghost use Rattle.quick_answers.specs.Alone.{stands_alone as is_alone};
ghost use Rattle.quick_answers.specs.Stretching.{IsMissedAt, is_enforced as source_is_enforced, is_share_within as share_is_within};

use crate::alone::stands_alone;
use crate::confirmed::{is_combo, is_point};
use crate::kept::Kept;
use bound_checks::right_side;
use certs::{Point, Share, Source, Stretched};
use evidence_laws::total_is_bounded;
use frac128::Frac;
use least_checks::member_violation;
use lp_model::{Member, MemberSet, Model};
use quick_run::{Costs, LeastSuggestion, Suggest, Suggestion};
use std::alloc::Global;

/// The sum of the violations of a set at a point, and the members that are violated there and not enforced.
#[derive(Drop)]
struct Missed {
    total: Frac,
    further: MemberSet,
}

/// One round, where quick runs of at most so many pivots suggest what it gives and checks confirm it: a combination of the
/// enforced members; a point of the set; or the members that are violated and not enforced at a point that satisfies the
/// enforced ones, where a combination of the set shows that no such point has a smaller total violation. Where what was kept
/// gives nothing, it is tried once more from nothing. None where nothing was confirmed, and where the set stands alone: it
/// is tiny, or it has a mark.
pub(crate) fn quick_round<S: Suggest>(
    alloc: Global,
    model: &Model,
    set: &MemberSet,
    enforced: &MemberSet,
    kept: &mut Kept<S>,
    pivots: u64,
) -> Option<Stretched>
    requires same { IsSetOf model.now set.now }
    requires enforced { IsSetOf model.now enforced.now }
    ensures found { let enforced = enforced.now.members in
        IfSome result (IsStretched model.now set.now.members enforced) }
    ensures alone { is_alone model.now set.now.members 0 ≡ true → result ≡ None }
    ensures allowed { Allows kept.old kept.new pivots }
{
    if stands_alone(model, set, 0) {
        return None;
    }
    kept.run.allow(pivots);
    if let Some(found) = round_once(alloc, model, set, enforced, kept) {
        return Some(found);
    }
    kept.run.restart();
    round_once(alloc, model, set, enforced, kept)
}

// The same by what is kept: the enforced members are settled, or where there are none the set, and then the total
// violation is made least.
fn round_once<S: Suggest>(
    alloc: Global,
    model: &Model,
    set: &MemberSet,
    enforced: &MemberSet,
    kept: &mut Kept<S>,
) -> Option<Stretched>
    requires same { IsSetOf model.now set.now }
    requires enforced { IsSetOf model.now enforced.now }
    ensures found { let enforced = enforced.now.members in
        IfSome result (IsStretched model.now set.now.members enforced) }
    ensures kept { kept.new ≡ kept.old }
{
    let has_enforced = enforced.count() > 0;
    let first = if has_enforced { enforced } else { set };
    let settled = kept.run.suggest(alloc, model, first, &[])?;
    if let Some(end) = confirmed_end(alloc, model, set, enforced, settled) {
        return Some(end);
    }
    let ones = Costs::Ones;
    let found = kept.run.suggest_least(alloc, model, set, enforced, ones)?;
    confirmed_least(alloc, model, set, enforced, found)
}

// What ends the rounds, where it is confirmed: a combination of the enforced members, or a point of the whole set.
fn confirmed_end(
    alloc: Global,
    model: &Model,
    set: &MemberSet,
    enforced: &MemberSet,
    settled: Suggestion,
) -> Option<Stretched>
    requires enforced { IsSetOf model.now enforced.now }
    ensures { let enforced = enforced.now.members in
        IfSome result (IsStretched model.now set.now.members enforced) }
{
    match settled {
        Suggestion::Combo(combo) => {
            is_combo(alloc, model, enforced, &combo).then_some(Stretched::Cut(combo))
        }
        Suggestion::Point(point) => is_point(model, set, &point).then_some(Stretched::Met(point)),
    }
}

// The members to be enforced besides, or the point where there are none, where the checks confirm that the point has the
// least total violation: it satisfies the enforced members, and its total is what the shares show. Where that is above 0,
// these are a combination of the set, with at most 1 for each member that is not enforced.
fn confirmed_least(
    alloc: Global,
    model: &Model,
    set: &MemberSet,
    enforced: &MemberSet,
    found: LeastSuggestion,
) -> Option<Stretched>
    requires same { IsSetOf model.now set.now }
    requires enforced { IsSetOf model.now enforced.now }
    ensures { let enforced = enforced.now.members in
        IfSome result (IsStretched model.now set.now.members enforced) }
{
    total_is_bounded();
    set.stands_in_order();
    let LeastSuggestion { point, combo } = found;
    if !is_point(model, enforced, &point) {
        return None;
    }
    let missed = missed_at(alloc, model, set, enforced, &point)?;
    if missed.further.count() == 0 {
        return is_point(model, set, &point).then_some(Stretched::Met(point));
    }
    if !is_combo(alloc, model, set, &combo) || !are_within(enforced, combo.shares.as_slice()) {
        return None;
    }
    let Ok(right) = right_side(model, combo.shares.as_slice()) else {
        return None;
    };
    if missed.total != right.negate() {
        return None;
    }
    Some(Stretched::Stretched(missed.further))
}

// Whether no share gives a member that is not enforced more than 1.
fn are_within(enforced: &MemberSet, shares: &[Share]) -> bool
    requires { All (λ s. IsKnownSource enforced.now s.source) shares.now }
    ensures { result ≡ list_all (share_is_within enforced.now.members) shares.now }
{
    for share in shares {
        if !is_share_within(enforced, *share) {
            return false;
        }
    }
    true
}

// Whether a share does not.
fn is_share_within(enforced: &MemberSet, share: Share) -> bool
    requires { IsKnownSource enforced.now share.source }
    ensures { result ≡ share_is_within enforced.now.members share }
{
    share.weight <= Frac::whole(1) || is_enforced(enforced, share.source)
}

// Whether a source is an enforced member.
fn is_enforced(enforced: &MemberSet, source: Source) -> bool
    requires { IsKnownSource enforced.now source }
    ensures { result ≡ source_is_enforced enforced.now.members source }
{
    match source {
        Source::Member(member) => enforced.contains(member),
        Source::Below(_) => false,
        Source::Above(_) => false,
    }
}

// The total violation of a set at a point, and its members that are violated there and not enforced.
fn missed_at(
    alloc: Global,
    model: &Model,
    set: &MemberSet,
    enforced: &MemberSet,
    point: &Point,
) -> Option<Missed>
    requires point { length point.now.values ≡ length model.now.columns }
    requires same { IsSetOf model.now set.now }
    requires enforced { IsSetOf model.now enforced.now }
    ensures { let x = values_at point.now.values in
        IfSome result (IsMissedAt model.now set.now enforced.now.members x) }
{
    set.stands_in_order();
    let values = point.values.as_slice();
    let mut total = Frac::whole(0);
    let Ok(mut further) = set.emptied(alloc) else {
        return None;
    };
    for member in set.iter() {
        let Ok(missed) = member_violation(model, member, values) else {
            return None;
        };
        let Ok(sum) = total.plus(missed) else {
            return None;
        };
        total = sum;
        if is_further(enforced, member, missed) {
            further.insert(member);
        }
    }
    Some(Missed { total, further })
}

// Whether a member that is missed by so much is violated and not enforced.
fn is_further(enforced: &MemberSet, member: Member, missed: Frac) -> bool
    requires { IsPossibleIn enforced.now member }
    ensures { result ≡ (not (has enforced.now.members member) && lt_q zero_ℚ missed) }
{
    !enforced.contains(member) && Frac::whole(0) < missed
}
