//! Whether columns cancel, and soft members are given no more than their weights.
ghost use Rattle.std.specs.Prelude.{◌≡◌, ◌∷◌, [], MatchResult, Some, None, length};
ghost use Rattle.rational.specs.Rational.{neg_ℚ, zero_ℚ, eq_ℚ, le_q};
ghost use Rattle.frac128.specs.Limit.{limit};
ghost use Rattle.frac128.specs.Calculation.{first_wide};
ghost use Rattle.lp_model.specs.Members.{weight as weight_by};
ghost use Rattle.lp_model.specs.MemberSets.{IsMemberFor};
ghost use Rattle.certs.specs.Checks.{IsSetOf, checked_of, columns_step, outcome, right_step, weight_operations, within_steps};
ghost use Rattle.certs.specs.Combination.{source_form};
ghost use Rattle.certs.specs.Violation.{is_of, weight_on as weight_given};
ghost use Rattle.least_checks.specs.Parts.{weight_steps};
ghost use Rattle.std.specs.Prelude.{◌<◌, All};

use bound_checks::{are_zero, clear, right_side};
use certs::{Share, Source, add_shares};
use frac128::{Frac, Wide};
use lp_model::{Member, MemberSet, Model, Weight};

/// Whether the columns of the shares cancel, and no soft member of the set is given more than its weight.
pub(crate) fn are_weights(
    model: &Model,
    set: &MemberSet,
    shares: &[Share],
    sums: &mut [Frac],
) -> Result<bool, Wide>
    requires room { length sums.old ≡ length model.now.columns }
    requires same { IsSetOf model.now set.now }
    requires known { let n = length model.now.columns in
        All (λ s. All (λ t. t.column < n) (source_form model.now s.source)) shares.now }
    ensures { checked_of result ≡ outcome (weight_steps model.now set.now.members shares.now) }
{
    if !are_cancelled(model, shares, sums)? {
        return Ok(false);
    }
    are_within(model, set, shares)
}

// Whether the columns of the shares cancel.
fn are_cancelled(model: &Model, shares: &[Share], sums: &mut [Frac]) -> Result<bool, Wide>
    requires room { length sums.old ≡ length model.now.columns }
    requires known { let n = length model.now.columns in
        All (λ s. All (λ t. t.column < n) (source_form model.now s.source)) shares.now }
    ensures { let step = columns_step model.now shares.now (λ j. zero_ℚ) in
        checked_of result ≡ outcome (step ∷ []) }
{
    clear(sums);
    add_shares(model, shares, sums)?;
    Ok(are_zero(sums))
}

// Whether no soft member of the set is given more than its weight.
fn are_within(model: &Model, set: &MemberSet, shares: &[Share]) -> Result<bool, Wide>
    requires same { IsSetOf model.now set.now }
    ensures { checked_of result ≡ outcome (within_steps model.now set.now.members shares.now) }
{
    set.stands_in_order();
    for member in set.iter() {
        if !is_within(model, shares, member)? {
            return Ok(false);
        }
    }
    Ok(true)
}

// Whether a member is given no more than its weight, where it is soft.
fn is_within(model: &Model, shares: &[Share], member: Member) -> Result<bool, Wide>
    requires { IsMemberFor (length model.now.rows) (length model.now.columns) member }
    ensures { checked_of result ≡ outcome (within_steps model.now (member ∷ []) shares.now) }
{
    let Weight::Soft(most) = weight_of(model, member) else {
        return Ok(true);
    };
    let given = weight_on(shares, member)?;
    Ok(is_at_most(given, most))
}

/// Whether a number is not above another.
fn is_at_most(a: Frac, b: Frac) -> bool
    ensures { result ≡ le_q a b }
{
    a <= b
}

/// The weight of a member; a mark never gives way.
pub(crate) fn weight_of(model: &Model, member: Member) -> Weight
    requires { IsMemberFor (length model.now.rows) (length model.now.columns) member }
    ensures { result ≡ weight_by model.now member }
{
    match member {
        Member::RowLo(index) => model.row(index).lo_weight,
        Member::RowUp(index) => model.row(index).up_weight,
        Member::Lower(index) => model.column(index).lower_weight,
        Member::Upper(index) => model.column(index).upper_weight,
        Member::Whole(_) => Weight::Rigid,
    }
}

/// How much weight the shares put on a member, added up from 0. An error is the first operation that is too wide, and comes
/// just where one is.
pub fn weight_on(shares: &[Share], member: Member) -> Result<Frac, Wide>
    ensures { let work = weight_operations shares.now member in
        MatchResult result
        (λ v. (v ≡ weight_given shares.now member) × (first_wide limit work ≡ None))
        (λ w. first_wide limit work ≡ Some w) }
{
    let mut sum = Frac::whole(0);
    for share in shares {
        if is_of_member(share.source, member) {
            sum = sum.plus(share.weight)?;
        }
    }
    Ok(sum)
}

// Whether a source is this member.
fn is_of_member(source: Source, member: Member) -> bool
    ensures { result ≡ is_of member source }
{
    match source {
        Source::Member(other) => other == member,
        Source::Below(_) => false,
        Source::Above(_) => false,
    }
}

/// Whether a total is what the numbers of the shares add up to, negated.
pub(crate) fn is_right(model: &Model, shares: &[Share], total: Frac) -> Result<bool, Wide>
    ensures { let step = right_step model.now [] shares.now (λ r. eq_ℚ total (neg_ℚ r)) in
        checked_of result ≡ outcome (step ∷ []) }
{
    let right = right_side(model, shares)?;
    Ok(total == right.negate())
}
