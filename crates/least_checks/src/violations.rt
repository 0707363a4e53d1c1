//! Weighted violations at points.
ghost use Rattle.std.specs.Prelude.{◌≡◌, ◌<◌, ◌++◌, All, IfOk, MatchResult, Some, None, length};
ghost use Rattle.rational.specs.Rational.{◌-ℚ◌, zero_ℚ};
ghost use Rattle.rational.specs.Linear.{form_value};
ghost use Rattle.lp_model.specs.Evaluation.{side_operations};
ghost use Rattle.frac128.specs.Limit.{limit};
ghost use Rattle.frac128.specs.Calculation.{first_wide};
ghost use Rattle.lp_model.specs.MemberSets.{IsMemberFor};
ghost use Rattle.lp_model.specs.Satisfaction.{values_at};
ghost use Rattle.certs.specs.Checks.{IsSetOf, checked_of, missed_operations, outcome, weighted_operations};
ghost use Rattle.certs.specs.Violation.{larger, missed_by as distance, rigid_members, violation, weighted_violation as violation_of};
ghost use Rattle.least_checks.specs.Parts.{ViolationLaw, excess_operations, missing_operations, violation_steps};

use crate::weights::weight_of;
use bound_checks::value_of;
use certs::{Checked, Point, checked, is_less};
use frac128::{Frac, Wide};
use lp_model::{Member, MemberSet, Model, Side, Term, Weight};
use std::alloc::{AllocError, Global};

/// Whether a number is the weighted violation of the set at a point: the soft members in order, each by its sum, what it is
/// missed by, weight times that, and that added to the total from 0. `Wide` comes with the first operation that is too wide.
///
/// The point has a value for each column.
pub fn check_violation(model: &Model, set: &MemberSet, point: &Point, total: Frac) -> Checked
    requires point { length point.now.values ≡ length model.now.columns }
    requires same { IsSetOf model.now set.now }
    ensures { let x = values_at point.now.values in
        result ≡ outcome (violation_steps model.now set.now.members x total) }
{
    checked(is_violation(model, set, point.values.as_slice(), total))
}

// Whether it is.
fn is_violation(model: &Model, set: &MemberSet, values: &[Frac], total: Frac) -> Result<bool, Wide>
    requires point { length values.now ≡ length model.now.columns }
    requires same { IsSetOf model.now set.now }
    ensures { let steps = violation_steps model.now set.now.members (values_at values.now) total in
        checked_of result ≡ outcome steps }
{
    let sum = weighted_violation(model, set, values)?;
    Ok(sum == total)
}

// The weighted violation of the set at these values, from 0.
fn weighted_violation(model: &Model, set: &MemberSet, values: &[Frac]) -> Result<Frac, Wide>
    requires point { length values.now ≡ length model.now.columns }
    requires same { IsSetOf model.now set.now }
    ensures { let x = values_at values.now in
        let work = weighted_operations model.now zero_ℚ set.now.members x in
        MatchResult result
        (λ v. (v ≡ violation_of model.now set.now.members x) × (first_wide limit work ≡ None))
        (λ w. first_wide limit work ≡ Some w) }
{
    // That the terms of a row name the program's columns is told with the count.
    let _rows = model.row_count();
    set.stands_in_order();
    let mut sum = Frac::whole(0);
    for member in set.iter() {
        if let Weight::Soft(weight) = weight_of(model, member) {
            let missed = member_violation(model, member, values)?;
            let product = weight.times(missed)?;
            sum = sum.plus(product)?;
        }
    }
    Ok(sum)
}

/// By how much a member is missed at these values, one for each column. An error is the first operation that is too wide, and
/// comes just where one is.
pub fn member_violation(model: &Model, member: Member, values: &[Frac]) -> Result<Frac, Wide>
    requires point { length values.now ≡ length model.now.columns }
    requires member { IsMemberFor (length model.now.rows) (length model.now.columns) member }
    ensures { let x = values_at values.now in
        let work = missing_operations model.now member x in
        MatchResult result
        (λ v. (v ≡ violation model.now x member) × (first_wide limit work ≡ None))
        (λ w. first_wide limit work ≡ Some w) }
{
    // That the terms of a row name the program's columns is told with the count.
    let _rows = model.row_count();
    match member {
        Member::RowLo(index) => {
            let row = model.row(index);
            form_missed(Side::Lo, row.lo, row.terms.as_slice(), values)
        }
        Member::RowUp(index) => {
            let row = model.row(index);
            form_missed(Side::Up, row.up, row.terms.as_slice(), values)
        }
        Member::Lower(index) => {
            number_missed(Side::Lo, model.column(index).lo, values[index as usize])
        }
        Member::Upper(index) => {
            number_missed(Side::Up, model.column(index).up, values[index as usize])
        }
        Member::Whole(_) => Ok(Frac::whole(0)),
    }
}

// How far the value of a form is on the wrong side of a number; the value is found only where the number is there.
fn form_missed(
    side: Side,
    number: Option<Frac>,
    terms: &[Term],
    values: &[Frac],
) -> Result<Frac, Wide>
    requires { All (λ t. t.column < length values.now) terms.now }
    ensures { let x = values_at values.now in
        let v = form_value terms.now x in
        let work = side_operations number terms.now x ++ missed_operations side number v in
        MatchResult result
        (λ r. (r ≡ distance side number v) × (first_wide limit work ≡ None))
        (λ w. first_wide limit work ≡ Some w) }
{
    if number.is_none() {
        return Ok(Frac::whole(0));
    }
    let value = value_of(terms, values)?;
    number_missed(side, number, value)
}

// How far a value is on the wrong side of a number, where the number is there.
fn number_missed(side: Side, number: Option<Frac>, value: Frac) -> Result<Frac, Wide>
    ensures { let work = missed_operations side number value in
        MatchResult result
        (λ v. (v ≡ distance side number value) × (first_wide limit work ≡ None))
        (λ w. first_wide limit work ≡ Some w) }
{
    let Some(number) = number else {
        return Ok(Frac::whole(0));
    };
    match side {
        Side::Lo => excess(number, value),
        Side::Up => excess(value, number),
    }
}

// How far a number is above another, or 0.
fn excess(number: Frac, other: Frac) -> Result<Frac, Wide>
    ensures { let work = excess_operations number other in
        MatchResult result
        (λ v. (v ≡ larger zero_ℚ (number -ℚ other)) × (first_wide limit work ≡ None))
        (λ w. first_wide limit work ≡ Some w) }
{
    if is_less(other, number) {
        return number.minus(other);
    }
    Ok(Frac::whole(0))
}

/// A yes to a violation is the violation.
pub fn checked_violation()
    ensures { ViolationLaw }
{}

/// The rigid members of a set.
///
/// # Errors
///
/// There is no memory for the set.
pub fn rigid_set(alloc: Global, model: &Model, set: &MemberSet) -> Result<MemberSet, AllocError>
    requires same { IsSetOf model.now set.now }
    ensures same { IfOk result (IsSetOf model.now) }
    ensures members { IfOk result (λ rigid. rigid.members ≡ rigid_members model.now set.now.members) }
{
    set.stands_in_order();
    let mut rigid = set.emptied(alloc)?;
    for member in set.iter() {
        if matches!(weight_of(model, member), Weight::Rigid) {
            rigid.insert(member);
        }
    }
    Ok(rigid)
}
