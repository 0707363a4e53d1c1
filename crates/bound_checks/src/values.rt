//! Values of the objective at points, and whether a set has a mark.
ghost use Rattle.std.specs.Prelude.{◌≡◌, MatchResult, Some, None, length};
ghost use Rattle.frac128.specs.Limit.{limit};
ghost use Rattle.frac128.specs.Calculation.{first_wide};
ghost use Rattle.lp_model.specs.Evaluation.{value_operations};
ghost use Rattle.lp_model.specs.Members.{is_mark as mark_test};
ghost use Rattle.lp_model.specs.Satisfaction.{values_at};
ghost use Rattle.certs.specs.Bound.{objective_value as value_at};
ghost use Rattle.certs.specs.Checks.{checked_of, outcome};
ghost use Rattle.certs.specs.Trees.{has_mark as some_mark};
ghost use Rattle.bound_checks.specs.Parts.{value_steps, ValueLaw};

use crate::rays::value_of;
use certs::{Checked, Point, checked};
use frac128::{Frac, Wide};
use lp_model::{Member, MemberSet, Model};

/// Whether a set has a mark.
pub fn has_mark(set: &MemberSet) -> bool
    ensures { result ≡ some_mark set.now.members }
{
    for member in set.iter() {
        if is_mark(member) {
            return true;
        }
    }
    false
}

// Whether a member is a mark.
fn is_mark(member: Member) -> bool
    ensures { result ≡ mark_test member }
{
    matches!(member, Member::Whole(_))
}

/// The objective's value at a point: its terms in order, factor times value, from 0. An error is the first operation that is
/// too wide, and comes just where one is.
///
/// The point has a value for each column.
pub fn objective_value(model: &Model, point: &Point) -> Result<Frac, Wide>
    requires { length point.now.values ≡ length model.now.columns }
    ensures { let x = values_at point.now.values in
        let work = value_operations model.now.objective x in
        MatchResult result
        (λ v. (v ≡ value_at model.now x) × (first_wide limit work ≡ None))
        (λ w. first_wide limit work ≡ Some w) }
{
    // That the terms name the program's columns is told with the count.
    let _rows = model.row_count();
    value_of(model.objective(), point.values.as_slice())
}

/// Whether a number is the objective's value at a point. `Wide` comes with the first operation of the sum that is too wide.
///
/// The point has a value for each column.
pub fn check_value(model: &Model, point: &Point, value: Frac) -> Checked
    requires { length point.now.values ≡ length model.now.columns }
    ensures { result ≡ outcome (value_steps model.now (values_at point.now.values) value) }
{
    checked(is_value(model, point, value))
}

// Whether it is.
fn is_value(model: &Model, point: &Point, value: Frac) -> Result<bool, Wide>
    requires { length point.now.values ≡ length model.now.columns }
    ensures { let steps = value_steps model.now (values_at point.now.values) value in
        checked_of result ≡ outcome steps }
{
    let sum = objective_value(model, point)?;
    Ok(sum == value)
}

/// A yes to a value is the value.
pub fn checked_value()
    ensures { ValueLaw }
{}
