//! Whether the objective has no bound along a ray.
ghost use Rattle.std.specs.Prelude.{◌≡◌, ◌≢◌, ◌<◌, MatchResult, Some, None, All, length};
ghost use Rattle.rational.specs.Rational.{zero_ℚ, le_q, lt_q};
ghost use Rattle.rational.specs.Linear.{form_value};
ghost use Rattle.frac128.specs.Limit.{limit};
ghost use Rattle.frac128.specs.Calculation.{first_wide};
ghost use Rattle.lp_model.specs.Program.{row_at};
ghost use Rattle.lp_model.specs.Satisfaction.{values_at};
ghost use Rattle.lp_model.specs.Evaluation.{member_operations, value_operations};
ghost use Rattle.certs.specs.Bound.{IsImproving, directed as directed_of};
ghost use Rattle.certs.specs.Checks.{checked_of, kept_test, outcome, ray_steps, ray_test};

use crate::sums::directed;
use certs::{Checked, Ray, checked, is_less, is_present};
use evidence_laws::{checked_ray, refused_ray};
use frac128::{Frac, Wide};
use lp_model::{Member, MemberSet, Model, Side, Term};

/// Whether the ray leaves no member of the set behind, and makes the objective better.
///
/// The members are taken in order. Of a member that asks for a number the change along the ray, a row's as a
/// sum over its terms in order from 0, is at least 0 on `Lo` and at most 0 on `Up`. Marks, and members that the
/// program does not have, ask for nothing, with no arithmetic. Last comes the change of the objective, as that
/// of a row: above 0 when maximising, and below 0 when minimising. `Wide` comes with the first operation that
/// is too wide, where no test before it fails. A yes shows that the ray is improving, and no improving ray is
/// answered with a no.
pub fn check_ray(model: &Model, set: &MemberSet, ray: &Ray) -> Checked
    requires { length ray.now.values ≡ length model.now.columns }
    ensures said { let x = values_at ray.now.values in
        result ≡ outcome (ray_steps model.now set.now.members x) }
    ensures improving { let x = values_at ray.now.values in
        result ≡ Checked.Yes → IsImproving model.now set.now.members x }
    ensures refused { let x = values_at ray.now.values in
        IsImproving model.now set.now.members x → result ≢ Checked.No }
{
    // That the objective names the program's columns is told with the count.
    let _rows = model.row_count();
    checked_ray();
    refused_ray();
    checked(is_improving(model, set, ray.values.as_slice()))
}

// Whether it does.
fn is_improving(model: &Model, set: &MemberSet, values: &[Frac]) -> Result<bool, Wide>
    requires room { length values.now ≡ length model.now.columns }
    requires known { All (λ t. t.column < length values.now) model.now.objective }
    ensures { let x = values_at values.now in
        checked_of result ≡ outcome (ray_steps model.now set.now.members x) }
{
    for member in set.iter() {
        if !member_is_kept(model, member, values)? {
            return Ok(false);
        }
    }
    let change = value_of(model.objective(), values)?;
    Ok(improves(model, change))
}

// Whether a change makes the objective better.
fn improves(model: &Model, change: Frac) -> bool
    ensures { result ≡ lt_q (directed_of model.now zero_ℚ) (directed_of model.now change) }
{
    is_less(directed(model, Frac::whole(0)), directed(model, change))
}

// Whether a member is not left behind.
fn member_is_kept(model: &Model, member: Member, values: &[Frac]) -> Result<bool, Wide>
    requires { length values.now ≡ length model.now.columns }
    ensures { let x = values_at values.now in
        let work = member_operations model.now member x in
        MatchResult result
        (λ kept. (kept ≡ ray_test model.now x member) × (first_wide limit work ≡ None))
        (λ w. first_wide limit work ≡ Some w) }
{
    if !is_present(model, member) {
        return Ok(true);
    }
    match member {
        Member::RowLo(index) => row_is_kept(model, index, Side::Lo, values),
        Member::RowUp(index) => row_is_kept(model, index, Side::Up, values),
        Member::Lower(column) => Ok(is_kept(Side::Lo, values[column as usize])),
        Member::Upper(column) => Ok(is_kept(Side::Up, values[column as usize])),
        Member::Whole(_) => Ok(true),
    }
}

// Whether a row is not left behind on a side.
fn row_is_kept(model: &Model, index: u32, side: Side, values: &[Frac]) -> Result<bool, Wide>
    requires room { length values.now ≡ length model.now.columns }
    requires known { index < length model.now.rows }
    ensures { let x = values_at values.now in
        let terms = (row_at model.now index).terms in
        MatchResult result
        (λ kept. (kept ≡ kept_test side (form_value terms x))
        × (first_wide limit (value_operations terms x) ≡ None))
        (λ w. first_wide limit (value_operations terms x) ≡ Some w) }
{
    // That the terms of a row name the program's columns is told with the count.
    let _rows = model.row_count();
    let change = value_of(model.row(index).terms.as_slice(), values)?;
    Ok(is_kept(side, change))
}

// Whether a change is not towards the wrong side.
fn is_kept(side: Side, change: Frac) -> bool
    ensures { result ≡ kept_test side change }
{
    match side {
        Side::Lo => is_at_most(Frac::whole(0), change),
        Side::Up => is_at_most(change, Frac::whole(0)),
    }
}

// Whether a number is not above another.
fn is_at_most(a: Frac, b: Frac) -> bool
    ensures { result ≡ le_q a b }
{
    a <= b
}

/// The value of a form where each column has its value: the terms in order, factor times value, from 0. An error is the first
/// operation that is too wide, and comes just where one is.
///
/// The terms name columns of which there is a value.
pub fn value_of(terms: &[Term], values: &[Frac]) -> Result<Frac, Wide>
    requires { All (λ t. t.column < length values.now) terms.now }
    ensures { let x = values_at values.now in
        MatchResult result
        (λ v. (v ≡ form_value terms.now x)
        × (first_wide limit (value_operations terms.now x) ≡ None))
        (λ w. first_wide limit (value_operations terms.now x) ≡ Some w) }
{
    let mut sum = Frac::whole(0);
    for term in terms {
        let product = term.factor.times(values[term.column as usize])?;
        sum = sum.plus(product)?;
    }
    Ok(sum)
}
