//! Sums of shares: those of the columns, and the right side.
ghost use Rattle.std.specs.Prelude.{◌≡◌, ◌<◌, MatchResult, Some, None, All, true, false, ℕ, length};
ghost use Rattle.rational.specs.Rational.{◌+ℚ◌, ◌*ℚ◌, zero_ℚ};
ghost use Rattle.frac128.specs.Limit.{limit};
ghost use Rattle.frac128.specs.Width.{operation, is_wide};
ghost use Rattle.frac128.specs.Calculation.{first_wide};
ghost use Rattle.lp_model.specs.Program.{row_at};
ghost use Rattle.lp_model.specs.Members.{column_form, form};
ghost use Rattle.lp_model.specs.Satisfaction.{values_at};
ghost use Rattle.certs.specs.Combination.{source_form, source_side, signed, column_sum, right_side as right_of};
ghost use Rattle.certs.specs.Checks.{every, is_zero_on, sign_of, share_operations, added_at, sums_after, form_operations, column_operations, right_operations};

use crate::evidence::{Share, Source};
use crate::numbers::source_number;
use crate::paths::BranchPath;
use frac128::{Frac, Wide};
use lp_model::{Member, Model, Side, Term};

/// Adds the shares to the columns' sums, in order, the terms of each in order: factor times weight, plus where the source is
/// on `Up` and minus where it is on `Lo`. An error is the first operation that is too wide, and comes just where one is.
///
/// The shares name columns of which there is a sum.
pub fn add_shares(model: &Model, shares: &[Share], sums: &mut [Frac]) -> Result<(), Wide>
    requires { All (λ s. All (λ t. t.column < length sums.old) (source_form model.now s.source)) shares.now }
    ensures { MatchResult result
        (λ done. (first_wide limit (column_operations model.now (values_at sums.old) shares.now) ≡ None)
        × ((j : ℕ) → values_at sums.new j ≡ values_at sums.old j +ℚ column_sum model.now shares.now j))
        (λ w. first_wide limit (column_operations model.now (values_at sums.old) shares.now) ≡ Some w) }
{
    for share in shares {
        add_share(model, share, sums)?;
    }
    Ok(())
}

// Adds one share.
fn add_share(model: &Model, share: &Share, sums: &mut [Frac]) -> Result<(), Wide>
    requires { All (λ t. t.column < length sums.old) (source_form model.now share.now.source) }
    ensures { MatchResult result
        (λ done. (first_wide limit (form_operations (values_at sums.old) (source_side share.now.source) share.now.weight (source_form model.now share.now.source)) ≡ None)
        × (values_at sums.new ≡ sums_after (values_at sums.old) (source_side share.now.source) share.now.weight (source_form model.now share.now.source)))
        (λ w. first_wide limit (form_operations (values_at sums.old) (source_side share.now.source) share.now.weight (source_form model.now share.now.source)) ≡ Some w) }
{
    let side = share.source.side();
    match share.source {
        Source::Member(member) => add_member(model, member, side, share.weight, sums),
        Source::Below(column) => add_column(column, side, share.weight, sums),
        Source::Above(column) => add_column(column, side, share.weight, sums),
    }
}

// Adds the form of a member.
fn add_member(
    model: &Model,
    member: Member,
    side: Side,
    weight: Frac,
    sums: &mut [Frac],
) -> Result<(), Wide>
    requires { All (λ t. t.column < length sums.old) (form model.now member) }
    ensures { MatchResult result
        (λ done. (first_wide limit (form_operations (values_at sums.old) side weight (form model.now member)) ≡ None)
        × (values_at sums.new ≡ sums_after (values_at sums.old) side weight (form model.now member)))
        (λ w. first_wide limit (form_operations (values_at sums.old) side weight (form model.now member)) ≡ Some w) }
{
    match member {
        Member::RowLo(index) => add_row(model, index, side, weight, sums),
        Member::RowUp(index) => add_row(model, index, side, weight, sums),
        Member::Lower(column) => add_column(column, side, weight, sums),
        Member::Upper(column) => add_column(column, side, weight, sums),
        Member::Whole(column) => add_column(column, side, weight, sums),
    }
}

// Adds a row, of which one past the last has no terms.
fn add_row(
    model: &Model,
    index: u32,
    side: Side,
    weight: Frac,
    sums: &mut [Frac],
) -> Result<(), Wide>
    requires { All (λ t. t.column < length sums.old) (row_at model.now index).terms }
    ensures { MatchResult result
        (λ done. (first_wide limit (form_operations (values_at sums.old) side weight (row_at model.now index).terms) ≡ None)
        × (values_at sums.new ≡ sums_after (values_at sums.old) side weight (row_at model.now index).terms))
        (λ w. first_wide limit (form_operations (values_at sums.old) side weight (row_at model.now index).terms) ≡ Some w) }
{
    if index >= model.row_count() {
        return Ok(());
    }
    add_terms(model.row(index).terms.as_slice(), side, weight, sums)
}

// Adds terms, in order.
fn add_terms(terms: &[Term], side: Side, weight: Frac, sums: &mut [Frac]) -> Result<(), Wide>
    requires { All (λ t. t.column < length sums.old) terms.now }
    ensures { MatchResult result
        (λ done. (first_wide limit (form_operations (values_at sums.old) side weight terms.now) ≡ None)
        × (values_at sums.new ≡ sums_after (values_at sums.old) side weight terms.now))
        (λ w. first_wide limit (form_operations (values_at sums.old) side weight terms.now) ≡ Some w) }
{
    for term in terms {
        add_term(term.column, term.factor, side, weight, sums)?;
    }
    Ok(())
}

// Adds a column, once.
fn add_column(column: u32, side: Side, weight: Frac, sums: &mut [Frac]) -> Result<(), Wide>
    requires { All (λ t. t.column < length sums.old) (column_form column) }
    ensures { MatchResult result
        (λ done. (first_wide limit (form_operations (values_at sums.old) side weight (column_form column)) ≡ None)
        × (values_at sums.new ≡ sums_after (values_at sums.old) side weight (column_form column)))
        (λ w. first_wide limit (form_operations (values_at sums.old) side weight (column_form column)) ≡ Some w) }
{
    add_term(column, Frac::whole(1), side, weight, sums)
}

// Adds a term.
fn add_term(
    column: u32,
    factor: Frac,
    side: Side,
    weight: Frac,
    sums: &mut [Frac],
) -> Result<(), Wide>
    requires { column < length sums.old }
    ensures { MatchResult result
        (λ done. (first_wide limit (share_operations (values_at sums.old column) side factor weight) ≡ None)
        × (values_at sums.new ≡ added_at (values_at sums.old) column (signed side (factor *ℚ weight))))
        (λ w. first_wide limit (share_operations (values_at sums.old column) side factor weight) ≡ Some w) }
{
    let sum = plus_product(sums[column as usize], side, factor, weight)?;
    sums[column as usize] = sum;
    Ok(())
}

/// The sum with a number times a weight more on `Up`, or less on `Lo`. An error is the first of the two operations that is
/// too wide, and comes just where one is.
pub fn plus_product(sum: Frac, side: Side, number: Frac, weight: Frac) -> Result<Frac, Wide>
    ensures { MatchResult result
        (λ r. (r ≡ sum +ℚ signed side (number *ℚ weight)) × (first_wide limit (share_operations sum side number weight) ≡ None))
        (λ w. first_wide limit (share_operations sum side number weight) ≡ Some w) }
{
    let product = number.times(weight)?;
    signed_sum(sum, side, product)
}

// The sum with a number more on `up`, or less on `lo`.
fn signed_sum(sum: Frac, side: Side, number: Frac) -> Result<Frac, Wide>
    ensures { MatchResult result
        (λ r. (r ≡ sum +ℚ signed side number) × (is_wide limit (operation (sign_of side) sum number) ≡ false))
        (λ w. (w ≡ operation (sign_of side) sum number) × (is_wide limit w ≡ true)) }
{
    match side {
        Side::Lo => sum.minus(number),
        Side::Up => sum.plus(number),
    }
}

/// Whether the sum of each column in the forms of the shares is 0.
pub(crate) fn are_zero(model: &Model, shares: &[Share], sums: &[Frac]) -> bool
    requires { All (λ s. All (λ t. t.column < length sums.now) (source_form model.now s.source)) shares.now }
    ensures { result ≡ every (λ s. is_zero_on (values_at sums.now) (source_form model.now s.source)) shares.now }
{
    for share in shares {
        if !is_source_zero(model, share.source, sums) {
            return false;
        }
    }
    true
}

// Whether it is 0 for each column of a source.
fn is_source_zero(model: &Model, source: Source, sums: &[Frac]) -> bool
    requires { All (λ t. t.column < length sums.now) (source_form model.now source) }
    ensures { result ≡ is_zero_on (values_at sums.now) (source_form model.now source) }
{
    match source {
        Source::Member(member) => is_member_zero(model, member, sums),
        Source::Below(column) => is_column_zero(column, sums),
        Source::Above(column) => is_column_zero(column, sums),
    }
}

// Whether it is 0 for each column of a member.
fn is_member_zero(model: &Model, member: Member, sums: &[Frac]) -> bool
    requires { All (λ t. t.column < length sums.now) (form model.now member) }
    ensures { result ≡ is_zero_on (values_at sums.now) (form model.now member) }
{
    match member {
        Member::RowLo(index) => is_row_zero(model, index, sums),
        Member::RowUp(index) => is_row_zero(model, index, sums),
        Member::Lower(column) => is_column_zero(column, sums),
        Member::Upper(column) => is_column_zero(column, sums),
        Member::Whole(column) => is_column_zero(column, sums),
    }
}

// Whether it is 0 for each column of a row, of which one past the last has no terms.
fn is_row_zero(model: &Model, index: u32, sums: &[Frac]) -> bool
    requires { All (λ t. t.column < length sums.now) (row_at model.now index).terms }
    ensures { result ≡ is_zero_on (values_at sums.now) (row_at model.now index).terms }
{
    if index >= model.row_count() {
        return true;
    }
    let zero = Frac::whole(0);
    for term in model.row(index).terms.as_slice() {
        if sums[term.column as usize] != zero {
            return false;
        }
    }
    true
}

// Whether it is 0 for one column.
fn is_column_zero(column: u32, sums: &[Frac]) -> bool
    requires { All (λ t. t.column < length sums.now) (column_form column) }
    ensures { result ≡ is_zero_on (values_at sums.now) (column_form column) }
{
    sums[column as usize] == Frac::whole(0)
}

/// The right side: the number of each share times its weight, in order from 0.
pub(crate) fn right_side(model: &Model, path: &BranchPath, shares: &[Share]) -> Result<Frac, Wide>
    ensures { MatchResult result
        (λ r. (r ≡ right_of model.now path.now shares.now) × (first_wide limit (right_operations model.now path.now zero_ℚ shares.now) ≡ None))
        (λ w. first_wide limit (right_operations model.now path.now zero_ℚ shares.now) ≡ Some w) }
{
    let zero = Frac::whole(0);
    let mut sum = zero;
    for share in shares {
        let number = source_number(model, path, share.source).unwrap_or(zero);
        sum = plus_product(sum, share.source.side(), number, share.weight)?;
    }
    Ok(sum)
}
