//! What members ask for, and what they cost.
ghost use Rattle.std.specs.Prelude.{◌≡◌, ◌<◌, ◌↔◌, MatchResult, Some, None, IsTrue, length};
ghost use Rattle.frac128.specs.Limit.{limit};
ghost use Rattle.frac128.specs.Calculation.{first_wide};
ghost use Rattle.lp_model.specs.Evaluation.{IsInRange, value_operations};
ghost use Rattle.lp_model.specs.Members.{column_form, form, number, side as side_of, value, weight};
ghost use Rattle.lp_model.specs.Satisfaction.{values_at};
ghost use Rattle.certs.specs.Alternative.{cost_of as cost_by, source_cost as cost_of_source};
ghost use Rattle.certs.specs.Checks.{signed_terms};
ghost use Rattle.certs.specs.Combination.{signed as signed_on};

use crate::sums::{added, signed, signed_value};
use certs::Source;
use frac128::{Frac, Wide};
use lp_model::{Member, Model, Side, Weight};

/// The number that a member asks for, where it is there; a mark asks for none.
pub(crate) fn number_of(model: &Model, member: Member) -> Option<Frac>
    requires { IsInRange model.now member }
    ensures { result ≡ number model.now member }
{
    match member {
        Member::RowLo(index) => model.row(index).lo,
        Member::RowUp(index) => model.row(index).up,
        Member::Lower(index) => model.column(index).lo,
        Member::Upper(index) => model.column(index).up,
        Member::Whole(_) => None,
    }
}

/// The value of a member's form, negated on a lower side or bound: that of a row by its terms in order, from 0, and that of a
/// bound or a mark as of a form that has its column with the factor 1. An error is the first operation that is too wide, and
/// comes just where one is.
pub(crate) fn value_on_side(model: &Model, member: Member, values: &[Frac]) -> Result<Frac, Wide>
    requires room { length values.now ≡ length model.now.columns }
    requires member { IsInRange model.now member }
    ensures { let x = values_at values.now in
        let work = value_operations (signed_terms (side_of member) (form model.now member)) x in
        MatchResult result
        (λ v. (v ≡ signed_on (side_of member) (value model.now member x))
        × (first_wide limit work ≡ None))
        (λ w. first_wide limit work ≡ Some w) }
{
    // That the terms of a row name the program's columns is told with the count.
    let _rows = model.row_count();
    match member {
        Member::RowLo(index) => {
            signed_value(Side::Lo, model.row(index).terms.as_slice(), values)
        }
        Member::RowUp(index) => {
            signed_value(Side::Up, model.row(index).terms.as_slice(), values)
        }
        Member::Lower(column) => column_value(Side::Lo, column, values),
        Member::Upper(column) => column_value(Side::Up, column, values),
        Member::Whole(column) => column_value(Side::Up, column, values),
    }
}

// The value of a column, as of a form that has it with the factor 1, negated on `Lo`.
fn column_value(side: Side, column: u32, values: &[Frac]) -> Result<Frac, Wide>
    requires { column < length values.now }
    ensures { let x = values_at values.now in
        let work = value_operations (signed_terms side (column_form column)) x in
        MatchResult result
        (λ v. (v ≡ signed_on side (x column)) × (first_wide limit work ≡ None))
        (λ w. first_wide limit work ≡ Some w) }
{
    let factor = signed(side, Frac::whole(1));
    added(Frac::whole(0), factor, values[column as usize])
}

/// What a source costs: a member its weight, or 1 where it is rigid or the program does not have it; a branch 1.
pub(crate) fn source_cost(model: &Model, source: Source) -> Frac
    ensures { result ≡ cost_of_source model.now source }
{
    match source {
        Source::Member(member) => member_cost(model, member),
        Source::Below(_) => Frac::whole(1),
        Source::Above(_) => Frac::whole(1),
    }
}

/// What a member costs: its weight, or 1 where it is rigid or the program does not have it.
pub(crate) fn member_cost(model: &Model, member: Member) -> Frac
    ensures { result ≡ cost_by (weight model.now member) }
{
    if !is_in_range(model, member) {
        return Frac::whole(1);
    }
    match weight_of(model, member) {
        Weight::Soft(weight) => weight,
        Weight::Rigid => Frac::whole(1),
    }
}

// Whether the member's number is below that of the rows, or of the columns.
fn is_in_range(model: &Model, member: Member) -> bool
    ensures { IsTrue result ↔ IsInRange model.now member }
{
    match member {
        Member::RowLo(index) => index < model.row_count(),
        Member::RowUp(index) => index < model.row_count(),
        Member::Lower(index) => index < model.column_count(),
        Member::Upper(index) => index < model.column_count(),
        Member::Whole(index) => index < model.column_count(),
    }
}

// The weight of a member; a mark never gives way.
fn weight_of(model: &Model, member: Member) -> Weight
    requires { IsInRange model.now member }
    ensures { result ≡ weight model.now member }
{
    match member {
        Member::RowLo(index) => model.row(index).lo_weight,
        Member::RowUp(index) => model.row(index).up_weight,
        Member::Lower(index) => model.column(index).lower_weight,
        Member::Upper(index) => model.column(index).upper_weight,
        Member::Whole(_) => Weight::Rigid,
    }
}
