//! The elastic system of a set.
ghost use Rattle.std.specs.Prelude.{◌≡◌, ◌<◌, All, IfOk, length, map};
ghost use Rattle.lp_model.specs.Members.{column_form as form_of_column, form as form_of, weight};
ghost use Rattle.certs.specs.Alternative.{cost_of};
ghost use Rattle.certs.specs.Checks.{IsSetOf};
ghost use Rattle.certs.specs.Elastic.{elastic_factor as factor_on};
ghost use Rattle.certs.specs.Plain.{number_in as number_within, plain_row as row_of_program};
ghost use Rattle.certs.specs.Rows.{row_of};
ghost use Rattle.relaxation.specs.Costs.{cost_by, system_by};
ghost use Rattle.relaxation.specs.Origins.{IsKnownOrigin, IsMemberIn, columns_with, cost_term as term_by, limits_on, origin_row, origin_soft_row};

use crate::origins::{Origin, member_number, numbered_soft, origins};
use certs::{Limits, System};
use frac128::Frac;
use lp_model::{Member, MemberSet, Model, Row, Side, Term, Terms, Weight};
use std::alloc::{AllocError, Global};

/// What the elastic variables of a system cost: 1 each, or the weights of their members.
#[derive(Clone, Copy, PartialEq, Eq)]
pub enum Costs {
    Ones,
    Weights,
}

/// The elastic system of a set with an enforced part: all columns of the program, limited by the enforced bounds; an elastic
/// variable from 0 on for each other member; the rows, those with enforced sides and then one for each soft side, which the
/// elastic variable may relax; and the weighted sum of the elastic variables made least (Chinneck 2008).
///
/// # Errors
///
/// There is no memory for the system.
pub fn elastic_system(
    alloc: Global,
    model: &Model,
    set: &MemberSet,
    enforced: &MemberSet,
    costs: Costs,
) -> Result<System, AllocError>
    requires same { IsSetOf model.now set.now }
    requires enforced { IsSetOf model.now enforced.now }
    ensures { let system = system_by model.now set.now.members enforced.now.members costs in
        IfOk result (λ made. made ≡ system) }
{
    let soft = numbered_soft(alloc, model, set, enforced)?;
    let origins = origins(alloc, model, enforced, soft.as_slice())?;
    let columns = elastic_columns(alloc, model, enforced, soft.as_slice())?;
    let rows = elastic_rows(alloc, model, enforced, origins.as_slice())?;
    let objective = elastic_costs(alloc, model, soft.as_slice(), costs)?;
    Ok(System {
        columns,
        rows,
        objective: Some(objective),
    })
}

// The limits of the columns by the enforced bounds, and then from 0 on for each elastic variable.
fn elastic_columns(
    alloc: Global,
    model: &Model,
    enforced: &MemberSet,
    soft: &[(u32, Member)],
) -> Result<Vec<Limits>, AllocError>
    requires enforced { IsSetOf model.now enforced.now }
    ensures { let all = columns_with model.now enforced.now.members soft.now in
        IfOk result (λ columns. columns.items ≡ all) }
{
    let mut columns = Vec::new(alloc);
    for column in 0..model.column_count() {
        columns.push(Limits {
            lo: number_in(model, enforced, Member::Lower(column)),
            up: number_in(model, enforced, Member::Upper(column)),
        })?;
    }
    for _soft in soft {
        columns.push(Limits {
            lo: Some(Frac::whole(0)),
            up: None,
        })?;
    }
    Ok(columns)
}

// The rows.
fn elastic_rows(
    alloc: Global,
    model: &Model,
    enforced: &MemberSet,
    origins: &[Origin],
) -> Result<Vec<Row>, AllocError>
    requires enforced { IsSetOf model.now enforced.now }
    requires known { All (IsKnownOrigin model.now) origins.now }
    ensures { let made = map (origin_row model.now enforced.now.members) origins.now in
        IfOk result (λ rows. map row_of rows.items ≡ made) }
{
    let mut rows = Vec::new(alloc);
    for origin in origins {
        rows.push(elastic_row(alloc, model, enforced, *origin)?)?;
    }
    Ok(rows)
}

// One row.
fn elastic_row(
    alloc: Global,
    model: &Model,
    enforced: &MemberSet,
    origin: Origin,
) -> Result<Row, AllocError>
    requires enforced { IsSetOf model.now enforced.now }
    requires known { IsKnownOrigin model.now origin }
    ensures { IfOk result (λ row. row_of row ≡ origin_row model.now enforced.now.members origin) }
{
    match origin {
        Origin::Row(row) => plain_row(alloc, model, enforced, row),
        Origin::Soft(variable, member) => soft_row(alloc, model, variable, member),
    }
}

// A row of the program, with its enforced sides.
fn plain_row(
    alloc: Global,
    model: &Model,
    enforced: &MemberSet,
    row: u32,
) -> Result<Row, AllocError>
    requires enforced { IsSetOf model.now enforced.now }
    requires known { row < length model.now.rows }
    ensures { IfOk result (λ made. row_of made ≡ row_of_program model.now enforced.now.members row) }
{
    let terms = Vec::from_slice(alloc, model.row(row).terms.as_slice())?;
    let lo = number_in(model, enforced, Member::RowLo(row));
    let up = number_in(model, enforced, Member::RowUp(row));
    Ok(Row::new(Terms::new(terms), lo, up))
}

// The number that a member asks for, where the set has the member.
fn number_in(model: &Model, set: &MemberSet, member: Member) -> Option<Frac>
    requires same { IsSetOf model.now set.now }
    requires known { IsMemberIn model.now member }
    ensures { result ≡ number_within model.now set.now.members member }
{
    if !set.contains(member) {
        return None;
    }
    member_number(model, member)
}

// The row of a soft member, which its elastic variable relaxes.
fn soft_row(alloc: Global, model: &Model, variable: u32, member: Member) -> Result<Row, AllocError>
    requires { IsMemberIn model.now member }
    ensures { IfOk result (λ row. row_of row ≡ origin_soft_row model.now variable member) }
{
    let number = member_number(model, member);
    let mut terms = form(alloc, model, member)?;
    terms.push(Term {
        column: variable,
        factor: elastic_factor(member.side()),
    })?;
    Ok(one_sided(Terms::new(terms), member.side(), number))
}

// The row of these terms with a number on one side.
fn one_sided(terms: Terms, side: Side, number: Option<Frac>) -> Row
    ensures { row_of result ≡ record { terms = terms; limits = limits_on side number } }
{
    match side {
        Side::Lo => Row::new(terms, number, None),
        Side::Up => Row::new(terms, None, number),
    }
}

// The terms of a row; for a bound or a mark the column itself.
fn form(alloc: Global, model: &Model, member: Member) -> Result<Vec<Term>, AllocError>
    requires { IsMemberIn model.now member }
    ensures { IfOk result (λ terms. terms.items ≡ form_of model.now member) }
{
    match member {
        Member::RowLo(row) | Member::RowUp(row) => {
            Vec::from_slice(alloc, model.row(row).terms.as_slice())
        }
        Member::Lower(column) | Member::Upper(column) | Member::Whole(column) => {
            column_form(alloc, column)
        }
    }
}

// A column, once.
fn column_form(alloc: Global, column: u32) -> Result<Vec<Term>, AllocError>
    ensures { IfOk result (λ terms. terms.items ≡ form_of_column column) }
{
    let mut terms = Vec::new(alloc);
    terms.push(Term {
        column,
        factor: Frac::whole(1),
    })?;
    Ok(terms)
}

// An elastic variable is added on the lower side, and taken off on the upper one.
fn elastic_factor(side: Side) -> Frac
    ensures { result ≡ factor_on side }
{
    match side {
        Side::Lo => Frac::whole(1),
        Side::Up => Frac::whole(1).negate(),
    }
}

// The costs of the elastic variables, with the sign of a sum that is to be made least.
fn elastic_costs(
    alloc: Global,
    model: &Model,
    soft: &[(u32, Member)],
    costs: Costs,
) -> Result<Terms, AllocError>
    requires known { All (λ e. IsMemberIn model.now e.1) soft.now }
    ensures { IfOk result (λ terms. terms ≡ map (term_by (cost_by model.now costs)) soft.now) }
{
    let mut terms = Vec::new(alloc);
    for (variable, member) in soft {
        terms.push(cost_term(model, *variable, *member, costs))?;
    }
    Ok(Terms::new(terms))
}

// The cost of one, with that sign.
fn cost_term(model: &Model, variable: u32, member: Member, costs: Costs) -> Term
    requires { IsMemberIn model.now member }
    ensures { result ≡ term_by (cost_by model.now costs) (variable, member) }
{
    Term {
        column: variable,
        factor: member_cost(model, member, costs).negate(),
    }
}

/// What it costs to miss a member by one: 1, or its weight, a rigid one counted as 1.
pub fn member_cost(model: &Model, member: Member, costs: Costs) -> Frac
    requires { IsMemberIn model.now member }
    ensures { result ≡ cost_by model.now costs member }
{
    match costs {
        Costs::Ones => Frac::whole(1),
        Costs::Weights => weight_cost(member_weight(model, member)),
    }
}

// The weight of a member; a mark never gives way.
fn member_weight(model: &Model, member: Member) -> Weight
    requires { IsMemberIn model.now member }
    ensures { result ≡ weight model.now member }
{
    match member {
        Member::RowLo(index) => model.row(index).lo_weight,
        Member::RowUp(index) => model.row(index).up_weight,
        Member::Lower(index) => model.column(index).lower_weight,
        Member::Upper(index) => model.column(index).upper_weight,
        Member::Whole(_) => Weight::Rigid,
    }
}

// A rigid member costs 1.
fn weight_cost(weight: Weight) -> Frac
    ensures { result ≡ cost_of weight }
{
    match weight {
        Weight::Soft(cost) => cost,
        Weight::Rigid => Frac::whole(1),
    }
}
