//! The system of the alternative of a set.
ghost use Rattle.std.specs.Prelude.{◌≡◌, ◌++◌, ◌<◌, ◌^◌, All, IfOk, length, map};
ghost use Rattle.certs.specs.Checks.{IsSetOf};
ghost use Rattle.certs.specs.Rows.{row_of};
ghost use Rattle.certs.specs.System.{alternative_system as system_of, terms_from};
ghost use Rattle.relaxation.specs.Origins.{IsMemberIn, from_zero};
ghost use Rattle.alt_polyhedron.specs.Forms.{count_by, equal_row as row_equal_to, rows_of, term_by};

use crate::counting::{Form, count};
use crate::listing::bounding_members;
use certs::{Limits, System};
use frac128::Frac;
use lp_model::{Member, MemberSet, Model, Row, Term, Terms};
use std::alloc::{AllocError, Global};

/// The system of the alternative of a set: a variable from 0 on for each member that asks for a number, in member order; for
/// each column a row equal to 0 with the members' factors of it; a last row equal to -1 with their numbers; and the weighted
/// sum of the variables made least, a rigid weight counted as 1. Factors and numbers of lower sides are negated. Its solutions
/// are the weightings of the members that refute the set (Gleeson and Ryan 1990).
///
/// # Errors
///
/// There is no memory for the system.
pub fn alternative_system(
    alloc: Global,
    model: &Model,
    set: &MemberSet,
) -> Result<System, AllocError>
    requires { IsSetOf model.now set.now }
    ensures { let system = system_of model.now set.now.members in
        IfOk result (λ made. made ≡ system) }
{
    let members = bounding_members(alloc, model, set)?;
    let columns = member_columns(alloc, members.as_slice())?;
    let rows = alternative_rows(alloc, model, members.as_slice())?;
    let objective = terms_of(alloc, model, members.as_slice(), Form::Costs)?;
    Ok(System {
        columns,
        rows,
        objective: Some(objective),
    })
}

// A column from 0 on for each member.
fn member_columns(alloc: Global, members: &[Member]) -> Result<Vec<Limits>, AllocError>
    ensures { IfOk result (λ columns. columns.items ≡ map (λ m. from_zero) members.now) }
{
    let mut columns = Vec::new(alloc);
    for _member in members {
        columns.push(Limits {
            lo: Some(Frac::whole(0)),
            up: None,
        })?;
    }
    Ok(columns)
}

// For each column of the program a row equal to 0, and then that of the numbers, equal to -1.
fn alternative_rows(
    alloc: Global,
    model: &Model,
    members: &[Member],
) -> Result<Vec<Row>, AllocError>
    requires known { All (IsMemberIn model.now) members.now }
    requires few { length members.now < 2 ^ 31 }
    ensures { IfOk result (λ rows. map row_of rows.items ≡ rows_of model.now members.now) }
{
    let mut rows = Vec::new(alloc);
    for column in 0..model.column_count() {
        let zero = Frac::whole(0);
        rows.push(equal_row(alloc, model, members, Form::Column(column), zero)?)?;
    }
    let number = Frac::whole(1).negate();
    rows.push(equal_row(alloc, model, members, Form::Numbers, number)?)?;
    Ok(rows)
}

// The row in which the members' variables count so, equal to a number.
fn equal_row(
    alloc: Global,
    model: &Model,
    members: &[Member],
    form: Form,
    number: Frac,
) -> Result<Row, AllocError>
    requires known { All (IsMemberIn model.now) members.now }
    requires few { length members.now < 2 ^ 31 }
    ensures { let wanted = row_equal_to model.now members.now form number in
        IfOk result (λ row. row_of row ≡ wanted) }
{
    let terms = terms_of(alloc, model, members, form)?;
    Ok(Row::new(terms, Some(number), Some(number)))
}

// The terms of the members' variables, which are numbered by the members' places.
fn terms_of(
    alloc: Global,
    model: &Model,
    members: &[Member],
    form: Form,
) -> Result<Terms, AllocError>
    requires known { All (IsMemberIn model.now) members.now }
    requires few { length members.now < 2 ^ 31 }
    ensures { let wanted = terms_from 0 (count_by model.now form) members.now in
        IfOk result (λ terms. terms ≡ wanted) }
{
    let mut terms = Vec::new(alloc);
    for (variable, member) in members.iter().enumerate() {
        push_term(variable as u32, count(model, *member, form), &mut terms)?;
    }
    Ok(Terms::new(terms))
}

// Appends the term of a variable that counts so often, where that is not 0 times.
fn push_term(variable: u32, count: Frac, terms: &mut Vec<Term>) -> Result<(), AllocError>
    ensures { let more = term_by variable count in
        IfOk result (λ done. terms.new.items ≡ terms.old.items ++ more) }
{
    if count != Frac::whole(0) {
        terms.push(Term {
            column: variable,
            factor: count,
        })?;
    }
    Ok(())
}
