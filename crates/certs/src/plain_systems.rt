//! The plain system of a set of members on a path.
ghost use Rattle.std.specs.Prelude.{◌≡◌, ◌<◌, IfOk, None, Some, cond, length, map, []};
ghost use Rattle.certs.specs.Checks.{IsSetOf};
ghost use Rattle.certs.specs.Ended.{numbers_from};
ghost use Rattle.certs.specs.Rows.{row_of};
ghost use Rattle.lp_model.specs.MemberSets.{IsPossibleIn};
ghost use Rattle.certs.specs.Plain.{column_limits, greatest_objective as objective_of, has_row as has_side, is_lowered as allows_less, is_raised as asks_more, limit_of as limit_on, limit_source as source_of, negated as opposite, number_in as number_within, plain_row as row_of_program, plain_system as system_of, rows_in};

use crate::evidence::Source;
use crate::numbers::{is_less, member_number, source_number};
use crate::paths::BranchPath;
use crate::systems::{Limits, System};
use frac128::Frac;
use lp_model::{Member, MemberSet, Model, Row, Side, Term, Terms, Weight};
use std::alloc::{AllocError, Global};

/// The system of a set, marks left out, on no path.
pub fn plain_system(
    alloc: Global,
    model: &Model,
    set: &MemberSet,
    objective: bool,
) -> Result<System, AllocError>
    requires same { IsSetOf model.now set.now }
    ensures { IfOk result (λ system. system ≡ system_of model.now set.now.members [] objective) }
{
    node_system(alloc, model, set, &BranchPath::new(alloc), objective)
}

/// The system of a set on a path, marks left out: all columns of the program, each limited by the set's bounds and by the
/// path where that is strictly tighter; the rows of which the set has a side, in order, each with those sides; and the program's objective exactly where `objective` is
/// true, negated where it is to be made least.
///
/// The branches are on columns of the program.
pub fn node_system(
    alloc: Global,
    model: &Model,
    set: &MemberSet,
    path: &BranchPath,
    objective: bool,
) -> Result<System, AllocError>
    requires same { IsSetOf model.now set.now }
    ensures { IfOk result (λ system. system ≡ system_of model.now set.now.members path.now objective) }
{
    let columns = plain_columns(alloc, model, set, path)?;
    let rows = plain_rows(alloc, model, set)?;
    let objective = plain_objective(alloc, model, objective)?;
    Ok(System {
        columns,
        rows,
        objective,
    })
}

// The limits of all columns.
fn plain_columns(
    alloc: Global,
    model: &Model,
    set: &MemberSet,
    path: &BranchPath,
) -> Result<Vec<Limits>, AllocError>
    requires same { IsSetOf model.now set.now }
    ensures { IfOk result (λ columns. columns.items ≡ map (column_limits model.now set.now.members path.now) (numbers_from 0 (length model.now.columns))) }
{
    let mut columns = Vec::new(alloc);
    for column in 0..model.column_count() {
        columns.push(Limits {
            lo: limit_of(model, set, path, column, Side::Lo),
            up: limit_of(model, set, path, column, Side::Up),
        })?;
    }
    Ok(columns)
}

/// What limits a column on a side: the path, where it is strictly tighter than the set's bound, and else the bound.
pub(crate) fn limit_source(
    model: &Model,
    set: &MemberSet,
    path: &BranchPath,
    column: u32,
    side: Side,
) -> Source
    requires known { column < length model.now.columns }
    requires same { IsSetOf model.now set.now }
    ensures { result ≡ source_of model.now set.now.members path.now column side }
{
    match side {
        Side::Lo => {
            let bound = number_in(model, set, Member::Lower(column));
            let branch = source_number(model, path, Source::Above(column));
            if is_raised(bound, branch) {
                return Source::Above(column);
            }
            Source::Member(Member::Lower(column))
        }
        Side::Up => {
            let bound = number_in(model, set, Member::Upper(column));
            let branch = source_number(model, path, Source::Below(column));
            if is_lowered(bound, branch) {
                return Source::Below(column);
            }
            Source::Member(Member::Upper(column))
        }
    }
}

// Whether the number on the path is above that of the bound, or there is only the path's.
fn is_raised(bound: Option<Frac>, branch: Option<Frac>) -> bool
    ensures { result ≡ asks_more bound branch }
{
    let Some(branch) = branch else {
        return false;
    };
    match bound {
        Some(bound) => is_less(bound, branch),
        None => true,
    }
}

// Whether the number on the path is below that of the bound, or there is only the path's.
fn is_lowered(bound: Option<Frac>, branch: Option<Frac>) -> bool
    ensures { result ≡ allows_less bound branch }
{
    let Some(branch) = branch else {
        return false;
    };
    match bound {
        Some(bound) => is_less(branch, bound),
        None => true,
    }
}

// The number that a member asks for, where the set has the member.
fn number_in(model: &Model, set: &MemberSet, member: Member) -> Option<Frac>
    requires possible { IsPossibleIn set.now member }
    requires same { IsSetOf model.now set.now }
    ensures { result ≡ number_within model.now set.now.members member }
{
    if !set.contains(member) {
        return None;
    }
    member_number(model, member)
}

// The limit of a column on a side.
fn limit_of(
    model: &Model,
    set: &MemberSet,
    path: &BranchPath,
    column: u32,
    side: Side,
) -> Option<Frac>
    requires known { column < length model.now.columns }
    requires same { IsSetOf model.now set.now }
    ensures { result ≡ limit_on model.now set.now.members path.now column side }
{
    let source = limit_source(model, set, path, column, side);
    if let Source::Member(member) = source {
        return number_in(model, set, member);
    }
    source_number(model, path, source)
}

/// Whether the set has a side of a row.
pub(crate) fn has_row(set: &MemberSet, row: u32) -> bool
    requires { row < set.now.rows }
    ensures { result ≡ has_side set.now.members row }
{
    set.contains(Member::RowLo(row)) || set.contains(Member::RowUp(row))
}

// The rows of which the set has a side.
fn plain_rows(alloc: Global, model: &Model, set: &MemberSet) -> Result<Vec<Row>, AllocError>
    requires same { IsSetOf model.now set.now }
    ensures { IfOk result (λ rows. map row_of rows.items ≡ map (row_of_program model.now set.now.members) (rows_in model.now set.now.members)) }
{
    let mut rows = Vec::new(alloc);
    for row in 0..model.row_count() {
        if has_row(set, row) {
            rows.push(plain_row(alloc, model, set, row)?)?;
        }
    }
    Ok(rows)
}

// A row of the program, with those of its sides that the set has.
fn plain_row(alloc: Global, model: &Model, set: &MemberSet, index: u32) -> Result<Row, AllocError>
    requires known { index < length model.now.rows }
    requires same { IsSetOf model.now set.now }
    ensures { IfOk result (λ row. row_of row ≡ row_of_program model.now set.now.members index) }
{
    let row = model.row(index);
    Ok(Row {
        terms: Terms::new(Vec::from_slice(alloc, row.terms.as_slice())?),
        lo: number_in(model, set, Member::RowLo(index)),
        up: number_in(model, set, Member::RowUp(index)),
        lo_active: true,
        up_active: true,
        lo_weight: Weight::Soft(Frac::whole(1)),
        up_weight: Weight::Soft(Frac::whole(1)),
    })
}

// The program's objective as one that is to be made greatest, where it is wanted.
fn plain_objective(alloc: Global, model: &Model, wanted: bool) -> Result<Option<Terms>, AllocError>
    ensures { IfOk result (λ objective. objective ≡ cond wanted (Some (objective_of model.now)) None) }
{
    if !wanted {
        return Ok(None);
    }
    Ok(Some(greatest_objective(alloc, model)?))
}

// The objective as one that is to be made greatest.
fn greatest_objective(alloc: Global, model: &Model) -> Result<Terms, AllocError>
    ensures { IfOk result (λ terms. terms ≡ objective_of model.now) }
{
    let terms = model.objective();
    if model.maximise() {
        return Ok(Terms::new(Vec::from_slice(alloc, terms)?));
    }
    negated(alloc, terms)
}

// Each factor with the other sign.
fn negated(alloc: Global, terms: &[Term]) -> Result<Terms, AllocError>
    ensures { IfOk result (λ negative. negative ≡ opposite terms.now) }
{
    let mut negative = Vec::new(alloc);
    for term in terms {
        negative.push(Term {
            column: term.column,
            factor: term.factor.negate(),
        })?;
    }
    Ok(Terms::new(negative))
}
