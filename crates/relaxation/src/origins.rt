//! What the rows of an elastic system are.
ghost use Rattle.std.specs.Prelude.{◌≡◌, ◌<◌, ◌++◌, All, IfOk, filter, length, not};
ghost use Rattle.lp_model.specs.Members.{number};
ghost use Rattle.certs.specs.Checks.{IsSetOf};
ghost use Rattle.certs.specs.Elastic.{is_row_side as is_any_side, is_side_of as is_side, numbered_soft as soft_by};
ghost use Rattle.certs.specs.Plain.{has_row as has_side};
ghost use Rattle.relaxation.specs.Origins.{IsKnownOrigin, IsMemberIn, origins_of, soft_origin, soft_origins};

use frac128::Frac;
use lp_model::{Member, MemberSet, Model};
use std::alloc::{AllocError, Global};

/// What a row of an elastic system is: a row of the program with its enforced sides, or the row of a soft member with
/// its elastic variable.
#[derive(Clone, Copy)]
pub(crate) enum Origin {
    Row(u32),
    Soft(u32, Member),
}

/// The members of a set that are not enforced, each with its elastic variable. Those come after the columns.
pub(crate) fn numbered_soft(
    alloc: Global,
    model: &Model,
    set: &MemberSet,
    enforced: &MemberSet,
) -> Result<Vec<(u32, Member)>, AllocError>
    requires same { IsSetOf model.now set.now }
    requires enforced { IsSetOf model.now enforced.now }
    ensures soft { let n = length model.now.columns in
        let soft = soft_by n set.now.members enforced.now.members in
        IfOk result (λ made. made.items ≡ soft) }
    ensures known { IfOk result (λ soft. All (λ e. IsMemberIn model.now e.1) soft.items) }
{
    // That the members are few is told with the count of the rows and by their order.
    let _rows = model.row_count();
    set.stands_in_order();
    let first = model.column_count();
    let mut soft = Vec::new(alloc);
    for member in set.iter() {
        if !enforced.contains(member) {
            soft.push((first + soft.len() as u32, member))?;
        }
    }
    Ok(soft)
}

/// What the rows are: those of the program with their enforced sides, each followed by those of its soft sides, and then
/// those of soft bounds.
pub(crate) fn origins(
    alloc: Global,
    model: &Model,
    enforced: &MemberSet,
    soft: &[(u32, Member)],
) -> Result<Vec<Origin>, AllocError>
    requires enforced { IsSetOf model.now enforced.now }
    requires known { All (λ e. IsMemberIn model.now e.1) soft.now }
    ensures rows { let all = origins_of model.now enforced.now.members soft.now in
        IfOk result (λ rows. rows.items ≡ all) }
    ensures known { IfOk result (λ rows. All (IsKnownOrigin model.now) rows.items) }
{
    let mut rows = Vec::new(alloc);
    for row in 0..model.row_count() {
        if has_row(enforced, row) {
            rows.push(Origin::Row(row))?;
        }
        push_sides(model, row, soft, &mut rows)?;
    }
    push_bounds(model, soft, &mut rows)?;
    Ok(rows)
}

// Whether the set has a side of a row.
fn has_row(set: &MemberSet, row: u32) -> bool
    requires { row < set.now.rows }
    ensures { result ≡ has_side set.now.members row }
{
    set.contains(Member::RowLo(row)) || set.contains(Member::RowUp(row))
}

// Appends those of the soft sides of a row.
fn push_sides(
    model: &Model,
    row: u32,
    soft: &[(u32, Member)],
    rows: &mut Vec<Origin>,
) -> Result<(), AllocError>
    requires known { All (λ e. IsMemberIn model.now e.1) soft.now }
    ensures { let more = soft_origins model.now (filter (λ e. is_side row e.1) soft.now) in
        IfOk result (λ done. rows.new.items ≡ rows.old.items ++ more) }
{
    for (variable, member) in soft {
        if is_side_of(*member, row) {
            push_soft(model, *variable, *member, rows)?;
        }
    }
    Ok(())
}

// Appends those of the soft bounds.
fn push_bounds(
    model: &Model,
    soft: &[(u32, Member)],
    rows: &mut Vec<Origin>,
) -> Result<(), AllocError>
    requires known { All (λ e. IsMemberIn model.now e.1) soft.now }
    ensures { let bounds = filter (λ e. not (is_any_side e.1)) soft.now in
        let more = soft_origins model.now bounds in
        IfOk result (λ done. rows.new.items ≡ rows.old.items ++ more) }
{
    for (variable, member) in soft {
        if !is_row_side(*member) {
            push_soft(model, *variable, *member, rows)?;
        }
    }
    Ok(())
}

// Appends the row of a soft member, where it asks for a number.
fn push_soft(
    model: &Model,
    variable: u32,
    member: Member,
    rows: &mut Vec<Origin>,
) -> Result<(), AllocError>
    requires { IsMemberIn model.now member }
    ensures { let more = soft_origin (variable, member) (number model.now member) in
        IfOk result (λ done. rows.new.items ≡ rows.old.items ++ more) }
{
    if member_number(model, member).is_some() {
        rows.push(Origin::Soft(variable, member))?;
    }
    Ok(())
}

// Whether a member is a side of the row.
fn is_side_of(member: Member, row: u32) -> bool
    ensures { result ≡ is_side row member }
{
    member == Member::RowLo(row) || member == Member::RowUp(row)
}

// Whether it is a side of any row.
fn is_row_side(member: Member) -> bool
    ensures { result ≡ is_any_side member }
{
    matches!(member, Member::RowLo(_) | Member::RowUp(_))
}

/// The number that a member asks for, where it is there; a mark asks for none.
pub fn member_number(model: &Model, member: Member) -> Option<Frac>
    requires { IsMemberIn model.now member }
    ensures { result ≡ number model.now member }
{
    match member {
        Member::RowLo(index) => model.row(index).lo,
        Member::RowUp(index) => model.row(index).up,
        Member::Lower(index) => model.column(index).lo,
        Member::Upper(index) => model.column(index).up,
        Member::Whole(_) => None,
    }
}
