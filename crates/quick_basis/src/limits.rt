//! The limits of the variables, as a set of members gives them.
ghost use Rattle.std.specs.Prelude.{◌<◌, length};
ghost use Rattle.certs.specs.Checks.{IsSetOf};
ghost use Rattle.lp_model.specs.MemberSets.{IsPossibleIn};

use certs::Limits;
use frac128::Frac;
use lp_model::{Member, MemberSet, Model, Side};

/// The limits of a column: the bounds that the set has.
pub(crate) fn column_limits(model: &Model, set: &MemberSet, index: u32) -> Limits
    requires same { IsSetOf model.now set.now }
    requires within { index < length model.now.columns }
{
    let column = model.column(index);
    Limits {
        lo: kept(set, Member::Lower(index), column.lo),
        up: kept(set, Member::Upper(index), column.up),
    }
}

/// The limits of a row: the sides that the set has.
pub(crate) fn row_limits(model: &Model, set: &MemberSet, index: u32) -> Limits
    requires same { IsSetOf model.now set.now }
    requires within { index < length model.now.rows }
{
    let row = model.row(index);
    Limits {
        lo: kept(set, Member::RowLo(index), row.lo),
        up: kept(set, Member::RowUp(index), row.up),
    }
}

// The number of a member, where the set has the member.
fn kept(set: &MemberSet, member: Member, number: Option<Frac>) -> Option<Frac>
    requires { IsPossibleIn set.now member }
{
    if set.contains(member) { number } else { None }
}

/// The other side.
pub fn opposite(side: Side) -> Side {
    match side {
        Side::Lo => Side::Up,
        Side::Up => Side::Lo,
    }
}

/// The side of its limit at which a nonbasic variable stands, of which the row of a basic one that misses a side has so much,
/// where it cannot help.
pub fn side_of(factor: Frac, missed: Side) -> Side {
    if factor.num() < 0 {
        opposite(missed)
    } else {
        missed
    }
}
