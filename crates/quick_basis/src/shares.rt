//! Shares of members, by the weights that the limits of variables have.
use crate::bases::{Basis, Blocked};
use crate::limits::side_of;
use certs::{Combo, Share, Shares, Side, Source};
use factors::{at, put, size};
use frac128::Frac;
use lp_model::{Member, MemberSet};
use std::alloc::Global;

/// The limit of a variable on a side, so many times.
#[derive(Clone, Copy)]
pub struct LimitWeight {
    pub side: Side,
    pub weight: Frac,
}

/// How often the blocked row takes a limit of each variable: so many times that of its basic one, on the side that it misses, and of
/// each other one that at which it stands, by its value in the row.
pub fn row_weights(
    alloc: Global,
    basis: &Basis,
    blocked: Blocked,
    times: Frac,
) -> Option<Vec<Option<LimitWeight>>> {
    let mut weights = vec![in alloc; None; basis.variables.len()].ok()?;
    for entry in basis.row.entries() {
        let side = side_of(entry.value, blocked.side);
        let weight = size(entry.value).times(times).ok()?;
        let limit = LimitWeight { side, weight };
        put(&mut weights, entry.place, Some(limit))?;
    }
    let own = LimitWeight {
        side: blocked.side,
        weight: times,
    };
    put(&mut weights, basis.base(blocked.slot)?, Some(own))?;
    Some(weights)
}

/// The combination that takes the limits of the variables so many times, in member order: of each variable one limit, and of
/// those limits the ones that are members of the set and whose weights are above 0. The columns come first, of which there are
/// so many, and then the rows.
pub fn weighed_combo(
    alloc: Global,
    columns: u32,
    set: &MemberSet,
    weights: &[Option<LimitWeight>],
) -> Option<Combo> {
    let mut shares = Vec::new(alloc);
    for member in set.iter() {
        if let Some(variable) = variable_of(columns, member)
            && let Some(Some(limit)) = at(weights, variable)
            && limit.side == member.side()
            && limit.weight > Frac::whole(0)
        {
            let source = Source::Member(member);
            let weight = limit.weight;
            shares.push(Share { source, weight }).ok()?;
        }
    }
    let shares = Shares::new(shares);
    Some(Combo { shares })
}

/// The member that is the limit of a variable on a side.
pub fn member_of(columns: u32, variable: u32, side: Side) -> Member {
    match (variable.checked_sub(columns), side) {
        (None, Side::Lo) => Member::Lower(variable),
        (None, Side::Up) => Member::Upper(variable),
        (Some(index), Side::Lo) => Member::RowLo(index),
        (Some(index), Side::Up) => Member::RowUp(index),
    }
}

/// The variable whose limit a member is; none where it is a mark.
pub fn variable_of(columns: u32, member: Member) -> Option<u32> {
    match member {
        Member::RowLo(index) => columns.checked_add(index),
        Member::RowUp(index) => columns.checked_add(index),
        Member::Lower(index) => Some(index),
        Member::Upper(index) => Some(index),
        Member::Whole(_) => None,
    }
}
