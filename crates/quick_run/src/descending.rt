//! The primal simplex on what it costs to miss limits, with an objective.
ghost use Rattle.std.specs.Prelude.{◌≤◌};

use crate::breakpoints::make_step;
use crate::slopes::{Descent, Way};
use certs::{Combo, MemberSet, Side};
use factors::{at, size};
use quick_basis::{Basis, LimitWeight, most_turns, weighed_combo};
use std::alloc::Global;

/// The end of a run: the sum is least, or it falls without end as a variable, for which `solved` was solved, moves.
#[derive(Clone, Copy)]
pub(crate) enum End {
    Least,
    Endless(Way),
}

/// Makes steps until an end; none where no pivots are left for more, or a number does not fit. A step takes one off.
pub(crate) fn descend(
    alloc: Global,
    basis: &mut Basis,
    descent: &mut Descent,
    pivots: &mut u64,
) -> Option<End>
    ensures { pivots.new ≤ pivots.old }
{
    for _turn in 0..most_turns(basis) {
        let Some(way) = descent.next_way(basis)? else {
            return Some(End::Least);
        };
        *pivots = pivots.checked_sub(1)?;
        if !make_step(alloc, basis, descent, way)? {
            return Some(End::Endless(way));
        }
    }
    None
}

/// The shares where the sum is least: of a basic variable the limit that it counts as missing, by what that costs, and of a
/// nonbasic one by its reduced cost, the lower limit where the sum rises with it and the upper one where it falls.
pub(crate) fn shares(
    alloc: Global,
    basis: &Basis,
    descent: &Descent,
    set: &MemberSet,
) -> Option<Combo> {
    let mut weights = Vec::new(alloc);
    for (variable, known) in (0..).zip(basis.variables.iter()) {
        let rise = if known.slot.is_some() {
            descent.basic_slope(variable)?.negate()
        } else {
            at(&descent.reduced, variable)?
        };
        let side = if rise.num() < 0 { Side::Up } else { Side::Lo };
        let weight = size(rise);
        weights.push(Some(LimitWeight { side, weight })).ok()?;
    }
    weighed_combo(alloc, basis.columns, set, weights.as_slice())
}
