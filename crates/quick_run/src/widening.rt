//! The run that makes a vertex of the alternative polyhedron cheaper: limits grow wider until no variable is outside them.
ghost use Rattle.std.specs.Prelude.{◌≤◌};

use crate::extents::Extents;
use certs::Side;
use factors::{at, is_zero, put, quotient, signed, size};
use frac128::Frac;
use quick_basis::{Basis, Blocked, most_turns, side_of};
use std::alloc::Global;

// What comes next: a pivot of a row with a variable, a cheaper vertex, or the end at the cheapest one.
#[derive(Clone, Copy)]
enum Turn {
    Pivot(Blocked, u32),
    Vertex(Blocked),
    Cheapest,
}

/// Makes the vertex cheaper until it is the cheapest one, none where no pivots are left for more, or a number does not
/// fit. This is the dual simplex on limits that are wider by the vertex's extent, with its row as the objective's;
/// after many turns at one extent by Bland's rule (1977).
pub(crate) fn widen(
    alloc: Global,
    basis: &mut Basis,
    extents: &mut Extents,
    start: Blocked,
    pivots: &mut u64,
) -> Option<Blocked>
    ensures { pivots.new ≤ pivots.old }
{
    let mut vertex = start;
    let mut extent = extents.extent(basis, vertex)?;
    let mut idle: u64 = 0;
    for _turn in 0..most_turns(basis) {
        match choose(basis, extents, extent, idle)? {
            Turn::Cheapest => return Some(vertex),
            Turn::Vertex(cheaper) => {
                vertex = cheaper;
                extents.keep_row(basis)?;
            }
            Turn::Pivot(leaves, variable) => {
                *pivots = pivots.checked_sub(1)?;
                pivot(alloc, basis, extents, leaves, variable)?;
            }
        }
        let before = std::mem::replace(&mut extent, extents.extent(basis, vertex)?);
        idle = if extent == before {
            idle.saturating_add(1)
        } else {
            0
        };
    }
    None
}

// What comes next at a vertex, after so many turns at one extent. The row of the variable that leaves, or of the cheaper
// vertex, is solved for.
fn choose(basis: &mut Basis, extents: &Extents, extent: Frac, idle: u64) -> Option<Turn> {
    let rows = basis.head.len() as u64;
    let is_stuck = idle >= rows.saturating_mul(2).saturating_add(50);
    let Some(leaves) = leaving(basis, extents, extent, is_stuck)? else {
        return Some(Turn::Cheapest);
    };
    basis.solve_unit_row(leaves.slot)?;
    let length = basis.row.entries().len() as u64;
    put(&mut basis.lengths, leaves.slot, length)?;
    match entering(basis, extents, leaves, is_stuck)? {
        Some(variable) => Some(Turn::Pivot(leaves, variable)),
        None => Some(Turn::Vertex(leaves)),
    }
}

// The slot whose variable leaves, with the side on which it is outside its wider limit: that of the shortest row, as far as
// lengths are known, or of the least variable where the run is stuck; `Some(None)` where none is outside.
fn leaving(
    basis: &Basis,
    extents: &Extents,
    extent: Frac,
    is_stuck: bool,
) -> Option<Option<Blocked>> {
    let mut best: Option<(u64, Blocked)> = None;
    for (slot, base) in (0..).zip(basis.head.iter()) {
        let Some(side) = extents.off_side(basis, *base, extent)? else {
            continue;
        };
        let key = if is_stuck {
            u64::from(*base)
        } else {
            at(&basis.lengths, slot)?
        };
        match best {
            Some((least, _)) if least <= key => {}
            _ => best = Some((key, Blocked { slot, side })),
        }
    }
    Some(best.map(|least| least.1))
}

// The variable that enters: of those that can move so that the basic variable of the row comes nearer to its wider limit the
// one that counts least in the vertex's row for what it counts in this row, and of equal ones that of the shortest column, or
// the least one where the run is stuck. `Some(None)` where none can.
fn entering(
    basis: &Basis,
    extents: &Extents,
    leaves: Blocked,
    is_stuck: bool,
) -> Option<Option<u32>> {
    let mut best: Option<(Frac, u64, u32)> = None;
    for entry in basis.row.entries() {
        let (variable, factor) = (entry.place, entry.value);
        if is_zero(factor) || extents.is_at(basis, variable, side_of(factor, leaves.side))? {
            continue;
        }
        let count = if is_stuck {
            0
        } else {
            at(&basis.counts, variable)?
        };
        let own = extents.vertex_row.value(variable)?;
        let key = (quotient(size(own), size(factor))?, count, variable);
        if best.is_none_or(|least| key < least) {
            best = Some(key);
        }
    }
    Some(best.map(|least| least.2))
}

// Brings the basic variable of a slot, whose row was solved for, to its wider limit by a pivot with a variable.
fn pivot(
    alloc: Global,
    basis: &mut Basis,
    extents: &mut Extents,
    leaves: Blocked,
    variable: u32,
) -> Option<()> {
    let Blocked { slot, side } = leaves;
    let is_above = side == Side::Up;
    if basis.solve_column(variable).is_some()
        && let Some(base) = basis.base(slot)
        && let Some(gap) = extents.gap(basis, base, side)
        && let Some(factor) = basis.solved.value(slot)
        && let Some(step) = quotient(signed(gap.now, is_above), factor)
        && let Some(rate_step) = quotient(signed(gap.rate, is_above), factor)
        && extents.shift(basis, variable, rate_step).is_some()
        && extents.exchange(basis, variable, base).is_some()
        && basis.shift(variable, step).is_some()
    {
        return basis.exchange(alloc, slot, variable);
    }
    None
}
