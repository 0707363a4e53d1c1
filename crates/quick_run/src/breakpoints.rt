//! The long step: a nonbasic variable moves on past the limits of others as long as the sum of all costs falls.
use crate::slopes::{Descent, Way, missed_on_the_way};
use certs::Side;
use factors::{is_zero, put, quotient, signed, size, width};
use frac128::Frac;
use quick_basis::{Basis, opposite};
use std::alloc::Global;

// How a variable moves while another one enters: the other itself, or the basic one of a slot.
#[derive(Clone, Copy)]
struct Motion {
    variable: u32,
    slot: Option<u32>,
    rises: bool,
    // How far it moves for each one that the other moves.
    speed: Frac,
    // Its place among those that come to a limit at the same time.
    rank: u64,
}

// A limit to which a variable comes, on its way beyond it or back from beyond it, and how far the one that enters has moved
// then.
#[derive(Clone, Copy)]
struct Breakpoint {
    motion: Motion,
    side: Side,
    leads_out: bool,
    distance: Frac,
}

/// Moves a nonbasic variable until the sum falls no more: to a limit of its own, or with a pivot to that of a basic variable,
/// which leaves. False where no limit ends it, and nothing moves then; none where a number does not fit.
pub(crate) fn make_step(
    alloc: Global,
    basis: &mut Basis,
    descent: &mut Descent,
    way: Way,
) -> Option<bool> {
    basis.solve_column(way.variable)?;
    let missed = missed_on_the_way(basis.variable(way.variable)?, way.rises);
    put(&mut descent.missed, way.variable, missed)?;
    let mut breakpoints = Vec::new(alloc);
    push_all(&mut breakpoints, basis, descent, way)?;
    breakpoints.sort_unstable_by_key(|it| (it.distance, it.motion.rank, it.leads_out));
    let Some((last, rate)) = pass(basis, descent, breakpoints.as_slice(), way.rate)? else {
        return Some(false);
    };
    descent.idle = if is_zero(last.distance) {
        descent.idle.saturating_add(1)
    } else {
        0
    };
    let slot = last.motion.slot;
    if basis
        .shift(way.variable, signed(last.distance, way.rises))
        .is_some()
        && pivot(alloc, basis, descent, way, slot, rate).is_some()
    {
        return Some(true);
    }
    None
}

// Puts the variable that moved into a slot, where there is one. The reduced costs change by the slopes that changed and, by
// a pivot, by as much more of the leaving variable's as makes the reduced cost of the other 0.
fn pivot(
    alloc: Global,
    basis: &mut Basis,
    descent: &mut Descent,
    way: Way,
    slot: Option<u32>,
    rate: Frac,
) -> Option<()> {
    let Some(slot) = slot else {
        descent.solve(basis)?;
        return descent.rate_anew(basis, way.variable);
    };
    if let Some(leaves) = basis.base(slot)
        && let Some(factor) = basis.solved.value(slot)
        && let Some(more) = quotient(signed(rate, !way.rises), factor)
        && basis.costs.subtract(slot, more, Frac::whole(-1)).is_some()
        && descent.solve(basis).is_some()
        && let Some(slope) = descent.basic_slope(leaves)
        && let Ok(all) = slope.plus(more)
        && basis.exchange(alloc, slot, way.variable).is_some()
        && descent
            .candidates
            .put(way.variable, Frac::whole(0))
            .is_some()
    {
        return descent.put(basis, leaves, all.negate());
    }
    None
}

// Passes limits as long as the sum falls, and gives that at which it falls no more, or which is a wall, with the rate just
// before it; where the run is stuck, the first of all. None in it where there is no such limit. The slopes that change are in
// `costs`.
fn pass(
    basis: &mut Basis,
    descent: &mut Descent,
    breakpoints: &[Breakpoint],
    rate: Frac,
) -> Option<Option<(Breakpoint, Frac)>> {
    let is_stuck = descent.is_stuck(basis);
    let mut rate = rate;
    basis.costs.clear();
    for breakpoint in breakpoints {
        let motion = breakpoint.motion;
        let Some(cost) = descent.prices.cost(motion.variable, breakpoint.side) else {
            return Some(Some((*breakpoint, rate)));
        };
        let after = rate.minus(motion.speed.times(cost).ok()?).ok()?;
        if is_stuck || after.num() <= 0 {
            return Some(Some((*breakpoint, rate)));
        }
        rate = after;
        // Its variable misses the limit from now on, or no more, and its slope changes by the cost.
        let beyond = breakpoint.leads_out.then_some(breakpoint.side);
        put(&mut descent.missed, motion.variable, beyond)?;
        if let Some(slot) = motion.slot {
            let slope = signed(cost, !motion.rises);
            basis.costs.subtract(slot, slope, Frac::whole(1))?;
        }
    }
    Some(None)
}

// Puts the limits to which the variable that enters comes, for which `solved` was solved, and those to which basic ones come
// with it.
fn push_all(found: &mut Vec<Breakpoint>, basis: &Basis, descent: &Descent, way: Way) -> Option<()> {
    let is_stuck = descent.is_stuck(basis);
    let own = Motion {
        variable: way.variable,
        slot: None,
        rises: way.rises,
        speed: Frac::whole(1),
        rank: rank(is_stuck, way.variable, 0, u32::MAX),
    };
    push_limits(found, basis, descent, own)?;
    for entry in basis.solved.entries() {
        if !is_zero(entry.value) {
            let variable = basis.base(entry.place)?;
            let speed = size(entry.value);
            let motion = Motion {
                variable,
                slot: Some(entry.place),
                rises: way.rises == (entry.value.num() < 0),
                speed,
                rank: rank(is_stuck, variable, width(speed), entry.place),
            };
            push_limits(found, basis, descent, motion)?;
        }
    }
    Some(())
}

// The place of a variable among those that come to a limit at the same time: the one whose factor is least wide is first, and
// then that of the least slot; where the run is stuck the least variable.
fn rank(is_stuck: bool, variable: u32, width: u32, slot: u32) -> u64 {
    if is_stuck {
        return u64::from(variable);
    }
    u64::from(width)
        .saturating_mul(4_294_967_296)
        .saturating_add(u64::from(slot))
}

// Puts the limits to which a variable comes: the one that it misses on the side from which it moves, and the one ahead.
fn push_limits(
    found: &mut Vec<Breakpoint>,
    basis: &Basis,
    descent: &Descent,
    motion: Motion,
) -> Option<()> {
    let ahead = if motion.rises { Side::Up } else { Side::Lo };
    let missed = *descent.missed.get(motion.variable as usize)?;
    if missed == Some(ahead) {
        return Some(());
    }
    if missed.is_some() {
        push_limit(found, basis, motion, opposite(ahead), false)?;
    }
    push_limit(found, basis, motion, ahead, true)
}

// Puts the limit of a variable on a side, where it has one.
fn push_limit(
    found: &mut Vec<Breakpoint>,
    basis: &Basis,
    motion: Motion,
    side: Side,
    leads_out: bool,
) -> Option<()> {
    let known = basis.variable(motion.variable)?;
    let Some(limit) = known.limit_on(side) else {
        return Some(());
    };
    let way = limit.minus(known.value).ok()?;
    let distance = quotient(signed(way, motion.rises), motion.speed)?;
    let breakpoint = Breakpoint {
        motion,
        side,
        leads_out,
        distance,
    };
    found.push(breakpoint).ok()
}
