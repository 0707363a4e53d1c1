//! Which variable enters the basis.
use crate::bases::Basis;
use crate::limits::side_of;
use certs::Side;
use factors::{at, is_zero, keep, put, quotient};
use frac128::Frac;
use std::alloc::Global;

// How many entering variables are looked at.
const CANDIDATES: usize = 8;

/// The rule of a turn.
#[derive(Clone, Copy, PartialEq, Eq)]
pub enum Rule {
    /// The shortest row leaves.
    Shortest,
    /// The least variable leaves.
    Least,
    /// The least variable leaves, and the least one that helps enters.
    Bland,
}

/// A slot whose variable leaves, and the side that it misses.
#[derive(Clone, Copy)]
pub(crate) struct Leaving {
    pub slot: u32,
    pub side: Side,
}

/// A pivot: the slot whose variable leaves, the variable that enters, and the step that it makes.
#[derive(Clone, Copy)]
pub(crate) struct Pivot {
    pub slot: u32,
    pub variable: u32,
    pub step: Frac,
}

/// The variables that can move so that the basic one of the row comes nearer to its limit on the side that it misses: at most
/// so many, those of the shortest columns first. By Bland's rule the least one alone.
pub(crate) fn helping(
    alloc: Global,
    basis: &Basis,
    side: Side,
    rule: Rule,
) -> Option<Vec<(u64, u32)>> {
    let mut best = Vec::new(alloc);
    let most = if rule == Rule::Bland { 1 } else { CANDIDATES };
    for entry in basis.row.entries() {
        let known = basis.variable(entry.place)?;
        if is_zero(entry.value) || known.is_at(side_of(entry.value, side)) {
            continue;
        }
        let count = at(&basis.counts, entry.place)?;
        let key = if rule == Rule::Bland { 0 } else { count };
        keep(&mut best, (key, entry.place), most)?;
    }
    Some(best)
}

/// The pivot of a leaving variable with one of these: the one after whose step the fewest variables miss a limit, the first of
/// these, for which `solved` is solved then. None where each step is too wide, or a column is.
pub(crate) fn entering(
    basis: &mut Basis,
    leaving: Leaving,
    candidates: &[(u64, u32)],
) -> Option<Pivot> {
    let mut best: Option<Pivot> = None;
    let mut least = u32::MAX;
    let mut solved = None;
    for (_, variable) in candidates {
        solved = Some(*variable);
        basis.solve_column(*variable)?;
        let count = basis.solved.entries().len() as u64;
        put(&mut basis.counts, *variable, count)?;
        let Some(step) = basis.step_of(leaving) else {
            continue;
        };
        let Some(missed) = basis.missed_after(*variable, step, least) else {
            continue;
        };
        if missed < least {
            least = missed;
            best = Some(Pivot {
                slot: leaving.slot,
                variable: *variable,
                step,
            });
        }
        if least == 0 {
            break;
        }
    }
    let pivot = best?;
    if solved != Some(pivot.variable) {
        basis.solve_column(pivot.variable)?;
    }
    Some(pivot)
}

impl Basis {
    /// The step of the variable that was solved for that brings the basic one of a slot to its limit on a side.
    pub(crate) fn step_of(&self, leaving: Leaving) -> Option<Frac> {
        let known = self.basic(leaving.slot)?;
        let way = known.value.minus(known.limit_on(leaving.side)?).ok()?;
        quotient(way, self.solved.value(leaving.slot)?)
    }

    /// How many of the variables that move would miss a limit after the one that was solved for moved by a step; `most` or
    /// more where they are not fewer than that.
    pub(crate) fn missed_after(&self, variable: u32, step: Frac, most: u32) -> Option<u32> {
        let known = self.variable(variable)?;
        let value = known.value.plus(step).ok()?;
        let mut count = u32::from(known.missed_at(value).is_some());
        for entry in self.solved.entries() {
            if count >= most {
                break;
            }
            let basic = self.basic(entry.place)?;
            if !is_zero(entry.value) && (basic.has_lo || basic.has_up) {
                let value = basic.fallen(entry.value, step)?;
                count = count.saturating_add(u32::from(basic.missed_at(value).is_some()));
            }
        }
        Some(count)
    }
}
