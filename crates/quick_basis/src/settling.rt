//! The dual simplex: basic variables that miss a limit leave, until none does or one cannot.
ghost use Rattle.std.specs.Prelude.{◌≤◌};

use crate::bases::{Basis, Blocked};
use crate::choices::{Leaving, Pivot, Rule, entering, helping};
use factors::{at, put};
use std::alloc::Global;

/// The end of a run: no variable misses a limit, or a row is blocked.
#[derive(Clone, Copy)]
pub enum End {
    Settled,
    Blocked(Blocked),
}

// What comes next: a pivot, or an end.
#[derive(Clone, Copy)]
enum Turn {
    Pivot(Pivot),
    End(End),
}

// How often in a turn another row is taken, since the one that was is longer than it was held to be.
const TRIES: u32 = 3;

/// The most turns that a run may make.
pub fn most_turns(basis: &Basis) -> u64 {
    (basis.head.len() as u64)
        .saturating_mul(60)
        .saturating_add(1000)
}

/// Makes turns until an end; none where no pivots are left, or one is too wide. Those that it makes are taken off.
///
/// Of the variables that miss a limit the one with the shortest row leaves, as far as lengths are known; after as many pivots
/// as there are rows the least one, and after twenty times as many the least one also enters (Bland, *New finite pivoting rules
/// for the simplex method*, 1977). Of the variables that can enter those of the shortest columns are looked at, and the one
/// after whose step the fewest variables miss a limit is taken.
pub fn settle(alloc: Global, basis: &mut Basis, pivots: &mut u64) -> Option<End>
    ensures { pivots.new ≤ pivots.old }
{
    basis.list_outside()?;
    for turn in 0..most_turns(basis) {
        match choose(alloc, basis, turn)? {
            Turn::Pivot(pivot) => {
                *pivots = pivots.checked_sub(1)?;
                make_pivot(alloc, basis, pivot)?;
            }
            Turn::End(end) => return Some(end),
        }
    }
    None
}

// What comes next in a turn; none where each pivot is too wide.
fn choose(alloc: Global, basis: &mut Basis, turn: u64) -> Option<Turn> {
    let rows = basis.head.len() as u64;
    let rule = if turn < rows {
        Rule::Shortest
    } else if turn < rows.saturating_mul(20) {
        Rule::Least
    } else {
        Rule::Bland
    };
    let Some(slot) = leaving(basis, rule)? else {
        return Some(Turn::End(End::Settled));
    };
    let side = basis.basic(slot)?.missed?;
    let candidates = helping(alloc, basis, side, rule)?;
    if candidates.is_empty() {
        let blocked = Blocked { slot, side };
        basis.blocked = Some(blocked);
        return Some(Turn::End(End::Blocked(blocked)));
    }
    let leaving = Leaving { slot, side };
    Some(Turn::Pivot(entering(basis, leaving, candidates.as_slice())?))
}

// The slot whose variable leaves, whose row is solved for; none in it where no variable misses a limit. Where the row turns out
// to be much longer than it was held to be, the next one is looked at, a few times.
fn leaving(basis: &mut Basis, rule: Rule) -> Option<Option<u32>> {
    for attempt in 0..=TRIES {
        let Some(slot) = basis.first_outside(rule)? else {
            return Some(None);
        };
        basis.solve_unit_row(slot)?;
        let length = basis.row.entries().len() as u64;
        let known = at(&basis.lengths, slot)?;
        let is_longer = length > known.saturating_mul(2).saturating_add(4);
        put(&mut basis.lengths, slot, length)?;
        if rule != Rule::Shortest || attempt == TRIES || !is_longer {
            return Some(Some(slot));
        }
    }
    None
}

// Makes a pivot, for whose variable `solved` was solved.
fn make_pivot(alloc: Global, basis: &mut Basis, pivot: Pivot) -> Option<()> {
    let half = at(&basis.lengths, pivot.slot)? / 2;
    for entry in basis.solved.entries() {
        let length = basis.lengths.get_mut(entry.place as usize)?;
        if entry.place != pivot.slot {
            *length = length.saturating_add(half);
        }
    }
    basis.shift(pivot.variable, pivot.step)?;
    basis.exchange(alloc, pivot.slot, pivot.variable)
}

impl Basis {
    // The first of the slots whose variables miss a limit: by the rule that of the shortest row, as far as is known, or of the
    // least variable. Those that miss none any more are taken off the list.
    fn first_outside(&mut self, rule: Rule) -> Option<Option<u32>> {
        let mut best = (u64::MAX, u32::MAX);
        let mut kept: u32 = 0;
        for index in 0..u32::try_from(self.outside.len()).ok()? {
            let slot = at(&self.outside, index)?;
            let base = self.base(slot)?;
            if self.variable(base)?.missed.is_none() {
                put(&mut self.is_listed, slot, false)?;
                continue;
            }
            put(&mut self.outside, kept, slot)?;
            kept = kept.saturating_add(1);
            let length = at(&self.lengths, slot)?;
            let is_shortest = rule == Rule::Shortest;
            let key = if is_shortest { length } else { u64::from(base) };
            if (key, slot) < best {
                best = (key, slot);
            }
        }
        self.outside.truncate(kept as usize);
        Some(if kept == 0 { None } else { Some(best.1) })
    }
}
