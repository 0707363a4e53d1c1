//! The nucleus of a basis: the rows and slots that are left after those with one entry.
use crate::access::{at, keep};
use crate::arithmetic::{is_zero, quotient, width};
use crate::columns::Entry;
use crate::sides::{OPEN, Side};
use crate::vectors::SparseVector;
use frac128::Frac;
use std::alloc::Global;

// How many rows and slots are looked at for a pivot.
const CANDIDATES: usize = 4;

// How many entries a row or a slot has, whether it is a row, and its index with all bits turned: so the last comes first.
type Candidate = (usize, bool, u32);

/// The entries of each row, and the rows of each slot. What was a pivot's has none.
#[derive(Drop)]
pub(crate) struct Nucleus {
    rows: Vec<Vec<Entry>>,
    slots: Vec<Vec<u32>>,
    sum: SparseVector,
}

/// A pivot, with the number of entries that it can make, and its width.
#[derive(Clone, Copy)]
pub(crate) struct Pivot {
    pub row: u32,
    pub slot: u32,
    pub value: Frac,
    cost: usize,
    width: u32,
}

impl Nucleus {
    /// So many rows and slots without entries.
    pub(crate) fn new(alloc: Global, count: usize) -> Option<Nucleus> {
        let mut rows = Vec::with_capacity(alloc, count).ok()?;
        let mut slots = Vec::with_capacity(alloc, count).ok()?;
        for _ in 0..count {
            rows.push(Vec::new(alloc)).ok()?;
            slots.push(Vec::new(alloc)).ok()?;
        }
        let sum = SparseVector::new(alloc, count)?;
        Some(Nucleus { rows, slots, sum })
    }

    /// Puts the entries of these rows in that stand in slots that are not taken.
    pub(crate) fn put_rows(&mut self, rows: &[u32], from: &Side, slots: &Side) -> Option<()> {
        for row in rows {
            let own = self.rows.get_mut(*row as usize)?;
            for entry in from.lines.column(*row)? {
                if at(&slots.positions, entry.place)? == OPEN {
                    own.push(*entry).ok()?;
                    self.slots.get_mut(entry.place as usize)?.push(*row).ok()?;
                }
            }
        }
        Some(())
    }

    /// Of the entries of the shortest of these rows and slots the one that makes the fewest entries as a pivot, the narrowest of these
    /// (Markowitz, *The elimination form of the inverse and its application to linear programming*, 1957).
    pub(crate) fn choose(&self, alloc: Global, rows: &[u32], slots: &[u32]) -> Option<Pivot> {
        let mut best: Option<Pivot> = None;
        for (count, is_row, turned) in self.shortest(alloc, rows, slots)?.iter() {
            let index = !*turned;
            let others = count.saturating_sub(1);
            let least = others.saturating_mul(others);
            if best.is_some_and(|found| found.cost <= least) {
                break;
            }
            if *is_row {
                for entry in self.rows.get(index as usize)?.iter() {
                    best = self.better(best, index, entry.place)?;
                }
            } else {
                for row in self.slots.get(index as usize)?.iter() {
                    best = self.better(best, *row, index)?;
                }
            }
        }
        best
    }

    // Of these rows and slots those that have entries and the fewest of them.
    fn shortest(&self, alloc: Global, rows: &[u32], slots: &[u32]) -> Option<Vec<Candidate>> {
        let mut shortest = Vec::new(alloc);
        for slot in slots {
            let rows = self.slots.get(*slot as usize)?.len();
            if rows > 0 {
                keep(&mut shortest, (rows, false, !*slot), CANDIDATES)?;
            }
        }
        for row in rows {
            let entries = self.rows.get(*row as usize)?.len();
            if entries > 0 {
                keep(&mut shortest, (entries, true, !*row), CANDIDATES)?;
            }
        }
        Some(shortest)
    }

    // The better one of the best pivot so far and another.
    fn better(&self, best: Option<Pivot>, row: u32, slot: u32) -> Option<Option<Pivot>> {
        let entries = self.rows.get(row as usize)?;
        let rows = self.slots.get(slot as usize)?;
        let others = entries.len().saturating_sub(1);
        let cost = others.saturating_mul(rows.len().saturating_sub(1));
        if let Some(found) = &best
            && found.cost < cost
        {
            return Some(best);
        }
        let value = value_of(entries.as_slice(), slot)?;
        let width = width(value);
        if let Some(found) = &best
            && (found.cost, found.width) <= (cost, width)
        {
            return Some(best);
        }
        Some(Some(Pivot {
            row,
            slot,
            value,
            cost,
            width,
        }))
    }

    /// Takes out the row of a pivot, and gives its entries in other slots.
    pub(crate) fn take_row(&mut self, alloc: Global, pivot: Pivot) -> Option<Vec<Entry>> {
        self.take_entry(pivot.row, pivot.slot)?;
        let row = self.rows.get_mut(pivot.row as usize)?;
        let entries = std::mem::replace(row, Vec::new(alloc));
        for entry in entries.iter() {
            leave(&mut self.slots, entry.place, pivot.row)?;
        }
        Some(entries)
    }

    // Takes the entry of a row in a slot out, and gives its value.
    fn take_entry(&mut self, row: u32, slot: u32) -> Option<Frac> {
        let entries = self.rows.get_mut(row as usize)?;
        let value = value_of(entries.as_slice(), slot)?;
        entries.retain(|entry| entry.place != slot);
        Some(value)
    }

    /// Takes out the slot of a pivot, and gives its other rows.
    pub(crate) fn take_slot(&mut self, alloc: Global, pivot: Pivot) -> Option<Vec<u32>> {
        leave(&mut self.slots, pivot.slot, pivot.row)?;
        let slot = self.slots.get_mut(pivot.slot as usize)?;
        Some(std::mem::replace(slot, Vec::new(alloc)))
    }

    /// Takes the row of a pivot, of which these are the other entries, off another row as many times as clears its slot there,
    /// and gives how many.
    pub(crate) fn reduce(&mut self, row: u32, pivot: Pivot, entries: &[Entry]) -> Option<Frac> {
        let times = quotient(self.take_entry(row, pivot.slot)?, pivot.value)?;
        self.sum.assign(self.rows.get(row as usize)?)?;
        self.sum.subtract_all(entries, times)?;
        self.store(row)?;
        Some(times)
    }

    // Stores the sum as a row, whose places come first in it.
    fn store(&mut self, row: u32) -> Option<()> {
        let own = self.rows.get_mut(row as usize)?;
        let before = own.len();
        own.clear();
        for (index, entry) in self.sum.entries().iter().enumerate() {
            if is_zero(entry.value) {
                leave(&mut self.slots, entry.place, row)?;
                continue;
            }
            own.push(*entry).ok()?;
            if index >= before {
                self.slots.get_mut(entry.place as usize)?.push(row).ok()?;
            }
        }
        Some(())
    }
}

// Takes a row off those of a slot.
fn leave(slots: &mut [Vec<u32>], slot: u32, row: u32) -> Option<()> {
    let rows = slots.get_mut(slot as usize)?;
    rows.retain(|other| *other != row);
    Some(())
}

// The value at a place.
fn value_of(entries: &[Entry], place: u32) -> Option<Frac> {
    for entry in entries {
        if entry.place == place {
            return Some(entry.value);
        }
    }
    None
}
