//! The inverse of a basis as a product.
use crate::rounded::Rounded;
use std::alloc::Global;

/// A value at a place.
#[derive(Clone, Copy)]
pub(crate) struct Entry {
    pub place: u32,
    pub value: Rounded,
}

// A column that came into a slot: its value there when it was solved for, and its other ones.
#[derive(Drop)]
struct Eta {
    slot: u32,
    pivot: Rounded,
    entries: Vec<Entry>,
}

/// The inverse of a basis in the product form: of each column that came in what it was solved to.
#[derive(Drop)]
pub(crate) struct Product {
    etas: Vec<Eta>,
    entries: usize,
}

impl Product {
    /// The inverse of the basis that has a one at each slot.
    pub(crate) fn new(alloc: Global) -> Product {
        Product {
            etas: Vec::new(alloc),
            entries: 0,
        }
    }

    /// How many columns came in.
    pub(crate) fn count(&self) -> usize {
        self.etas.len()
    }

    /// How much a solution looks at.
    pub(crate) fn size(&self) -> usize {
        self.etas.len().saturating_add(self.entries)
    }

    /// Puts the solution in place of a right side.
    pub(crate) fn solve(&self, vector: &mut [Rounded]) -> Option<()> {
        for eta in self.etas.iter() {
            let value = vector.get_mut(eta.slot as usize)?;
            if value.is_zero() {
                continue;
            }
            let times = value.over(eta.pivot)?;
            *value = times;
            for entry in eta.entries.iter() {
                let value = vector.get_mut(entry.place as usize)?;
                *value = value.minus(entry.value.times(times));
            }
        }
        Some(())
    }

    /// Puts the solution of the transposed system in place of a right side.
    pub(crate) fn solve_transposed(&self, vector: &mut [Rounded]) -> Option<()> {
        for eta in self.etas.iter().rev() {
            let mut sum = *vector.get(eta.slot as usize)?;
            for entry in eta.entries.iter() {
                let value = *vector.get(entry.place as usize)?;
                if !value.is_zero() {
                    sum = sum.minus(entry.value.times(value));
                }
            }
            if !sum.is_zero() {
                sum = sum.over(eta.pivot)?;
            }
            *vector.get_mut(eta.slot as usize)? = sum;
        }
        Some(())
    }

    /// A column, which was solved for, comes into a slot.
    pub(crate) fn push(&mut self, alloc: Global, slot: u32, solved: &[Rounded]) -> Option<()> {
        let pivot = *solved.get(slot as usize)?;
        let mut entries = Vec::new(alloc);
        for (place, value) in (0..).zip(solved.iter()) {
            if place != slot && !value.is_zero() {
                let value = *value;
                entries.push(Entry { place, value }).ok()?;
            }
        }
        self.entries = self.entries.saturating_add(entries.len());
        let eta = Eta {
            slot,
            pivot,
            entries,
        };
        self.etas.push(eta).ok()
    }
}
