//! The elimination of a basis.
use crate::columns::Columns;
use crate::nucleus::{Nucleus, Pivot};
use crate::sides::Side;
use frac128::Frac;
use std::alloc::Global;

/// A basis as far as it is eliminated: its rows, whose triangle is the upper one, its slots, whose triangle is the lower one, and
/// its pivots.
#[derive(Drop)]
pub(crate) struct Elimination {
    pub rows: Side,
    pub slots: Side,
    pub pivots: Vec<Frac>,
}

impl Elimination {
    /// A basis none of which is eliminated.
    pub(crate) fn new(alloc: Global, basis: Columns) -> Option<Elimination> {
        let rows = Side::new(alloc, basis.transposed(alloc, basis.count())?)?;
        let slots = Side::new(alloc, basis)?;
        Some(Elimination {
            rows,
            slots,
            pivots: Vec::new(alloc),
        })
    }

    /// Eliminates first slots that have one entry left, then rows that have, and then what is left of both.
    pub(crate) fn eliminate(&mut self, alloc: Global) -> Option<()> {
        self.slots
            .take_singles(alloc, &mut self.rows, &mut self.pivots, false)?;
        self.rows
            .take_singles(alloc, &mut self.slots, &mut self.pivots, true)?;
        self.take_nucleus(alloc)?;
        self.rows.close(alloc, self.slots.positions.as_slice())?;
        self.slots.close(alloc, self.rows.positions.as_slice())
    }

    // Takes the rows and slots that are left.
    fn take_nucleus(&mut self, alloc: Global) -> Option<()> {
        let rows = self.rows.open(alloc, false)?;
        if rows.is_empty() {
            return Some(());
        }
        let slots = self.slots.open(alloc, false)?;
        let mut nucleus = Nucleus::new(alloc, self.slots.lines.count())?;
        nucleus.put_rows(rows.as_slice(), &self.rows, &self.slots)?;
        for _ in 0..rows.len() {
            let pivot = nucleus.choose(alloc, rows.as_slice(), slots.as_slice())?;
            self.take(alloc, &mut nucleus, pivot)?;
        }
        Some(())
    }

    // Takes a pivot of the nucleus, and eliminates by it.
    fn take(&mut self, alloc: Global, nucleus: &mut Nucleus, pivot: Pivot) -> Option<()> {
        self.rows.take(pivot.row)?;
        self.slots.take(pivot.slot)?;
        self.pivots.push(pivot.value).ok()?;
        let entries = nucleus.take_row(alloc, pivot)?;
        self.rows.triangle.push_column(entries.as_slice())?;
        for row in nucleus.take_slot(alloc, pivot)?.iter() {
            let times = nucleus.reduce(*row, pivot, entries.as_slice())?;
            self.slots.triangle.push(*row, times)?;
        }
        self.slots.triangle.end()
    }
}
