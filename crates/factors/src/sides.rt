//! The rows and the slots of a basis, and the pivots in those that have one entry left.
use crate::access::{at, put};
use crate::arithmetic::quotient;
use crate::columns::{Columns, Entry};
use frac128::Frac;
use std::alloc::Global;

// The position of what is not taken.
pub(crate) const OPEN: u32 = u32::MAX;

/// One side of a basis, its rows or its slots: the entries of each line; how many of them stand in lines of the other side that
/// are not taken, as long as lines are taken by these counts; the lines for which this is 1, as far as they are listed; the
/// lines in the order in which they were taken; their positions in this order; and in this order, as a triangle without its
/// diagonal, what each had left when it was taken.
///
/// When the side is closed, the triangle is over positions, and its lines the other way stand in place of those of the basis.
#[derive(Drop)]
pub(crate) struct Side {
    pub lines: Columns,
    counts: Vec<u64>,
    singles: Vec<u32>,
    pub taken: Vec<u32>,
    pub positions: Vec<u32>,
    pub triangle: Columns,
}

impl Side {
    /// Lines, none of which is taken.
    pub(crate) fn new(alloc: Global, lines: Columns) -> Option<Side> {
        let counts = lines.lengths(alloc)?;
        let positions = vec![in alloc; OPEN; lines.count()].ok()?;
        let triangle = Columns::new(alloc)?;
        Some(Side {
            lines,
            counts,
            singles: Vec::new(alloc),
            taken: Vec::new(alloc),
            positions,
            triangle,
        })
    }

    /// Takes a line.
    pub(crate) fn take(&mut self, line: u32) -> Option<()> {
        let position = u32::try_from(self.taken.len()).ok()?;
        put(&mut self.positions, line, position)?;
        self.taken.push(line).ok()
    }

    /// The lines that are not taken, those of a count of 1 alone where these are asked for, the last first.
    pub(crate) fn open(&self, alloc: Global, singles: bool) -> Option<Vec<u32>> {
        let mut open = Vec::new(alloc);
        for line in (0..u32::try_from(self.counts.len()).ok()?).rev() {
            let count = at(&self.counts, line)?;
            if at(&self.positions, line)? == OPEN && (count == 1 || !singles) {
                open.push(line).ok()?;
            }
        }
        Some(open)
    }

    // The first entry of a line that stands in a line of the other side that is not taken.
    fn open_entry(&self, line: u32, other: &Side) -> Option<Entry> {
        for entry in self.lines.column(line)? {
            if at(&other.positions, entry.place)? == OPEN {
                return Some(*entry);
            }
        }
        None
    }

    /// Takes the lines that have one entry left, as long as there are any, each with the other side's line of this entry, the
    /// pivot. What the latter has left goes to its triangle, divided by the pivot where this has ones on its diagonal.
    pub(crate) fn take_singles(
        &mut self,
        alloc: Global,
        other: &mut Side,
        pivots: &mut Vec<Frac>,
        divides: bool,
    ) -> Option<()> {
        self.singles = self.open(alloc, true)?;
        for _ in 0..self.counts.len() {
            let Some(line) = self.singles.pop() else {
                break;
            };
            let entry = self.open_entry(line, other)?;
            self.take(line)?;
            other.take(entry.place)?;
            pivots.push(entry.value).ok()?;
            let divisor = if divides { entry.value } else { Frac::whole(1) };
            self.leave(other, entry.place, divisor)?;
            self.triangle.end()?;
        }
        Some(())
    }

    // Puts what a line of the other side has left to its triangle, and lists the lines that have one entry left by this.
    fn leave(&mut self, other: &mut Side, line: u32, divisor: Frac) -> Option<()> {
        for entry in other.lines.column(line)? {
            let place = entry.place;
            if at(&self.positions, place)? == OPEN {
                other.triangle.push(place, quotient(entry.value, divisor)?)?;
                let count = self.counts.get_mut(place as usize)?;
                *count = count.saturating_sub(1);
                if *count == 1 {
                    self.singles.push(place).ok()?;
                }
            }
        }
        other.triangle.end()
    }

    /// Closes the side, by the positions of the other one's lines.
    pub(crate) fn close(&mut self, alloc: Global, positions: &[u32]) -> Option<()> {
        for entry in self.triangle.entries.iter_mut() {
            entry.place = at(positions, entry.place)?;
        }
        self.lines = self.triangle.transposed(alloc, positions.len())?;
        Some(())
    }
}
