//! Triangular solves.
use crate::access::{at, put};
use crate::arithmetic::{is_zero, quotient, reduced};
use crate::columns::{Columns, Entry};
use crate::places::{insert, next, take_previous};
use crate::vectors::SparseVector;
use frac128::Frac;
use std::alloc::Global;

/// The vector on which triangular solves work: its values, and the set of the places of all that are not 0.
///
/// A solve takes these places in order, and puts in those that come to have values: so its time goes by the entries that it
/// meets (Gilbert and Peierls, *Sparse partial pivoting in time proportional to arithmetic operations*, 1988, who find the
/// places by a search).
#[derive(Drop)]
pub(crate) struct Work {
    values: Vec<Frac>,
    places: Vec<u64>,
}

impl Work {
    /// So many zeros.
    pub(crate) fn new(alloc: Global, len: usize) -> Option<Work> {
        Some(Work {
            values: vec![in alloc; Frac::whole(0); len].ok()?,
            places: vec![in alloc; 0u64; len / 64 + 1].ok()?,
        })
    }

    /// Puts all values of a vector, each at the position of its place.
    pub(crate) fn put_all(&mut self, entries: &[Entry], positions: &[u32]) -> Option<()> {
        for entry in entries {
            let position = at(positions, entry.place)?;
            put(&mut self.values, position, entry.value)?;
            insert(&mut self.places, position)?;
        }
        Some(())
    }

    // Divides the value at a place by the pivot there, where there is one, and gives it.
    #[inline(always)]
    fn divide(&mut self, place: u32, diagonal: &[Frac]) -> Option<Frac> {
        let value = self.values.get_mut(place as usize)?;
        if !is_zero(*value)
            && let Some(pivot) = diagonal.get(place as usize)
        {
            *value = quotient(*value, *pivot)?;
        }
        Some(*value)
    }

    // Takes so many times a column off.
    #[inline(always)]
    fn subtract(&mut self, triangle: &Columns, index: u32, times: Frac) -> Option<()> {
        for entry in triangle.column(index)? {
            let value = self.values.get_mut(entry.place as usize)?;
            *value = reduced(*value, entry.value, times)?;
            insert(&mut self.places, entry.place)?;
        }
        Some(())
    }

    /// Solves a triangle whose columns have their entries behind the diagonal, which is apart: ones where it is empty.
    pub(crate) fn solve_forward(&mut self, triangle: &Columns, diagonal: &[Frac]) -> Option<()> {
        let mut first: u32 = 0;
        for _ in 0..triangle.count() {
            let Some(place) = next(&self.places, first) else {
                break;
            };
            first = place.saturating_add(1);
            let times = self.divide(place, diagonal)?;
            if !is_zero(times) {
                self.subtract(triangle, place, times)?;
            }
        }
        Some(())
    }

    /// Solves a triangle whose columns have their entries before the diagonal. What is solved goes to `out`, at the name of its
    /// place, and the vector becomes 0.
    pub(crate) fn solve_back(
        &mut self,
        triangle: &Columns,
        diagonal: &[Frac],
        names: &[u32],
        out: &mut SparseVector,
    ) -> Option<()> {
        let mut last = u32::try_from(triangle.count()).ok()?;
        for _ in 0..triangle.count() {
            let Some(place) = take_previous(&mut self.places, last) else {
                break;
            };
            last = place;
            let times = self.divide(place, diagonal)?;
            if !is_zero(times) {
                put(&mut self.values, place, Frac::whole(0))?;
                out.set(at(names, place)?, times)?;
                self.subtract(triangle, place, times)?;
            }
        }
        Some(())
    }
}
