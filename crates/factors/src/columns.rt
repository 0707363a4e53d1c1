//! Columns of numbers.
use crate::access::put;
use crate::arithmetic::is_zero;
use frac128::Frac;
use std::alloc::Global;

/// A value at a place.
#[derive(Clone, Copy)]
pub struct Entry {
    pub place: u32,
    pub value: Frac,
}

/// Columns of numbers: of each its entries, at each place one at most, none of which is 0.
#[derive(Drop)]
pub struct Columns {
    starts: Vec<u32>,
    pub(crate) entries: Vec<Entry>,
}

impl Columns {
    /// No columns.
    pub fn new(alloc: Global) -> Option<Columns> {
        Some(Columns {
            starts: vec![in alloc; 0u32].ok()?,
            entries: Vec::new(alloc),
        })
    }

    /// Puts an entry to the column that is being made, where its value is not 0.
    #[inline(always)]
    pub fn push(&mut self, place: u32, value: Frac) -> Option<()> {
        if is_zero(value) {
            return Some(());
        }
        self.entries.push(Entry { place, value }).ok()
    }

    /// Ends the column that is being made.
    pub fn end(&mut self) -> Option<()> {
        let end = u32::try_from(self.entries.len()).ok()?;
        self.starts.push(end).ok()
    }

    /// Puts these entries as a column.
    pub(crate) fn push_column(&mut self, entries: &[Entry]) -> Option<()> {
        self.entries.extend_from_slice(entries).ok()?;
        self.end()
    }

    /// How many there are.
    pub fn count(&self) -> usize {
        self.starts.len().saturating_sub(1)
    }

    /// How many entries each has.
    pub fn lengths(&self, alloc: Global) -> Option<Vec<u64>> {
        let mut lengths = Vec::new(alloc);
        for index in 0..u32::try_from(self.count()).ok()? {
            lengths.push(self.column(index)?.len() as u64).ok()?;
        }
        Some(lengths)
    }

    /// The entries of a column.
    #[inline(always)]
    pub fn column(&self, index: u32) -> Option<&[Entry]> {
        let [start, end, ..] = self.starts.as_slice().get(index as usize..)? else {
            return None;
        };
        self.entries.as_slice().get(*start as usize..*end as usize)
    }

    /// Some of them, in this order.
    pub(crate) fn chosen(&self, alloc: Global, indices: &[u32]) -> Option<Columns> {
        let mut chosen = Columns::new(alloc)?;
        for index in indices {
            chosen.push_column(self.column(*index)?)?;
        }
        Some(chosen)
    }

    /// The rows as columns, places ascending, where there are so many rows and each column is ended.
    pub fn transposed(&self, alloc: Global, rows: usize) -> Option<Columns> {
        let count = u32::try_from(self.count()).ok()?;
        let nothing = Entry {
            place: 0,
            value: Frac::whole(0),
        };
        let starts = self.starts_of_rows(alloc, rows)?;
        let entries = vec![in alloc; nothing; self.entries.len()].ok()?;
        let mut transposed = Columns { starts, entries };
        for place in 0..count {
            transposed.put_across(place, self.column(place)?)?;
        }
        transposed.starts.pop();
        Some(transposed)
    }

    // Puts each entry of a column at the end of its row, which is then one further on. It stands one further on in the starts.
    fn put_across(&mut self, place: u32, entries: &[Entry]) -> Option<()> {
        for entry in entries {
            let end = self.starts.get_mut(entry.place as usize + 1)?;
            let value = entry.value;
            put(&mut self.entries, *end, Entry { place, value })?;
            *end = end.saturating_add(1);
        }
        Some(())
    }

    // Where each row starts, one further on than in columns: so what counts up to its end leaves the starts.
    fn starts_of_rows(&self, alloc: Global, rows: usize) -> Option<Vec<u32>> {
        let mut starts = vec![in alloc; 0u32; rows.saturating_add(2)].ok()?;
        for entry in self.entries.iter() {
            if let Some(count) = starts.get_mut(entry.place as usize + 2) {
                *count = count.saturating_add(1);
            }
        }
        let mut sum: u32 = 0;
        for start in starts.iter_mut() {
            sum = sum.saturating_add(*start);
            *start = sum;
        }
        Some(starts)
    }
}
