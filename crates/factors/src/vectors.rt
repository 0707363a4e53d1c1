//! Sparse vectors.
use crate::access::at;
use crate::arithmetic::reduced;
use crate::columns::Entry;
use frac128::Frac;
use std::alloc::Global;

// Where the entry of a place is that has none.
const NOWHERE: u32 = u32::MAX;

/// A vector most of whose values are 0: its touched places have entries, so that clearing and walking it follow them.
#[derive(Drop)]
pub struct SparseVector {
    entries: Vec<Entry>,
    indices: Vec<u32>,
}

impl SparseVector {
    /// So many zeros.
    pub fn new(alloc: Global, len: usize) -> Option<SparseVector> {
        Some(SparseVector {
            entries: Vec::new(alloc),
            indices: vec![in alloc; NOWHERE; len].ok()?,
        })
    }

    /// The entries of the touched places, each once; a value may have become 0.
    pub fn entries(&self) -> &[Entry] {
        self.entries.as_slice()
    }

    /// The value at a place: 0 where it is untouched, and none where it is out of range.
    #[inline(always)]
    pub fn value(&self, place: u32) -> Option<Frac> {
        let index = at(&self.indices, place)?;
        match self.entries.get(index as usize) {
            Some(entry) => Some(entry.value),
            None => Some(Frac::whole(0)),
        }
    }

    /// Puts a value at a place.
    #[inline(always)]
    pub fn set(&mut self, place: u32, value: Frac) -> Option<()> {
        self.touched(place)?.value = value;
        Some(())
    }

    /// Takes so many times a factor off the value at a place.
    #[inline(always)]
    pub fn subtract(&mut self, place: u32, factor: Frac, times: Frac) -> Option<()> {
        let entry = self.touched(place)?;
        entry.value = reduced(entry.value, factor, times)?;
        Some(())
    }

    /// Takes so many times these entries off.
    pub fn subtract_all(&mut self, entries: &[Entry], times: Frac) -> Option<()> {
        for entry in entries {
            self.subtract(entry.place, entry.value, times)?;
        }
        Some(())
    }

    // The entry of a place, which is touched now.
    #[inline(always)]
    fn touched(&mut self, place: u32) -> Option<&mut Entry> {
        let index = self.indices.get_mut(place as usize)?;
        if *index == NOWHERE {
            *index = u32::try_from(self.entries.len()).ok()?;
            let value = Frac::whole(0);
            self.entries.push(Entry { place, value }).ok()?;
        }
        self.entries.get_mut(*index as usize)
    }

    /// Makes these entries all that are touched.
    pub fn assign(&mut self, entries: &[Entry]) -> Option<()> {
        self.clear();
        for entry in entries {
            self.set(entry.place, entry.value)?;
        }
        Some(())
    }

    /// Makes all values 0 and untouched.
    pub fn clear(&mut self) {
        for entry in self.entries.iter() {
            if let Some(index) = self.indices.get_mut(entry.place as usize) {
                *index = NOWHERE;
            }
        }
        self.entries.clear();
    }
}
