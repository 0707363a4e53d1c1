//! Sets of places below a length: a bit for each, 64 a word.
use crate::access::at;

/// Puts a place in.
#[inline(always)]
pub(crate) fn insert(words: &mut [u64], place: u32) -> Option<()> {
    *words.get_mut(place as usize / 64)? |= 1 << (place % 64);
    Some(())
}

/// The least place in the set from one on.
#[inline(always)]
pub(crate) fn next(words: &[u64], place: u32) -> Option<u32> {
    let mut mask = u64::MAX << (place % 64);
    for index in place / 64..u32::MAX {
        let word = at(words, index)? & mask;
        if word != 0 {
            return Some((index << 6) | word.trailing_zeros());
        }
        mask = u64::MAX;
    }
    None
}

/// Takes out the greatest place in the set up to one, and gives it.
#[inline(always)]
pub(crate) fn take_previous(words: &mut [u64], place: u32) -> Option<u32> {
    let mut mask = u64::MAX >> (63 - place % 64);
    for index in (0..place / 64 + 1).rev() {
        let word = words.get_mut(index as usize)?;
        let kept = *word & mask;
        if kept != 0 {
            let bit = 63u32.saturating_sub(kept.leading_zeros());
            *word &= !(1 << (bit % 64));
            return Some((index << 6) | bit);
        }
        mask = u64::MAX;
    }
    None
}
