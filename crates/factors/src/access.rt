//! Elements of slices by places, and the first ones of an order.

/// The element at a place, where it is in range.
#[inline(always)]
pub fn at<T: Copy>(items: &[T], place: u32) -> Option<T> {
    items.get(place as usize).copied()
}

/// Puts an element at a place, where it is in range.
#[inline(always)]
pub fn put<T: Copy>(items: &mut [T], place: u32, item: T) -> Option<()> {
    *items.get_mut(place as usize)? = item;
    Some(())
}

/// Keeps a candidate among so many first ones, which are in order.
#[inline(always)]
pub fn keep<T: Ord + Copy>(first: &mut Vec<T>, candidate: T, most: usize) -> Option<()> {
    if first.len() >= most && first.last().is_some_and(|last| *last < candidate) {
        return Some(());
    }
    first.push(candidate).ok()?;
    first.sort_unstable();
    first.truncate(most);
    Some(())
}
