//! The first place of a kind of byte, sixteen bytes at a time.
ghost use Rattle.std.specs.Prelude.{◌≡◌, ◌≤◌, ◌+◌, ◌==◌, if◌then◌else◌, ℕ, Bool, length, take, drop};
ghost use Rattle.std.specs.List.{position_or_len, slice_range};
ghost use Rattle.lane_scan.specs.Lanes.{IsFirst, lowest_or};

/// How many bytes are looked at together.
pub const LANES: usize = 16;

/// A kind of byte that a scan looks for.
pub trait Kind {
    /// The bytes of the kind.
    ghost kind: { ℕ → Bool };

    /// Whether a byte is of the kind.
    fn has(byte: u8) -> bool
        ensures { result ≡ kind byte };

    /// How many of the 16 bytes from a place on stand before the first of the kind.
    fn count_before(bytes: &[u8], at: usize) -> usize
        requires { at + 16 ≤ length bytes.now }
        ensures { result ≡ position_or_len kind (take 16 (drop at bytes.now)) };
}

/// The place of the lowest bit that is set, or 16 where none is.
#[inline(always)]
pub fn lowest_bit(mask: u64) -> usize
    ensures { result ≡ lowest_or 16 mask }
{
    if mask == 0 {
        LANES
    } else {
        mask.trailing_zeros() as usize
    }
}

/// The first place from `from` on of a kind, or `to`, byte by byte.
#[inline(always)]
pub fn first_by_one<K: Kind>(bytes: &[u8], from: usize, to: usize) -> usize
    requires in_order { from ≤ to }
    requires within { to ≤ length bytes.now }
    ensures { IsFirst K.kind bytes.now from to result }
{
    for at in from..to {
        if K::has(bytes[at]) {
            return at;
        }
    }
    to
}

// The same, sixteen bytes at a time as long as the text has so many; those after `to` count for nothing.
#[inline(always)]
fn first_by_lanes<K: Kind>(bytes: &[u8], from: usize, to: usize) -> usize
    requires in_order { from ≤ to }
    requires within { to ≤ length bytes.now }
    ensures { IsFirst K.kind bytes.now from to result }
{
    let mut at = from;
    while LANES <= bytes.len() - at {
        let count = K::count_before(bytes, at);
        if to - at <= count {
            return to;
        }
        if count < LANES {
            return at + count;
        }
        at += LANES;
    }
    first_by_one::<K>(bytes, at, to)
}

/// The first place from `from` on whose byte is of a kind, or `to` where there is none before it.
#[inline]
pub fn first_of<K: Kind>(bytes: &[u8], from: usize, to: usize) -> usize
    requires in_order { from ≤ to }
    requires within { to ≤ length bytes.now }
    ensures place { result ≡ from + position_or_len K.kind (slice_range bytes.now from to) }
    ensures first { IsFirst K.kind bytes.now from to result }
    ensures low { from ≤ result }
    ensures high { result ≤ to }
{
    first_by_lanes::<K>(bytes, from, to)
}
