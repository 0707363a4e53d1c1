//! Scans of bytes: each gives the first place of a kind of byte.
ghost use Rattle.std.specs.Prelude.{◌≡◌, ◌≤◌, ◌+◌, length};
ghost use Rattle.lane_scan.specs.Bytes.{end_from, nonblank_within, foreign_within};

use crate::kinds::{Byte, Foreign, Nonblank};
use crate::lanes::{first_by_one, first_of};

/// How many bytes are looked at one by one before sixteen are looked at together: most blanks stand alone.
const FEW: usize = 4;

/// The first place from `from` on where byte 10 stands, or the length where there is none.
pub fn next_end(bytes: &[u8], from: usize) -> usize
    requires { from ≤ length bytes.now }
    ensures place { result ≡ end_from bytes.now from }
    ensures low { from ≤ result }
    ensures high { result ≤ length bytes.now }
{
    first_of::<Byte<b'\n'>>(bytes, from, bytes.len())
}

/// The first place from `from` on whose byte is no blank (32, 9 or 13), or `to` where there is none before it.
pub fn next_nonblank(bytes: &[u8], from: usize, to: usize) -> usize
    requires in_order { from ≤ to }
    requires within { to ≤ length bytes.now }
    ensures place { result ≡ nonblank_within bytes.now from to }
    ensures low { from ≤ result }
    ensures high { result ≤ to }
{
    let near = to.min(from + FEW);
    let first = first_by_one::<Nonblank>(bytes, from, near);
    if first < near {
        return first;
    }
    first_of::<Nonblank>(bytes, near, to)
}

/// The first place from `from` on whose byte is none of 9, 10, 13 and 32 to 126, or `to` where there is none before it.
pub fn first_foreign(bytes: &[u8], from: usize, to: usize) -> usize
    requires in_order { from ≤ to }
    requires within { to ≤ length bytes.now }
    ensures place { result ≡ foreign_within bytes.now from to }
    ensures low { from ≤ result }
    ensures high { result ≤ to }
{
    first_of::<Foreign>(bytes, from, to)
}
