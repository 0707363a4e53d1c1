//! Kinds of bytes.
ghost use Rattle.std.specs.Prelude.{◌≡◌, ◌==◌};
ghost use Rattle.lane_scan.specs.Bytes.{is_blank, is_nonblank, is_allowed, is_foreign};

use crate::lanes::{Kind, lowest_bit};
use std::simd::prelude::*;

/// One byte.
pub struct Byte<const BYTE: u8>;

impl<const BYTE: u8> Kind for Byte<BYTE> {
    ghost kind = { λ byte. byte == BYTE };

    #[inline(always)]
    fn has(byte: u8) -> bool {
        byte == BYTE
    }

    #[inline(always)]
    fn count_before(bytes: &[u8], at: usize) -> usize {
        let lanes = u8x16::from_slice(&bytes[at..]);
        lowest_bit(lanes.simd_eq(u8x16::splat(BYTE)).to_bitmask())
    }
}

/// Whether the byte is a blank: 32, 9 or 13.
pub fn is_blank_byte(byte: u8) -> bool
    ensures { result ≡ is_blank byte }
{
    byte == b' ' || byte == b'\t' || byte == b'\r'
}

/// Blanks: 32, 9 and 13.
pub struct Blank;

impl Kind for Blank {
    ghost kind = { is_blank };

    #[inline(always)]
    fn has(byte: u8) -> bool {
        is_blank_byte(byte)
    }

    #[inline(always)]
    fn count_before(bytes: &[u8], at: usize) -> usize {
        let lanes = u8x16::from_slice(&bytes[at..]);
        let spaces = lanes.simd_eq(u8x16::splat(b' ')) | lanes.simd_eq(u8x16::splat(b'\t'));
        lowest_bit((spaces | lanes.simd_eq(u8x16::splat(b'\r'))).to_bitmask())
    }
}

/// All bytes but blanks.
pub struct Nonblank;

impl Kind for Nonblank {
    ghost kind = { is_nonblank };

    #[inline(always)]
    fn has(byte: u8) -> bool {
        !is_blank_byte(byte)
    }

    #[inline(always)]
    fn count_before(bytes: &[u8], at: usize) -> usize {
        let lanes = u8x16::from_slice(&bytes[at..]);
        let seen = lanes.simd_ne(u8x16::splat(b' ')) & lanes.simd_ne(u8x16::splat(b'\t'));
        lowest_bit((seen & lanes.simd_ne(u8x16::splat(b'\r'))).to_bitmask())
    }
}

/// The bytes that no line of a model may have: all but 9, 13 and 32 to 126, and 10, which ends a line.
pub struct Foreign;

// Whether a line of a model may have the byte, or the byte ends it.
fn is_allowed_byte(byte: u8) -> bool
    ensures { result ≡ is_allowed byte }
{
    byte == b'\t' || byte == b'\n' || byte == b'\r' || (b' ' <= byte && byte <= b'~')
}

impl Kind for Foreign {
    ghost kind = { is_foreign };

    #[inline(always)]
    fn has(byte: u8) -> bool {
        !is_allowed_byte(byte)
    }

    #[inline(always)]
    fn count_before(bytes: &[u8], at: usize) -> usize {
        let lanes = u8x16::from_slice(&bytes[at..]);
        let low = lanes.simd_lt(u8x16::splat(b' '));
        let spaced = lanes.simd_ne(u8x16::splat(b'\t')) & lanes.simd_ne(u8x16::splat(b'\r'));
        let inside = lanes.simd_ne(u8x16::splat(b'\n'));
        let high = lanes.simd_gt(u8x16::splat(b'~'));
        lowest_bit((low & spaced & inside | high).to_bitmask())
    }
}
