//! Sets of bits, 64 a word.
ghost use Rattle.std.specs.Prelude.{◌≡◌, ◌≤◌, ◌<◌, ◌+◌, ◌*◌, ◌^◌, ◌==◌, ◌↔◌, if◌then◌else◌, ℕ, IsTrue, true, false, length, sum_by, count_ones};
ghost use Rattle.lane_scan.specs.Bits.{IsSubset, Meets, SomeShared, ShareNone, bit_of, IsFirstBit};

use std::simd::prelude::*;

/// How many bits a word has.
const BITS: usize = 64;

/// How many words are looked at together.
const WORDS: usize = 4;

/// Whether each bit that is set in a word of `a` is set in the same word of `b`.
pub fn subset(a: &[u64], b: &[u64]) -> bool
    requires { length a.now ≡ length b.now }
    ensures { IsTrue result ↔ IsSubset a.now b.now }
{
    !is_shared(a, b, u64::MAX)
}

/// Whether some bit is set in a word of `a` and in the same word of `b`.
pub fn meets(a: &[u64], b: &[u64]) -> bool
    requires { length a.now ≡ length b.now }
    ensures { IsTrue result ↔ Meets a.now b.now }
{
    is_shared(a, b, 0)
}

// Whether a word of `a` has a bit in common with that of `b`, in which the bits of `turn` are turned round.
fn is_shared(a: &[u64], b: &[u64], turn: u64) -> bool
    requires { length a.now ≡ length b.now }
    ensures some { result ≡ true → SomeShared a.now b.now turn }
    ensures none { result ≡ false → ShareNone a.now b.now turn 0 (length a.now) }
{
    let mut at = 0;
    while WORDS <= a.len() - at && !is_shared_in_four(a, b, turn, at) {
        at += WORDS;
    }
    for i in at..a.len() {
        if a[i] & (b[i] ^ turn) != 0 {
            return true;
        }
    }
    false
}

// The same of the four words from a place on.
#[inline(always)]
fn is_shared_in_four(a: &[u64], b: &[u64], turn: u64, at: usize) -> bool
    requires a { at + 4 ≤ length a.now }
    requires b { at + 4 ≤ length b.now }
    ensures { result ≡ false → ShareNone a.now b.now turn at (at + 4) }
{
    let turned = u64x4::from_slice(&b[at..]) ^ u64x4::splat(turn);
    let shared = u64x4::from_slice(&a[at..]) & turned;
    shared.simd_ne(u64x4::splat(0)).to_bitmask() != 0
}

/// How many bits are set in all words together.
pub fn count(a: &[u64]) -> u64
    requires { length a.now < 2 ^ 32 }
    ensures { result ≡ sum_by count_ones a.now }
{
    let mut total: u64 = 0;
    for word in a {
        total += u64::from(word.count_ones());
    }
    total
}

/// Whether the bit at a place is set.
#[inline]
pub fn has_bit(words: &[u64], place: usize) -> bool
    requires { place < 64 * length words.now }
    ensures { result ≡ bit_of words.now place }
{
    words[place / BITS] >> (place % BITS) & 1 == 1
}

/// Sets the bit at a place, or clears it.
#[inline]
pub fn put_bit(words: &mut [u64], place: usize, bit: bool)
    requires { place < 64 * length words.old }
    ensures each { length words.new ≡ length words.old }
    ensures bits { (k : ℕ) → bit_of words.new k ≡ (if k == place then bit else bit_of words.old k) }
{
    let one = 1 << (place % BITS);
    if bit {
        words[place / BITS] |= one;
    } else {
        words[place / BITS] &= !one;
    }
}

/// The place of the first bit that is set, from `from` on, or past all words where none is.
pub fn first_bit(words: &[u64], from: usize) -> usize
    requires few { length words.now < 2 ^ 32 }
    requires within { from ≤ 64 * length words.now }
    ensures { IsFirstBit words.now from result }
{
    let end = BITS * words.len();
    let mut at = from;
    while at < end {
        let rest = words[at / BITS] >> (at % BITS);
        if rest != 0 {
            return at + rest.trailing_zeros() as usize;
        }
        at = BITS * (at / BITS + 1);
    }
    end
}
