//! The pieces of a line in the LP format: words, numbers and marks.
ghost use Rattle.std.specs.Prelude.{◌≡◌, ◌≤◌, ◌<◌, not, length, slice_index};
ghost use Rattle.std.specs.List.{prefix_len};
ghost use Rattle.frac128.specs.Literal.{is_dec};
ghost use Rattle.text_fields.specs.Pieces.{is_letter, is_name_sign, is_word_start, is_word_byte, point_len, sign_len, exponent_len, number_len, relation_len, mark_of, piece_at, Is};

use lane_scan::{Kind, first_of, lowest_bit};
use std::simd::prelude::*;

/// A kind of token.
#[derive(Clone, Copy, PartialEq, Eq)]
pub enum TokenKind {
    /// A letter or one of ``! " # $ % & ' ( ) , / ; ? @ _ ` { | } ~``, and then these, digits and points.
    Word,
    /// A decimal literal without a sign.
    Number,
    /// `+` or `-`.
    Sign,
    /// `<`, `<=`, `=<`, `>`, `>=`, `=>` or `=`.
    Relation,
    /// `:`.
    Colon,
    /// `[`, `]`, `*`, `^` or `->`: what is not read.
    Refused,
    /// A point that begins no number.
    Loose,
}

// Whether the byte is a letter.
fn is_letter_byte(byte: u8) -> bool
    ensures { result ≡ is_letter byte }
{
    (b'A' <= byte && byte <= b'Z') || (b'a' <= byte && byte <= b'z')
}

// Whether the byte is no letter, and yet a word may begin with it.
fn is_name_sign_byte(byte: u8) -> bool
    ensures { result ≡ is_name_sign byte }
{
    match byte {
        b'!'..=b')' | b',' | b'/' | b';' | b'?' | b'@' | b'_' | b'`' | b'{'..=b'~' => true,
        _ => false,
    }
}

// Whether a word may begin with the byte.
#[tactic(auto, unfolding(crate::specs::Pieces::is_word_start))]
fn may_begin_word(byte: u8) -> bool
    ensures { result ≡ is_word_start byte }
{
    is_letter_byte(byte) || is_name_sign_byte(byte)
}

// Whether the byte is a decimal digit.
fn is_digit(byte: u8) -> bool
    ensures { result ≡ is_dec byte }
{
    48 <= byte && byte <= 57
}

// Whether a word may go on with the byte.
#[tactic(auto, unfolding(crate::specs::Pieces::is_word_byte))]
fn may_go_on(byte: u8) -> bool
    ensures { result ≡ is_word_byte byte }
{
    may_begin_word(byte) || is_digit(byte) || byte == b'.'
}

// The bytes with which no word goes on.
struct WordEnd;

impl Kind for WordEnd {
    ghost kind = { λ byte. not (is_word_byte byte) };

    #[inline(always)]
    fn has(byte: u8) -> bool {
        !may_go_on(byte)
    }

    #[inline(always)]
    fn count_before(bytes: &[u8], at: usize) -> usize {
        let lanes = u8x16::from_slice(&bytes[at..]);
        // Before `!` or after `~`.
        let hidden = (lanes - u8x16::splat(b'!')).simd_gt(u8x16::splat(93));
        // `*` and `+`, and `-`.
        let pair = (lanes | u8x16::splat(1)).simd_eq(u8x16::splat(b'+'));
        let signs = pair | lanes.simd_eq(u8x16::splat(b'-'));
        // `<`, `=` and `>`, and `:`.
        let compared = (lanes - u8x16::splat(b'<')).simd_lt(u8x16::splat(3));
        let relations = compared | lanes.simd_eq(u8x16::splat(b':'));
        // `[`, `\`, `]` and `^`.
        let brackets = (lanes - u8x16::splat(b'[')).simd_lt(u8x16::splat(4));
        lowest_bit((hidden | signs | relations | brackets).to_bitmask())
    }
}

// How many bytes of a word stand first.
fn word_bytes(text: &[u8]) -> usize
    ensures len { result ≡ prefix_len is_word_byte text.now }
    ensures within { result ≤ length text.now }
{
    first_of::<WordEnd>(text, 0, text.len())
}

// How many digits stand first.
fn digits(text: &[u8]) -> usize
    ensures len { result ≡ prefix_len is_dec text.now }
    ensures within { result ≤ length text.now }
{
    for (i, byte) in text.iter().enumerate() {
        if !is_digit(*byte) {
            return i;
        }
    }
    text.len()
}

// The length of a point and the digits after it.
fn point_bytes(text: &[u8]) -> usize
    ensures len { result ≡ point_len text.now }
    ensures within { result ≤ length text.now }
{
    let Some((point, rest)) = text.split_first() else {
        return 0;
    };
    if *point == b'.' {
        return 1 + digits(rest);
    }
    0
}

// The length of a sign.
fn sign_bytes(text: &[u8]) -> usize
    ensures len { result ≡ sign_len text.now }
    ensures within { result ≤ length text.now }
{
    let Some((sign, _)) = text.split_first() else {
        return 0;
    };
    if *sign == b'+' || *sign == b'-' {
        return 1;
    }
    0
}

// The length of an exponent with at least one digit.
fn exponent_bytes(text: &[u8]) -> usize
    ensures len { result ≡ exponent_len text.now }
    ensures within { result ≤ length text.now }
{
    let Some((mark, rest)) = text.split_first() else {
        return 0;
    };
    if *mark != b'e' && *mark != b'E' {
        return 0;
    }
    let sign = sign_bytes(rest);
    let digits = digits(&rest[sign..]);
    if digits == 0 {
        return 0;
    }
    1 + sign + digits
}

// The length of the number that stands first, without a sign, or 0.
fn number_bytes(text: &[u8]) -> usize
    ensures len { result ≡ number_len text.now }
    ensures within { result ≤ length text.now }
{
    let whole = digits(text);
    let part = point_bytes(&text[whole..]);
    if whole == 0 && part <= 1 {
        return 0;
    }
    whole + (part + exponent_bytes(&text[whole..][part..]))
}

// The byte at a place, or 0 past the end.
fn byte_at(text: &[u8], place: usize) -> u8
    ensures byte { result ≡ slice_index text.now place }
    ensures within { 0 < result → place < length text.now }
{
    if place < text.len() { text[place] } else { 0 }
}

// The length of the relation that two bytes begin with.
fn relation_bytes(first: u8, next: u8) -> usize
    ensures len { result ≡ relation_len first next }
    ensures some { 0 < result }
    ensures few { result ≤ 2 }
    ensures second { 1 < result → 0 < next }
{
    let ends_equal = next == b'=' && (first == b'<' || first == b'>');
    let begins_equal = first == b'=' && (next == b'<' || next == b'>');
    if ends_equal || begins_equal { 2 } else { 1 }
}

// What two bytes begin with where the first begins no word and no number, and its length.
fn mark(first: u8, next: u8) -> (TokenKind, usize)
    ensures piece { Is result (mark_of first next) }
    ensures some { 0 < result.1 }
    ensures few { result.1 ≤ 2 }
    ensures second { 1 < result.1 → 0 < next }
{
    match first {
        b'-' => {
            if next == b'>' {
                (TokenKind::Refused, 2)
            } else {
                (TokenKind::Sign, 1)
            }
        }
        b'+' => (TokenKind::Sign, 1),
        b'<' | b'=' | b'>' => (TokenKind::Relation, relation_bytes(first, next)),
        b':' => (TokenKind::Colon, 1),
        b'.' => (TokenKind::Loose, 1),
        _ => (TokenKind::Refused, 1),
    }
}

/// What stands first, and its length.
pub fn piece(text: &[u8]) -> (TokenKind, usize)
    requires { 0 < length text.now }
    ensures piece { Is result (piece_at text.now) }
    ensures within { result.1 ≤ length text.now }
    ensures some { 0 < result.1 }
{
    if may_begin_word(text[0]) {
        return (TokenKind::Word, word_bytes(text));
    }
    let number = number_bytes(text);
    if number > 0 {
        return (TokenKind::Number, number);
    }
    mark(text[0], byte_at(text, 1))
}
