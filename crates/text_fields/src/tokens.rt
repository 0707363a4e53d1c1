//! The tokens of the LP format.
ghost use Rattle.std.specs.Prelude.{◌≡◌, ◌≤◌, ◌<◌, ◌+◌, ◌^◌, Option, Some, None, MatchResult, MatchOption, length, drop, true, false};
ghost use Rattle.std.specs.List.{before_first, after_first};
ghost use Rattle.lane_scan.specs.Bytes.{is_end};
ghost use Rattle.text_fields.specs.Tokens.{stops_look, token_fault, only_blanks, is_line_start, rest_scan, scan_lines, scan_at, IsNext, IsFaultOf, IsTokenAt};
ghost use Rattle.text_fields.specs.Lines.{lines_of};

use crate::pieces::piece;
use crate::spans::MOST_BYTES;
use crate::{Span, TextFault, TextKind, TokenKind};
use lane_scan::{Byte, Kind, first_of, is_blank_byte, lowest_bit, next_end, next_nonblank};
use std::simd::prelude::*;

/// A place in a text, and the number of its line, from 1.
#[derive(Clone, Copy)]
pub struct Place {
    pub at: usize,
    pub line: u32,
}

/// A token: its kind, where its bytes stand, its line, and whether it is the first of its line.
#[derive(Clone, Copy)]
pub struct Token {
    pub kind: TokenKind,
    pub span: Span,
    pub line: u32,
    pub first: bool,
}

// The bytes at which a look at a line stops: its end, the begin of a comment, and those that no line may have.
struct Stop;

impl Kind for Stop {
    ghost kind = { stops_look };

    #[inline(always)]
    fn has(byte: u8) -> bool {
        byte == b'\\' || !(byte == b'\t' || byte == b'\r' || (b' ' <= byte && byte <= b'~'))
    }

    #[inline(always)]
    fn count_before(bytes: &[u8], at: usize) -> usize {
        let lanes = u8x16::from_slice(&bytes[at..]);
        // Before the space or after `~`.
        let hidden = (lanes - u8x16::splat(b' ')).simd_gt(u8x16::splat(94));
        let inside = lanes.simd_ne(u8x16::splat(b'\t')) & lanes.simd_ne(u8x16::splat(b'\r'));
        let comment = lanes.simd_eq(u8x16::splat(b'\\'));
        lowest_bit((hidden & inside | comment).to_bitmask())
    }
}

// What is wrong with the line that begins at a place.
fn fault_from(bytes: &[u8], at: usize) -> Option<TextKind>
    requires { at ≤ length bytes.now }
    ensures { result ≡ token_fault (before_first is_end (drop at bytes.now)) }
{
    let stop = first_of::<Stop>(bytes, at, bytes.len());
    let end = first_of::<Byte<b'\n'>>(bytes, stop, bytes.len());
    if end - at > MOST_BYTES {
        return Some(TextKind::LongLine);
    }
    if stop < end && bytes[stop] != b'\\' {
        return Some(TextKind::ForeignByte);
    }
    None
}

// Whether a line begins at a place.
fn starts_line(bytes: &[u8], at: usize) -> bool
    requires { at ≤ length bytes.now }
    ensures { result ≡ is_line_start bytes.now at }
{
    at == 0 || bytes[at - 1] == b'\n'
}

// Whether only blanks stand between the begin of the line and a place.
fn has_only_blanks(bytes: &[u8], at: usize) -> bool
    requires { at ≤ length bytes.now }
    ensures { result ≡ only_blanks bytes.now at }
{
    let mut place = at;
    while place > 0 {
        let byte = bytes[place - 1];
        if byte == b'\n' {
            return true;
        }
        if !is_blank_byte(byte) {
            return false;
        }
        place -= 1;
    }
    true
}

// The next token in the rest of a line, and the place after it.
fn token_in_line(bytes: &[u8], place: Place, first: bool) -> Option<(Token, Place)>
    requires within { place.at ≤ length bytes.now }
    requires few { place.line ≤ place.at + 1 }
    ensures { MatchOption result
        (rest_scan first place.line (drop place.at bytes.now) ≡ scan_lines (place.line + 1) (lines_of (after_first is_end (drop place.at bytes.now))))
        (λ found. IsTokenAt bytes.now (rest_scan first place.line (drop place.at bytes.now)) place found.0 found.1) }
{
    let from = next_nonblank(bytes, place.at, bytes.len());
    if from == bytes.len() {
        return None;
    }
    if bytes[from] == b'\n' || bytes[from] == b'\\' {
        return None;
    }
    let (kind, len) = piece(&bytes[from..]);
    let span = Span {
        from,
        to: from + len,
    };
    let line = place.line;
    let token = Token {
        kind,
        span,
        line,
        first,
    };
    Some((token, Place { at: span.to, line }))
}

// Where the line after that of a place begins, or the length.
fn next_begin(bytes: &[u8], place: Place) -> Place
    requires inside { place.at < length bytes.now }
    requires few { place.line ≤ place.at + 1 }
    requires short { length bytes.now < 2 ^ 31 }
    ensures after { drop result.at bytes.now ≡ after_first is_end (drop place.at bytes.now) }
    ensures line { result.line ≡ place.line + 1 }
    ensures further { place.at < result.at }
    ensures within { result.at ≤ length bytes.now }
{
    let end = next_end(bytes, place.at);
    let line = place.line + 1;
    if end == bytes.len() {
        return Place { at: end, line };
    }
    Place { at: end + 1, line }
}

// The first token of whole lines, the first of which begins at a place, or the fault of a line before it.
fn token_from_line(bytes: &[u8], place: Place) -> Result<Option<(Token, Place)>, TextFault>
    requires within { place.at ≤ length bytes.now }
    requires few { place.line ≤ place.at + 1 }
    requires short { length bytes.now < 2 ^ 31 }
    ensures { MatchResult result
        (IsNext bytes.now (scan_lines place.line (lines_of (drop place.at bytes.now))) place)
        (IsFaultOf (scan_lines place.line (lines_of (drop place.at bytes.now)))) }
{
    let mut begin = place;
    while begin.at < bytes.len() {
        if let Some(kind) = fault_from(bytes, begin.at) {
            return Err(TextFault {
                line: begin.line,
                kind,
            });
        }
        if let Some(found) = token_in_line(bytes, begin, true) {
            return Ok(Some(found));
        }
        begin = next_begin(bytes, begin);
    }
    Ok(None)
}

/// The next token of the LP format from a place on, and the place where it ends; `None` exactly where no token is left.
///
/// The faults of a line are met where the line is gone into from its begin: `LongLine` for one of more than 65,536 bytes, and
/// then `ForeignByte` for a byte before a comment that is none of 9, 10, 13 and 32 to 126. A comment begins with `\` and ends with
/// its line. A token is the first of its line where only blanks stand before it.
pub fn next_token(bytes: &[u8], place: Place) -> Result<Option<(Token, Place)>, TextFault>
    requires within { place.at ≤ length bytes.now }
    requires few { place.line ≤ place.at + 1 }
    requires short { length bytes.now < 2 ^ 31 }
    ensures { MatchResult result
        (IsNext bytes.now (scan_at bytes.now place.at place.line) place)
        (IsFaultOf (scan_at bytes.now place.at place.line)) }
{
    if starts_line(bytes, place.at) {
        return token_from_line(bytes, place);
    }
    let first = has_only_blanks(bytes, place.at);
    if let Some(found) = token_in_line(bytes, place, first) {
        return Ok(Some(found));
    }
    if place.at == bytes.len() {
        return Ok(None);
    }
    token_from_line(bytes, next_begin(bytes, place))
}
