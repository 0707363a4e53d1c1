//! Lines, and places in a text.
ghost use Rattle.std.specs.Prelude.{◌≡◌, ◌≤◌, ◌+◌, min, length, MatchOption};
ghost use Rattle.text_fields.specs.Lines.{IsLineAt, text_of};

use lane_scan::next_end;

/// The most bytes that a line may have, its end not counted.
pub const MOST_BYTES: usize = 65_536;

/// A part of a text: the bytes from `from` on and before `to`.
#[derive(Clone, Copy)]
pub struct Span {
    pub from: usize,
    pub to: usize,
}

impl Span {
    /// The bytes of the span.
    pub fn text(self, bytes: &[u8]) -> &[u8]
        requires in_order { self.from ≤ self.to }
        requires within { self.to ≤ length bytes.now }
        ensures { result.now ≡ text_of bytes.now self }
    {
        &bytes[self.from..self.to]
    }
}

/// A line of a text, without its end: its number, from 1, and where its bytes stand.
#[derive(Clone, Copy)]
pub struct Line {
    pub number: u32,
    pub from: usize,
    pub to: usize,
}

/// The line that begins at `at`, with the number that is given. `None` exactly where the text ends there.
///
/// A line ends with byte 10 or with the text, and none follows a last byte 10.
pub fn next_line(bytes: &[u8], at: usize, number: u32) -> Option<Line>
    requires { at ≤ length bytes.now }
    ensures { MatchOption result (at ≡ length bytes.now) (IsLineAt bytes.now at number) }
{
    if at == bytes.len() {
        return None;
    }
    Some(Line {
        number,
        from: at,
        to: next_end(bytes, at),
    })
}

/// Where the next line begins, or the length where the text ends with this one.
pub fn after_line(bytes: &[u8], line: &Line) -> usize
    requires { line.now.to ≤ length bytes.now }
    ensures { result ≡ min (line.now.to + 1) (length bytes.now) }
{
    if line.to < bytes.len() {
        return line.to + 1;
    }
    line.to
}
