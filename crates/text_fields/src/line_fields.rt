//! The fields of a line.
ghost use Rattle.std.specs.Prelude.{◌≡◌, ◌≤◌, Option, length, MatchResult};
ghost use Rattle.std.specs.Str.{bytes_eq};
ghost use Rattle.text_fields.specs.Lines.{line_text};
ghost use Rattle.text_fields.specs.Fields.{field_fault, AddsFields, StopsFields};

use crate::spans::MOST_BYTES;
use crate::{FieldStop, Line, Span, TextFault, TextKind};
use lane_scan::{Blank, first_foreign, first_of, next_nonblank};

// What is wrong with a line, before its fields are looked at.
fn fault_in(bytes: &[u8], line: &Line) -> Option<TextKind>
    requires in_order { line.now.from ≤ line.now.to }
    requires within { line.now.to ≤ length bytes.now }
    ensures { result ≡ field_fault (line_text bytes.now line.now) }
{
    if line.to - line.from > MOST_BYTES {
        return Some(TextKind::LongLine);
    }
    if line.from == line.to || bytes[line.from] == b'*' {
        return None;
    }
    if first_foreign(bytes, line.from, line.to) < line.to {
        return Some(TextKind::ForeignByte);
    }
    None
}

/// Appends the fields of a line in order: what stands between blanks (32, 9 and 13).
///
/// Refuses, with nothing appended, a line of more than 65,536 bytes as `LongLine`, and then one with a byte that is none of 9,
/// 10, 13 and 32 to 126 as `ForeignByte`, unless the line begins with `*` and so is a comment. Otherwise it can only stop
/// for want of memory, with some of the first fields appended.
pub fn fields(bytes: &[u8], line: &Line, into: &mut Vec<Span>) -> Result<(), FieldStop>
    requires in_order { line.now.from ≤ line.now.to }
    requires within { line.now.to ≤ length bytes.now }
    ensures { MatchResult result
        (λ _. AddsFields bytes.now line.now into.old.items into.new.items)
        (StopsFields bytes.now line.now into.old.items into.new.items) }
{
    if let Some(kind) = fault_in(bytes, line) {
        return Err(FieldStop::Text(TextFault {
            line: line.number,
            kind,
        }));
    }
    let mut at = next_nonblank(bytes, line.from, line.to);
    while at < line.to {
        let end = first_of::<Blank>(bytes, at, line.to);
        into.push(Span { from: at, to: end })?;
        at = next_nonblank(bytes, end, line.to);
    }
    Ok(())
}

/// Whether a word is this one.
pub fn is_word(word: &[u8], other: &[u8]) -> bool
    ensures { result ≡ bytes_eq word.now other.now }
{
    word == other
}
