//! Words and numbers as parts of a line.

ghost use Rattle.std.specs.Prelude.{◌≡◌, ◌++◌, ◌∷◌, [], OnErr, OnOk, decimal};
ghost use Rattle.report_printer.specs.Evidence.{ended};

use itoa::Buffer;
use std::alloc::AllocError;

/// Appends a word and a blank.
pub(crate) fn push_word(word: &[u8], into: &mut Vec<u8>) -> Result<(), AllocError>
    ensures { OnOk result (into.new.items ≡ into.old.items ++ (word.now ++ 32 ∷ [])) }
{
    into.extend_from_slice(word)?;
    into.push(b' ')?;
    Ok(())
}

/// Appends the last word of a line, and what ends the line.
pub(crate) fn push_line(word: &[u8], into: &mut Vec<u8>) -> Result<(), AllocError>
    ensures { OnOk result (into.new.items ≡ into.old.items ++ ended word.now) }
{
    into.extend_from_slice(word)?;
    into.push(b'\n')?;
    Ok(())
}

/// Appends a count.
pub(crate) fn push_decimal(count: u64, into: &mut Vec<u8>) -> Result<(), AllocError>
    ensures { OnOk result (into.new.items ≡ into.old.items ++ decimal count) }
{
    let mut buffer = Buffer::new();
    into.extend_from_slice(buffer.format(count).as_bytes())
}

/// Appends lines that were printed apart, or nothing where memory is refused.
pub(crate) fn append(lines: &[u8], into: &mut Vec<u8>) -> Result<(), AllocError>
    ensures text { OnOk result (into.new.items ≡ into.old.items ++ lines.now) }
    ensures kept { OnErr result (into.new.items ≡ into.old.items) }
{
    into.extend_from_slice(lines)
}
