//! The pieces of a page, and how they are written.
ghost use Rattle.std.specs.Prelude.{◌≡◌, ◌++◌, OnOk, decimal, map};
ghost use Rattle.std.specs.Fmt.{signed_decimal};
ghost use Rattle.report_page.specs.Escaping.{escaped_byte, escaped, EscapingLaw};
ghost use Rattle.report_page.specs.Pieces.{Place, piece_shown, piece_bytes, behind_pieces, IsClosed, IsMarkedUp, MarkupLaw};

use frac128::Frac;
use itoa::Buffer;
use std::alloc::AllocError;

/// A piece of a page: fixed words and markup, a text of the model's, which is escaped, or a number.
#[derive(Clone, Copy)]
pub enum Piece<'a> {
    Fixed(&'static str),
    Text(&'a [u8]),
    Number(Frac),
    Whole(i128),
    Count(u64),
}

// Appends a byte, escaped.
fn escape_byte(byte: u8, into: &mut Vec<u8>) -> Result<(), AllocError>
    ensures { OnOk result (into.new.items ≡ into.old.items ++ escaped_byte byte) }
{
    match byte {
        b'&' => into.extend_from_slice(b"&amp;"),
        b'<' => into.extend_from_slice(b"&lt;"),
        b'>' => into.extend_from_slice(b"&gt;"),
        b'"' => into.extend_from_slice(b"&quot;"),
        b'\'' => into.extend_from_slice(b"&#39;"),
        _ => {
            into.push(byte)?;
            Ok(())
        }
    }
}

/// Appends a text, escaped.
pub fn escape(text: &[u8], into: &mut Vec<u8>) -> Result<(), AllocError>
    ensures { OnOk result (into.new.items ≡ into.old.items ++ escaped text.now) }
{
    for byte in text {
        escape_byte(*byte, into)?;
    }
    Ok(())
}

// Appends a count.
fn write_count(count: u64, into: &mut Vec<u8>) -> Result<(), AllocError>
    ensures { OnOk result (into.new.items ≡ into.old.items ++ decimal count) }
{
    let mut buffer = Buffer::new();
    into.extend_from_slice(buffer.format(count).as_bytes())
}

// Appends a whole number.
fn write_whole(number: i128, into: &mut Vec<u8>) -> Result<(), AllocError>
    ensures { OnOk result (into.new.items ≡ into.old.items ++ signed_decimal number) }
{
    let mut buffer = Buffer::new();
    into.extend_from_slice(buffer.format(number).as_bytes())
}

// Appends a piece.
fn write_piece(piece: &Piece<'_>, into: &mut Vec<u8>) -> Result<(), AllocError>
    ensures { OnOk result (into.new.items ≡ into.old.items ++ piece_bytes (piece_shown piece.now)) }
{
    match piece {
        Piece::Fixed(text) => into.extend_from_slice(text.as_bytes()),
        Piece::Text(text) => escape(text, into),
        Piece::Number(number) => {
            number.print(into)?;
            Ok(())
        }
        Piece::Whole(number) => write_whole(*number, into),
        Piece::Count(count) => write_count(*count, into),
    }
}

/// Appends pieces that close each tag that they open, and have no text in a tag.
pub fn write(pieces: &[Piece<'_>], into: &mut Vec<u8>) -> Result<(), AllocError>
    requires { behind_pieces Place.Running (map piece_shown pieces.now) ≡ Place.Running }
    ensures { OnOk result (IsMarkedUp into.old.items into.new.items) }
{
    for piece in pieces {
        write_piece(piece, into)?;
    }
    Ok(())
}

/// Appends fixed words and markup that close each tag that they open.
pub(crate) fn write_fixed(text: &'static str, into: &mut Vec<u8>) -> Result<(), AllocError>
    requires { IsClosed text.now }
    ensures { OnOk result (IsMarkedUp into.old.items into.new.items) }
{
    write(&[Piece::Fixed(text)], into)
}

/// In an escaped text no byte is one of `<`, `>`, `"` and `'`, each `&` begins one of the five entities, and no two texts
/// are escaped alike. It does nothing when it runs.
pub fn escaping_law()
    ensures { EscapingLaw }
{}

/// Whatever bytes the texts of a page have, its tags are opened and closed by its fixed bytes alone. It does nothing when it
/// runs.
pub fn markup_law()
    ensures { MarkupLaw }
{}
