//! The fields of a line, counted.
ghost use Rattle.std.specs.Prelude.{◌≡◌, ◌<◌, All, length, map, slice_index_or, []};
ghost use Rattle.text_fields.specs.Lines.{text_of};
ghost use Rattle.text_fields.specs.Fields.{IsInside};
ghost use Rattle.mps_lines.specs.Said.{AreFields};

use text_fields::Span;

/// At most five fields, or that there are more.
#[derive(Clone, Copy)]
pub enum Fields<'a> {
    Zero,
    One(&'a [u8]),
    Two(&'a [u8], &'a [u8]),
    Three(&'a [u8], &'a [u8], &'a [u8]),
    Four(&'a [u8], &'a [u8], &'a [u8], &'a [u8]),
    Five(&'a [u8], &'a [u8], &'a [u8], &'a [u8], &'a [u8]),
    More(&'a [u8]),
}

// The text of a field.
fn field<'a>(bytes: &'a [u8], spans: &[Span], index: usize) -> &'a [u8]
    requires inside { All (IsInside bytes.now) spans.now }
    requires within { index < length spans.now }
    ensures { result.now ≡ slice_index_or (map (text_of bytes.now) spans.now) index [] }
{
    spans[index].text(bytes)
}

/// The fields that stand at spans.
pub(crate) fn counted<'a>(bytes: &'a [u8], spans: &[Span]) -> Fields<'a>
    requires { All (IsInside bytes.now) spans.now }
    ensures { AreFields result (map (text_of bytes.now) spans.now) }
{
    match spans.len() {
        0 => Fields::Zero,
        1 => Fields::One(field(bytes, spans, 0)),
        2 => Fields::Two(field(bytes, spans, 0), field(bytes, spans, 1)),
        3 => Fields::Three(
            field(bytes, spans, 0),
            field(bytes, spans, 1),
            field(bytes, spans, 2),
        ),
        4 => Fields::Four(
            field(bytes, spans, 0),
            field(bytes, spans, 1),
            field(bytes, spans, 2),
            field(bytes, spans, 3),
        ),
        5 => Fields::Five(
            field(bytes, spans, 0),
            field(bytes, spans, 1),
            field(bytes, spans, 2),
            field(bytes, spans, 3),
            field(bytes, spans, 4),
        ),
        _ => Fields::More(field(bytes, spans, 0)),
    }
}
