//! The sections of the MPS format.
ghost use Rattle.std.specs.Prelude.{◌≡◌};
ghost use Rattle.mps_lines.specs.Sections.{heading_word, may_follow};

use text_fields::is_word;

/// Where a reader is: before the first header, or in the section of the last header.
#[derive(Clone, Copy, PartialEq, Eq)]
pub enum Section {
    Start,
    Name,
    Sense,
    Rows,
    Columns,
    Sides,
    Ranges,
    Bounds,
    End,
}

/// The section that a header's first word names.
pub(crate) fn section_named(word: &[u8]) -> Option<Section>
    ensures { result ≡ heading_word word.now }
{
    if is_word(word, b"NAME") {
        return Some(Section::Name);
    }
    if is_word(word, b"OBJSENSE") {
        return Some(Section::Sense);
    }
    if is_word(word, b"ROWS") {
        return Some(Section::Rows);
    }
    if is_word(word, b"COLUMNS") {
        return Some(Section::Columns);
    }
    if is_word(word, b"RHS") {
        return Some(Section::Sides);
    }
    if is_word(word, b"RANGES") {
        return Some(Section::Ranges);
    }
    if is_word(word, b"BOUNDS") {
        return Some(Section::Bounds);
    }
    if is_word(word, b"ENDATA") {
        return Some(Section::End);
    }
    None
}

/// Whether a section may come right after another.
pub(crate) fn follows(before: Section, next: Section) -> bool
    ensures { result ≡ may_follow before next }
{
    match before {
        Section::Start => matches!(next, Section::Name | Section::Sense | Section::Rows),
        Section::Name => matches!(next, Section::Sense | Section::Rows),
        Section::Sense => matches!(next, Section::Rows),
        Section::Rows => matches!(next, Section::Columns),
        Section::Columns => matches!(
            next,
            Section::Sides | Section::Ranges | Section::Bounds | Section::End
        ),
        Section::Sides => matches!(next, Section::Ranges | Section::Bounds | Section::End),
        Section::Ranges => matches!(next, Section::Bounds | Section::End),
        Section::Bounds => matches!(next, Section::End),
        Section::End => false,
    }
}
