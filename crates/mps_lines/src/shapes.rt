//! What the fields of single lines say.
ghost use Rattle.std.specs.Prelude.{◌≡◌};
ghost use Rattle.mps_lines.specs.Shapes.{bound_word, marker_word, row_word, sense_word, takes_number as has_number};

use text_fields::is_word;

/// The kind of a row: free, or the side on which its right side stands.
#[derive(Clone, Copy, PartialEq, Eq)]
pub enum RowKind {
    /// `N`: the objective, if it is the first of them; the others are dropped.
    Free,
    /// `L`.
    AtMost,
    /// `G`.
    AtLeast,
    /// `E`.
    Equal,
}

/// The kind of a bound.
#[derive(Clone, Copy, PartialEq, Eq)]
pub enum BoundKind {
    /// `UP`.
    Upper,
    /// `LO`.
    Lower,
    /// `FX`: both bounds.
    Fixed,
    /// `LI`: the lower bound of a whole column.
    WholeLower,
    /// `UI`: the upper bound of a whole column.
    WholeUpper,
    /// `FR`: neither bound.
    Unbounded,
    /// `MI`.
    NoLower,
    /// `PL`.
    NoUpper,
    /// `BV`: 0 and 1, and whole.
    Binary,
}

/// A row's name, and the text of a number.
#[derive(Clone, Copy)]
pub struct Figure<'a> {
    pub row: &'a [u8],
    pub number: &'a [u8],
}

/// A bound: its kind, its column's name, and the text of its number, where the kind has one.
#[derive(Clone, Copy)]
pub struct Bounded<'a> {
    pub kind: BoundKind,
    pub column: &'a [u8],
    pub number: Option<&'a [u8]>,
}

/// The sense that a word names, in any case of letters: whether the objective is to be made greatest.
pub(crate) fn sense_named(word: &[u8]) -> Option<bool>
    ensures { result ≡ sense_word word.now }
{
    if word.eq_ignore_ascii_case(b"MAX") || word.eq_ignore_ascii_case(b"MAXIMIZE") {
        return Some(true);
    }
    if word.eq_ignore_ascii_case(b"MIN") || word.eq_ignore_ascii_case(b"MINIMIZE") {
        return Some(false);
    }
    None
}

/// The kind of row that a word names.
pub(crate) fn row_kind(word: &[u8]) -> Option<RowKind>
    ensures { result ≡ row_word word.now }
{
    if is_word(word, b"N") {
        return Some(RowKind::Free);
    }
    if is_word(word, b"L") {
        return Some(RowKind::AtMost);
    }
    if is_word(word, b"G") {
        return Some(RowKind::AtLeast);
    }
    if is_word(word, b"E") {
        return Some(RowKind::Equal);
    }
    None
}

/// What a marker's word says: whether the columns after it are whole.
pub(crate) fn marker_named(word: &[u8]) -> Option<bool>
    ensures { result ≡ marker_word word.now }
{
    if is_word(word, b"'INTORG'") {
        return Some(true);
    }
    if is_word(word, b"'INTEND'") {
        return Some(false);
    }
    None
}

/// The kind of bound that a word names.
pub(crate) fn bound_kind(word: &[u8]) -> Option<BoundKind>
    ensures { result ≡ bound_word word.now }
{
    if is_word(word, b"UP") {
        return Some(BoundKind::Upper);
    }
    if is_word(word, b"LO") {
        return Some(BoundKind::Lower);
    }
    if is_word(word, b"FX") {
        return Some(BoundKind::Fixed);
    }
    if is_word(word, b"LI") {
        return Some(BoundKind::WholeLower);
    }
    if is_word(word, b"UI") {
        return Some(BoundKind::WholeUpper);
    }
    if is_word(word, b"FR") {
        return Some(BoundKind::Unbounded);
    }
    if is_word(word, b"MI") {
        return Some(BoundKind::NoLower);
    }
    if is_word(word, b"PL") {
        return Some(BoundKind::NoUpper);
    }
    if is_word(word, b"BV") {
        return Some(BoundKind::Binary);
    }
    None
}

/// Whether a bound of the kind has a number.
pub(crate) fn takes_number(kind: BoundKind) -> bool
    ensures { result ≡ has_number kind }
{
    matches!(
        kind,
        BoundKind::Upper
            | BoundKind::Lower
            | BoundKind::Fixed
            | BoundKind::WholeLower
            | BoundKind::WholeUpper
    )
}
