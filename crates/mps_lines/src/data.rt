//! What the fields of data lines say.
ghost use Rattle.std.specs.Prelude.{◌≡◌, List, ℕ, Ok, Err, MatchResult};
ghost use Rattle.std.specs.Option.{option_map};
ghost use Rattle.std.specs.Prelude.{drop, slice_get};
ghost use Rattle.mps_lines.specs.Shapes.{ColumnsLine, bound_fields, bound_line, bound_line_of, columns_line, marker_word, no_bound, numbered_bound, plain_bound, set_line};
ghost use Rattle.mps_lines.specs.Said.{AreFields, bound_line_shown, columns_shown, set_shown};

use crate::fielding::Fields;
use crate::shapes::{BoundKind, Bounded, Figure, bound_kind, marker_named, takes_number};
use text_fields::{ReadKind, is_word};

/// A line of COLUMNS.
#[derive(Clone, Copy)]
pub(crate) enum ColumnsRead<'a> {
    Marker(bool),
    Entries(&'a [u8], Figure<'a>, Option<Figure<'a>>),
}

/// A line of RHS or RANGES: its set, if it has one, and one figure or two.
#[derive(Clone, Copy)]
pub(crate) struct SetRead<'a> {
    pub set: Option<&'a [u8]>,
    pub first: Figure<'a>,
    pub second: Option<Figure<'a>>,
}

/// A line of BOUNDS: its set, if it has one, and the bound.
#[derive(Clone, Copy)]
pub(crate) struct BoundRead<'a> {
    pub set: Option<&'a [u8]>,
    pub bound: Bounded<'a>,
}

// A marker's line, by its third field.
fn marker_line<'a>(word: &'a [u8]) -> Option<ColumnsRead<'a>>
    ensures { option_map columns_shown result ≡ option_map ColumnsLine.Marker (marker_word word.now) }
{
    match marker_named(word) {
        Some(whole) => Some(ColumnsRead::Marker(whole)),
        None => None,
    }
}

/// What a line of COLUMNS says.
pub(crate) fn columns_read(fields: Fields<'_>) -> Option<ColumnsRead<'_>>
    ensures { (fs : List (List ℕ)) → AreFields fields.entry fs → option_map columns_shown result ≡ columns_line fs }
{
    match fields {
        Fields::Three(first, second, third) => {
            if is_word(second, b"'MARKER'") {
                return marker_line(third);
            }
            let figure = Figure {
                row: second,
                number: third,
            };
            Some(ColumnsRead::Entries(first, figure, None))
        }
        Fields::Five(column, row, number, second_row, second_number) => {
            let first = Figure { row, number };
            let second = Figure {
                row: second_row,
                number: second_number,
            };
            Some(ColumnsRead::Entries(column, first, Some(second)))
        }
        _ => None,
    }
}

/// What a line of RHS or RANGES says.
pub(crate) fn set_read(fields: Fields<'_>) -> Option<SetRead<'_>>
    ensures { (fs : List (List ℕ)) → AreFields fields.entry fs → option_map set_shown result ≡ set_line fs }
{
    match fields {
        Fields::Two(row, number) => Some(SetRead {
            set: None,
            first: Figure { row, number },
            second: None,
        }),
        Fields::Three(set, row, number) => Some(SetRead {
            set: Some(set),
            first: Figure { row, number },
            second: None,
        }),
        Fields::Four(row, number, second_row, second_number) => Some(SetRead {
            set: None,
            first: Figure { row, number },
            second: Some(Figure {
                row: second_row,
                number: second_number,
            }),
        }),
        Fields::Five(set, row, number, second_row, second_number) => Some(SetRead {
            set: Some(set),
            first: Figure { row, number },
            second: Some(Figure {
                row: second_row,
                number: second_number,
            }),
        }),
        _ => None,
    }
}

// The line of a bound.
fn bound<'a>(
    set: Option<&'a [u8]>,
    kind: BoundKind,
    column: &'a [u8],
    number: Option<&'a [u8]>,
) -> Option<BoundRead<'a>>
    ensures { option_map bound_line_shown result ≡ bound_line_of (option_map (λ s. s.now) set.entry) kind column.now (option_map (λ n. n.now) number.entry) }
{
    Some(BoundRead {
        set,
        bound: Bounded {
            kind,
            column,
            number,
        },
    })
}

// A bound with a number, by the fields with its kind.
fn numbered(kind: BoundKind, fields: Fields<'_>) -> Option<BoundRead<'_>>
    ensures { (fs : List (List ℕ)) → AreFields fields.entry fs → option_map bound_line_shown result ≡ numbered_bound kind (drop 1 fs) }
{
    match fields {
        Fields::Three(_, column, number) => bound(None, kind, column, Some(number)),
        Fields::Four(_, set, column, number) => bound(Some(set), kind, column, Some(number)),
        _ => None,
    }
}

// One without.
fn plain(kind: BoundKind, fields: Fields<'_>) -> Option<BoundRead<'_>>
    ensures { (fs : List (List ℕ)) → AreFields fields.entry fs → option_map bound_line_shown result ≡ plain_bound kind (drop 1 fs) }
{
    match fields {
        Fields::Two(_, column) => bound(None, kind, column, None),
        Fields::Three(_, set, column) => bound(Some(set), kind, column, None),
        Fields::Four(_, set, column, _) => bound(Some(set), kind, column, None),
        _ => None,
    }
}

/// The first of the fields, if there is one.
pub(crate) fn first_field(fields: Fields<'_>) -> Option<&[u8]>
    ensures { (fs : List (List ℕ)) → AreFields fields.entry fs → option_map (λ f. f.now) result ≡ slice_get fs 0 }
{
    match fields {
        Fields::Zero => None,
        Fields::One(word) => Some(word),
        Fields::Two(word, _) => Some(word),
        Fields::Three(word, _, _) => Some(word),
        Fields::Four(word, _, _, _) => Some(word),
        Fields::Five(word, _, _, _, _) => Some(word),
        Fields::More(word) => Some(word),
    }
}

// What no kind of bound is called.
fn not_a_bound(word: &[u8]) -> ReadKind
    ensures { result ≡ no_bound word.now }
{
    if is_word(word, b"SC") {
        return ReadKind::Unsupported;
    }
    ReadKind::BadField
}

// A bound of a kind.
fn bound_of_kind(kind: BoundKind, fields: Fields<'_>) -> Option<BoundRead<'_>>
    ensures { (fs : List (List ℕ)) → AreFields fields.entry fs → option_map bound_line_shown result ≡ bound_fields kind (drop 1 fs) }
{
    if takes_number(kind) {
        return numbered(kind, fields);
    }
    plain(kind, fields)
}

/// What a line of BOUNDS says.
pub(crate) fn bound_read(fields: Fields<'_>) -> Result<BoundRead<'_>, ReadKind>
    ensures { (fs : List (List ℕ)) → AreFields fields.entry fs → MatchResult result
        (λ line. bound_line fs ≡ Ok (bound_line_shown line))
        (λ kind. bound_line fs ≡ Err kind) }
{
    let Some(word) = first_field(fields) else {
        return Err(ReadKind::BadField);
    };
    let Some(kind) = bound_kind(word) else {
        return Err(not_a_bound(word));
    };
    let Some(line) = bound_of_kind(kind, fields) else {
        return Err(ReadKind::BadField);
    };
    Ok(line)
}
