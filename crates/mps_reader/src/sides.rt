//! The right sides and the ranges of rows.
ghost use Rattle.indexmap.specs.IndexMap.{insert_entry};
ghost use Rattle.std.specs.Prelude.{◌≡◌, nat_eq, MatchOption, OnOk, Some, None, true, false};
ghost use Rattle.std.specs.Option.{option_map_or};
ghost use Rattle.mps_lines.specs.Steps.{ToSide, ToRange};
ghost use Rattle.mps_lines.specs.Said.{figure_shown};
ghost use Rattle.mps_reader.specs.Sides.{move_of, moved_sides, is_move_wide, plain_sides, row_sides, is_range_wide};
ghost use Rattle.mps_reader.specs.Sides.Move.{Down, Up};
ghost use Rattle.mps_reader.specs.Held.{Takes, right_held, Moves};

use crate::numbers::{is_negative, is_positive, magnitude};
use crate::tables::{Reader, is_free_kind, kind_at, literal_of, place_of, refusal};
use frac128::{Frac, Literal};
use indexmap::IndexMap;
use mps_lines::{Figure, RowKind};
use std::alloc::AllocError;
use text_fields::{ReadFault, ReadKind, TextKind, bound, is_wide_limit};

/// Takes the right side of a row in.
///
/// `UnknownName` comes where no row has the name, then `BadNumber`, and where the row is not free `NumberWide`, unless the
/// number is huge, and `DuplicateEntry`.
pub fn take_side(reader: &mut Reader, line: u32, figure: Figure) -> Result<(), ReadFault>
    ensures { Takes reader.old reader.new line (ToSide (figure_shown figure.entry)) result }
{
    let Some(row) = place_of(&reader.rows, figure.row) else {
        return Err(refusal(line, ReadKind::UnknownName));
    };
    let Some(literal) = literal_of(figure.number) else {
        return Err(refusal(line, ReadKind::Text(TextKind::BadNumber)));
    };
    if is_free_kind(kind_at(reader, row)) {
        return Ok(());
    }
    if is_wide_limit(&literal) {
        return Err(refusal(line, ReadKind::Text(TextKind::NumberWide)));
    }
    if reader.rights.contains_key(&row) {
        return Err(refusal(line, ReadKind::DuplicateEntry));
    }
    reader.rights.insert(row, bound(&literal))?;
    Ok(())
}

/// Takes the range of a row in.
///
/// The faults are those of a right side, and then `SumWide` where the side that the range makes is too wide.
pub fn take_range(reader: &mut Reader, line: u32, figure: Figure) -> Result<(), ReadFault>
    ensures { Takes reader.old reader.new line (ToRange (figure_shown figure.entry)) result }
{
    let Some(row) = place_of(&reader.rows, figure.row) else {
        return Err(refusal(line, ReadKind::UnknownName));
    };
    let Some(literal) = literal_of(figure.number) else {
        return Err(refusal(line, ReadKind::Text(TextKind::BadNumber)));
    };
    let kind = kind_at(reader, row);
    if is_free_kind(kind) {
        return Ok(());
    }
    if is_wide_limit(&literal) {
        return Err(refusal(line, ReadKind::Text(TextKind::NumberWide)));
    }
    if reader.ranges.contains_key(&row) {
        return Err(refusal(line, ReadKind::DuplicateEntry));
    }
    if is_sum_wide(kind, right_at(reader, row), &literal) {
        return Err(refusal(line, ReadKind::SumWide));
    }
    put_range(&mut reader.ranges, row, &literal)?;
    Ok(())
}

// Whether the side that a range makes is too wide.
fn is_sum_wide(kind: RowKind, right: Option<Frac>, range: &Literal) -> bool
    ensures { result ≡ is_range_wide kind right range.now }
{
    sides_with(kind, right, range).is_none()
}

// Puts the range of a row.
fn put_range(
    ranges: &mut IndexMap<usize, Literal>,
    row: usize,
    range: &Literal,
) -> Result<(), AllocError>
    ensures { OnOk result (ranges.new.entries ≡ insert_entry nat_eq ranges.old.entries row range.now) }
{
    ranges.insert(row, *range)?;
    Ok(())
}

/// The right side of a row: 0 where none is given, and none where it is huge.
pub fn right_at(reader: &Reader, row: usize) -> Option<Frac>
    ensures { result ≡ right_held reader.now row }
{
    match reader.rights.get(&row) {
        Some(right) => *right,
        None => Some(Frac::whole(0)),
    }
}

/// The sides of a row, the lower first.
#[derive(Clone, Copy)]
pub struct Sides {
    pub lower: Option<Frac>,
    pub upper: Option<Frac>,
}

/// The sides of a row without a range.
pub fn sides_of(kind: RowKind, right: Option<Frac>) -> Sides
    ensures { (result.lower, result.upper) ≡ row_sides kind right None }
{
    let Some(value) = right else {
        return Sides {
            lower: None,
            upper: None,
        };
    };
    plain(kind, value)
}

// The sides of a row whose right side is not huge.
fn plain(kind: RowKind, right: Frac) -> Sides
    ensures { (result.lower, result.upper) ≡ plain_sides kind right }
{
    match kind {
        RowKind::Free => Sides {
            lower: None,
            upper: None,
        },
        RowKind::AtMost => Sides {
            lower: None,
            upper: Some(right),
        },
        RowKind::AtLeast => Sides {
            lower: Some(right),
            upper: None,
        },
        RowKind::Equal => pinned(right),
    }
}

// The sides of an equation.
fn pinned(right: Frac) -> Sides
    ensures { (result.lower, result.upper) ≡ plain_sides RowKind.Equal right }
{
    let other = right;
    Sides {
        lower: Some(right),
        upper: Some(other),
    }
}

/// The sides of a row with a range. `None` exactly where the side that the range makes is too wide.
pub fn sides_with(kind: RowKind, right: Option<Frac>, range: &Literal) -> Option<Sides>
    ensures { MatchOption result
        (is_range_wide kind right range.now ≡ true)
        (λ sides. (is_range_wide kind right range.now ≡ false) × ((sides.lower, sides.upper) ≡ row_sides kind right (Some range.now))) }
{
    let Some(value) = right else {
        return Some(Sides {
            lower: None,
            upper: None,
        });
    };
    let far = bound(range);
    match side_moved(kind, range) {
        Direction::Stays => Some(plain(kind, value)),
        Direction::Down => below(value, far),
        Direction::Up => above(value, far),
    }
}

/// On which side of the right side the other one lies.
#[derive(Clone, Copy)]
pub enum Direction {
    Down,
    Up,
    Stays,
}

// Where a range moves the other side.
fn side_moved(kind: RowKind, range: &Literal) -> Direction
    ensures { Moves result (move_of kind range.now) }
{
    match kind {
        RowKind::Free => Direction::Stays,
        RowKind::AtMost => Direction::Down,
        RowKind::AtLeast => Direction::Up,
        RowKind::Equal => signed(range),
    }
}

// Where the range of an equation moves it.
fn signed(range: &Literal) -> Direction
    ensures { Moves result (move_of RowKind.Equal range.now) }
{
    if is_negative(range) {
        return Direction::Down;
    }
    if is_positive(range) {
        return Direction::Up;
    }
    Direction::Stays
}

// The sides with the other one below, unless the range is huge.
fn below(right: Frac, range: Option<Frac>) -> Option<Sides>
    ensures { (kind : RowKind) → MatchOption result
        (option_map_or (is_move_wide Down right) range false ≡ true)
        (λ sides. (option_map_or (is_move_wide Down right) range false ≡ false) × ((sides.lower, sides.upper) ≡ moved_sides Down kind right range)) }
{
    let upper = Some(right);
    let Some(value) = range else {
        return Some(Sides { lower: None, upper });
    };
    match right.minus(magnitude(value)) {
        Ok(least) => Some(Sides {
            lower: Some(least),
            upper,
        }),
        Err(_) => None,
    }
}

// The sides with the other one above, unless the range is huge.
fn above(right: Frac, range: Option<Frac>) -> Option<Sides>
    ensures { (kind : RowKind) → MatchOption result
        (option_map_or (is_move_wide Up right) range false ≡ true)
        (λ sides. (option_map_or (is_move_wide Up right) range false ≡ false) × ((sides.lower, sides.upper) ≡ moved_sides Up kind right range)) }
{
    let lower = Some(right);
    let Some(value) = range else {
        return Some(Sides { lower, upper: None });
    };
    match right.plus(magnitude(value)) {
        Ok(greatest) => Some(Sides {
            lower,
            upper: Some(greatest),
        }),
        Err(_) => None,
    }
}
