//! The bounds of columns.
ghost use Rattle.std.specs.Prelude.{◌≡◌, ◌&&◌, ◌||◌, ◌++◌, ◌∷◌, [], List, cond, OnOk, Some, None, false};
ghost use Rattle.std.specs.Option.{option_map};
ghost use Rattle.rational.specs.Rational.{zero_ℚ, one_ℚ};
ghost use Rattle.name_map.specs.Names.{StandsAt};
ghost use Rattle.mps_lines.specs.Shapes.{Bounded as BoundSaid};
ghost use Rattle.mps_lines.specs.Steps.{Step, ToBound};
ghost use Rattle.mps_lines.specs.Said.{bound_shown};
ghost use Rattle.mps_reader.specs.Tables.{sets_lower, sets_upper, makes_whole};
ghost use Rattle.mps_reader.specs.Sides.{is_binary, number_of as bound_number};
ghost use Rattle.mps_reader.specs.Held.{Holds, Takes, GivesNumber, is_set_held, put_where, column_names_held};

use crate::tables::{Reader, literal_of, place_of, refusal};
use frac128::Frac;
use indexmap::IndexMap;
use mps_lines::{BoundKind, Bounded};
use std::alloc::AllocError;
use text_fields::{ReadFault, ReadKind, TextKind, bound, is_wide_limit};

/// Whether a kind sets the lower bound, be it that it takes it away.
fn is_lower(kind: BoundKind) -> bool
    ensures { result ≡ sets_lower kind }
{
    matches!(
        kind,
        BoundKind::Lower
            | BoundKind::WholeLower
            | BoundKind::NoLower
            | BoundKind::Fixed
            | BoundKind::Unbounded
            | BoundKind::Binary
    )
}

/// Whether a kind sets the upper bound.
fn is_upper(kind: BoundKind) -> bool
    ensures { result ≡ sets_upper kind }
{
    matches!(
        kind,
        BoundKind::Upper
            | BoundKind::WholeUpper
            | BoundKind::NoUpper
            | BoundKind::Fixed
            | BoundKind::Unbounded
            | BoundKind::Binary
    )
}

/// Whether a kind makes its column whole.
fn is_whole(kind: BoundKind) -> bool
    ensures { result ≡ makes_whole kind }
{
    matches!(
        kind,
        BoundKind::WholeLower | BoundKind::WholeUpper | BoundKind::Binary
    )
}

/// Takes a bound in.
///
/// `UnknownName` comes where no column has the name, then, where the bound has a number, `BadNumber`, and `NumberWide`
/// unless it is huge, and `DuplicateEntry` where a bound before it sets the same.
pub fn take_bound(reader: &mut Reader, line: u32, given: Bounded) -> Result<(), ReadFault>
    ensures { Takes reader.old reader.new line (ToBound (bound_shown given.entry)) result }
{
    let Some(column) = place_of(&reader.columns, given.column) else {
        return Err(refusal(line, ReadKind::UnknownName));
    };
    let number = match number_of(given.number) {
        Ok(number) => number,
        Err(kind) => return Err(refusal(line, ReadKind::Text(kind))),
    };
    if is_set(reader, column, given.kind) {
        return Err(refusal(line, ReadKind::DuplicateEntry));
    }
    put_bound(reader, column, given.kind, &number)?;
    Ok(())
}

// The number of a bound: none where it has none or a huge one.
fn number_of(text: Option<&[u8]>) -> Result<Option<Frac>, TextKind>
    ensures { GivesNumber (option_map (λ t. t.now) text.entry) result }
{
    let Some(number) = text else {
        return Ok(None);
    };
    let Some(literal) = literal_of(number) else {
        return Err(TextKind::BadNumber);
    };
    if is_wide_limit(&literal) {
        return Err(TextKind::NumberWide);
    }
    Ok(bound(&literal))
}

// Whether a bound of a column sets what this kind sets.
fn is_set(reader: &Reader, column: usize, kind: BoundKind) -> bool
    ensures { result ≡ is_set_held reader.now column kind }
{
    (is_lower(kind) && reader.lowers.contains_key(&column))
        || (is_upper(kind) && reader.uppers.contains_key(&column))
}

// Puts a bound where its kind sets it.
fn put_bound(
    reader: &mut Reader,
    column: usize,
    kind: BoundKind,
    number: &Option<Frac>,
) -> Result<(), AllocError>
    ensures { OnOk result ((steps : List Step) (b : BoundSaid) → Holds reader.old steps → StandsAt (column_names_held reader.old) b.column column → b.kind ≡ kind → bound_number b ≡ number.now → is_set_held reader.old column kind ≡ false → Holds reader.new (steps ++ ToBound b ∷ [])) }
{
    put_if(
        &mut reader.lowers,
        is_lower(kind),
        column,
        least(kind, number),
    )?;
    put_if(
        &mut reader.uppers,
        is_upper(kind),
        column,
        greatest(kind, number),
    )?;
    put_if(&mut reader.wholes, is_whole(kind), column, ())?;
    Ok(())
}

// Puts a value at a place, if it is to be put.
fn put_if<V: Drop>(
    table: &mut IndexMap<usize, V>,
    is_put: bool,
    place: usize,
    value: V,
) -> Result<(), AllocError>
    ensures { OnOk result (table.new.entries ≡ put_where is_put table.old.entries place value) }
{
    if is_put {
        table.insert(place, value)?;
    }
    Ok(())
}

// The lower bound that a kind sets.
fn least(kind: BoundKind, number: &Option<Frac>) -> Option<Frac>
    ensures { result ≡ cond (is_binary kind) (Some zero_ℚ) number.now }
{
    if matches!(kind, BoundKind::Binary) {
        return Some(Frac::whole(0));
    }
    *number
}

// And the upper one.
fn greatest(kind: BoundKind, number: &Option<Frac>) -> Option<Frac>
    ensures { result ≡ cond (is_binary kind) (Some one_ℚ) number.now }
{
    if matches!(kind, BoundKind::Binary) {
        return Some(Frac::whole(1));
    }
    *number
}
