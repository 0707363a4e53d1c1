//! The columns and their entries.
ghost use Rattle.std.specs.Prelude.{◌≡◌, ◌<◌, ◌+◌, ◌++◌, ◌∷◌, [], List, MatchResult, IfOk, Some, None};
ghost use Rattle.name_map.specs.Names.{StandsAt, name_at};
ghost use Rattle.mps_lines.specs.Steps.{Step, ToColumn, ToEntry};
ghost use Rattle.mps_lines.specs.Said.{figure_shown};
ghost use Rattle.mps_reader.specs.Faults.{fault};
ghost use Rattle.mps_reader.specs.Held.{Holds, Takes, IsStepStop, value_fitting, column_names_held};

use crate::rows::is_long;
use crate::tables::{Reader, is_dropped_at, literal_of, place_of, refusal};
use frac128::{Frac, Literal};
use lp_model::{MOST_COLUMNS, MOST_ENTRIES};
use mps_lines::Figure;
use std::alloc::Global;
use text_fields::{ReadFault, ReadKind, TextKind};

/// Takes a column in, which is put last if it is new, and gives its place.
///
/// `Limit` comes where the column is new, and its name is too long or there is no room.
pub fn take_column(
    alloc: Global,
    reader: &mut Reader,
    line: u32,
    name: &[u8],
    whole: bool,
) -> Result<usize, ReadFault>
    ensures stands { IfOk result (StandsAt (column_names_held reader.new) name.now) }
    ensures takes { (steps : List Step) → Holds reader.old steps → MatchResult result
        (λ _. (fault steps (ToColumn name.now whole) ≡ None) × Holds reader.new (steps ++ ToColumn name.now whole ∷ []))
        (IsStepStop line (fault steps (ToColumn name.now whole))) }
{
    if let Some(column) = place_of(&reader.columns, name) {
        return Ok(column);
    }
    if is_long(name) {
        return Err(refusal(line, ReadKind::Limit));
    }
    let column = reader.columns.len();
    if column >= MOST_COLUMNS {
        return Err(refusal(line, ReadKind::Limit));
    }
    reader.columns.push(alloc, name, whole)?;
    Ok(column)
}

/// Takes an entry of a column in, by the column's place.
///
/// `UnknownName` comes where no row has the name, then `BadNumber`, and where the row is not dropped `NumberWide` and
/// `DuplicateEntry`, and `Limit` where there is no room for one more entry.
pub fn take_entry(
    reader: &mut Reader,
    line: u32,
    column: usize,
    figure: Figure,
) -> Result<(), ReadFault>
    requires { StandsAt (column_names_held reader.old) (name_at (column_names_held reader.old) column) column }
    ensures same { reader.new.columns ≡ reader.old.columns }
    ensures takes { Takes reader.old reader.new line (ToEntry (name_at (column_names_held reader.old) column) (figure_shown figure.entry)) result }
{
    let Some(row) = place_of(&reader.rows, figure.row) else {
        return Err(refusal(line, ReadKind::UnknownName));
    };
    let Some(literal) = literal_of(figure.number) else {
        return Err(refusal(line, ReadKind::Text(TextKind::BadNumber)));
    };
    if is_dropped_at(reader, row) {
        if reader.count >= MOST_ENTRIES {
            return Err(refusal(line, ReadKind::Limit));
        }
        reader.count += 1;
        return Ok(());
    }
    let Some(value) = fitting(literal) else {
        return Err(refusal(line, ReadKind::Text(TextKind::NumberWide)));
    };
    if reader.entries.contains_key(&(row, column)) {
        return Err(refusal(line, ReadKind::DuplicateEntry));
    }
    if reader.count >= MOST_ENTRIES {
        return Err(refusal(line, ReadKind::Limit));
    }
    reader.entries.insert((row, column), value)?;
    reader.count += 1;
    Ok(())
}

// The value of a literal that fits.
fn fitting(literal: Literal) -> Option<Frac>
    ensures { result ≡ value_fitting literal }
{
    match literal {
        Literal::Fits(value) => Some(value),
        Literal::TooWide { .. } => None,
    }
}
