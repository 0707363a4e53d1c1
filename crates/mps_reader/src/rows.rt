//! The sense and the rows, as they are declared.
ghost use Rattle.std.specs.Prelude.{◌≡◌, ◌<◌, ◌+◌, ◌++◌, ◌∷◌, [], List, false, OnOk, Some, None, length};
ghost use Rattle.std.specs.List.{list_any};
ghost use Rattle.std.specs.Str.{bytes_eq};
ghost use Rattle.mps_lines.specs.Steps.{Step, ToSense, ToRow};
ghost use Rattle.mps_reader.specs.Tables.{is_free};
ghost use Rattle.name_map.specs.Names.{names_of};
ghost use Rattle.mps_reader.specs.Faults.{is_too_long};
ghost use Rattle.mps_reader.specs.Held.{Holds, Takes, lacks_room};

use crate::tables::{Reader, is_free_kind, refusal};
use lp_model::{LONGEST_NAME, MOST_FREE_ROWS, MOST_ROWS};
use mps_lines::RowKind;
use std::alloc::{AllocError, Global};
use text_fields::{ReadFault, ReadKind};

/// Takes the sense in, whether the objective is to be made greatest.
///
/// `BadField` comes where it was given before.
pub fn take_sense(reader: &mut Reader, line: u32, greatest: bool) -> Result<(), ReadFault>
    ensures { Takes reader.old reader.new line (ToSense greatest) result }
{
    if reader.sense.is_some() {
        return Err(refusal(line, ReadKind::BadField));
    }
    reader.sense = Some(greatest);
    Ok(())
}

/// Whether a name is too long.
pub fn is_long(name: &[u8]) -> bool
    ensures { result ≡ is_too_long name.now }
{
    name.len() > LONGEST_NAME
}

// Whether there is no room for one more row of a kind.
fn is_full(reader: &Reader, kind: RowKind) -> bool
    ensures { result ≡ lacks_room reader.now kind }
{
    if is_free_kind(kind) {
        return reader.free >= MOST_FREE_ROWS;
    }
    reader.kept >= MOST_ROWS
}

/// Takes a row in.
///
/// `DuplicateName` comes where a row has the name, and then `Limit` where it is too long or there is no room.
pub fn take_row(
    alloc: Global,
    reader: &mut Reader,
    line: u32,
    kind: RowKind,
    name: &[u8],
) -> Result<(), ReadFault>
    ensures { Takes reader.old reader.new line (ToRow kind name.now) result }
{
    if reader.rows.contains(name) {
        return Err(refusal(line, ReadKind::DuplicateName));
    }
    if is_long(name) {
        return Err(refusal(line, ReadKind::Limit));
    }
    if is_full(reader, kind) {
        return Err(refusal(line, ReadKind::Limit));
    }
    put_row(alloc, reader, kind, name)?;
    Ok(())
}

// Puts a new row last.
fn put_row(alloc: Global, reader: &mut Reader, kind: RowKind, name: &[u8]) -> Result<(), AllocError>
    requires fresh { list_any (bytes_eq name.now) (names_of reader.old.rows) ≡ false }
    requires short { is_too_long name.now ≡ false }
    requires room { lacks_room reader.old kind ≡ false }
    ensures { OnOk result ((steps : List Step) → Holds reader.old steps → Holds reader.new (steps ++ ToRow kind name.now ∷ [])) }
{
    let place = reader.rows.len();
    reader.rows.push(alloc, name, kind)?;
    if !is_free_kind(kind) {
        reader.kept += 1;
        return Ok(());
    }
    reader.free += 1;
    reader.objective = Some(reader.objective.unwrap_or(place));
    Ok(())
}
