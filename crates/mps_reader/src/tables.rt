//! What the lines so far have said, by the places of rows and columns.
ghost use Rattle.std.specs.Prelude.{◌≡◌, ◌<◌, ◌&&◌, [], not, length, false, nat_eq, MatchOption, Some, None};
ghost use Rattle.std.specs.List.{list_any, IsDistinct};
ghost use Rattle.std.specs.Option.{option_map_or};
ghost use Rattle.std.specs.Str.{bytes_eq};
ghost use Rattle.name_map.specs.Names.{StandsAt, names_of};
ghost use Rattle.text_fields.specs.Numbers.{literal_in};
ghost use Rattle.mps_reader.specs.Tables.{is_free};
ghost use Rattle.mps_reader.specs.Held.{Holds, kind_held};

use frac128::{Frac, Literal, read_decimal};
use indexmap::IndexMap;
use mps_lines::RowKind;
use name_map::NameMap;
use std::alloc::Global;
use text_fields::{ReadFault, ReadKind, ReadStop};

/// What is known of rows and columns. Rows have their places in file order, free ones too, and columns have theirs.
#[derive(Drop)]
pub struct Reader {
    /// Whether the objective is to be made greatest, where a line has said so.
    pub sense: Option<bool>,
    pub rows: NameMap<RowKind>,
    /// How many rows are free.
    pub free: usize,
    /// How many are not.
    pub kept: usize,
    /// The first free row.
    pub objective: Option<usize>,
    /// The columns, and whether each was whole when it was first named.
    pub columns: NameMap<bool>,
    /// The number of a column in a row that is not dropped, by the row and the column.
    pub entries: IndexMap<(usize, usize), Frac>,
    /// How many entries there are, those in dropped rows too.
    pub count: usize,
    /// The right side of a row that is not free; none where it is huge.
    pub rights: IndexMap<usize, Option<Frac>>,
    /// The range of a row that is not free.
    pub ranges: IndexMap<usize, Literal>,
    /// The lower bound of a column that a line has set.
    pub lowers: IndexMap<usize, Option<Frac>>,
    /// The upper bound of a column that a line has set.
    pub uppers: IndexMap<usize, Option<Frac>>,
    /// The columns that a bound has made whole.
    pub wholes: IndexMap<usize, ()>,
}

/// A reader that has read nothing. It takes no memory.
pub fn start(alloc: Global) -> Reader
    ensures { Holds result [] }
{
    Reader {
        sense: None,
        rows: NameMap::new(alloc),
        free: 0,
        kept: 0,
        objective: None,
        columns: NameMap::new(alloc),
        entries: IndexMap::new(alloc),
        count: 0,
        rights: IndexMap::new(alloc),
        ranges: IndexMap::new(alloc),
        lowers: IndexMap::new(alloc),
        uppers: IndexMap::new(alloc),
        wholes: IndexMap::new(alloc),
    }
}

/// A fault at a line.
pub fn refusal(line: u32, kind: ReadKind) -> ReadFault
    ensures { result ≡ ReadFault.Stop (record { line = line; kind = kind }) }
{
    ReadFault::Stop(ReadStop { line, kind })
}

/// Where a name stands.
pub fn place_of<V>(names: &NameMap<V>, name: &[u8]) -> Option<usize>
    ensures { MatchOption result
        (list_any (bytes_eq name.now) (names_of names.now) ≡ false)
        (StandsAt (names_of names.now) name.now) }
{
    names_differ(names);
    names.place(name)
}

/// No name is there twice.
pub fn names_differ<V>(names: &NameMap<V>)
    ensures { IsDistinct bytes_eq (names_of names.now) }
{
    let _ = names.len();
}

/// The literal that a text is, if it is one.
pub fn literal_of(text: &[u8]) -> Option<Literal>
    ensures { result ≡ literal_in text.now }
{
    match read_decimal(text) {
        Ok(literal) => Some(literal),
        Err(_) => None,
    }
}

/// Whether a kind of row is free.
pub fn is_free_kind(kind: RowKind) -> bool
    ensures { result ≡ is_free kind }
{
    matches!(kind, RowKind::Free)
}

/// The kind of the row at a place.
pub fn kind_at(reader: &Reader, row: usize) -> RowKind
    requires { row < length reader.now.rows }
    ensures { result ≡ kind_held reader.now row }
{
    *reader.rows.value(row)
}

/// Whether the row at a place is free, and not the objective.
pub fn is_dropped_at(reader: &Reader, row: usize) -> bool
    requires { row < length reader.now.rows }
    ensures { result ≡ (is_free (kind_held reader.now row) && not (option_map_or (nat_eq row) reader.now.objective false)) }
{
    is_free_kind(kind_at(reader, row)) && !is_place(reader.objective, row)
}

/// Whether a place, if there is one, is this one.
fn is_place(place: Option<usize>, row: usize) -> bool
    ensures { result ≡ option_map_or (nat_eq row) place false }
{
    match place {
        Some(other) => row == other,
        None => false,
    }
}
