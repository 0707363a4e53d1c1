//! A text, line by line.
ghost use Rattle.std.specs.Prelude.{◌≡◌, ◌<◌, ◌≤◌, ◌^◌, ◌-◌, ◌++◌, ◌∷◌, [], List, max, map, length, None, Some, MatchResult, OnOk};
ghost use Rattle.mps_lines.specs.Sections.{is_section};
ghost use Rattle.mps_lines.specs.Records.{Record};
ghost use Rattle.mps_lines.specs.Contexts.{context_of};
ghost use Rattle.mps_lines.specs.Steps.{ToColumn, ToEntry, ToSide, ToRange, all_steps, steps_of};
ghost use Rattle.mps_lines.specs.Said.{context_shown, figures_said, record_at, steps_said};
ghost use Rattle.text_fields.specs.Faults.{IsFaultOf};
ghost use Rattle.mps_reader.specs.Faults.{mps_fault};
ghost use Rattle.mps_reader.specs.Held.{Holds};
ghost use Rattle.mps_reader.specs.Lines.{TakesAll};

use crate::bounds::take_bound;
use crate::columns::{take_column, take_entry};
use crate::rows::{take_row, take_sense};
use crate::sides::{take_range, take_side};
use crate::tables::{Reader, refusal};
use mps_lines::{Context, Figure, Said, Section, read_line};
use std::alloc::Global;
use text_fields::{Line, ReadFault, ReadKind, Span, after_line, next_line};

// Takes a column and its entries in.
fn take_entries(
    alloc: Global,
    reader: &mut Reader,
    line: u32,
    name: &[u8],
    whole: bool,
    first: Figure,
    second: Option<Figure>,
) -> Result<(), ReadFault>
    ensures { TakesAll reader.old reader.new line (ToColumn name.now whole ∷ map (ToEntry name.now) (figures_said first.entry second.entry)) result }
{
    let column = take_column(alloc, reader, line, name, whole)?;
    take_entry(reader, line, column, first)?;
    let Some(figure) = second else {
        return Ok(());
    };
    take_entry(reader, line, column, figure)
}

// Takes right sides in.
fn take_sides(
    reader: &mut Reader,
    line: u32,
    first: Figure,
    second: Option<Figure>,
) -> Result<(), ReadFault>
    ensures { TakesAll reader.old reader.new line (map ToSide (figures_said first.entry second.entry)) result }
{
    take_side(reader, line, first)?;
    let Some(figure) = second else {
        return Ok(());
    };
    take_side(reader, line, figure)
}

// Takes ranges in.
fn take_ranges(
    reader: &mut Reader,
    line: u32,
    first: Figure,
    second: Option<Figure>,
) -> Result<(), ReadFault>
    ensures { TakesAll reader.old reader.new line (map ToRange (figures_said first.entry second.entry)) result }
{
    take_range(reader, line, first)?;
    let Some(figure) = second else {
        return Ok(());
    };
    take_range(reader, line, figure)
}

// Takes in what a line says.
fn take_said(
    alloc: Global,
    reader: &mut Reader,
    line: u32,
    said: &Said<'_>,
) -> Result<(), ReadFault>
    ensures { TakesAll reader.old reader.new line (steps_said said.now) result }
{
    match said {
        Said::Nothing => Ok(()),
        Said::Sense(greatest) => take_sense(reader, line, *greatest),
        Said::Row(kind, name) => take_row(alloc, reader, line, *kind, name),
        Said::Entries(name, whole, first, second) => {
            take_entries(alloc, reader, line, name, *whole, *first, *second)
        }
        Said::Sides(first, second) => take_sides(reader, line, *first, *second),
        Said::Ranges(first, second) => take_ranges(reader, line, *first, *second),
        Said::Bound(bound) => take_bound(reader, line, *bound),
    }
}

// Reads a line and takes it in.
fn take_line<'a>(
    alloc: Global,
    reader: &mut Reader,
    bytes: &'a [u8],
    line: &Line,
    spans: &mut Vec<Span>,
    context: &mut Context<'a>,
) -> Result<(), ReadFault>
    requires in_order { line.now.from ≤ line.now.to }
    requires within { line.now.to ≤ length bytes.now }
    ensures takes { (front : List Record) → context_shown context.old ≡ context_of front → TakesAll reader.old reader.new line.now.number (steps_of front (record_at bytes.now line.now context.old)) result }
    ensures context { OnOk result ((front : List Record) → context_shown context.old ≡ context_of front → context_shown context.new ≡ context_of (front ++ record_at bytes.now line.now context.old ∷ [])) }
{
    let said = read_line(bytes, line, spans, context)?;
    take_said(alloc, reader, line.number, &said)
}

// The number of the last line, or 1 where there is none, by that of the line after it.
fn last_line(next: u32) -> u32
    ensures { result ≡ max 1 (next - 1) }
{
    if next > 1 {
        return next - 1;
    }
    1
}

// Whether the model has ended.
fn is_end(section: Section) -> bool
    ensures { result ≡ is_section Section.End section }
{
    matches!(section, Section::End)
}

/// Reads the lines of a text up to the end of its model, into a reader that has read nothing.
pub fn read_lines(alloc: Global, reader: &mut Reader, bytes: &[u8]) -> Result<(), ReadFault>
    requires short { length bytes.now < 2 ^ 31 }
    requires new { Holds reader.old [] }
    ensures { MatchResult result
        (λ _. (mps_fault bytes.now ≡ None) × Holds reader.new (map (λ p. p.step) (all_steps bytes.now)))
        (IsFaultOf (mps_fault bytes.now)) }
{
    let mut context = Context::start();
    let mut spans = Vec::new(alloc);
    let mut at = 0;
    let mut number = 1;
    while let Some(line) = next_line(bytes, at, number) {
        take_line(alloc, reader, bytes, &line, &mut spans, &mut context)?;
        if is_end(context.section) {
            return Ok(());
        }
        at = after_line(bytes, &line);
        number += 1;
    }
    Err(refusal(last_line(number), ReadKind::Truncated))
}
