//! What a line says.
ghost use Rattle.std.specs.Prelude.{◌≡◌, ◌≤◌, ◌<◌, ℕ, List, Some, drop, length, MatchResult};
ghost use Rattle.text_fields.specs.Fields.{fields_of};
ghost use Rattle.mps_lines.specs.Records.{Record};
ghost use Rattle.mps_lines.specs.Shapes.{sense_word};
ghost use Rattle.mps_lines.specs.Contexts.{context_of};
ghost use Rattle.mps_lines.specs.Steps.{bare_further, further_steps, row_data, sense_data, sense_further, sense_steps};
ghost use Rattle.mps_lines.specs.Said.{AreFields, Gives, HasShape, IsRefusal, Leads, LeadsHeading, LeadsLine, Says, context_shown, record_at, steps_said};

use crate::contexts::{Context, first_set, is_set_used};
use crate::data::{ColumnsRead, bound_read, columns_read, first_field, set_read};
use crate::fielding::{Fields, counted};
use crate::sections::{Section, follows, section_named};
use crate::shapes::{Bounded, Figure, RowKind, row_kind, sense_named};
use lane_scan::is_blank_byte;
use text_fields::{Line, ReadFault, ReadKind, ReadStop, Span, fields};

/// What a line says that is not refused. A header and a marker change how the next line is read, and say nothing
/// themselves.
#[derive(Clone, Copy)]
pub enum Said<'a> {
    Nothing,
    /// Whether the objective is to be made greatest.
    Sense(bool),
    Row(RowKind, &'a [u8]),
    /// A column, which is whole if it is new and this says so, and its numbers in one row or two.
    Entries(&'a [u8], bool, Figure<'a>, Option<Figure<'a>>),
    Sides(Figure<'a>, Option<Figure<'a>>),
    Ranges(Figure<'a>, Option<Figure<'a>>),
    Bound(Bounded<'a>),
}

// ---- headers

// The sense that a word says.
fn sense_said(word: &[u8]) -> Result<Said<'_>, ReadKind>
    ensures { Gives (sense_steps (sense_word word.now)) result }
{
    match sense_named(word) {
        Some(greatest) => Ok(Said::Sense(greatest)),
        None => Err(ReadKind::BadField),
    }
}

// At most one word after OBJSENSE.
fn sense_header(fields: Fields<'_>) -> Result<Said<'_>, ReadKind>
    ensures { (fs : List (List ℕ)) → AreFields fields.entry fs → Gives (sense_further (drop 1 fs)) result }
{
    match fields {
        Fields::Zero | Fields::One(_) => Ok(Said::Nothing),
        Fields::Two(_, word) => sense_said(word),
        _ => Err(ReadKind::BadField),
    }
}

// Nothing after a header.
fn bare_header(fields: Fields<'_>) -> Result<Said<'_>, ReadKind>
    ensures { (fs : List (List ℕ)) → AreFields fields.entry fs → Gives (bare_further (drop 1 fs)) result }
{
    match fields {
        Fields::Zero | Fields::One(_) => Ok(Said::Nothing),
        _ => Err(ReadKind::BadField),
    }
}

// What follows on a header's line.
fn further(next: Section, fields: Fields<'_>) -> Result<Said<'_>, ReadKind>
    ensures { (fs : List (List ℕ)) → AreFields fields.entry fs → Gives (further_steps next (drop 1 fs)) result }
{
    match next {
        Section::Name => Ok(Said::Nothing),
        Section::Sense => sense_header(fields),
        _ => bare_header(fields),
    }
}

// A header.
fn header<'a>(context: Context<'a>, fields: Fields<'a>) -> Result<(Said<'a>, Context<'a>), ReadKind>
    ensures { (fs : List (List ℕ)) → AreFields fields.entry fs → LeadsHeading context.entry fs result }
{
    let Some(word) = first_field(fields) else {
        return Err(ReadKind::Unsupported);
    };
    let Some(next) = section_named(word) else {
        return Err(ReadKind::Unsupported);
    };
    if !follows(context.section, next) {
        return Err(ReadKind::Order);
    }
    let said = further(next, fields)?;
    Ok((
        said,
        Context {
            section: next,
            ..context
        },
    ))
}

// ---- data

// A line of OBJSENSE.
fn sense_line(fields: Fields<'_>) -> Result<Said<'_>, ReadKind>
    ensures { (fs : List (List ℕ)) → AreFields fields.entry fs → Gives (sense_data fs) result }
{
    let Fields::One(word) = fields else {
        return Err(ReadKind::BadField);
    };
    sense_said(word)
}

// A line of ROWS.
fn row_line(fields: Fields<'_>) -> Result<Said<'_>, ReadKind>
    ensures { (fs : List (List ℕ)) → AreFields fields.entry fs → Gives (row_data fs) result }
{
    let Fields::Two(word, name) = fields else {
        return Err(ReadKind::BadField);
    };
    let Some(kind) = row_kind(word) else {
        return Err(ReadKind::BadField);
    };
    Ok(Said::Row(kind, name))
}

// A line of COLUMNS.
fn columns_line<'a>(
    context: Context<'a>,
    fields: Fields<'a>,
) -> Result<(Said<'a>, Context<'a>), ReadKind>
    requires { context.section ≡ Section.Columns }
    ensures { (fs : List (List ℕ)) → AreFields fields.entry fs → Leads context.entry fs result }
{
    let Some(line) = columns_read(fields) else {
        return Err(ReadKind::BadField);
    };
    match line {
        ColumnsRead::Marker(marked) => Ok((Said::Nothing, Context { marked, ..context })),
        ColumnsRead::Entries(column, first, second) => {
            let said = Said::Entries(column, context.marked, first, second);
            Ok((said, context))
        }
    }
}

// A line of RHS.
fn sides_line<'a>(
    context: Context<'a>,
    fields: Fields<'a>,
) -> Result<(Said<'a>, Context<'a>), ReadKind>
    requires { context.section ≡ Section.Sides }
    ensures { (fs : List (List ℕ)) → AreFields fields.entry fs → Leads context.entry fs result }
{
    let Some(line) = set_read(fields) else {
        return Err(ReadKind::BadField);
    };
    let sides = first_set(context.sides, line.set);
    let next = Context { sides, ..context };
    if !is_set_used(sides, line.set) {
        return Ok((Said::Nothing, next));
    }
    Ok((Said::Sides(line.first, line.second), next))
}

// A line of RANGES.
fn ranges_line<'a>(
    context: Context<'a>,
    fields: Fields<'a>,
) -> Result<(Said<'a>, Context<'a>), ReadKind>
    requires { context.section ≡ Section.Ranges }
    ensures { (fs : List (List ℕ)) → AreFields fields.entry fs → Leads context.entry fs result }
{
    let Some(line) = set_read(fields) else {
        return Err(ReadKind::BadField);
    };
    let ranges = first_set(context.ranges, line.set);
    let next = Context { ranges, ..context };
    if !is_set_used(ranges, line.set) {
        return Ok((Said::Nothing, next));
    }
    Ok((Said::Ranges(line.first, line.second), next))
}

// A line of BOUNDS.
fn bounds_line<'a>(
    context: Context<'a>,
    fields: Fields<'a>,
) -> Result<(Said<'a>, Context<'a>), ReadKind>
    requires { context.section ≡ Section.Bounds }
    ensures { (fs : List (List ℕ)) → AreFields fields.entry fs → Leads context.entry fs result }
{
    let line = bound_read(fields)?;
    let bounds = first_set(context.bounds, line.set);
    let next = Context { bounds, ..context };
    if !is_set_used(bounds, line.set) {
        return Ok((Said::Nothing, next));
    }
    Ok((Said::Bound(line.bound), next))
}

// A data line.
fn data<'a>(context: Context<'a>, fields: Fields<'a>) -> Result<(Said<'a>, Context<'a>), ReadKind>
    ensures { (fs : List (List ℕ)) → AreFields fields.entry fs → Leads context.entry fs result }
{
    match context.section {
        Section::Sense => Ok((sense_line(fields)?, context)),
        Section::Rows => Ok((row_line(fields)?, context)),
        Section::Columns => columns_line(context, fields),
        Section::Sides => sides_line(context, fields),
        Section::Ranges => ranges_line(context, fields),
        Section::Bounds => bounds_line(context, fields),
        Section::Start | Section::Name | Section::End => Err(ReadKind::Order),
    }
}

// ---- lines

// How a line is to be looked at.
#[derive(Clone, Copy, PartialEq, Eq)]
enum Shape {
    PassedOver,
    Header,
    Data,
}

// Whether a line says nothing, is a header, or has data.
fn shape_of(text: &[u8], count: usize) -> Shape
    requires { count ≡ length (fields_of text.now) }
    ensures { HasShape text.now result }
{
    if count == 0 || text.is_empty() {
        return Shape::PassedOver;
    }
    if text[0] == b'*' {
        return Shape::PassedOver;
    }
    if is_blank_byte(text[0]) {
        return Shape::Data;
    }
    Shape::Header
}

// What the fields of a line say.
fn fields_said<'a>(
    shape: Shape,
    context: Context<'a>,
    fields: Fields<'a>,
) -> Result<(Said<'a>, Context<'a>), ReadKind>
    ensures { (r : Record) → AreFields fields.entry (fields_of r.text) → HasShape r.text shape → r.section ≡ context.entry.section → LeadsLine context.entry r result }
{
    match shape {
        Shape::PassedOver => Ok((Said::Nothing, context)),
        Shape::Header => header(context, fields),
        Shape::Data => data(context, fields),
    }
}

/// Reads a line; `context` then tells how the next line is to be read. `spans` is only room to work in.
///
/// # Errors
///
/// The line's own fault: `LongLine`, then `ForeignByte`; `Unsupported` for an unknown header or a semi-continuous
/// bound; `Order` for a header out of its order and for data where there is none; `BadField` for a wrong count of fields
/// or a word that is none; and want of memory.
pub fn read_line<'a>(
    bytes: &'a [u8],
    line: &Line,
    spans: &mut Vec<Span>,
    context: &mut Context<'a>,
) -> Result<Said<'a>, ReadFault>
    requires in_order { line.now.from ≤ line.now.to }
    requires within { line.now.to ≤ length bytes.now }
    ensures { (front : List Record) → context_shown context.old ≡ context_of front → MatchResult result
        (λ said. Says front (record_at bytes.now line.now context.old) (steps_said said) context.new)
        (IsRefusal front (record_at bytes.now line.now context.old)) }
{
    spans.clear();
    fields(bytes, line, spans)?;
    let shape = shape_of(&bytes[line.from..line.to], spans.len());
    match fields_said(shape, *context, counted(bytes, spans)) {
        Ok((said, next)) => {
            *context = next;
            Ok(said)
        }
        Err(kind) => Err(ReadFault::Stop(ReadStop {
            line: line.number,
            kind,
        })),
    }
}
