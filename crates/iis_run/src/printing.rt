//! The lines that are printed.
ghost use Rattle.std.specs.Prelude.{◌≡◌, ◌++◌, [], ◌∷◌, IfOk, OnOk, decimal};
ghost use Rattle.iis_run.specs.Lines.{read_fault_line, too_long_line, bad_report_line, bad_script_line, kind_word, model_refused_line, text_word, accepted_line, rejected_line, wide_line};
ghost use Rattle.iis_run.specs.Plans.{count_line};
ghost use Rattle.iis_run.specs.Said.{line_of};
ghost use Rattle.iis_run.specs.declared.endings.Ending.{Ending};
ghost use Rattle.report_text.specs.Grammar.{op_word};

use crate::endings::Which;
use cert_check::Outcome;
use frac128::{Op, Wide};
use itoa::Buffer;
use std::alloc::{AllocError, Global};
use text_fields::{ReadKind, ReadStop, TextKind};

pub(crate) const USAGE: &str = "usage: iisan analyse MODEL SCRIPT | verify MODEL REPORT | make N\n";

pub(crate) fn read_fault_text(which: Which) -> &'static str
    ensures { result.now ≡ read_fault_line which }
{
    match which {
        Which::Model => "read fault model\n",
        Which::Report => "read fault report\n",
        Which::Script => "read fault script\n",
    }
}

pub(crate) fn too_long_text(which: Which) -> &'static str
    ensures { result.now ≡ too_long_line which }
{
    match which {
        Which::Model => "too long model\n",
        Which::Report => "too long report\n",
        Which::Script => "too long script\n",
    }
}

fn op_text(op: Op) -> &'static str
    ensures { result.now ≡ op_word op }
{
    match op {
        Op::Plus => "plus",
        Op::Minus => "minus",
        Op::Times => "times",
        Op::Over => "over",
    }
}

// Appends words and a whole number.
fn print_part(words: &[u8], number: u64, into: &mut Vec<u8>) -> Result<(), AllocError>
    ensures { OnOk result (into.new.items ≡ into.old.items ++ (words.now ++ decimal number)) }
{
    let mut buffer = Buffer::new();
    into.extend_from_slice(words)?;
    into.extend_from_slice(buffer.format(number).as_bytes())
}

/// Appends a line of a word and a number.
pub(crate) fn print_count(word: &[u8], number: u64, into: &mut Vec<u8>) -> Result<(), AllocError>
    ensures { OnOk result (into.new.items
        ≡ into.old.items ++ (count_line word.now number ++ 10 ∷ [])) }
{
    into.extend_from_slice(word)?;
    print_part(b" ", number, into)?;
    into.push(b'\n')?;
    Ok(())
}

// The word of a fault of a text.
fn text_kind_word(kind: TextKind) -> &'static str
    ensures { result.now ≡ text_word kind }
{
    match kind {
        TextKind::ForeignByte => "foreign byte",
        TextKind::LongLine => "long line",
        TextKind::BadNumber => "bad number",
        TextKind::NumberWide => "number wide",
    }
}

// The word of a fault of a model.
fn read_kind_word(kind: ReadKind) -> &'static str
    ensures { result.now ≡ kind_word kind }
{
    match kind {
        ReadKind::Text(kind) => text_kind_word(kind),
        ReadKind::Order => "order",
        ReadKind::UnknownName => "unknown name",
        ReadKind::DuplicateName => "duplicate name",
        ReadKind::DuplicateEntry => "duplicate entry",
        ReadKind::Unsupported => "unsupported",
        ReadKind::BadField => "bad field",
        ReadKind::Truncated => "truncated",
        ReadKind::Limit => "limit",
        ReadKind::SumWide => "sum wide",
    }
}

/// The line of a refused model: the line and the kind of its first fault.
pub(crate) fn print_model_refused(alloc: Global, stop: ReadStop) -> Result<Vec<u8>, AllocError>
    ensures { IfOk result (λ text. text.items ≡ model_refused_line stop) }
{
    let mut text = Vec::new(alloc);
    print_part(b"model refused line ", u64::from(stop.line), &mut text)?;
    text.push(b' ')?;
    text.extend_from_slice(read_kind_word(stop.kind).as_bytes())?;
    text.push(b'\n')?;
    Ok(text)
}

/// The line that names a line of the report with which no report goes on.
pub(crate) fn print_bad_report(alloc: Global, line: u32) -> Result<Vec<u8>, AllocError>
    ensures { IfOk result (λ text. text.items ≡ bad_report_line line) }
{
    let mut text = Vec::new(alloc);
    print_part(b"report refused line ", u64::from(line), &mut text)?;
    text.push(b'\n')?;
    Ok(text)
}

/// The line that names the first bad line of a script.
pub(crate) fn print_bad_script(alloc: Global, line: u32) -> Result<Vec<u8>, AllocError>
    ensures { IfOk result (λ text. text.items ≡ bad_script_line line) }
{
    let mut text = Vec::new(alloc);
    print_part(b"script refused line ", u64::from(line), &mut text)?;
    text.push(b'\n')?;
    Ok(text)
}

// The line of an accepted report.
fn print_accepted(alloc: Global, settled: u64, unsettled: u64) -> Result<Vec<u8>, AllocError>
    ensures { IfOk result (λ text. text.items ≡ accepted_line settled unsettled) }
{
    let mut text = Vec::new(alloc);
    print_part(b"accepted settled ", settled, &mut text)?;
    print_part(b" unsettled ", unsettled, &mut text)?;
    text.push(b'\n')?;
    Ok(text)
}

// The line that names a line of the report that fails.
fn print_rejected(alloc: Global, line: u32) -> Result<Vec<u8>, AllocError>
    ensures { IfOk result (λ text. text.items ≡ rejected_line line) }
{
    let mut text = Vec::new(alloc);
    print_part(b"rejected line ", u64::from(line), &mut text)?;
    text.push(b'\n')?;
    Ok(text)
}

// The line that names an operation that is too wide, and the line of the report on which it is.
fn print_wide(alloc: Global, line: u32, wide: Wide) -> Result<Vec<u8>, AllocError>
    ensures { IfOk result (λ text. text.items ≡ wide_line line wide) }
{
    let mut text = Vec::new(alloc);
    print_part(b"wide line ", u64::from(line), &mut text)?;
    text.push(b' ')?;
    text.extend_from_slice(op_text(wide.op).as_bytes())?;
    text.push(b' ')?;
    wide.left.print(&mut text)?;
    text.push(b' ')?;
    wide.right.print(&mut text)?;
    text.push(b'\n')?;
    Ok(text)
}

/// The line of a check.
///
/// # Errors
///
/// Where memory is refused, or was refused to the check.
pub(crate) fn print_outcome(alloc: Global, outcome: Outcome) -> Result<Vec<u8>, AllocError>
    ensures { IfOk result (λ text. text.items ≡ line_of (Ending.Checked outcome)) }
{
    match outcome {
        Outcome::Accepted { settled, unsettled } => print_accepted(alloc, settled, unsettled),
        Outcome::Rejected { line } => print_rejected(alloc, line),
        Outcome::Wide { line, wide } => print_wide(alloc, line, wide),
        Outcome::Memory => Err(AllocError),
    }
}
