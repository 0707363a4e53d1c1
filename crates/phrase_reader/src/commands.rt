//! The commands of scripts and of reports.
ghost use Rattle.std.specs.Prelude.{◌≡◌, All, map, IfOk, IfErr, Some};
ghost use Rattle.text_fields.specs.Lines.{text_of};
ghost use Rattle.text_fields.specs.Fields.{IsInside};
ghost use Rattle.report_text.specs.Form.{IsCommand};
ghost use Rattle.phrase_reader.specs.Commands.{lone_command, method_of, iis_command, budget_behind, edit_of, three_command, command_said, command_of, command_stop, IsCommandStop, CommandLaw};
ghost use Rattle.phrase_reader.specs.declared.commands.CommandStop.{CommandStop};

use crate::edits::{read_marking, read_moving, read_setting, read_weighing};
use crate::naming::is_plain;
use crate::numerals::budget_in;
use lp_model::Name;
use report_text::{Command, EditKind, Method, NamedEdit};
use std::alloc::{AllocError, Global};
use text_fields::{FieldStop, Line, Span, fields, is_word};
use thiserror::Error;

/// Why a line was not read as a command: it is none, or memory was refused.
#[derive(Clone, Copy, PartialEq, Eq, Debug, Error)]
pub enum CommandStop {
    #[error("bad command")]
    Bad,
    #[error("want of memory")]
    Memory,
}

impl From<FieldStop> for CommandStop {
    ghost from_gives = { λ stop command. command ≡ command_stop stop };

    fn from(stop: FieldStop) -> CommandStop {
        match stop {
            FieldStop::Text(_) => CommandStop::Bad,
            FieldStop::Memory => CommandStop::Memory,
        }
    }
}

// `check`, `unbounded`, `relax`, `reduce` or `undo`.
fn read_lone(word: &[u8]) -> Option<Command>
    ensures { result ≡ lone_command word.now }
{
    match word {
        _ if is_word(word, b"check") => Some(Command::Check),
        _ if is_word(word, b"unbounded") => Some(Command::Unbounded),
        _ if is_word(word, b"relax") => Some(Command::Relax),
        _ if is_word(word, b"reduce") => Some(Command::Reduce),
        _ if is_word(word, b"undo") => Some(Command::Undo),
        _ => None,
    }
}

// The method that a word names.
fn read_method(word: &[u8]) -> Option<Method>
    ensures { result ≡ method_of word.now }
{
    match word {
        _ if is_word(word, b"deletion") => Some(Method::Deletion),
        _ if is_word(word, b"additive") => Some(Method::Additive),
        _ if is_word(word, b"sensitivity") => Some(Method::Sensitivity),
        _ if is_word(word, b"elastic") => Some(Method::Elastic),
        _ if is_word(word, b"alternative") => Some(Method::Alternative),
        _ => None,
    }
}

// `iis`, and a method.
fn read_search(first: &[u8], second: &[u8]) -> Option<Command>
    ensures { result ≡ iis_command first.now second.now }
{
    if first != b"iis".as_slice() {
        return None;
    }
    Some(Command::Iis(read_method(second)?))
}

// `pivots` or `nodes`, and a number.
fn read_budget(second: &[u8], third: &[u8]) -> Option<Command>
    ensures { result ≡ budget_behind second.now third.now }
{
    if is_word(second, b"pivots") {
        return Some(Command::Pivots(budget_in(third)?));
    }
    if is_word(second, b"nodes") {
        return Some(Command::Nodes(budget_in(third)?));
    }
    None
}

// The edit of that kind of what has the name, which is to be a word.
fn named_edit(
    alloc: Global,
    kind: Option<EditKind>,
    name: &[u8],
) -> Result<Option<Command>, AllocError>
    ensures { IfOk result (λ found. found ≡ edit_of kind name.now) }
{
    if !is_plain(name) {
        return Ok(None);
    }
    let Some(kind) = kind else {
        return Ok(None);
    };
    let name = Name::new(alloc, name)?;
    Ok(Some(Command::Edit(NamedEdit { name, kind })))
}

// A budget, a mark, or what is dropped or kept.
fn read_three(
    alloc: Global,
    first: &[u8],
    second: &[u8],
    third: &[u8],
) -> Result<Option<Command>, AllocError>
    ensures { IfOk result (λ found. found ≡ three_command first.now second.now third.now) }
{
    if is_word(first, b"budget") {
        return Ok(read_budget(second, third));
    }
    if is_word(first, b"mark") {
        return named_edit(alloc, read_marking(third), second);
    }
    named_edit(alloc, read_moving(first, second), third)
}

/// The command that words are, as `read_command` says. `AllocError` where memory was refused for a
/// name.
pub(crate) fn command_in(alloc: Global, words: &[&[u8]]) -> Result<Option<Command>, AllocError>
    ensures { IfOk result (λ found. found ≡ command_said (map (λ w. w.now) words.now)) }
{
    match words {
        [word] => Ok(read_lone(word)),
        [first, second] => Ok(read_search(first, second)),
        [first, second, third] => read_three(alloc, first, second, third),
        [first, second, third, last] => {
            named_edit(alloc, read_weighing(first, second, last), third)
        }
        [first, second, third, side, last] => {
            named_edit(alloc, read_setting(first, second, side, last), third)
        }
        _ => Ok(None),
    }
}

// The fields of a line.
fn words_in<'a>(alloc: Global, text: &'a [u8], spans: &[Span]) -> Result<Vec<&'a [u8]>, AllocError>
    requires { All (IsInside text.now) spans.now }
    ensures { IfOk result (λ words. map (λ w. w.now) words.items ≡ map (text_of text.now) spans.now) }
{
    let mut words = Vec::new(alloc);
    for span in spans {
        words.push(span.text(text))?;
    }
    Ok(words)
}

// What the fields say.
fn read_fields(alloc: Global, text: &[u8], spans: &[Span]) -> Result<Option<Command>, AllocError>
    requires { All (IsInside text.now) spans.now }
    ensures { IfOk result (λ found. found ≡ command_said (map (text_of text.now) spans.now)) }
{
    let words = words_in(alloc, text, spans)?;
    command_in(alloc, words.as_slice())
}

/// The command that a line is, which stands without its end.
///
/// Its fields, which blanks (32, 9 and 13) part, are one of these, in lower case:
///
/// - `check`, `unbounded`, `relax`, `reduce` or `undo`;
/// - `iis` and `deletion`, `additive`, `sensitivity`, `elastic` or `alternative`;
/// - `budget`, `pivots` or `nodes`, and a number of at most 1,000,000 in one digit or more;
/// - `drop` or `keep`; `row`, `rowlo`, `rowup`, `lower`, `upper` or `whole`; and a name;
/// - `weight`; one of these but `whole`; a name; and `rigid` or a value above 0;
/// - `set`; `row` or `column`; a name; `lower` or `upper`; and `none` or a value, where a literal of 10^20 or more in
///   magnitude means `none`, also one that does not fit;
/// - `mark`, a name, and `whole` or `plain`.
///
/// A name is any field of bytes from 33 to 126; the program need not have it. A value is a literal that fits, or a
/// fraction as it is printed. `Bad` is everything else, and so is a line of more than 65,536 bytes. `Memory` comes where
/// memory was refused.
pub fn read_command(alloc: Global, text: &[u8]) -> Result<Command, CommandStop>
    // The line is the command.
    ensures command { IfOk result (λ command. command_of text.now ≡ Some command) }
    // A script may have it.
    ensures built { IfOk result IsCommand }
    // A line that is none is refused as such.
    ensures stop { IfErr result (IsCommandStop text.now) }
{
    let line = Line {
        number: 1,
        from: 0,
        to: text.len(),
    };
    let mut spans = Vec::new(alloc);
    fields(text, &line, &mut spans)?;
    let Ok(found) = read_fields(alloc, text, spans.as_slice()) else {
        return Err(CommandStop::Memory);
    };
    let Some(command) = found else {
        return Err(CommandStop::Bad);
    };
    Ok(command)
}

/// A command of a script is what its own words say, and is read from its own text, where that is at most 65,536 bytes; and
/// no other command is read. It does nothing when it runs.
pub fn command_law()
    ensures { CommandLaw }
{}
