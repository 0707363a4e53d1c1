//! The printed lines of a command with its answer.

ghost use Rattle.std.specs.Prelude.{◌≡◌, ◌++◌, OnErr, OnOk, ℕ};
ghost use Rattle.report_text.specs.Grammar.{entry_phrases, phrases_text};
ghost use Rattle.report_printer.specs.Numbers.{HasNumbersWithin};
ghost use Rattle.report_printer.specs.Printing.{IsKnownAnswer};

use crate::answers::put_answer;
use crate::commands::put_command;
use crate::words::{append, push_word};
use lp_model::Model;
use report_text::{Answer, Command};
use std::alloc::AllocError;

// Appends the lines of a command and its answer.
fn put_entry(
    model: &Model,
    command: &Command,
    answer: &Answer,
    into: &mut Vec<u8>,
) -> Result<(), AllocError>
    requires { IsKnownAnswer model.now answer.now }
    ensures text { (line : ℕ) → OnOk result (into.new.items ≡ into.old.items ++ phrases_text model.now (entry_phrases model.now (record { command = command.now; answer = answer.now; line = line }))) }
    ensures within { OnOk result (HasNumbersWithin answer.now) }
{
    push_word(b"command", into)?;
    put_command(command, into)?;
    into.push(b'\n')?;
    put_answer(model, answer, into)
}

/// Appends the lines of a command and its answer, with the numbers that `print_answer` prints. Where memory is refused,
/// the bytes are those that were there.
pub fn print_entry(
    model: &Model,
    command: &Command,
    answer: &Answer,
    into: &mut Vec<u8>,
) -> Result<(), AllocError>
    requires { IsKnownAnswer model.now answer.now }
    ensures text { (line : ℕ) → OnOk result (into.new.items ≡ into.old.items ++ phrases_text model.now (entry_phrases model.now (record { command = command.now; answer = answer.now; line = line }))) }
    ensures kept { OnErr result (into.new.items ≡ into.old.items) }
    ensures within { OnOk result (HasNumbersWithin answer.now) }
{
    let mut lines = Vec::new(*into.allocator());
    put_entry(model, command, answer, &mut lines)?;
    append(lines.as_slice(), into)
}
