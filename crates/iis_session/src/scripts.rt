//! Scripts: a command a line.
ghost use Rattle.std.specs.Prelude.{◌≡◌, ◌<◌, ◌==◌, ◌||◌, All, List, ℕ, length, IfOk, IfErr, None};
ghost use Rattle.text_fields.specs.Lines.{lines_of};
ghost use Rattle.report_text.specs.Form.{IsCommand};
ghost use Rattle.phrase_reader.specs.Commands.{command_of, IsCommandStop};
ghost use Rattle.iis_session.specs.Scripts.{is_remark, is_blank_line, said_by, saying_of, commands_of, first_bad, IsScriptStop, Takes, IsLineStop, ScriptLaw};
ghost use Rattle.iis_session.specs.declared.scripts.ScriptStop.TheVariants.{Memory as ScriptMemory};

use phrase_reader::{CommandStop, read_command};
use report_text::{Command, Script};
use std::alloc::{AllocError, AllocFailed, Global};
use text_fields::{after_line, next_line};
use thiserror::Error;

// The most bytes that a line may have, its end not counted.
const LONGEST_LINE: usize = 65_536;

// The most commands that a script may have.
const MOST_COMMANDS: usize = 10_000;

/// What a line says: nothing, a command, or what is neither.
#[derive(Drop)]
pub(crate) enum Saying {
    Nothing,
    Says(Command),
    Bad,
}

/// Why a text was not read as a script: its first bad line, by its number from 1, or want of memory.
#[derive(Clone, Copy, Debug, Error)]
pub enum ScriptStop {
    #[error("bad line {0}")]
    BadLine(u32),
    #[error("want of memory")]
    Memory,
}

impl From<AllocError> for ScriptStop {
    ghost from_gives = { λ _ stop. stop ≡ ScriptMemory };

    fn from(_refused: AllocError) -> ScriptStop {
        ScriptStop::Memory
    }
}

impl<T: Drop> From<AllocFailed<T>> for ScriptStop {
    ghost from_gives = { λ _ stop. stop ≡ ScriptMemory };

    fn from(_refused: AllocFailed<T>) -> ScriptStop {
        ScriptStop::Memory
    }
}

// Whether a line begins with `#`.
fn begins_a_remark(text: &[u8]) -> bool
    ensures { result ≡ is_remark text.now }
{
    match text {
        [first, ..] => *first == b'#',
        [] => false,
    }
}

// Whether a line has blanks alone.
fn has_only_blanks(text: &[u8]) -> bool
    ensures { result ≡ is_blank_line text.now }
{
    text.iter()
        .all(|b| *b == b' ' || *b == b'\t' || *b == b'\r')
}

// What a line says that was not read as a command.
fn refused(stop: CommandStop) -> Result<Saying, AllocError>
    ensures { (line : List ℕ) → IsCommandStop line stop → IfOk result (λ saying. saying ≡ said_by (command_of line)) }
{
    match stop {
        CommandStop::Bad => Ok(Saying::Bad),
        CommandStop::Memory => Err(AllocError),
    }
}

// What a line says.
fn read_line(alloc: Global, text: &[u8]) -> Result<Saying, AllocError>
    ensures { IfOk result (λ saying. saying ≡ saying_of text.now) }
{
    if text.len() > LONGEST_LINE {
        return Ok(Saying::Bad);
    }
    if begins_a_remark(text) {
        return Ok(Saying::Nothing);
    }
    if has_only_blanks(text) {
        return Ok(Saying::Nothing);
    }
    match read_command(alloc, text) {
        Ok(command) => Ok(Saying::Says(command)),
        Err(stop) => refused(stop),
    }
}

// Takes what a line says.
fn take(saying: Saying, number: u32, commands: &mut Vec<Command>) -> Result<(), ScriptStop>
    ensures taken { IfOk result (λ _. Takes saying commands.old.items commands.new.items) }
    ensures stop { IfErr result (IsLineStop number saying commands.old.items) }
{
    match saying {
        Saying::Nothing => Ok(()),
        Saying::Bad => Err(ScriptStop::BadLine(number)),
        Saying::Says(command) => {
            if commands.len() >= MOST_COMMANDS {
                return Err(ScriptStop::BadLine(number));
            }
            commands.push(command)?;
            Ok(())
        }
    }
}

/// Reads a script: each line is a command, or is passed over.
///
/// Blank lines are passed over, and lines that begin with `#`, whatever their bytes are. The last line may lack its byte 10.
/// A number may be written otherwise than it is printed, so that a command's own text may be longer than its line.
///
/// `BadLine` has the number, from 1, of the first line that is neither passed over nor a command, that has more than
/// 65,536 bytes, or that holds the 10,001st command. `Memory` comes where memory was refused.
pub fn read_script(alloc: Global, bytes: &[u8]) -> Result<Script, ScriptStop>
    requires { length bytes.now < 2147483648 }
    // The script is the commands of the lines.
    ensures read { IfOk result (λ script. script ≡ commands_of (lines_of bytes.now)) }
    // No line is bad.
    ensures right { IfOk result (λ _. first_bad (lines_of bytes.now) ≡ None) }
    // Each command is one that a script may have.
    ensures built { IfOk result (All IsCommand) }
    // A stop comes where it is to.
    ensures stop { IfErr result (IsScriptStop bytes.now) }
{
    let mut commands = Vec::new(alloc);
    let mut at = 0;
    let mut number: u32 = 1;
    while let Some(line) = next_line(bytes, at, number) {
        let saying = read_line(alloc, &bytes[line.from..line.to])?;
        take(saying, number, &mut commands)?;
        at = after_line(bytes, &line);
        number += 1;
    }
    Ok(Script { commands })
}

/// Where no line is bad the lines are right; the first bad line is the first by which they are not; and each command of lines
/// is one that a script may have. It does nothing when it runs.
pub fn script_law()
    ensures { ScriptLaw }
{}
