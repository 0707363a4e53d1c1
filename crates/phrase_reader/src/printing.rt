//! Whether commands in reports are written as they are printed.
ghost use Rattle.std.specs.Prelude.{◌≡◌, decimal, map};
ghost use Rattle.std.specs.Bool.{Decides};
ghost use Rattle.frac128.specs.Printed.{printed};
ghost use Rattle.report_text.specs.Grammar.{limit_word, weight_word};
ghost use Rattle.phrase_reader.specs.Parts.{last_word};
ghost use Rattle.phrase_reader.specs.Words.{IsPlain, IsPlainEdit};

use crate::naming::fraction_of;
use frac128::{Exact, Frac};
use itoa::Buffer;
use lp_model::Weight;
use report_text::{Command, EditKind};
use text_fields::is_word;

// Whether the count is printed so.
fn is_count(word: &[u8], count: u64) -> bool
    ensures { Decides result (word.now ≡ decimal count) }
{
    let mut buffer = Buffer::new();
    word == buffer.format(count).as_bytes()
}

// Whether the number is printed so.
fn is_fraction(word: &[u8], value: Frac) -> bool
    ensures { Decides result (word.now ≡ printed value) }
{
    // That the number fits is told with its widening.
    let value = value.widen();
    let Some(read) = fraction_of(word) else {
        return false;
    };
    read == value
}

// Whether the side or the bound is printed so.
fn is_limit(word: &[u8], limit: Option<Frac>) -> bool
    ensures { Decides result (word.now ≡ limit_word limit) }
{
    match limit {
        Some(value) => is_fraction(word, value),
        None => is_word(word, b"none"),
    }
}

// Whether the weight is printed so.
fn is_weight(word: &[u8], weight: Weight) -> bool
    ensures { Decides result (word.now ≡ weight_word weight) }
{
    match weight {
        Weight::Soft(value) => is_fraction(word, value),
        Weight::Rigid => is_word(word, b"rigid"),
    }
}

// Whether the number of an edit, if it has one, is printed so.
fn is_printed_edit(word: &[u8], kind: EditKind) -> bool
    ensures { Decides result (IsPlainEdit word.now kind) }
{
    match kind {
        EditKind::Weigh(_, weight) => is_weight(word, weight),
        EditKind::SetSide(_, limit) => is_limit(word, limit),
        EditKind::SetBound(_, limit) => is_limit(word, limit),
        _ => true,
    }
}

// Whether the number of a command, if it has one, is printed so.
fn is_printed_number(word: &[u8], command: &Command) -> bool
    ensures { Decides result (IsPlain word.now command.now) }
{
    match command {
        Command::Pivots(most) => is_count(word, *most),
        Command::Nodes(most) => is_count(word, *most),
        Command::Edit(edit) => is_printed_edit(word, edit.kind),
        _ => true,
    }
}

/// Whether the last of the words of a command is printed so.
pub(crate) fn is_printed(words: &[&[u8]], command: &Command) -> bool
    ensures { Decides result (IsPlain (last_word (map (λ w. w.now) words.now)) command.now) }
{
    match words {
        [.., last] => is_printed_number(last, command),
        [] => is_printed_number(b"", command),
    }
}
