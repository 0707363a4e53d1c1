//! What a line says.
ghost use Rattle.std.specs.Prelude.{◌≡◌, IfOk, MatchOption, None, Some, find};
ghost use Rattle.lp_model.specs.Program.{Program};
ghost use Rattle.report_text.specs.Grammar.{no_given};
ghost use Rattle.phrase_reader.specs.Parts.{words_left};
ghost use Rattle.phrase_reader.specs.Phrases.{Says};
ghost use Rattle.phrase_reader.specs.Words.{Finds, IsSpelled, begins, fits as may_be, given_in, kind_in, line_said, starts, word_in};

use crate::commands::command_in;
use crate::naming::{
    column_of, count_of, member_of, met_of, nonzero_of, noted_of, op_of, positive_of,
    printed_fraction, row_of, site_of, source_of, split_of, whole_of,
};
use crate::parts::{all_words, first_word};
use crate::printing::is_printed;
use lp_model::Model;
use report_text::{
    Given, KEYWORDS, Keyword, Kind, Phrase, Word, fixed_word, kinds, nothing, phrase_with, spelling,
};
use std::alloc::{AllocError, Global};
use text_fields::is_word;

// What is given, where the word is this one.
fn fixed(word: &[u8], other: Word, given: Given) -> Option<Given>
    ensures { (model : Program) → result ≡ word_in model (Kind.Word other) word.now given }
{
    is_word(word, fixed_word(other).as_bytes()).then_some(given)
}

// What is given with the word of a kind.
fn read_word(model: &Model, kind: Kind, word: &[u8], given: Given) -> Option<Given>
    ensures { result ≡ word_in model.now kind word.now given }
{
    match kind {
        Kind::Word(other) => fixed(word, other, given),
        Kind::Row => Some(Given {
            row: row_of(model, word)?,
            ..given
        }),
        Kind::Column => Some(Given {
            column: column_of(model, word)?,
            ..given
        }),
        Kind::Member | Kind::Source => None,
        Kind::Side => Some(Given {
            side: met_of(word)?,
            ..given
        }),
        Kind::Site => Some(Given {
            site: site_of(word)?,
            ..given
        }),
        Kind::Op => Some(Given {
            op: op_of(word)?,
            ..given
        }),
        Kind::Noted => Some(Given {
            kept: noted_of(word)?,
            ..given
        }),
        Kind::Fraction => Some(Given {
            value: printed_fraction(word)?,
            ..given
        }),
        Kind::Nonzero => Some(Given {
            value: nonzero_of(word)?,
            ..given
        }),
        Kind::Positive => Some(Given {
            value: positive_of(word)?,
            ..given
        }),
        Kind::Right => Some(Given {
            right: printed_fraction(word)?,
            ..given
        }),
        Kind::Whole => Some(Given {
            at: whole_of(word)?,
            ..given
        }),
        Kind::Split => Some(Given {
            at: split_of(word)?,
            ..given
        }),
        Kind::Count => Some(Given {
            count: count_of(word)?,
            ..given
        }),
        Kind::Second => Some(Given {
            second: count_of(word)?,
            ..given
        }),
    }
}

// What is given with the words of a kind, and what is left behind them.
fn read_kind<'a>(
    model: &Model,
    kind: Kind,
    left: Option<&'a [u8]>,
    given: Given,
) -> Option<(Given, Option<&'a [u8]>)>
    ensures { MatchOption result
        (kind_in model.now kind (words_left left.entry) given ≡ None)
        (λ r. kind_in model.now kind (words_left left.entry) given ≡ Some (r.0, words_left r.1)) }
{
    let (word, rest) = first_word(left?);
    match kind {
        Kind::Member => {
            let (name, rest) = first_word(rest?);
            Some((
                Given {
                    member: member_of(model, word, name)?,
                    ..given
                },
                rest,
            ))
        }
        Kind::Source => {
            let (name, rest) = first_word(rest?);
            Some((
                Given {
                    source: source_of(model, word, name)?,
                    ..given
                },
                rest,
            ))
        }
        _ => Some((read_word(model, kind, word, given)?, rest)),
    }
}

// What is given with the words that are left of a line, by their kinds.
fn read_given(model: &Model, kinds: &[Kind], rest: Option<&[u8]>) -> Option<Given>
    ensures { result ≡ given_in model.now kinds.now (words_left rest.entry) no_given }
{
    let mut given = nothing();
    let mut left = rest;
    for kind in kinds {
        let Some((next, behind)) = read_kind(model, *kind, left, given) else {
            return None;
        };
        given = next;
        left = behind;
    }
    if left.is_some() {
        return None;
    }
    Some(given)
}

// Whether a word may be of the kind.
fn may_start(kind: Kind, word: &[u8]) -> bool
    ensures { result ≡ starts kind word.now }
{
    match kind {
        Kind::Word(other) => is_word(word, fixed_word(other).as_bytes()),
        _ => true,
    }
}

// Whether words may be of such kinds, by the first.
fn fits(kinds: &[Kind], rest: Option<&[u8]>) -> bool
    ensures { result ≡ may_be kinds.now (words_left rest.entry) }
{
    let [first, ..] = kinds else {
        return rest.is_none();
    };
    let Some(text) = rest else {
        return false;
    };
    may_start(*first, first_word(text).0)
}

// Whether a word is the keyword's, and what is left behind it may be.
fn is_front(first: &[u8], rest: Option<&[u8]>, keyword: Keyword) -> bool
    ensures { result ≡ begins first.now (words_left rest.entry) keyword }
{
    is_word(first, spelling(keyword).as_bytes()) && fits(kinds(keyword), rest)
}

// The first of these keywords that a line begins with.
fn keyword_among(first: &[u8], rest: Option<&[u8]>, keywords: &[Keyword]) -> Option<Keyword>
    ensures { result ≡ find (begins first.now (words_left rest.entry)) keywords.now }
{
    for keyword in keywords {
        if is_front(first, rest, *keyword) {
            return Some(*keyword);
        }
    }
    None
}

// What the words of a line say that is not that of a command.
fn read_row(model: &Model, first: &[u8], rest: Option<&[u8]>) -> Option<Phrase>
    ensures { result ≡ line_said model.now first.now (words_left rest.entry) }
{
    let keyword = keyword_among(first, rest, &KEYWORDS)?;
    let given = read_given(model, kinds(keyword), rest)?;
    phrase_with(keyword, &given)
}

// A command that is written as it is printed.
fn read_command(alloc: Global, rest: Option<&[u8]>) -> Result<Option<Phrase>, AllocError>
    ensures { (model : Program) → IfOk result (Finds (IsSpelled model Keyword.Command (words_left rest.entry))) }
{
    let words = all_words(alloc, rest)?;
    let Some(command) = command_in(alloc, words.as_slice())? else {
        return Ok(None);
    };
    if !is_printed(words.as_slice(), &command) {
        return Ok(None);
    }
    Ok(Some(Phrase::Command(command)))
}

/// What a line of a report says, which stands without its end: one blank parts its words, names are those of the model,
/// and numbers are written as they are printed.
///
/// `None` comes where no report has such a line, wherever it stands, and `AllocError` where memory was refused for a name
/// in a command.
pub fn read_phrase(alloc: Global, model: &Model, line: &[u8]) -> Result<Option<Phrase>, AllocError>
    ensures { IfOk result (Finds (Says model.now line.now)) }
{
    // That no two rows or columns have one name is told with the count.
    let _rows = model.row_count();
    let (first, rest) = first_word(line);
    if is_word(first, b"command") {
        return read_command(alloc, rest);
    }
    Ok(read_row(model, first, rest))
}
