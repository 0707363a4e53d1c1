//! What is left of a report, line by line.
ghost use Rattle.std.specs.Prelude.{◌≡◌, ◌+◌, ◌<◌, ◌∷◌, [], length, is_some, unwrap_or, true, IfSome, MatchOption, None, Ok, Err};
ghost use Rattle.report_reader.specs.declared.reader.ReportStop.TheVariants.{Memory};
ghost use Rattle.report_text.specs.declared.phrases.Phrase.{Phrase as OnePhrase};
ghost use Rattle.phrase_reader.specs.Parts.{parts};
ghost use Rattle.report_reader.specs.Kinds.{word as one_word, IsAhead, IsCursor, IsRead, Passes, Pushes};
ghost use Rattle.report_reader.specs.Things.{phrase_of, is_word as is_word_by, says_word, found, command_of};

use crate::reader::ReportStop;
use lp_model::Model;
use phrase_reader::read_phrase;
use report_text::{Command, Phrase, StopPhrase};
use std::alloc::Global;
use std::mem::replace;
use text_fields::next_line;

/// What a line of one phrase without numbers and names says.
#[derive(Clone, Copy, PartialEq, Eq)]
pub(crate) enum Word {
    Head,
    Feasible,
    Infeasible,
    Irreducible,
    Unbounded,
    Bounded,
    Least,
    RigidInfeasible,
    Reduced,
    Wide,
    Spent,
    Nodes,
    Point,
    Ray,
    Dual,
    Price,
    Proof,
    End,
}

/// The lines from one on. Once reading has stopped, nothing more is read.
#[derive(Drop)]
pub(crate) struct Cursor<'a> {
    /// What the next line says, or why reading stops there.
    pub(crate) ahead: Result<Phrase, ReportStop>,
    /// The number of that line.
    pub(crate) number: u32,
    /// The bytes behind it.
    pub(crate) rest: &'a [u8],
}

// The first line of a text, where its byte 10 ends it, and the bytes after that.
fn whole_line(bytes: &[u8]) -> Option<(&[u8], &[u8])>
    ensures parts { MatchOption result
        (parts 10 bytes.now ≡ bytes.now ∷ [])
        (λ r. parts 10 bytes.now ≡ r.0.now ∷ parts 10 r.1.now) }
    ensures shorter { IfSome result (λ r. length r.1.now < length bytes.now) }
{
    let Some(line) = next_line(bytes, 0, 1) else {
        return None;
    };
    if line.to == bytes.len() {
        return None;
    }
    Some((&bytes[..line.to], &bytes[line.to + 1..]))
}

// The cursor whose next line is the first of a text, and has this number.
fn look<'a>(alloc: Global, model: &Model, bytes: &'a [u8], number: u32) -> Cursor<'a>
    requires { number + length bytes.now < 2147483649 }
    ensures ahead { IsAhead model.now number bytes.now result.ahead result.rest.now }
    ensures number { result.number ≡ number }
    ensures stands { IsCursor model.now result }
{
    let _names = model.row_count();
    let Some((line, rest)) = whole_line(bytes) else {
        return Cursor {
            ahead: Err(ReportStop::Truncated),
            number,
            rest: bytes,
        };
    };
    let Ok(said) = read_phrase(alloc, model, line) else {
        return Cursor {
            ahead: Err(ReportStop::Memory),
            number,
            rest,
        };
    };
    let Some(phrase) = said else {
        return Cursor {
            ahead: Err(ReportStop::BadLine(number)),
            number,
            rest,
        };
    };
    Cursor {
        ahead: Ok(phrase),
        number,
        rest,
    }
}

// Whether a phrase is this one.
fn is_word(word: Word, phrase: &Phrase) -> bool
    ensures { result ≡ is_word_by word phrase.now }
{
    match word {
        Word::Head => matches!(phrase, Phrase::Head),
        Word::Feasible => matches!(phrase, Phrase::Feasible),
        Word::Infeasible => matches!(phrase, Phrase::Infeasible),
        Word::Irreducible => matches!(phrase, Phrase::Irreducible),
        Word::Unbounded => matches!(phrase, Phrase::Unbounded),
        Word::Bounded => matches!(phrase, Phrase::Bounded),
        Word::Least => matches!(phrase, Phrase::Least),
        Word::RigidInfeasible => matches!(phrase, Phrase::RigidInfeasible),
        Word::Reduced => matches!(phrase, Phrase::Reduced),
        Word::Wide => matches!(phrase, Phrase::Stop(StopPhrase::Wide)),
        Word::Spent => matches!(phrase, Phrase::Stop(StopPhrase::Spent)),
        Word::Nodes => matches!(phrase, Phrase::Stop(StopPhrase::Nodes)),
        Word::Point => matches!(phrase, Phrase::Point),
        Word::Ray => matches!(phrase, Phrase::Ray),
        Word::Dual => matches!(phrase, Phrase::Dual),
        Word::Price => matches!(phrase, Phrase::Price),
        Word::Proof => matches!(phrase, Phrase::Proof),
        Word::End => matches!(phrase, Phrase::End),
    }
}

// Whether the next line says it.
fn says(ahead: &Result<Phrase, ReportStop>, word: Word) -> bool
    ensures { result ≡ says_word word ahead.now }
{
    match ahead {
        Ok(phrase) => is_word(word, phrase),
        Err(_) => false,
    }
}

impl<'a> Cursor<'a> {
    /// All lines of a text.
    pub(crate) fn new(alloc: Global, model: &Model, bytes: &'a [u8]) -> Cursor<'a>
        requires { length bytes.now < 2147483648 }
        ensures ahead { IsAhead model.now 1 bytes.now result.ahead result.rest.now }
        ensures number { result.number ≡ 1 }
        ensures stands { IsCursor model.now result }
    {
        look(alloc, model, bytes, 1)
    }

    /// Passes the next line where it is the right one. Where it is not, reading stops there.
    pub(crate) fn pass(&mut self, alloc: Global, model: &Model, right: bool)
        requires { IsCursor model.now self.old }
        ensures passes { Passes model.now right self.old self.new }
        ensures stands { IsCursor model.now self.new }
    {
        if self.ahead.is_err() {
            return;
        }
        if !right {
            self.ahead = Err(ReportStop::BadLine(self.number));
            return;
        }
        let next = look(alloc, model, self.rest, self.number + 1);
        *self = next;
    }

    /// Passes a line that says this phrase alone.
    pub(crate) fn pass_word(&mut self, alloc: Global, model: &Model, word: Word)
        requires { IsCursor model.now self.old }
        ensures read { IsRead model.now (one_word (phrase_of word)) self.old self.new tt }
        ensures stands { IsCursor model.now self.new }
    {
        let right = says(&self.ahead, word);
        self.pass(alloc, model, right);
    }

    /// Passes a line of which something was found, and gives that; or another one.
    pub(crate) fn take<T: Copy>(
        &mut self,
        alloc: Global,
        model: &Model,
        found: Option<T>,
        other: T,
    ) -> T
        requires { IsCursor model.now self.old }
        ensures passes { Passes model.now (is_some found) self.old self.new }
        ensures found { result ≡ unwrap_or found other }
        ensures stands { IsCursor model.now self.new }
    {
        self.pass(alloc, model, found.is_some());
        found.unwrap_or(other)
    }

    /// Takes the command that the next line tells, if it tells one.
    pub(crate) fn take_command(&mut self, alloc: Global, model: &Model) -> Option<Command>
        requires { IsCursor model.now self.old }
        ensures took { MatchOption result
            ((found command_of self.old.ahead ≡ None) × (self.new ≡ self.old))
            (λ command. (self.old.ahead ≡ Ok (OnePhrase.Command command))
            × Passes model.now true self.old self.new) }
        ensures stands { IsCursor model.now self.new }
    {
        match replace(&mut self.ahead, Err(ReportStop::Memory)) {
            Ok(Phrase::Command(command)) => {
                let next = look(alloc, model, self.rest, self.number + 1);
                *self = next;
                Some(command)
            }
            ahead => {
                self.ahead = ahead;
                None
            }
        }
    }

    /// Stops reading for want of memory.
    pub(crate) fn give_up(&mut self)
        ensures { self.new ≡ record self.old { ahead = Err Memory } }
    {
        self.ahead = Err(ReportStop::Memory);
    }

    /// Puts an item behind others. Where memory is refused, reading stops.
    pub(crate) fn push<T: Drop>(&mut self, items: &mut Vec<T>, item: T)
        ensures { Pushes self.old items.old.items item self.new items.new.items }
    {
        if items.push(item).is_err() {
            self.give_up();
        }
    }
}
