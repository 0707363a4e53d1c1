//! What is left of a text, read item by item.
ghost use Rattle.std.specs.Prelude.{◌≡◌, ◌<◌, ◌^◌, ◌∷◌, length, MatchResult};
ghost use Rattle.text_fields.specs.declared.faults.ReadKind.TheVariants.{Text as OfText, Truncated};
ghost use Rattle.lp_statements.specs.Items.{Seen, IsLook, IsStopFirst, pieces_at, pieces_of, stop_at as stop_by, last_line as last_line_of};
ghost use Rattle.lp_statements.specs.Statements.{shown_text};
ghost use Rattle.lp_statements.specs.Grammar.{is_first, is_colon as is_colon_item};
ghost use Rattle.lp_statements.specs.Cursor.{IsCursor, IsFirst, IsFaultFirst, after_first, left_by};

use crate::items::{Look, is_colon, last_line, look_at, seen_in};
use crate::parts::{Item, Text};
use std::marker::Model;
use text_fields::{Place, ReadFault, ReadKind, ReadStop, TextFault, token_laws};

/// What stands first: an item with its text, a fault, or the end of the text.
#[derive(Clone, Copy)]
enum Ahead<'a> {
    Item(Item, Text<'a>),
    Fault(ReadStop),
    End,
}

/// A text from a place on: its next item is known, and the token after that.
#[derive(Drop)]
pub struct Cursor<'a> {
    bytes: &'a [u8],
    ahead: Ahead<'a>,
    // What stands after the item, or where it would.
    look: Look,
}

impl<'a> Model for Cursor<'a> {
    ghost use Rattle.std.specs.Prelude.{List};
    ghost use Rattle.lp_statements.specs.Items.{Piece};
    ghost use Rattle.lp_statements.specs.Cursor.{IsCursor, left_by};

    ghost Value = { List Piece };

    ghost view = { λ c. left_by c.bytes.now c.ahead c.look.place };

    ghost invariant = { λ c. IsCursor c.bytes.now c.ahead c.look };
}

// What stands first, by a look at its place, and what stands after it.
fn ahead_of(bytes: &[u8], look: Look) -> (Ahead<'_>, Look)
    requires { IsLook bytes.now look }
    ensures left { left_by bytes.now result.0 result.1.place ≡ pieces_at bytes.now look.place }
    ensures stands { IsCursor bytes.now result.0 result.1 }
{
    let found = match look.found {
        Ok(found) => found,
        Err(fault) => return (Ahead::Fault(stop_of(fault)), look),
    };
    let Some((token, past)) = found else {
        return (Ahead::End, look);
    };
    match seen_in(bytes, token, look_at(bytes, past)) {
        Ok((item, text, next)) => (Ahead::Item(item, text), next),
        Err(stop) => (Ahead::Fault(stop), look),
    }
}

// The fault of a line.
fn stop_of(fault: TextFault) -> ReadStop
    ensures { result ≡ stop_by fault.line (OfText fault.kind) }
{
    ReadStop {
        line: fault.line,
        kind: ReadKind::Text(fault.kind),
    }
}

// The fault of a text that ends.
fn end_of(bytes: &[u8]) -> ReadStop
    requires { length bytes.now < 2 ^ 31 }
    ensures { result ≡ stop_by (last_line_of bytes.now) Truncated }
{
    ReadStop {
        line: last_line(bytes),
        kind: ReadKind::Truncated,
    }
}

impl<'a> Cursor<'a> {
    /// All of a text.
    pub fn new(bytes: &'a [u8]) -> Cursor<'a>
        requires { length bytes.now < 2 ^ 31 }
        ensures { result ≡ pieces_of bytes.now }
    {
        token_laws();
        let (ahead, look) = ahead_of(bytes, look_at(bytes, Place { at: 0, line: 1 }));
        Cursor { bytes, ahead, look }
    }

    /// The item that stands first, with its text, or the fault that does.
    pub(crate) fn peek(&self) -> Result<(Item, Text<'a>), ReadStop>
        ensures { MatchResult result
            (λ seen. IsFirst self.now seen.0 (shown_text seen.1))
            (IsStopFirst self.now) }
    {
        match self.ahead {
            Ahead::Item(item, text) => Ok((item, text)),
            Ahead::Fault(stop) => Err(stop),
            Ahead::End => Err(end_of(self.bytes)),
        }
    }

    /// Whether a colon comes after the item that stands first.
    #[tactic(auto, using(crate::proofs::Pieces::colon_after))]
    pub(crate) fn is_colon_second(&self) -> bool
        ensures { result ≡ is_first is_colon_item (after_first self.now) }
    {
        match self.ahead {
            Ahead::Item(_, _) => is_colon(self.look),
            _ => false,
        }
    }

    /// Passes over the item that stands first. Anything else stays.
    pub(crate) fn advance(&mut self)
        ensures { self.new ≡ after_first self.old }
    {
        let Ahead::Item(_, _) = self.ahead else {
            return;
        };
        let (ahead, look) = ahead_of(self.bytes, self.look);
        self.ahead = ahead;
        self.look = look;
    }

    /// Takes the item that stands first.
    pub(crate) fn take(&mut self) -> Result<(Item, Text<'a>), ReadFault>
        ensures { MatchResult result
            (λ seen. self.old ≡ Seen seen.0 (shown_text seen.1) ∷ self.new)
            (IsFaultFirst self.old) }
    {
        match self.peek() {
            Ok(seen) => {
                self.advance();
                Ok(seen)
            }
            Err(stop) => Err(ReadFault::Stop(stop)),
        }
    }
}
