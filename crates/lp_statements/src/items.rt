//! The tokens of a text as statements see them.
ghost use Rattle.std.specs.Prelude.{◌≡◌, ◌<◌, ◌^◌, ◌∷◌, length, Some, None, MatchOption, MatchResult};
ghost use Rattle.text_fields.specs.Fields.{IsInside};
ghost use Rattle.text_fields.specs.Tokens.{lexeme_of};
ghost use Rattle.lp_statements.specs.Items.{Seen, IsStopFirst, IsPlace, IsLook, IsPast, IsItem, tokens_at, pieces_at, pieces_from, is_word_kind, is_colon_kind as is_colon_kind_by, is_colon_found, token_in, may_head as may_head_by, pair_heading as pair_by, word_heading as word_by, relation_of as relation_by, sign_of as sign_by, name_or_infinity as name_by, item_of as item_by, heading_item as heading_by, last_line as last_line_of};
ghost use Rattle.lp_statements.specs.Statements.{shown_text};

use crate::parts::{Heading, Item, Relation, Text};
use crate::words::{heading_of, is_infinity, pair_of};
use text_fields::{
    Place, ReadKind, ReadStop, TextFault, TextKind, Token, TokenKind, after_line, next_line,
    next_token,
};

#[tactic(auto, unfolding(crate::specs::Items::relation_of))]
fn relation_of(text: &[u8]) -> Relation
    ensures { result ≡ relation_by text.now }
{
    if text.contains(&b'<') {
        return Relation::AtMost;
    }
    if text.contains(&b'>') {
        return Relation::AtLeast;
    }
    Relation::Equal
}

#[tactic(auto, unfolding(crate::specs::Items::sign_of))]
fn sign_of(text: &[u8]) -> Item
    ensures { result ≡ sign_by text.now }
{
    Item::Sign {
        minus: text.contains(&b'-'),
    }
}

#[tactic(auto, unfolding(crate::specs::Items::name_or_infinity))]
fn name_or_infinity(text: &[u8]) -> Item
    ensures { result ≡ name_by text.now }
{
    if is_infinity(text) {
        return Item::Infinite;
    }
    Item::Name
}

// What a token is where it is no heading.
#[tactic(auto, unfolding(crate::specs::Items::item_of))]
fn item_of(kind: TokenKind, text: &[u8]) -> Item
    ensures { result ≡ item_by kind text.now }
{
    match kind {
        TokenKind::Word => name_or_infinity(text),
        TokenKind::Number => Item::Number,
        TokenKind::Sign => sign_of(text),
        TokenKind::Relation => Item::Relation(relation_of(text)),
        TokenKind::Colon => Item::Colon,
        TokenKind::Refused => Item::Refused(ReadKind::Unsupported),
        TokenKind::Loose => Item::Refused(ReadKind::Text(TextKind::BadNumber)),
    }
}

fn heading_item(heading: Heading) -> Item
    ensures { result ≡ heading_by heading }
{
    match heading {
        Heading::Keyword(keyword) => Item::Keyword(keyword),
        Heading::Unsupported => Item::Refused(ReadKind::Unsupported),
    }
}

/// The number of the last line, or 1 where there is none.
pub(crate) fn last_line(bytes: &[u8]) -> u32
    requires { length bytes.now < 2 ^ 31 }
    ensures { result ≡ last_line_of bytes.now }
{
    let mut at = 0;
    let mut number = 0;
    while let Some(line) = next_line(bytes, at, number) {
        number += 1;
        at = after_line(bytes, &line);
    }
    if number == 0 {
        return 1;
    }
    number
}

/// What stands at a place: a token and the place after it, nothing more, or a fault.
#[derive(Clone, Copy)]
pub(crate) struct Look {
    pub place: Place,
    pub found: Result<Option<(Token, Place)>, TextFault>,
}

/// Looks at a place.
pub(crate) fn look_at(bytes: &[u8], place: Place) -> Look
    requires place { IsPlace bytes.now place }
    requires short { length bytes.now < 2 ^ 31 }
    ensures place { result.place ≡ place }
    ensures look { IsLook bytes.now result }
{
    let found = next_token(bytes, place);
    Look { place, found }
}

// The token that a look finds.
fn token_of(look: Look) -> Option<(Token, Place)>
    ensures { result ≡ token_in look.found }
{
    match look.found {
        Ok(found) => found,
        Err(_) => None,
    }
}

/// Whether a colon stands there.
pub(crate) fn is_colon(look: Look) -> bool
    ensures { result ≡ is_colon_found (token_in look.found) }
{
    let Some((token, _)) = token_of(look) else {
        return false;
    };
    is_colon_kind(token.kind)
}

fn is_colon_kind(kind: TokenKind) -> bool
    ensures { result ≡ is_colon_kind_by kind }
{
    match kind {
        TokenKind::Colon => true,
        _ => false,
    }
}

fn is_word(kind: TokenKind) -> bool
    ensures { result ≡ is_word_kind kind }
{
    match kind {
        TokenKind::Word => true,
        _ => false,
    }
}

// The heading that a token and the one after it are, and what stands after both.
fn pair_heading(bytes: &[u8], token: Token, after: Look) -> Option<(Heading, Look)>
    requires span { IsInside bytes.now token.span }
    requires after { IsLook bytes.now after }
    ensures { MatchOption result
        (pair_by (lexeme_of bytes.now token) (tokens_at bytes.now after.place) ≡ None)
        (λ found. (pair_by (lexeme_of bytes.now token) (tokens_at bytes.now after.place) ≡ Some found.0)
        × IsPast bytes.now after.place found.1.place × IsLook bytes.now found.1) }
{
    let Some((next, past)) = token_of(after) else {
        return None;
    };
    if !is_word(next.kind) {
        return None;
    }
    if next.line != token.line {
        return None;
    }
    let Some(heading) = pair_of(token.span.text(bytes), next.span.text(bytes)) else {
        return None;
    };
    let last = look_at(bytes, past);
    if is_colon(last) {
        return None;
    }
    Some((heading, last))
}

// The heading that a token is by itself.
fn word_heading(bytes: &[u8], token: Token, after: Look) -> Option<Heading>
    requires span { IsInside bytes.now token.span }
    requires after { IsLook bytes.now after }
    ensures { result ≡ word_by (lexeme_of bytes.now token) (tokens_at bytes.now after.place) }
{
    if is_colon(after) {
        return None;
    }
    heading_of(token.span.text(bytes))
}

// Whether a token may be a heading.
#[tactic(auto, unfolding(crate::specs::Items::may_head))]
fn may_head(token: Token) -> bool
    ensures { result ≡ may_head_by token.first token.kind }
{
    token.first && is_word(token.kind)
}

// What a token is, and what stands where the other pieces begin.
fn item_in(bytes: &[u8], token: Token, after: Look) -> (Item, Look)
    requires span { IsInside bytes.now token.span }
    requires after { IsLook bytes.now after }
    ensures item { IsItem bytes.now (lexeme_of bytes.now token) after.place
        result.0 result.1.place }
    ensures look { IsLook bytes.now result.1 }
{
    if !may_head(token) {
        return (item_of(token.kind, token.span.text(bytes)), after);
    }
    if let Some((heading, last)) = pair_heading(bytes, token, after) {
        return (heading_item(heading), last);
    }
    if let Some(heading) = word_heading(bytes, token, after) {
        return (heading_item(heading), after);
    }
    (item_of(token.kind, token.span.text(bytes)), after)
}

/// The item that a token is, with its text, and what stands after it; or the fault that the token is.
pub(crate) fn seen_in<'a>(
    bytes: &'a [u8],
    token: Token,
    after: Look,
) -> Result<(Item, Text<'a>, Look), ReadStop>
    requires span { IsInside bytes.now token.span }
    requires after { IsLook bytes.now after }
    ensures { MatchResult result
        (λ seen. (pieces_from bytes.now (lexeme_of bytes.now token) after.place
        ≡ Seen seen.0 (shown_text seen.1) ∷ pieces_at bytes.now seen.2.place) × IsLook bytes.now seen.2)
        (IsStopFirst (pieces_from bytes.now (lexeme_of bytes.now token) after.place)) }
{
    let (item, next) = item_in(bytes, token, after);
    if let Item::Refused(kind) = item {
        return Err(ReadStop {
            line: token.line,
            kind,
        });
    }
    let text = Text {
        bytes: token.span.text(bytes),
        line: token.line,
    };
    Ok((item, text, next))
}
