//! What statements are made of: labels, terms, constants and relations.
ghost use Rattle.std.specs.Prelude.{◌≡◌, false, ◌≤◌, ◌++◌, ◌∷◌, [], Some, None, length, map, take, OnOk, IfErr, MatchOption, MatchResult};
ghost use Rattle.std.specs.Option.{option_map};
ghost use Rattle.lp_statements.specs.Items.{Written, Seen};
ghost use Rattle.lp_statements.specs.Statements.{Term as TermOf, shown_text, shown_constant, shown_term};
ghost use Rattle.lp_statements.specs.Grammar.{OfTerm, OfConstant, Whole, wrong as wrong_at, is_name as is_name_by, is_colon as is_colon_by, minus_of as minus_by, infinite_of as infinite_by, relation_in as relation_by, inequality_in as inequality_by, begins_part as begins_by, is_sign as is_sign_by, is_relation as is_relation_by, is_first, text_first, label as label_by, signs as signs_by, constant as constant_at, factor_or_constant, amount as amount_by, term_in, element as element_at, term as term_at, more_terms as more_terms_at, part as part_at, more_parts as more_parts_at, parts as parts_at, terms_in, opening_from, relation as relation_at, inequality as inequality_at, agreed as agreed_by, agreed_with as agreed_with_by, agreeing as agreeing_at, opening as opening_at, name as name_at};
ghost use Rattle.lp_statements.specs.Cursor.{Gives, IsRefusal};
ghost use Rattle.lp_statements.specs.Shapes.{shown_element, shown_opening, AddsTerms};

use crate::cursor::Cursor;
use crate::parts::{Constant, Item, Relation, Term, Text};
use text_fields::{ReadFault, ReadKind};

/// A term or a constant.
#[derive(Clone, Copy)]
pub(crate) enum Element<'a> {
    OfTerm(Term<'a>),
    OfConstant(Constant<'a>),
}

/// The begin of a row: a constant and a relation, if they are there, and the first term.
#[derive(Clone, Copy)]
pub(crate) struct Opening<'a> {
    pub left: Option<Constant<'a>>,
    pub before: Option<Relation>,
    pub first: Term<'a>,
}

fn is_name(item: Item) -> bool
    ensures { result ≡ is_name_by item }
{
    match item {
        Item::Name => true,
        _ => false,
    }
}

fn is_colon(item: Item) -> bool
    ensures { result ≡ is_colon_by item }
{
    match item {
        Item::Colon => true,
        _ => false,
    }
}

fn minus_of(item: Item) -> Option<bool>
    ensures { result ≡ minus_by item }
{
    match item {
        Item::Sign { minus } => Some(minus),
        _ => None,
    }
}

fn infinite_of(item: Item) -> Option<bool>
    ensures { result ≡ infinite_by item }
{
    match item {
        Item::Number => Some(false),
        Item::Infinite => Some(true),
        _ => None,
    }
}

fn relation_in(item: Item) -> Option<Relation>
    ensures { result ≡ relation_by item }
{
    match item {
        Item::Relation(relation) => Some(relation),
        _ => None,
    }
}

fn inequality_in(item: Item) -> Option<Relation>
    ensures { result ≡ inequality_by item }
{
    match item {
        Item::Relation(Relation::AtMost) => Some(Relation::AtMost),
        Item::Relation(Relation::AtLeast) => Some(Relation::AtLeast),
        _ => None,
    }
}

fn begins_part(item: Item) -> bool
    ensures { result ≡ begins_by item }
{
    match item {
        Item::Name | Item::Number | Item::Sign { .. } => true,
        _ => false,
    }
}

// Whether a relation stands first.
pub(crate) fn is_relation_first(cursor: &Cursor<'_>) -> bool
    ensures { result ≡ is_first is_relation_by cursor.now }
{
    let Ok((item, _)) = cursor.peek() else {
        return false;
    };
    relation_in(item).is_some()
}

// Whether a term or a number begins.
pub(crate) fn is_part_first(cursor: &Cursor<'_>) -> bool
    ensures { result ≡ is_first begins_by cursor.now }
{
    let Ok((item, _)) = cursor.peek() else {
        return false;
    };
    begins_part(item)
}

// Whether a sign stands first.
fn is_sign_first(cursor: &Cursor<'_>) -> bool
    ensures { result ≡ is_first is_sign_by cursor.now }
{
    let Ok((item, _)) = cursor.peek() else {
        return false;
    };
    minus_of(item).is_some()
}

/// Takes the name that stands first, if there is one.
pub(crate) fn take_name<'a>(cursor: &mut Cursor<'a>) -> Option<Text<'a>>
    ensures { MatchOption result
        ((text_first is_name_by cursor.old ≡ None) × (cursor.new ≡ cursor.old))
        (λ text. text_first is_name_by cursor.old ≡ Some (shown_text text, cursor.new)) }
{
    let Ok((item, text)) = cursor.peek() else {
        return None;
    };
    if !is_name(item) {
        return None;
    }
    cursor.advance();
    Some(text)
}

/// Takes the label that stands first, if there is one: a name and a colon.
pub(crate) fn label<'a>(cursor: &mut Cursor<'a>) -> Option<Text<'a>>
    ensures { label_by cursor.old ≡ (option_map shown_text result, cursor.new) }
{
    if !cursor.is_colon_second() {
        return None;
    }
    let Some(name) = take_name(cursor) else {
        return None;
    };
    cursor.advance();
    Some(name)
}

// Takes the sign that stands first, and tells whether it is minus.
fn take_sign(cursor: &mut Cursor<'_>) -> Option<bool>
    ensures { MatchOption result
        ((is_first is_sign_by cursor.old ≡ false) × (cursor.new ≡ cursor.old))
        (λ minus. (text : Written) × (cursor.old ≡ Seen (Item.Sign minus) text ∷ cursor.new)) }
{
    let Ok((item, _)) = cursor.peek() else {
        return None;
    };
    let Some(minus) = minus_of(item) else {
        return None;
    };
    cursor.advance();
    Some(minus)
}

// Takes the signs that stand first, and tells whether they make a minus: each minus turns the one before it.
fn signs(cursor: &mut Cursor<'_>) -> bool
    ensures { signs_by false cursor.old ≡ (result, cursor.new) }
{
    let mut negative = false;
    while let Some(minus) = take_sign(cursor) {
        negative = minus != negative;
    }
    negative
}

// The fault of a place where no statement goes on.
fn wrong(cursor: &Cursor<'_>) -> ReadFault
    ensures { IsRefusal (wrong_at {A = TermOf} cursor.now) result }
{
    match cursor.peek() {
        Ok((_, text)) => ReadFault::stop_at(text.line, ReadKind::BadField),
        Err(stop) => ReadFault::Stop(stop),
    }
}

/// A constant: signs, then a number or the infinite constant.
#[tactic(auto, unfolding(crate::specs::Grammar::constant, crate::specs::Grammar::constant_of))]
pub(crate) fn constant<'a>(cursor: &mut Cursor<'a>) -> Result<Constant<'a>, ReadFault>
    ensures { Gives shown_constant (constant_at cursor.old) cursor.new result }
{
    let negative = signs(cursor);
    let (item, text) = cursor.take()?;
    let Some(infinite) = infinite_of(item) else {
        return Err(ReadFault::stop_at(text.line, ReadKind::BadField));
    };
    Ok(Constant {
        negative,
        infinite,
        text,
    })
}

// A number is a term's factor where a name comes after it, else a constant.
fn factor_or_constant<'a>(cursor: &mut Cursor<'a>, negative: bool, number: Text<'a>) -> Element<'a>
    ensures { factor_or_constant negative (shown_text number.entry) (text_first is_name_by cursor.old) cursor.old
        ≡ Whole (shown_element result) cursor.new }
{
    let Some(name) = take_name(cursor) else {
        return Element::OfConstant(Constant {
            negative,
            infinite: false,
            text: number,
        });
    };
    Element::OfTerm(Term {
        negative,
        factor: Some(number),
        name,
    })
}

// A number, or the infinite constant, after its text.
fn amount<'a>(
    cursor: &mut Cursor<'a>,
    negative: bool,
    text: Text<'a>,
    infinite: bool,
) -> Element<'a>
    ensures { amount_by negative (shown_text text.entry) (Some infinite) cursor.old
        ≡ Whole (shown_element result) cursor.new }
{
    if infinite {
        return Element::OfConstant(Constant {
            negative,
            infinite,
            text,
        });
    }
    factor_or_constant(cursor, negative, text)
}

// A term or a constant with its signs.
#[tactic(auto, unfolding(crate::specs::Grammar::element, crate::specs::Grammar::element_of))]
fn take_element<'a>(cursor: &mut Cursor<'a>) -> Result<Element<'a>, ReadFault>
    ensures { Gives shown_element (element_at cursor.old) cursor.new result }
{
    let negative = signs(cursor);
    let (item, text) = cursor.take()?;
    if is_name(item) {
        return Ok(Element::OfTerm(Term {
            negative,
            factor: None,
            name: text,
        }));
    }
    let Some(infinite) = infinite_of(item) else {
        return Err(ReadFault::stop_at(text.line, ReadKind::BadField));
    };
    Ok(amount(cursor, negative, text, infinite))
}

// The fault of a constant that stands in the place of a term.
fn missing_name(cursor: &Cursor<'_>, constant: Constant<'_>) -> ReadFault
    ensures { IsRefusal (term_in (OfConstant (shown_constant constant.entry)) cursor.now) result }
{
    if constant.infinite {
        return ReadFault::stop_at(constant.text.line, ReadKind::BadField);
    }
    wrong(cursor)
}

// A term: signs, then a number and a name, or a name.
#[tactic(auto, unfolding(crate::specs::Grammar::term))]
fn term<'a>(cursor: &mut Cursor<'a>) -> Result<Term<'a>, ReadFault>
    ensures { Gives shown_term (term_at cursor.old) cursor.new result }
{
    match take_element(cursor)? {
        Element::OfTerm(term) => Ok(term),
        Element::OfConstant(constant) => Err(missing_name(cursor, constant)),
    }
}

// A term of the objective with its signs, or a constant, which is not used.
#[tactic(auto, unfolding(crate::specs::Grammar::part))]
fn part<'a>(cursor: &mut Cursor<'a>) -> Result<Option<Term<'a>>, ReadFault>
    ensures { Gives (option_map shown_term) (part_at cursor.old) cursor.new result }
{
    match take_element(cursor)? {
        Element::OfTerm(term) => Ok(Some(term)),
        Element::OfConstant(constant) => {
            if constant.infinite {
                return Err(ReadFault::stop_at(constant.text.line, ReadKind::BadField));
            }
            Ok(None)
        }
    }
}

/// A relation.
#[tactic(auto, unfolding(crate::specs::Grammar::relation))]
pub(crate) fn relation(cursor: &mut Cursor<'_>) -> Result<Relation, ReadFault>
    ensures { Gives (λ relation. relation) (relation_at cursor.old) cursor.new result }
{
    let (item, text) = cursor.take()?;
    let Some(relation) = relation_in(item) else {
        return Err(ReadFault::stop_at(text.line, ReadKind::BadField));
    };
    Ok(relation)
}

// A relation that may stand before a form.
#[tactic(auto, unfolding(crate::specs::Grammar::inequality))]
fn inequality(cursor: &mut Cursor<'_>) -> Result<Relation, ReadFault>
    ensures { Gives (λ relation. relation) (inequality_at cursor.old) cursor.new result }
{
    let (item, text) = cursor.take()?;
    let Some(relation) = inequality_in(item) else {
        return Err(ReadFault::stop_at(text.line, ReadKind::BadField));
    };
    Ok(relation)
}

/// A name.
#[tactic(auto, unfolding(crate::specs::Grammar::name))]
pub(crate) fn name<'a>(cursor: &mut Cursor<'a>) -> Result<Text<'a>, ReadFault>
    ensures { Gives shown_text (name_at cursor.old) cursor.new result }
{
    let (item, text) = cursor.take()?;
    if !is_name(item) {
        return Err(ReadFault::stop_at(text.line, ReadKind::BadField));
    }
    Ok(text)
}

// The second relation of a statement: both are at most, or both are at least.
fn agreed(before: Relation, after: Option<Relation>) -> Option<Relation>
    ensures { result ≡ agreed_by before after }
{
    match (before, after) {
        (Relation::AtMost, Some(Relation::AtMost)) => after,
        (Relation::AtLeast, Some(Relation::AtLeast)) => after,
        _ => None,
    }
}

// The relation after a form, where one may stand before it.
fn agreed_with(before: Option<Relation>, after: Option<Relation>) -> Option<Relation>
    ensures { result ≡ agreed_with_by before after }
{
    match before {
        Some(before) => agreed(before, after),
        None => after,
    }
}

/// A relation that agrees with the one before the form, if there is one.
#[tactic(auto, unfolding(crate::specs::Grammar::agreeing))]
pub(crate) fn agreeing(
    cursor: &mut Cursor<'_>,
    before: Option<Relation>,
) -> Result<Relation, ReadFault>
    ensures { Gives (λ relation. relation) (agreeing_at before cursor.old) cursor.new result }
{
    let (item, text) = cursor.take()?;
    let Some(relation) = agreed_with(before, relation_in(item)) else {
        return Err(ReadFault::stop_at(text.line, ReadKind::BadField));
    };
    Ok(relation)
}

/// Puts a term last, unless there are so many already.
pub(crate) fn put_term<'a>(
    terms: &mut Vec<Term<'a>>,
    most: usize,
    term: Term<'a>,
) -> Result<(), ReadFault>
    requires { length terms.old.items ≤ most }
    ensures ok { OnOk result (map shown_term terms.new.items
        ≡ take most (map shown_term terms.old.items ++ shown_term term.entry ∷ [])) }
    ensures err { IfErr result (λ fault. fault ≡ ReadFault.Memory) }
{
    if terms.len() < most {
        terms.push(term)?;
    }
    Ok(())
}

/// Puts terms that each begin with a sign after those that are there; so many are kept.
pub(crate) fn more_terms<'a>(
    cursor: &mut Cursor<'a>,
    most: usize,
    terms: &mut Vec<Term<'a>>,
) -> Result<(), ReadFault>
    requires { length terms.old.items ≤ most }
    ensures { MatchResult result
        (λ _. AddsTerms most (more_terms_at cursor.old) cursor.new terms.old.items terms.new.items)
        (IsRefusal (more_terms_at cursor.old)) }
{
    while is_sign_first(cursor) {
        let term = term(cursor)?;
        put_term(terms, most, term)?;
    }
    Ok(())
}

// Puts the term of a part last, if there is one.
fn put_part<'a>(
    terms: &mut Vec<Term<'a>>,
    most: usize,
    part: Option<Term<'a>>,
) -> Result<(), ReadFault>
    requires { length terms.old.items ≤ most }
    ensures ok { OnOk result (map shown_term terms.new.items
        ≡ take most (map shown_term terms.old.items ++ terms_in (option_map shown_term part.entry))) }
    ensures err { IfErr result (λ fault. fault ≡ ReadFault.Memory) }
{
    match part {
        Some(term) => put_term(terms, most, term),
        None => Ok(()),
    }
}

// Puts the terms of parts that each begin with a sign after those that are there.
fn more_parts<'a>(
    cursor: &mut Cursor<'a>,
    most: usize,
    terms: &mut Vec<Term<'a>>,
) -> Result<(), ReadFault>
    requires { length terms.old.items ≤ most }
    ensures { MatchResult result
        (λ _. AddsTerms most (more_parts_at cursor.old) cursor.new terms.old.items terms.new.items)
        (IsRefusal (more_parts_at cursor.old)) }
{
    while is_sign_first(cursor) {
        let part = part(cursor)?;
        put_part(terms, most, part)?;
    }
    Ok(())
}

/// Puts the terms of one part or more last.
pub(crate) fn parts<'a>(
    cursor: &mut Cursor<'a>,
    most: usize,
    terms: &mut Vec<Term<'a>>,
) -> Result<(), ReadFault>
    requires { length terms.old.items ≤ most }
    ensures { MatchResult result
        (λ _. AddsTerms most (parts_at cursor.old) cursor.new terms.old.items terms.new.items)
        (IsRefusal (parts_at cursor.old)) }
{
    let first = part(cursor)?;
    put_part(terms, most, first)?;
    more_parts(cursor, most, terms)
}

// The begin of a row after its constant.
fn opening_after<'a>(
    cursor: &mut Cursor<'a>,
    constant: Constant<'a>,
) -> Result<Opening<'a>, ReadFault>
    ensures { Gives shown_opening
        (opening_from (OfConstant (shown_constant constant.entry)) cursor.old) cursor.new result }
{
    let before = inequality(cursor)?;
    let first = term(cursor)?;
    Ok(Opening {
        left: Some(constant),
        before: Some(before),
        first,
    })
}

/// The begin of a row: a term, or a constant, a relation and a term.
#[tactic(auto, unfolding(crate::specs::Grammar::opening))]
pub(crate) fn take_opening<'a>(cursor: &mut Cursor<'a>) -> Result<Opening<'a>, ReadFault>
    ensures { Gives shown_opening (opening_at cursor.old) cursor.new result }
{
    match take_element(cursor)? {
        Element::OfTerm(first) => Ok(Opening {
            left: None,
            before: None,
            first,
        }),
        Element::OfConstant(constant) => opening_after(cursor, constant),
    }
}
