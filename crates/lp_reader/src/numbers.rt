//! The numbers of terms, bounds and sides.
ghost use Rattle.std.specs.Prelude.{◌≡◌, Some, None, MatchResult};
ghost use Rattle.std.specs.Option.{option_map};
ghost use Rattle.text_fields.specs.Numbers.{literal_in};
ghost use Rattle.lp_statements.specs.Statements.{shown_text, shown_constant, shown_term};
ghost use Rattle.lp_reader.specs.Numbers.{signed as signed_by, number_fault, value_in, factor_fault, factor as factor_by, term_value as term_value_by, side_fault, constant_fault, side_in as side_by, side_of};
ghost use Rattle.text_fields.specs.Faults.{IsFaultOf};

use frac128::{Frac, Literal, read_decimal};
use lp_statements::{Constant, Term, Text};
use text_fields::{ReadFault, ReadKind, TextKind, bound, is_wide_limit};

// A number with its sign.
fn signed(negative: bool, value: Frac) -> Frac
    ensures { result ≡ signed_by negative value }
{
    if negative {
        return value.negate();
    }
    value
}

// What a number is read as.
fn literal(text: Text<'_>) -> Option<Literal>
    ensures { result ≡ literal_in text.entry.bytes.now }
{
    let Ok(literal) = read_decimal(text.bytes) else {
        return None;
    };
    Some(literal)
}

// The value of a number that has to fit.
fn number(line: u32, literal: Option<Literal>) -> Result<Frac, ReadFault>
    ensures { MatchResult result
        (λ value. (number_fault line literal ≡ None) × (value ≡ value_in literal))
        (IsFaultOf (number_fault line literal)) }
{
    let Some(literal) = literal else {
        return Err(ReadFault::stop_at(line, ReadKind::Text(TextKind::BadNumber)));
    };
    match literal {
        Literal::Fits(value) => Ok(value),
        Literal::TooWide { .. } => Err(ReadFault::stop_at(
            line,
            ReadKind::Text(TextKind::NumberWide),
        )),
    }
}

// A factor, which is 1 where none is written.
fn factor(factor: Option<Text<'_>>) -> Result<Frac, ReadFault>
    ensures { MatchResult result
        (λ value. (factor_fault (option_map shown_text factor.entry) ≡ None) × (value ≡ factor_by (option_map shown_text factor.entry)))
        (IsFaultOf (factor_fault (option_map shown_text factor.entry))) }
{
    let Some(text) = factor else {
        return Ok(Frac::whole(1));
    };
    number(text.line, literal(text))
}

/// The factor of a term, with its sign.
#[tactic(auto, unfolding(crate::specs::Numbers::term_value))]
pub(crate) fn term_value(term: Term<'_>) -> Result<Frac, ReadFault>
    ensures { MatchResult result
        (λ value. (factor_fault (shown_term term.entry).factor ≡ None) × (value ≡ term_value_by (shown_term term.entry)))
        (IsFaultOf (factor_fault (shown_term term.entry).factor)) }
{
    match factor(term.factor) {
        Ok(value) => Ok(signed(term.negative, value)),
        Err(fault) => Err(fault),
    }
}

// The side that a literal is; a huge one is none, and need not fit.
fn literal_side(line: u32, negative: bool, literal: Literal) -> Result<Option<Frac>, ReadFault>
    ensures { MatchResult result
        (λ side. (side_fault line (Some literal) ≡ None) × (side ≡ side_by negative (Some literal)))
        (IsFaultOf (side_fault line (Some literal))) }
{
    if is_wide_limit(&literal) {
        return Err(ReadFault::stop_at(line, ReadKind::Text(TextKind::NumberWide)));
    }
    let Some(value) = bound(&literal) else {
        return Ok(None);
    };
    Ok(Some(signed(negative, value)))
}

// The side that a number is.
fn number_side(negative: bool, text: Text<'_>) -> Result<Option<Frac>, ReadFault>
    ensures { MatchResult result
        (λ side. (side_fault text.entry.line (literal_in text.entry.bytes.now) ≡ None) × (side ≡ side_by negative (literal_in text.entry.bytes.now)))
        (IsFaultOf (side_fault text.entry.line (literal_in text.entry.bytes.now))) }
{
    let Some(literal) = literal(text) else {
        return Err(ReadFault::stop_at(text.line, ReadKind::Text(TextKind::BadNumber)));
    };
    literal_side(text.line, negative, literal)
}

/// The side or bound that a constant is; infinity is none.
#[tactic(auto, unfolding(crate::specs::Numbers::constant_fault, crate::specs::Numbers::side_of))]
pub(crate) fn constant_side(constant: Constant<'_>) -> Result<Option<Frac>, ReadFault>
    ensures { MatchResult result
        (λ side. (constant_fault (shown_constant constant.entry) ≡ None) × (side ≡ side_of (shown_constant constant.entry)))
        (IsFaultOf (constant_fault (shown_constant constant.entry))) }
{
    if constant.infinite {
        return Ok(None);
    }
    number_side(constant.negative, constant.text)
}
