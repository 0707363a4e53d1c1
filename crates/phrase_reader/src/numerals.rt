//! The numbers that words of a script write.
ghost use Rattle.std.specs.Prelude.{◌≡◌, None, Some};
ghost use Rattle.std.specs.List.{list_all};
ghost use Rattle.frac128.specs.Literal.{is_dec};
ghost use Rattle.phrase_reader.specs.Numerals.{budget_of, limit_in, limit_of, number_limit, soft_weight, value_in, value_of, weight_in};

use crate::naming::printed_fraction;
use frac128::{Frac, Literal, read_decimal};
use lp_model::Weight;
use text_fields::{bound, is_wide_limit, is_word};

// The most that a budget may be.
const MOST_BUDGET: u64 = 1_000_000;

// Whether each byte is a digit.
fn all_digits(word: &[u8]) -> bool
    ensures { result ≡ list_all is_dec word.now }
{
    word.iter().all(|b| *b >= b'0' && *b <= b'9')
}

/// The budget that digits write.
pub(crate) fn budget_in(word: &[u8]) -> Option<u64>
    ensures { result ≡ budget_of word.now }
{
    if !all_digits(word) {
        return None;
    }
    let Ok(digits) = str::from_utf8(word) else {
        return None;
    };
    let Ok(most) = digits.parse::<u64>() else {
        return None;
    };
    if most > MOST_BUDGET {
        return None;
    }
    Some(most)
}

// The value of a literal that fits.
fn literal_value(literal: Literal) -> Option<Frac>
    ensures { result ≡ value_of literal }
{
    match literal {
        Literal::Fits(value) => Some(value),
        Literal::TooWide { .. } => None,
    }
}

// The value that a word writes: a literal that fits, or a printed fraction.
fn written_value(word: &[u8]) -> Option<Frac>
    ensures { result ≡ value_in word.now }
{
    let Ok(literal) = read_decimal(word) else {
        return printed_fraction(word);
    };
    literal_value(literal)
}

// The side or the bound that a literal says, where it fits or is huge.
fn literal_limit(literal: Literal) -> Option<Option<Frac>>
    ensures { result ≡ limit_of literal }
{
    if is_wide_limit(&literal) {
        return None;
    }
    Some(bound(&literal))
}

// The same of a word that is a literal or a printed fraction.
fn read_number_limit(word: &[u8]) -> Option<Option<Frac>>
    ensures { result ≡ number_limit word.now }
{
    let Ok(literal) = read_decimal(word) else {
        return Some(Some(printed_fraction(word)?));
    };
    literal_limit(literal)
}

/// The side or the bound that a word writes: `none`, a number, or a huge literal, which says that there is none.
pub(crate) fn read_limit(word: &[u8]) -> Option<Option<Frac>>
    ensures { result ≡ limit_in word.now }
{
    if is_word(word, b"none") {
        return Some(None);
    }
    read_number_limit(word)
}

// A weight above 0.
fn soft(value: Frac) -> Option<Weight>
    ensures { result ≡ soft_weight value }
{
    if Frac::whole(0) < value {
        return Some(Weight::Soft(value));
    }
    None
}

/// The weight that a word writes: `rigid`, or a number above 0.
pub(crate) fn read_weight(word: &[u8]) -> Option<Weight>
    ensures { result ≡ weight_in word.now }
{
    if is_word(word, b"rigid") {
        return Some(Weight::Rigid);
    }
    soft(written_value(word)?)
}
