//! Decimal literals in a text.
ghost use Rattle.std.specs.Prelude.{◌≡◌, ◌≤◌, length, MatchResult, Some, None};
ghost use Rattle.rational.specs.Rational.{le_q};
ghost use Rattle.text_fields.specs.Lines.{text_of};
ghost use Rattle.text_fields.specs.Numbers.{literal_in, IsWideAt, IsBadAt, far, is_far, is_huge_literal, bound_of, is_wide_bound};

use crate::{Span, TextFault, TextKind};
use frac128::{Frac, Literal, read_decimal};

/// The literal that a part of a text is. `BadNumber` exactly where it is none.
pub fn number(bytes: &[u8], span: &Span, line: u32) -> Result<Literal, TextFault>
    requires in_order { span.now.from ≤ span.now.to }
    requires within { span.now.to ≤ length bytes.now }
    ensures { MatchResult result
        (λ literal. literal_in (text_of bytes.now span.now) ≡ Some literal)
        (IsBadAt line (text_of bytes.now span.now)) }
{
    let Ok(literal) = read_decimal(span.text(bytes)) else {
        return Err(TextFault {
            line,
            kind: TextKind::BadNumber,
        });
    };
    Ok(literal)
}

/// The value of a literal that fits. `NumberWide` exactly where it does not.
pub fn fitting(literal: Literal, line: u32) -> Result<Frac, TextFault>
    ensures { MatchResult result (λ value. literal ≡ Literal.Fits value) (IsWideAt line literal) }
{
    match literal {
        Literal::Fits(value) => Ok(value),
        Literal::TooWide { .. } => Err(TextFault {
            line,
            kind: TextKind::NumberWide,
        }),
    }
}

// 10^20.
const FAR: i128 = 100_000_000_000_000_000_000;

// Whether a value is at least 10^20.
fn is_above(value: Frac) -> bool
    ensures { result ≡ le_q far value }
{
    value.floor() >= FAR
}

// Whether the magnitude of a value is at least 10^20.
#[tactic(auto, unfolding(crate::specs::Numbers::is_far))]
fn is_far_value(value: Frac) -> bool
    ensures { result ≡ is_far value }
{
    is_above(value) || is_above(value.negate())
}

/// Whether the magnitude of a literal is at least 10^20: as a bound or a side it is none.
pub fn is_huge(literal: Literal) -> bool
    ensures { result ≡ is_huge_literal literal }
{
    match literal {
        Literal::Fits(value) => is_far_value(value),
        Literal::TooWide { huge, .. } => huge,
    }
}

// The value, unless it is huge.
fn near(value: Frac) -> Option<Frac>
    ensures { result ≡ bound_of (Literal.Fits value) }
{
    if is_far_value(value) {
        return None;
    }
    Some(value)
}

/// The bound or the side that a literal says: `None` where its magnitude is at least 10^20, so that there is none.
///
/// One that does not fit and is not huge gives `None` too; `is_wide_limit` tells it.
pub fn bound(literal: &Literal) -> Option<Frac>
    ensures { result ≡ bound_of literal.now }
{
    match *literal {
        Literal::Fits(value) => near(value),
        Literal::TooWide { .. } => None,
    }
}

/// Whether a literal is no bound: it does not fit, and is not huge.
pub fn is_wide_limit(literal: &Literal) -> bool
    ensures { result ≡ is_wide_bound literal.now }
{
    match *literal {
        Literal::Fits(_) => false,
        Literal::TooWide { huge, .. } => !huge,
    }
}
