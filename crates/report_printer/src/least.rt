//! The lines of least weighted violations, and of rounds.

ghost use Rattle.std.specs.Prelude.{◌≡◌, ◌++◌, ◌∷◌, OnOk, map, All};
ghost use Rattle.report_text.specs.Grammar.{least_phrases, rounds_phrases, phrases_text};
ghost use Rattle.report_text.specs.Form.{IsCountWithin, IsWithinLimit};
ghost use Rattle.report_printer.specs.EvidenceNumbers.{IsLeastWithin};
ghost use Rattle.report_printer.specs.Evidence.{IsKnownLeast, IsKnownSource};

use crate::lines::print_phrase;
use crate::nodes::print_uses;
use crate::points::print_point;
use crate::words::push_line;
use certs::{Dual, PackedPoint, Share};
use lp_model::Model;
use report_text::Phrase;
use std::alloc::AllocError;

// Appends the lines of a dual's shares.
fn print_shares(model: &Model, shares: &[Share], into: &mut Vec<u8>) -> Result<(), AllocError>
    requires { All (λ s. IsKnownSource model.now s.source) shares.now }
    ensures text { OnOk result (into.new.items ≡ into.old.items ++ phrases_text model.now (Phrase.Dual ∷ map Phrase.Use shares.now)) }
    ensures within { OnOk result (All (λ s. IsWithinLimit s.weight) shares.now) }
{
    push_line(b"dual", into)?;
    print_uses(model, shares, into)
}

/// Appends the lines of a least weighted violation: its total, a point at which it is had, and a dual that shows that none
/// is less.
pub(crate) fn print_least(
    model: &Model,
    point: &PackedPoint,
    dual: &Dual,
    into: &mut Vec<u8>,
) -> Result<(), AllocError>
    requires { IsKnownLeast model.now point.now dual.now }
    ensures text { OnOk result (into.new.items ≡ into.old.items ++ phrases_text model.now (least_phrases point.now dual.now)) }
    ensures within { OnOk result (IsLeastWithin point.now dual.now) }
{
    push_line(b"least", into)?;
    print_phrase(model, Phrase::Total(dual.bound), into)?;
    print_point(model, point, into)?;
    print_shares(model, dual.combo.shares.as_slice(), into)?;
    Ok(())
}

/// Appends the line of how many rounds were made, where it is told.
pub(crate) fn print_rounds(
    model: &Model,
    rounds: Option<u64>,
    into: &mut Vec<u8>,
) -> Result<(), AllocError>
    ensures text { OnOk result (into.new.items ≡ into.old.items ++ phrases_text model.now (rounds_phrases rounds)) }
    ensures within { IsCountWithin rounds }
{
    if let Some(rounds) = rounds {
        print_phrase(model, Phrase::Rounds(rounds), into)?;
    }
    Ok(())
}
