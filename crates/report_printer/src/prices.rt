//! The lines of totals with their prices.

ghost use Rattle.std.specs.Prelude.{◌≡◌, ◌++◌, OnOk, Some};
ghost use Rattle.report_text.specs.Grammar.{price_phrases, phrases_text};
ghost use Rattle.report_printer.specs.EvidenceNumbers.{HasPriceWithin};
ghost use Rattle.report_printer.specs.Evidence.{IsKnownPoint, IsKnownPrice};

use crate::lines::print_phrase;
use crate::points::print_values;
use crate::words::push_line;
use certs::PackedPoint;
use frac128::Frac;
use lp_model::Model;
use report_text::Phrase;
use std::alloc::AllocError;

// Appends the lines of a total and its price: each value that is not 0 has one.
fn print_priced(
    model: &Model,
    total: Frac,
    price: &PackedPoint,
    into: &mut Vec<u8>,
) -> Result<(), AllocError>
    requires { IsKnownPoint model.now price.now }
    ensures text { OnOk result (into.new.items ≡ into.old.items ++ phrases_text model.now (price_phrases (Some (total, price.now)))) }
    ensures within { OnOk result (HasPriceWithin (Some (total, price.now))) }
{
    print_phrase(model, Phrase::Total(total), into)?;
    push_line(b"price", into)?;
    let price = price.unpacked(*into.allocator())?;
    print_values(model, price.values.as_slice(), into)?;
    Ok(())
}

/// Appends the lines of a total and its price, a value for each column, where they are told.
pub(crate) fn print_price(
    model: &Model,
    price: &Option<(Frac, PackedPoint)>,
    into: &mut Vec<u8>,
) -> Result<(), AllocError>
    requires { IsKnownPrice model.now price.now }
    ensures text { OnOk result (into.new.items ≡ into.old.items ++ phrases_text model.now (price_phrases price.now)) }
    ensures within { OnOk result (HasPriceWithin price.now) }
{
    let Some((total, price)) = price else {
        return Ok(());
    };
    print_priced(model, *total, price, into)
}
