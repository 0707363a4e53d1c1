//! Numbers on a page, with decimals behind fractions.
ghost use Rattle.std.specs.Prelude.{OnOk};
ghost use Rattle.report_page.specs.Pieces.{IsClosed, IsMarkedUp};

use crate::pieces::Piece::{Count, Fixed, Number};
use crate::pieces::{write, write_fixed};
use frac128::Frac;
use std::alloc::AllocError;

/// Whether a number is below 0.
pub(crate) fn is_negative(number: Frac) -> bool {
    number < Frac::whole(0)
}

/// A number without its sign.
pub(crate) fn magnitude(number: Frac) -> Frac {
    if is_negative(number) {
        return number.negate();
    }
    number
}

/// A quotient, where the divisor is not 0 and nothing is too wide.
pub(crate) fn quotient(number: Frac, divisor: Frac) -> Option<Frac> {
    match Frac::new(divisor.den(), divisor.num()) {
        Ok(reciprocal) => product(number, reciprocal),
        Err(_) => None,
    }
}

/// A product, where it is not too wide.
pub(crate) fn product(number: Frac, other: Frac) -> Option<Frac> {
    match number.times(other) {
        Ok(product) => Some(product),
        Err(_) => None,
    }
}

/// A sum, where it is not too wide.
pub(crate) fn sum(number: Frac, other: Frac) -> Option<Frac> {
    match number.plus(other) {
        Ok(sum) => Some(sum),
        Err(_) => None,
    }
}

// So many thousandths a number above 0 is, rounded, where nothing on the way to that is too wide.
fn thousandths(number: Frac) -> Option<u64> {
    let doubled = sum(product(number, Frac::whole(2000))?, Frac::whole(1))?;
    let rounded = doubled.floor() / 2;
    match u64::try_from(rounded) {
        Ok(count) => Some(count),
        Err(_) => None,
    }
}

// What stands before decimals: whether they are rounded.
fn lead(number: Frac, thousandths: u64) -> &'static str
    ensures { IsClosed result.now }
{
    match Frac::new(i128::from(thousandths), 1000) {
        Ok(exact) if exact == number => " (",
        _ => " (about ",
    }
}

// Writes decimals, as far as they are not zeros.
fn write_decimals(thousandths: u64, into: &mut Vec<u8>) -> Result<(), AllocError>
    ensures { OnOk result (IsMarkedUp into.old.items into.new.items) }
{
    write(
        &[
            Count(thousandths / 1000),
            Fixed("."),
            Count(thousandths / 100 % 10),
        ],
        into,
    )?;
    if thousandths % 100 == 0 {
        return Ok(());
    }
    if thousandths % 10 == 0 {
        return write(&[Count(thousandths / 10 % 10)], into);
    }
    write(
        &[Count(thousandths / 10 % 10), Count(thousandths % 10)],
        into,
    )
}

/// Writes a number, and behind a fraction its decimals, which are left out where it is below half a thousandth or something
/// on the way to them is too wide.
pub(crate) fn write_number(number: Frac, into: &mut Vec<u8>) -> Result<(), AllocError>
    ensures { OnOk result (IsMarkedUp into.old.items into.new.items) }
{
    write(&[Number(number)], into)?;
    if number.is_whole() {
        return Ok(());
    }
    let size = magnitude(number);
    let thousandths = thousandths(size).unwrap_or(0);
    if thousandths == 0 {
        return Ok(());
    }
    write_fixed(lead(size, thousandths), into)?;
    write_fixed(minus(number), into)?;
    write_decimals(thousandths, into)?;
    write_fixed(")", into)
}

// The sign of a number.
fn minus(number: Frac) -> &'static str
    ensures { IsClosed result.now }
{
    if is_negative(number) { "-" } else { "" }
}
