//! Numbers of columns: the values of a point, or the changes along a ray.
ghost use Rattle.std.specs.Prelude.{◌≤◌, OnOk, length};
ghost use Rattle.report_page.specs.Pieces.{IsClosed, IsMarkedUp};

use crate::demands::{value_at, write_value};
use crate::folds::begin_fold;
use crate::numbers::{is_negative, magnitude, write_number};
use crate::parts::column_name;
use crate::pieces::Piece::{Fixed, Number, Text};
use crate::pieces::{write, write_fixed};
use frac128::Frac;
use lp_model::Model;
use std::alloc::AllocError;

/// What the number of a column tells: its value, also at a point of least violation or in a price, or how it changes.
#[derive(Clone, Copy, PartialEq, Eq)]
pub(crate) enum Told {
    Value,
    LeastValue,
    Price,
    Change,
}

// What a fold of numbers is called.
fn fold_title(told: Told) -> &'static str
    ensures { IsClosed result.now }
{
    match told {
        Told::Value => "Values that meet them (any other is 0): ",
        Told::LeastValue => "Values at which it is so little (any other is 0): ",
        Told::Price => "Values that show that none costs less (any other is 0): ",
        Told::Change => "Changes (any other quantity stays as it is): ",
    }
}

// Writes how a column changes.
fn write_change(
    model: &Model,
    column: u32,
    change: Frac,
    into: &mut Vec<u8>,
) -> Result<(), AllocError>
    ensures { OnOk result (IsMarkedUp into.old.items into.new.items) }
{
    let name = column_name(model, column);
    let amount = magnitude(change);
    if is_negative(change) {
        return write(&[Text(name), Fixed(" falls by "), Number(amount)], into);
    }
    write(&[Text(name), Fixed(" rises by "), Number(amount)], into)
}

// Writes what the number of a column tells.
fn write_told(
    model: &Model,
    told: Told,
    column: u32,
    number: Frac,
    into: &mut Vec<u8>,
) -> Result<(), AllocError>
    ensures { OnOk result (IsMarkedUp into.old.items into.new.items) }
{
    match told {
        Told::Value | Told::LeastValue | Told::Price => write_value(model, column, number, into),
        Told::Change => write_change(model, column, number, into),
    }
}

// Writes an item with the number of a column, where it is not 0.
fn write_item(
    model: &Model,
    told: Told,
    column: u32,
    number: Frac,
    into: &mut Vec<u8>,
) -> Result<(), AllocError>
    ensures { OnOk result (IsMarkedUp into.old.items into.new.items) }
{
    if number == Frac::whole(0) {
        return Ok(());
    }
    write_fixed("<li><code>", into)?;
    write_told(model, told, column, number, into)?;
    write_fixed("</code></li>\n", into)
}

// How many numbers are not 0.
fn count_shown(numbers: &[Frac]) -> u64
    ensures { result ≤ length numbers.now }
{
    let zero = Frac::whole(0);
    let mut count: u64 = 0;
    for number in numbers {
        if *number != zero {
            count += 1;
        }
    }
    count
}

/// Writes the numbers of the columns that are not 0, in a fold.
pub(crate) fn write_fold(
    model: &Model,
    told: Told,
    numbers: &[Frac],
    into: &mut Vec<u8>,
) -> Result<(), AllocError>
    ensures { OnOk result (IsMarkedUp into.old.items into.new.items) }
{
    begin_fold(fold_title(told), count_shown(numbers), into)?;
    write_fixed("<ul>\n", into)?;
    for column in 0..model.column_count() {
        write_item(model, told, column, value_at(numbers, column), into)?;
    }
    write_fixed("</ul>\n</details>\n", into)
}
