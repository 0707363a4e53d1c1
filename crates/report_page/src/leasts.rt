//! How little must give way, and what a cheapest way to show a contradiction costs.
ghost use Rattle.std.specs.Prelude.{OnOk};
ghost use Rattle.report_page.specs.Pieces.{IsClosed, IsMarkedUp};

use crate::objectives::write_holders;
use crate::pieces::Piece::{Fixed, Number};
use crate::pieces::{write, write_fixed};
use crate::points::{Told, write_fold};
use crate::relaxed::write_yielding;
use certs::{PackedPoint, Share};
use frac128::Frac;
use lp_model::Model;
use std::alloc::AllocError;

// Whether any requirement is said to have to give way.
fn gives(total: Frac) -> &'static str
    ensures { IsClosed result.now }
{
    if total == Frac::whole(0) {
        return "<p class=lead>All requirements can be met at once.";
    }
    "<p class=lead>Not all requirements can be met at once."
}

// Writes the least weighted violation.
fn write_total(total: Frac, into: &mut Vec<u8>) -> Result<(), AllocError>
    ensures { OnOk result (IsMarkedUp into.old.items into.new.items) }
{
    write_fixed(gives(total), into)?;
    write(
        &[
            Fixed(" The least weighted violation is "),
            Number(total),
            Fixed(".</p>\n<p>That is by how much each requirement is missed, times its weight, "),
            Fixed("added up over those that are not rigid. The rigid ones are met.</p>\n"),
        ],
        into,
    )
}

// Writes why no less is enough, where the dual has shares.
fn write_showing(
    model: &Model,
    shares: &[Share],
    total: Frac,
    into: &mut Vec<u8>,
) -> Result<(), AllocError>
    ensures { OnOk result (IsMarkedUp into.old.items into.new.items) }
{
    if shares.is_empty() {
        return Ok(());
    }
    write_holders(
        model,
        "Requirements that show that no less is enough: ",
        shares,
        into,
    )?;
    write(
        &[
            Fixed("<p>Take each as often as it says, turn round those with &lt;=, and add up: "),
            Fixed("on the left everything cancels, and together they say <code>0 &gt;= "),
            Number(total),
            Fixed("</code>. None is taken more often than it weighs, rigid ones aside: "),
            Fixed("so wherever the rigid ones are met, the weighted violation is at least "),
            Number(total),
            Fixed(".</p>\n"),
        ],
        into,
    )
}

/// Writes a point of least weighted violation, and why none is less.
pub(crate) fn write_least(
    model: &Model,
    point: &PackedPoint,
    shares: &[Share],
    total: Frac,
    into: &mut Vec<u8>,
) -> Result<(), AllocError>
    ensures { OnOk result (IsMarkedUp into.old.items into.new.items) }
{
    write_total(total, into)?;
    let point = point.unpacked(*into.allocator())?;
    write_yielding(model, total, point.values.as_slice(), into)?;
    write_fold(model, Told::LeastValue, point.values.as_slice(), into)?;
    write_showing(model, shares, total, into)
}

// Writes what the cheapest way costs, and what the values of its price show.
fn write_cost(total: Frac, into: &mut Vec<u8>) -> Result<(), AllocError>
    ensures { OnOk result (IsMarkedUp into.old.items into.new.items) }
{
    write(
        &[
            Fixed(
                "<p>Of all ways to add requirements up to 0 &gt;= 1 none costs less than this one. ",
            ),
            Fixed(
                "What a way costs is how often it takes each requirement, times the weight of that ",
            ),
            Fixed("requirement (1 where it is rigid), added up. Here it is "),
            Number(total),
            Fixed(".</p>\n<p>The values below show this. If each requirement asked for "),
            Number(total),
            Fixed(" times its number, these values would miss none by more than its weight "),
            Fixed("(1 where it is rigid). So, added up, each way costs at least "),
            Number(total),
            Fixed(".</p>\n"),
        ],
        into,
    )
}

/// Writes a total with its price, where they are told.
pub(crate) fn write_price(
    model: &Model,
    price: &Option<(Frac, PackedPoint)>,
    into: &mut Vec<u8>,
) -> Result<(), AllocError>
    ensures { OnOk result (IsMarkedUp into.old.items into.new.items) }
{
    let Some((total, price)) = price else {
        return Ok(());
    };
    write_cost(*total, into)?;
    let price = price.unpacked(*into.allocator())?;
    write_fold(model, Told::Price, price.values.as_slice(), into)
}
