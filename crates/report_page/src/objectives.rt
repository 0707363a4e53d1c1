//! Whether the objective gets better without end, or how far it can go.
ghost use Rattle.std.specs.Prelude.{OnOk};
ghost use Rattle.report_page.specs.Pieces.{IsClosed, IsMarkedUp};

use crate::cases::write_source;
use crate::folds::begin_fold;
use crate::members::{write_asking, write_taken};
use crate::pieces::Piece::{Fixed, Number};
use crate::pieces::{write, write_fixed};
use crate::points::{Told, write_fold};
use certs::{PackedPoint, PackedRay, Share, Source};
use frac128::Frac;
use lp_model::Model;
use report_text::Bounded;
use std::alloc::AllocError;

/// Writes a point from which the objective gets better without end, and a ray along which it does.
pub(crate) fn write_unbounded(
    model: &Model,
    point: &PackedPoint,
    ray: &PackedRay,
    into: &mut Vec<u8>,
) -> Result<(), AllocError>
    ensures { OnOk result (IsMarkedUp into.old.items into.new.items) }
{
    write(
        &[
            Fixed("<p class=lead>All requirements can be met, "),
            Fixed("and the objective gets better without end.</p>\n"),
        ],
        into,
    )?;
    let point = point.unpacked(*into.allocator())?;
    write_fold(model, Told::Value, point.values.as_slice(), into)?;
    write(
        &[
            Fixed("<p>From these values the quantities can go on changing as below, "),
            Fixed("in steps that keep whole values whole: no requirement stops them, "),
            Fixed("and the objective gets better with each step.</p>\n"),
        ],
        into,
    )?;
    let ray = ray.unpacked(*into.allocator())?;
    write_fold(model, Told::Change, ray.values.as_slice(), into)
}

// Whether a value is said to be the best.
fn best(bound: Frac, value: Frac) -> &'static str
    ensures { IsClosed result.now }
{
    if value == bound {
        return ", and no values are better.</p>\n";
    }
    ". Whether other values are better is not said.</p>\n"
}

// Writes the objective's value, where it is told.
fn write_reached(bound: Frac, value: Option<Frac>, into: &mut Vec<u8>) -> Result<(), AllocError>
    ensures { OnOk result (IsMarkedUp into.old.items into.new.items) }
{
    let Some(value) = value else {
        return write(
            &[
                Fixed(" What it is with the values below is left out: "),
                Fixed("a number on the way to it is too long to be kept exactly.</p>\n"),
            ],
            into,
        );
    };
    write(
        &[Fixed(" With the values below it is "), Number(value)],
        into,
    )?;
    write_fixed(best(bound, value), into)
}

// Writes a limit of a case, or a member, as what a share takes.
fn write_holder(model: &Model, source: Source, into: &mut Vec<u8>) -> Result<(), AllocError>
    ensures { OnOk result (IsMarkedUp into.old.items into.new.items) }
{
    if let Source::Member(member) = source {
        return write_asking(model, member, into);
    }
    write_fixed("<li><b>", into)?;
    write_source(model, source, into)?;
    write_fixed("</b>\n", into)
}

/// Writes shares in a fold: what each takes, and how often.
pub(crate) fn write_holders(
    model: &Model,
    title: &'static str,
    shares: &[Share],
    into: &mut Vec<u8>,
) -> Result<(), AllocError>
    requires { IsClosed title.now }
    ensures { OnOk result (IsMarkedUp into.old.items into.new.items) }
{
    begin_fold(title, shares.len() as u64, into)?;
    write_fixed("<ol>\n", into)?;
    for share in shares {
        write_holder(model, share.source, into)?;
        write_taken(share.weight, into)?;
        write_fixed("</li>\n", into)?;
    }
    write_fixed("</ol>\n</details>\n", into)
}

// What the shares add up to, by whether the objective is made greatest.
fn add_up(maximise: bool) -> &'static str
    ensures { IsClosed result.now }
{
    if maximise {
        return "<p>Take each as often as it says, turn round those with &gt;=, and add up: on the left this comes to the objective, and together they say that it is at most ";
    }
    "<p>Take each as often as it says, turn round those with &lt;=, and add up: on the left this comes to the objective, and together they say that it is at least "
}

/// Writes how far the objective can go, and what holds it there.
pub(crate) fn write_bounded(
    model: &Model,
    bounded: &Bounded,
    into: &mut Vec<u8>,
) -> Result<(), AllocError>
    ensures { OnOk result (IsMarkedUp into.old.items into.new.items) }
{
    let dual = &bounded.dual;
    let shares = dual.combo.shares.as_slice();
    write(
        &[
            Fixed("<p>All requirements can be met, and then the objective is never better than "),
            Number(dual.bound),
            Fixed("."),
        ],
        into,
    )?;
    write_reached(dual.bound, bounded.objective, into)?;
    let point = bounded.point.unpacked(*into.allocator())?;
    write_fold(model, Told::Value, point.values.as_slice(), into)?;
    write_holders(
        model,
        "Requirements that hold the objective: ",
        shares,
        into,
    )?;
    write_fixed(add_up(model.maximise()), into)?;
    write(&[Number(dual.bound), Fixed(".</p>\n")], into)
}
