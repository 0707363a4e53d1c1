//! Who gives way at a point of least weighted violation.
ghost use Rattle.std.specs.Prelude.{OnOk};
ghost use Rattle.report_page.specs.Pieces.{IsClosed, IsMarkedUp};

use crate::demands::value_at;
use crate::numbers::{product, sum, write_number};
use crate::parts::{asked, member_name, member_weight, row_terms};
use crate::pieces::Piece::{Fixed, Text};
use crate::pieces::{write, write_fixed};
use frac128::Frac;
use lp_model::{Member, Model, Term, Weight};
use std::alloc::AllocError;

/// A member that is missed: the number that it asks for, what it gets, and by how much that misses.
#[derive(Clone, Copy)]
struct Miss {
    wanted: Frac,
    got: Frac,
    missed: Frac,
    weight: Frac,
}

// The value of a form, where no operation on the way to it is too wide.
fn form_value(terms: &[Term], values: &[Frac]) -> Option<Frac> {
    let mut total = Frac::whole(0);
    for term in terms {
        let part = product(term.factor, value_at(values, term.column))?;
        total = sum(total, part)?;
    }
    Some(total)
}

// What a member gets, where no operation on the way to it is too wide.
fn got(model: &Model, values: &[Frac], member: Member) -> Option<Frac> {
    match member {
        Member::RowLo(index) | Member::RowUp(index) => {
            form_value(row_terms(model, index), values)
        }
        Member::Lower(column) | Member::Upper(column) | Member::Whole(column) => {
            Some(value_at(values, column))
        }
    }
}

// By how much a member is missed that gets so much; below 0 where it gets more than it asks for.
fn missed(member: Member, wanted: Frac, got: Frac) -> Option<Frac> {
    match member {
        Member::RowLo(_) | Member::Lower(_) => sum(wanted, got.negate()),
        Member::RowUp(_) | Member::Upper(_) => sum(got, wanted.negate()),
        Member::Whole(_) => None,
    }
}

// How a member is missed, where it is, and where no operation on the way to that is too wide.
fn miss_of(model: &Model, values: &[Frac], member: Member) -> Option<Miss> {
    let Weight::Soft(weight) = member_weight(model, member) else {
        return None;
    };
    let wanted = asked(model, member);
    let got = got(model, values, member)?;
    let missed = missed(member, wanted, got)?;
    if missed <= Frac::whole(0) {
        return None;
    }
    Some(Miss {
        wanted,
        got,
        missed,
        weight,
    })
}

// What a number is to what gives it.
fn relation(member: Member) -> &'static str
    ensures { IsClosed result.now }
{
    match member {
        Member::RowLo(_) | Member::Lower(_) => "<td>at least ",
        _ => "<td>at most ",
    }
}

// Writes a cell of the table: a number, or nothing where that is too wide.
fn write_cell(number: &Option<Frac>, into: &mut Vec<u8>) -> Result<(), AllocError>
    ensures { OnOk result (IsMarkedUp into.old.items into.new.items) }
{
    let Some(number) = number else {
        return write_fixed("<td></td>", into);
    };
    write_fixed("<td>", into)?;
    write_number(*number, into)?;
    write_fixed("</td>", into)
}

// Writes what a member is, and what it wants.
fn write_wanted(
    model: &Model,
    member: Member,
    wanted: Frac,
    into: &mut Vec<u8>,
) -> Result<(), AllocError>
    ensures { OnOk result (IsMarkedUp into.old.items into.new.items) }
{
    write(
        &[
            Fixed("<tr><th scope=row>"),
            Text(member_name(model, member)),
            Fixed("</th>"),
        ],
        into,
    )?;
    write_fixed(relation(member), into)?;
    write_number(wanted, into)?;
    write_fixed("</td>", into)
}

// Writes what it gets, by how much it is missed, its weight, and their product.
fn write_miss(miss: &Miss, into: &mut Vec<u8>) -> Result<(), AllocError>
    ensures { OnOk result (IsMarkedUp into.old.items into.new.items) }
{
    write_cell(&Some(miss.got), into)?;
    write_cell(&Some(miss.missed), into)?;
    write_cell(&Some(miss.weight), into)?;
    write_cell(&product(miss.missed, miss.weight), into)?;
    write_fixed("</tr>\n", into)
}

// Writes a member, where it is missed.
fn write_missed(
    model: &Model,
    values: &[Frac],
    member: Member,
    into: &mut Vec<u8>,
) -> Result<(), AllocError>
    ensures { OnOk result (IsMarkedUp into.old.items into.new.items) }
{
    let Some(miss) = miss_of(model, values, member) else {
        return Ok(());
    };
    write_wanted(model, member, miss.wanted, into)?;
    write_miss(&miss, into)
}

/// Writes who gives way at these values of some weighted violation. A member of which a number is too wide is left out.
pub(crate) fn write_yielding(
    model: &Model,
    total: Frac,
    values: &[Frac],
    into: &mut Vec<u8>,
) -> Result<(), AllocError>
    ensures { OnOk result (IsMarkedUp into.old.items into.new.items) }
{
    if total == Frac::whole(0) {
        return Ok(());
    }
    write(
        &[
            Fixed("<div class=wide>\n<table>\n<caption>Who gives way</caption>\n<thead><tr>"),
            Fixed("<th scope=col>Who</th><th scope=col>Wanted</th><th scope=col>Got</th>"),
            Fixed("<th scope=col>Missed</th><th scope=col>Weight</th><th scope=col>Product</th>"),
            Fixed("</tr></thead>\n<tbody>\n"),
        ],
        into,
    )?;
    let active = model.members(*into.allocator())?;
    for member in active.iter() {
        write_missed(model, values, member, into)?;
    }
    write_fixed("</tbody>\n</table>\n</div>\n", into)
}
