//! What members ask for, in the words of the model.
ghost use Rattle.std.specs.Prelude.{OnOk};
ghost use Rattle.report_page.specs.Pieces.{IsClosed, IsMarkedUp};

use crate::numbers::{is_negative, magnitude, write_number};
use crate::parts::{asked, column_name, member_name, row_terms};
use crate::pieces::Piece::{Fixed, Number, Text};
use crate::pieces::{write, write_fixed};
use frac128::Frac;
use lp_model::{Member, Model, Term};
use std::alloc::AllocError;

// Writes so much of a column.
fn write_amount(
    model: &Model,
    amount: Frac,
    column: u32,
    into: &mut Vec<u8>,
) -> Result<(), AllocError>
    ensures { OnOk result (IsMarkedUp into.old.items into.new.items) }
{
    let name = column_name(model, column);
    if amount == Frac::whole(1) {
        return write(&[Text(name)], into);
    }
    write(&[Number(amount), Fixed(" "), Text(name)], into)
}

// What stands before a term of a sum, by its factor.
fn sign_before(factor: Frac, is_first: bool) -> &'static str
    ensures { IsClosed result.now }
{
    let is_minus = is_negative(factor);
    if is_first {
        return if is_minus { "-" } else { "" };
    }
    if is_minus { " - " } else { " + " }
}

// Writes a sum.
fn write_sum(model: &Model, terms: &[Term], into: &mut Vec<u8>) -> Result<(), AllocError>
    ensures { OnOk result (IsMarkedUp into.old.items into.new.items) }
{
    if terms.is_empty() {
        return write_fixed("0", into);
    }
    let mut is_first = true;
    for term in terms {
        write_fixed(sign_before(term.factor, is_first), into)?;
        write_amount(model, magnitude(term.factor), term.column, into)?;
        is_first = false;
    }
    Ok(())
}

// What a member asks of that of which it is, before its number.
fn asking(member: Member) -> &'static str
    ensures { IsClosed result.now }
{
    match member {
        Member::RowLo(_) => " needs at least ",
        Member::RowUp(_) => " allows at most ",
        Member::Lower(_) => " is at least ",
        Member::Upper(_) => " is at most ",
        Member::Whole(_) => " has to be whole",
    }
}

/// Writes a member in words: its name, and what it asks for.
pub(crate) fn write_title(
    model: &Model,
    member: Member,
    into: &mut Vec<u8>,
) -> Result<(), AllocError>
    ensures { OnOk result (IsMarkedUp into.old.items into.new.items) }
{
    write(&[Text(member_name(model, member))], into)?;
    write_fixed(asking(member), into)?;
    if let Member::Whole(_) = member {
        return Ok(());
    }
    write_number(asked(model, member), into)
}

/// Writes a row whose sides are both members, which ask for one number, as an equation.
pub(crate) fn write_equation(model: &Model, row: u32, into: &mut Vec<u8>) -> Result<(), AllocError>
    ensures { OnOk result (IsMarkedUp into.old.items into.new.items) }
{
    let side = Member::RowLo(row);
    write_fixed("<li><b>", into)?;
    write(
        &[Text(member_name(model, side)), Fixed(" has to be exactly ")],
        into,
    )?;
    write_number(asked(model, side), into)?;
    write_fixed("</b>", into)?;
    write_row(model, row, " = ", side, into)
}

// Writes a row as an inequality, or as an equation.
fn write_row(
    model: &Model,
    row: u32,
    relation: &'static str,
    member: Member,
    into: &mut Vec<u8>,
) -> Result<(), AllocError>
    requires { IsClosed relation.now }
    ensures { OnOk result (IsMarkedUp into.old.items into.new.items) }
{
    write_fixed("\n<code>", into)?;
    write_sum(model, row_terms(model, row), into)?;
    write_fixed(relation, into)?;
    write(&[Number(asked(model, member)), Fixed("</code>")], into)
}

/// Writes the inequality of a member of a row; a bound or a mark says all in its title.
pub(crate) fn write_demand(
    model: &Model,
    member: Member,
    into: &mut Vec<u8>,
) -> Result<(), AllocError>
    ensures { OnOk result (IsMarkedUp into.old.items into.new.items) }
{
    match member {
        Member::RowLo(row) => write_row(model, row, " &gt;= ", member, into),
        Member::RowUp(row) => write_row(model, row, " &lt;= ", member, into),
        _ => Ok(()),
    }
}

/// Writes the value of a column.
pub(crate) fn write_value(
    model: &Model,
    column: u32,
    value: Frac,
    into: &mut Vec<u8>,
) -> Result<(), AllocError>
    ensures { OnOk result (IsMarkedUp into.old.items into.new.items) }
{
    write(
        &[
            Text(column_name(model, column)),
            Fixed(" = "),
            Number(value),
        ],
        into,
    )
}

/// The value of a column, or 0 past the last.
pub(crate) fn value_at(values: &[Frac], column: u32) -> Frac {
    match values.get(column as usize) {
        Some(value) => *value,
        None => Frac::whole(0),
    }
}

// What stands before a value.
fn lead(is_first: bool) -> &'static str
    ensures { IsClosed result.now }
{
    if is_first {
        ", for instance with "
    } else {
        ", "
    }
}

// Writes the values of the columns of terms.
fn write_term_values(
    model: &Model,
    values: &[Frac],
    terms: &[Term],
    into: &mut Vec<u8>,
) -> Result<(), AllocError>
    ensures { OnOk result (IsMarkedUp into.old.items into.new.items) }
{
    let mut is_first = true;
    for term in terms {
        write_fixed(lead(is_first), into)?;
        write_value(model, term.column, value_at(values, term.column), into)?;
        is_first = false;
    }
    Ok(())
}

/// Writes the values of the columns of a member's form.
pub(crate) fn write_values(
    model: &Model,
    values: &[Frac],
    member: Member,
    into: &mut Vec<u8>,
) -> Result<(), AllocError>
    ensures { OnOk result (IsMarkedUp into.old.items into.new.items) }
{
    match member {
        Member::RowLo(index) | Member::RowUp(index) => {
            write_term_values(model, values, row_terms(model, index), into)
        }
        Member::Lower(column) | Member::Upper(column) | Member::Whole(column) => {
            let factor = Frac::whole(1);
            write_term_values(model, values, &[Term { column, factor }], into)
        }
    }
}
