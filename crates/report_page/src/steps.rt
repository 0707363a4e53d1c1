//! How far a program is reduced, step by step.
ghost use Rattle.std.specs.Prelude.{OnOk};
ghost use Rattle.report_page.specs.Pieces.{IsClosed, IsMarkedUp};

use crate::folds::begin_fold;
use crate::parts::{column_name, row_name};
use crate::pieces::Piece::{Count, Fixed, Number, Text};
use crate::pieces::{write, write_fixed};
use lp_model::{Model, Side};
use reductions::ReduceStep;
use report_text::Reduced;
use std::alloc::AllocError;

// What is said of a row that is removed by itself.
fn removed(step: ReduceStep) -> &'static str
    ensures { IsClosed result.now }
{
    match step {
        ReduceStep::Empty(_) => " has no quantity left, and it is met.",
        ReduceStep::Singleton(_) => {
            " has one quantity left: what it asks for became limits of this quantity."
        }
        ReduceStep::Forcing(_, Side::Lo) => {
            " meets its lower side only with each of its quantities at a limit."
        }
        ReduceStep::Forcing(_, Side::Up) => {
            " meets its upper side only with each of its quantities at a limit."
        }
        _ => " is met whatever its quantities are within their limits.",
    }
}

// Writes a row, and what is said of it.
fn write_row(
    model: &Model,
    row: u32,
    what: &'static str,
    into: &mut Vec<u8>,
) -> Result<(), AllocError>
    requires { IsClosed what.now }
    ensures { OnOk result (IsMarkedUp into.old.items into.new.items) }
{
    write(&[Fixed("Row "), Text(row_name(model, row))], into)?;
    write_fixed(what, into)
}

// Writes a step.
fn write_step(model: &Model, step: ReduceStep, into: &mut Vec<u8>) -> Result<(), AllocError>
    ensures { OnOk result (IsMarkedUp into.old.items into.new.items) }
{
    match step {
        ReduceStep::Empty(row)
        | ReduceStep::Singleton(row)
        | ReduceStep::Redundant(row)
        | ReduceStep::Forcing(row, _) => write_row(model, row, removed(step), into),
        ReduceStep::Fixed(column, value) => write(
            &[
                Text(column_name(model, column)),
                Fixed(" stands at "),
                Number(value),
                Fixed(": its least and its greatest value are equal."),
            ],
            into,
        ),
        ReduceStep::Doubleton(row, column) => write(
            &[
                Fixed("Row "),
                Text(row_name(model, row)),
                Fixed(" is an equation of two quantities: it gives "),
                Text(column_name(model, column)),
                Fixed(" by the other one."),
            ],
            into,
        ),
    }
}

/// Writes how far the program is reduced.
pub(crate) fn write_reduced(
    model: &Model,
    reduced: &Reduced,
    into: &mut Vec<u8>,
) -> Result<(), AllocError>
    ensures { OnOk result (IsMarkedUp into.old.items into.new.items) }
{
    let steps = reduced.steps.as_slice();
    write(
        &[
            Fixed("<p>The report says by which steps the program is made smaller, "),
            Fixed("and what is left. The check does not look into this.</p>\n"),
        ],
        into,
    )?;
    begin_fold("Steps: ", steps.len() as u64, into)?;
    write_fixed("<ol>\n", into)?;
    for step in steps {
        write_fixed("<li>", into)?;
        write_step(model, *step, into)?;
        write_fixed("</li>\n", into)?;
    }
    write(
        &[
            Fixed("</ol>\n</details>\n<p>Rows that are left: "),
            Count(reduced.rows),
            Fixed("; quantities that are left: "),
            Count(reduced.columns),
            Fixed(".</p>\n"),
        ],
        into,
    )
}
