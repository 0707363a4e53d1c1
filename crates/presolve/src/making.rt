//! Plans made in a stage.
ghost use Rattle.std.specs.Prelude.{◌≡◌, map, slice_set};
ghost use Rattle.std.specs.Option.{option_or};
ghost use Rattle.certs.specs.Rows.{row_of};
ghost use Rattle.reductions.specs.Reduction.{left_without, removed_row as row_that_goes};
ghost use Rattle.presolve.specs.Plans.{planned, put_all};

use crate::plans::{NewLimits, NewRow, Plan};
use crate::stages::Stage;
use certs::{Limits, System};
use lp_model::{Row, Terms};
use reductions::Step;

/// Makes of a stage what a plan says, marks the row that its step removes, and hands the step out. It takes no memory.
pub(crate) fn make(stage: &mut Stage, plan: Plan) -> Step
    ensures system { stage.new.system ≡ planned plan stage.old.system }
    ensures live { stage.new.live ≡ left_without (row_that_goes plan.step) stage.old.live }
    ensures step { result ≡ plan.step }
{
    let Plan {
        step,
        columns,
        rows,
        objective,
    } = plan;
    put_parts(&mut stage.system, columns, rows, objective);
    mark_removed(&mut stage.live, removed_row(&step));
    step
}

// Puts the new limits, rows and terms in their places.
fn put_parts(
    system: &mut System,
    columns: Vec<NewLimits>,
    rows: Vec<NewRow>,
    objective: Option<Terms>,
)
    ensures columns { system.new.columns ≡ put_all columns.items system.old.columns }
    ensures rows { system.new.rows ≡ put_all rows.items system.old.rows }
    ensures objective { system.new.objective ≡ option_or objective system.old.objective }
{
    put_columns(&mut system.columns, &columns);
    put_rows(&mut system.rows, rows);
    if objective.is_some() {
        system.objective = objective;
    }
}

// Puts new limits of columns in their places.
fn put_columns(columns: &mut [Limits], changed: &[NewLimits])
    ensures { columns.new ≡ put_all changed.now columns.old }
{
    for new in changed {
        put_column(columns, *new);
    }
}

// Puts new limits of a column in their place.
fn put_column(columns: &mut [Limits], new: NewLimits)
    ensures { columns.new ≡ slice_set columns.old new.number new.item }
{
    let index = new.column as usize;
    if index < columns.len() {
        columns[index] = new.limits;
    }
}

// Puts new rows in their places.
fn put_rows(rows: &mut [Row], changed: Vec<NewRow>)
    ensures { map row_of rows.new ≡ put_all changed.items (map row_of rows.old) }
{
    for new in changed {
        put_row(rows, new);
    }
}

// Puts a new row in its place.
fn put_row(rows: &mut [Row], new: NewRow)
    ensures { map row_of rows.new ≡ slice_set (map row_of rows.old) new.number new.item }
{
    let index = new.index as usize;
    if index < rows.len() {
        rows[index] = new.row;
    }
}

// The row that a step removes, where it removes one.
fn removed_row(step: &Step) -> Option<u32>
    ensures { result ≡ row_that_goes step.now }
{
    match step {
        Step::Empty(row) => Some(*row),
        Step::Singleton(single) => Some(single.row),
        Step::Fixed(_) => None,
        Step::Redundant(row) => Some(*row),
        Step::Forcing(forcing) => Some(forcing.row),
        Step::Doubleton(pair) => Some(pair.row),
    }
}

// Marks a row as removed, where there is one.
fn mark_removed(live: &mut [bool], row: Option<u32>)
    ensures { live.new ≡ left_without row live.old }
{
    if let Some(row) = row {
        let index = row as usize;
        if index < live.len() {
            live[index] = false;
        }
    }
}
