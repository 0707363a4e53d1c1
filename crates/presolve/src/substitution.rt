//! The rules that put something in for a column: its value where its limits are equal, and an equation of two columns.
ghost use Rattle.std.specs.Prelude.{◌≡◌, ◌≢◌, ◌+◌, ◌<◌, ◌^◌, ◌∷◌, [], IfOk, None, Some, length};
ghost use Rattle.std.specs.Option.{option_map};
ghost use Rattle.rational.specs.Rational.{zero_ℚ};
ghost use Rattle.certs.specs.System.{no_limits};
ghost use Rattle.reductions.specs.declared.steps.Step.TheVariants.{Doubleton as PairStep};
ghost use Rattle.reductions.specs.Laws.{IsFormed};
ghost use Rattle.reductions.specs.Limited.{map_limits, tightened_by};
ghost use Rattle.reductions.specs.Rules.{doubleton_at as doubleton_found, fixed_at as fixed_found, fixed_value as value_of, fixed_with as fixed_found_with, limit_steps, pair_side as side_of_pair, pair_with as pair_found_with};
ghost use Rattle.reductions.specs.Stage.{row_in};
ghost use Rattle.presolve.specs.Eliminated.{WhereNarrow, AreParts, CanDivide, image_by, image_on, image_steps, made_by, one_steps, parts_steps};
ghost use Rattle.presolve.specs.Next.{IsNext};

use crate::eliminating::{
    ChangedObjective, ChangedRows, Elimination, Equation, changed_objective, changed_rows,
    less_product,
};
use crate::limits::{column_limits, is_tighter, limit_on, opposite, row_sides, tightened, turned};
use crate::plans::{NewLimits, NewRow, Next, Plan};
use certs::{Limits, System};
use frac128::Frac;
use lp_model::{Side, Terms};
use reductions::{Change, Changes, Doubleton, Fixed, Step};
use std::alloc::{AllocError, Global};

// The value of limits that are equal.
fn fixed_value(limits: Limits) -> Option<Frac>
    ensures { result ≡ value_of limits }
{
    let Some(least) = limits.lo else {
        return None;
    };
    let Some(greatest) = limits.up else {
        return None;
    };
    if least == greatest {
        return Some(least);
    }
    None
}

/// Where the limits of a column are equal: its value is put in for it, in each row that has it and in the objective. Nothing is
/// found where an operation is too wide.
///
/// # Errors
///
/// There is no memory for the rows.
pub fn fixed_at(alloc: Global, system: &System, column: u32) -> Result<Option<Next>, AllocError>
    requires formed { IsFormed system.now }
    requires small { length system.now.columns + length system.now.rows < 2 ^ 31 }
    requires known { column < length system.now.columns }
    ensures { IfOk result (IsNext system.now (fixed_found system.now column)) }
{
    match fixed_value(column_limits(system, column)) {
        Some(value) => fixed_with(alloc, system, column, value),
        None => Ok(None),
    }
}

// With the value.
fn fixed_with(
    alloc: Global,
    system: &System,
    column: u32,
    value: Frac,
) -> Result<Option<Next>, AllocError>
    requires formed { IsFormed system.now }
    requires small { length system.now.columns + length system.now.rows < 2 ^ 31 }
    ensures { IfOk result (IsNext system.now (fixed_found_with system.now column (Some value))) }
{
    let elimination = Elimination::Value { column, value };
    let made = changed_parts(alloc, system, &elimination)?;
    let Some(parts) = made else {
        return Ok(None);
    };
    let Parts {
        changes,
        rows,
        times,
        terms,
    } = parts;
    let mut columns = Vec::new(alloc);
    columns.push(without_limits(column))?;
    let step = Step::Fixed(Fixed {
        column,
        value,
        changes: Changes::new(changes),
        objective: times,
    });
    Ok(Some(Next::Plan(Plan {
        step,
        columns,
        rows,
        objective: terms,
    })))
}

// A column left without limits.
fn without_limits(column: u32) -> NewLimits
    ensures { result ≡ record { number = column; item = no_limits } }
{
    NewLimits {
        column,
        limits: Limits { lo: None, up: None },
    }
}

// What the rows and the objective become.
#[derive(Drop)]
struct Parts {
    changes: Vec<Change>,
    rows: Vec<NewRow>,
    times: Frac,
    terms: Option<Terms>,
}

// The rows and the objective after what is put in for a column is taken from them. Nothing where an operation is too wide.
fn changed_parts(
    alloc: Global,
    system: &System,
    elimination: &Elimination,
) -> Result<Option<Parts>, AllocError>
    requires formed { IsFormed system.now }
    requires small { length system.now.columns + length system.now.rows < 2 ^ 31 }
    requires divisor { CanDivide elimination.now }
    ensures { IfOk result (WhereNarrow (parts_steps elimination.now system.now)
        (λ p. AreParts elimination.now system.now p.changes.items p.rows.items p.times p.terms)) }
{
    let made = changed_rows(alloc, elimination, &system.rows)?;
    let Some(changed) = made else {
        return Ok(None);
    };
    let ChangedRows { changes, rows } = changed;
    let made = changed_objective(alloc, elimination, &system.objective)?;
    let Some(changed) = made else {
        return Ok(None);
    };
    let ChangedObjective { times, terms } = changed;
    Ok(Some(Parts {
        changes,
        rows,
        times,
        terms,
    }))
}

/// A row of two columns with equal sides: the equation is solved for the second column, which is put in for it in each other
/// row and in the objective, and the limits of that column become limits of the first where they are strictly tighter. Nothing
/// is found where an operation is too wide.
///
/// # Errors
///
/// There is no memory for the rows.
pub fn doubleton_at(alloc: Global, system: &System, index: u32) -> Result<Option<Next>, AllocError>
    requires formed { IsFormed system.now }
    requires small { length system.now.columns + length system.now.rows < 2 ^ 31 }
    requires known { index < length system.now.rows }
    ensures { IfOk result (IsNext system.now (doubleton_found system.now index (row_in system.now index).terms)) }
{
    let [kept, gone] = system.rows[index as usize].terms.as_slice() else {
        return Ok(None);
    };
    let Some(value) = fixed_value(row_sides(system, index)) else {
        return Ok(None);
    };
    let equation = Equation {
        row: index,
        kept: *kept,
        gone: *gone,
        value,
    };
    pair_with(alloc, system, &equation)
}

// With the equation.
fn pair_with(
    alloc: Global,
    system: &System,
    equation: &Equation,
) -> Result<Option<Next>, AllocError>
    requires formed { IsFormed system.now }
    requires small { length system.now.columns + length system.now.rows < 2 ^ 31 }
    requires kept { equation.now.kept.column < length system.now.columns }
    requires gone { equation.now.gone.column < length system.now.columns }
    requires factor { equation.now.kept.factor ≢ zero_ℚ }
    requires divisor { equation.now.gone.factor ≢ zero_ℚ }
    ensures { IfOk result (IsNext system.now (pair_found_with system.now equation.now.row equation.now.kept equation.now.gone (Some equation.now.value))) }
{
    let elimination = Elimination::Equation(*equation);
    let kept = equation.kept;
    let gone = equation.gone;
    let limits = column_limits(system, gone.column);
    let Some(images) = images(limits, equation) else {
        return Ok(None);
    };
    let made = changed_parts(alloc, system, &elimination)?;
    let Some(parts) = made else {
        return Ok(None);
    };
    let Parts {
        changes,
        rows,
        times,
        terms,
    } = parts;
    let limits = column_limits(system, kept.column);
    let columns = changed_columns(alloc, equation, limits, images)?;
    let step = pair_step(equation, limits, images, changes, times);
    Ok(Some(Next::Plan(Plan {
        step,
        columns,
        rows,
        objective: terms,
    })))
}

// The step.
fn pair_step(
    equation: &Equation,
    limits: Limits,
    images: Limits,
    changes: Vec<Change>,
    objective: Frac,
) -> Step
    ensures { result ≡ PairStep (record {
      row = equation.now.row;
      x = equation.now.kept.column;
      y = equation.now.gone.column;
      a = equation.now.kept.factor;
      b = equation.now.gone.factor;
      c = equation.now.value;
      lower = made_by equation.now limits images Side.Lo;
      upper = made_by equation.now limits images Side.Up;
      changes = changes.items;
      objective = objective;
    }) }
{
    let lower = maker(equation, limits, images, Side::Lo);
    let upper = maker(equation, limits, images, Side::Up);
    let kept = equation.kept;
    let gone = equation.gone;
    let changes = Changes::new(changes);
    Step::Doubleton(Doubleton {
        row: equation.row,
        x: kept.column,
        y: gone.column,
        a: kept.factor,
        b: gone.factor,
        c: equation.value,
        lower,
        upper,
        changes,
        objective,
    })
}

// The limits of the two columns.
fn changed_columns(
    alloc: Global,
    equation: &Equation,
    limits: Limits,
    images: Limits,
) -> Result<Vec<NewLimits>, AllocError>
    ensures { IfOk result (λ columns. columns.items ≡ record { number = equation.now.kept.column; item = tightened_by (image_on equation.now images) limits } ∷ (record { number = equation.now.gone.column; item = no_limits } ∷ [])) }
{
    let mut columns = Vec::new(alloc);
    columns.push(NewLimits {
        column: equation.kept.column,
        limits: Limits {
            lo: tightened(Side::Lo, limits.lo, image(equation, images, Side::Lo)),
            up: tightened(Side::Up, limits.up, image(equation, images, Side::Up)),
        },
    })?;
    columns.push(without_limits(equation.gone.column))?;
    Ok(columns)
}

// The side of the column that goes whose limit limits the one that is kept on a side.
fn pair_side(equation: &Equation, side: Side) -> Side
    ensures { result ≡ side_of_pair equation.now.kept.factor equation.now.gone.factor side }
{
    opposite(turned(equation.gone.factor, turned(equation.kept.factor, side)))
}

// What limits the column that is kept on a side.
fn image(equation: &Equation, images: Limits, side: Side) -> Option<Frac>
    ensures { result ≡ image_on equation.now images side }
{
    limit_on(images, pair_side(equation, side))
}

// The side of the column that goes that makes the limit on a side of the one that is kept, where it is strictly tighter.
fn maker(equation: &Equation, limits: Limits, images: Limits, side: Side) -> Option<Side>
    ensures { result ≡ made_by equation.now limits images side }
{
    let new = image(equation, images, side);
    if is_tighter(side, limit_on(limits, side), new) {
        return Some(pair_side(equation, side));
    }
    None
}

// What the equation makes of a limit of the column that goes, where it is there and no operation is too wide.
fn image_of(limit: Option<Frac>, equation: &Equation) -> Option<Option<Frac>>
    requires { equation.now.kept.factor ≢ zero_ℚ }
    ensures { WhereNarrow (one_steps (image_steps equation.now) limit)
        (λ r. r ≡ option_map (image_by equation.now) limit) result }
{
    let Some(limit) = limit else {
        return Some(None);
    };
    let kept = equation.kept;
    let gone = equation.gone;
    let Some(rest) = less_product(equation.value, gone.factor, limit) else {
        return None;
    };
    match rest.over(kept.factor) {
        Ok(image) => Some(Some(image)),
        Err(_) => None,
    }
}

// What it makes of both limits.
fn images(limits: Limits, equation: &Equation) -> Option<Limits>
    requires { equation.now.kept.factor ≢ zero_ℚ }
    ensures { WhereNarrow (limit_steps (image_steps equation.now) limits)
        (λ r. r ≡ map_limits (image_by equation.now) limits) result }
{
    let Some(lo) = image_of(limits.lo, equation) else {
        return None;
    };
    let Some(up) = image_of(limits.up, equation) else {
        return None;
    };
    Some(Limits { lo, up })
}
