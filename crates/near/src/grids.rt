//! Points of decimal grids that keep equations.
use crate::drawing::Drawing;
use crate::equations::{Elimination, Equation, fixed_at, put_solved};
use crate::lattices::Lattice;
use crate::limits::within;
use crate::points::holds;
use crate::rounding::nearest;
use frac128::Frac;
use guide::Rounded;
use std::alloc::Global;

// How often changes of equations count, in turn.
const TIMES: [i64; 3] = [1 << 20, 1 << 12, 1 << 30];
// How fine the grids are, in turn.
const GRIDS: [i64; 19] = [
    1,
    4,
    10,
    40,
    100,
    400,
    1_000,
    4_000,
    10_000,
    40_000,
    100_000,
    400_000,
    1_000_000,
    4_000_000,
    10_000_000,
    40_000_000,
    100_000_000,
    1_000_000_000,
    10_000_000_000,
];

/// Values of a grid that satisfy the system: what is left of the equations is kept by a lattice, and the columns that others are
/// solved for follow.
pub(crate) fn on_grids(
    alloc: Global,
    drawing: &Drawing<'_>,
    rough: &[Rounded],
    elimination: &Elimination,
    rooms: &[i32],
) -> Option<Vec<Frac>> {
    let equations = elimination.rest.as_slice();
    for times in TIMES {
        if let Some(lattice) = Lattice::of(alloc, equations, rooms, times) {
            for grid in GRIDS {
                if let Some(values) = on_grid(
                    alloc,
                    drawing,
                    rough,
                    elimination,
                    &lattice,
                    times,
                    grid,
                )
                    && holds(drawing.system, values.as_slice()) == Some(true)
                {
                    return Some(values);
                }
            }
        }
    }
    None
}

// Values of a grid.
fn on_grid(
    alloc: Global,
    drawing: &Drawing<'_>,
    rough: &[Rounded],
    elimination: &Elimination,
    lattice: &Lattice,
    times: i64,
    grid: i64,
) -> Option<Vec<Frac>> {
    let equations = elimination.rest.as_slice();
    let mut steps = steps(alloc, drawing, rough, grid)?;
    let mut values = values(alloc, drawing, equations, steps.as_slice(), grid)?;
    move_steps(alloc, equations, lattice, times, grid, steps.as_mut_slice())?;
    for column in lattice.columns.iter() {
        *values.get_mut(*column as usize)? = over(*steps.get(*column as usize)?, grid)?;
    }
    put_solved(elimination.solved.as_slice(), values.as_mut_slice())?;
    Some(values)
}

// The grid's place next to each column.
fn steps(alloc: Global, drawing: &Drawing<'_>, rough: &[Rounded], grid: i64) -> Option<Vec<i128>> {
    let grid = Rounded::scaled(i128::from(grid), 0);
    let mut steps = Vec::new(alloc);
    for value in rough.iter().take(drawing.system.columns as usize) {
        steps.push(nearest(value.times(grid), 0)?).ok()?;
    }
    Some(steps)
}

// The values at places of the grid, within bounds where no equation is left of a column.
fn values(
    alloc: Global,
    drawing: &Drawing<'_>,
    equations: &[Equation],
    steps: &[i128],
    grid: i64,
) -> Option<Vec<Frac>> {
    let mut values = Vec::new(alloc);
    for (column, step) in (0u32..).zip(steps.iter()) {
        let value = match fixed_at(drawing.fixed.as_slice(), column) {
            Some(value) => value,
            None => within(drawing.system.limit(column)?, over(*step, grid)?),
        };
        values.push(value).ok()?;
    }
    for equation in equations {
        for entry in equation.entries.iter() {
            let step = *steps.get(entry.column as usize)?;
            *values.get_mut(entry.column as usize)? = over(step, grid)?;
        }
    }
    Some(values)
}

// A place of the grid as a number.
fn over(step: i128, grid: i64) -> Option<Frac> {
    Frac::new(step, i128::from(grid)).ok()
}

// Moves the places so that they keep the equations; none where the lattice finds no such ones near.
fn move_steps(
    alloc: Global,
    equations: &[Equation],
    lattice: &Lattice,
    times: i64,
    grid: i64,
    steps: &mut [i128],
) -> Option<()> {
    let mut vector = vec![in alloc; 0i64; lattice.columns.len()].ok()?;
    for equation in equations {
        vector.push(excess(equation, steps, times, grid)?).ok()?;
    }
    for _ in 0..6 {
        lattice.come_near(alloc, vector.as_mut_slice())?;
    }
    for number in vector.iter().skip(lattice.columns.len()) {
        if *number != 0 {
            return None;
        }
    }
    for (column, change) in lattice.columns.iter().zip(vector.iter()) {
        let step = steps.get_mut(*column as usize)?;
        *step = step.checked_add(i128::from(*change))?;
    }
    Some(())
}

// How much more than it should an equation comes to at places of the grid, so many times.
fn excess(equation: &Equation, steps: &[i128], times: i64, grid: i64) -> Option<i64> {
    let mut sum = equation.right.checked_mul(i128::from(grid))?.checked_neg()?;
    for entry in equation.entries.iter() {
        let step = *steps.get(entry.column as usize)?;
        sum = sum.checked_add(entry.factor.checked_mul(step)?)?;
    }
    i64::try_from(sum.checked_mul(i128::from(times))?).ok()
}
