//! Tries the filters, row by row, over an oracle that answers from a list and over the one that makes runs.
#![tactic(auto)]

mod rows;

use crate::rows::Filter::{Additive, Deletion, Sensitivity};
use crate::rows::Plan::{At, Spent, WithB};
use crate::rows::{Filter, Plan, said, said_by_runs};
use std::io;

/// A filter, whether row B is left out, and what its oracle answers.
#[derive(Clone, Copy)]
struct Row {
    filter: Filter,
    without_b: bool,
    plans: &'static [Plan],
}

// A row with all three rows of the program.
fn with_b(filter: Filter, plans: &'static [Plan]) -> Row {
    Row {
        filter,
        without_b: false,
        plans,
    }
}

// A row without B.
fn without_b(filter: Filter) -> Row {
    Row {
        filter,
        without_b: true,
        plans: &[At(0)],
    }
}

// Two answers: A and B contradict one another, and then no pivot is left.
const STOPPED: &[Plan] = &[WithB(0), Spent];

// The rows that are tried.
fn table() -> [Row; 12] {
    [
        // Row A goes by an ask, and then B and C stay.
        with_b(Deletion, &[WithB(0), WithB(2), At(0), At(1)]),
        // Row A goes without an ask, since the first proof does not use it.
        with_b(Deletion, &[WithB(2), At(0), At(1)]),
        with_b(Additive, &[WithB(2), WithB(0), At(0), At(1)]),
        // The first core is A and B.
        with_b(Sensitivity, &[WithB(0), At(1), At(0)]),
        with_b(Deletion, STOPPED),
        with_b(Additive, STOPPED),
        with_b(Sensitivity, STOPPED),
        without_b(Deletion),
        without_b(Additive),
        without_b(Sensitivity),
        // The third ask is the last that the list answers.
        with_b(Deletion, &[WithB(0), WithB(2), At(0)]),
        // A point that is not one of the set stops.
        with_b(Additive, &[WithB(2), WithB(0), At(1)]),
    ]
}

fn main(rt: HostRuntime) -> io::Result<()> {
    let alloc = rt.alloc();
    for row in table() {
        let text = said(alloc, row.filter, row.without_b, row.plans)?;
        println!(rt; "{:?}: {text}", row.filter)?;
    }
    for filter in [Deletion, Additive, Sensitivity] {
        let text = said_by_runs(alloc, filter, false)?;
        println!(rt; "{filter:?} by runs: {text}")?;
    }
    let text = said_by_runs(alloc, Additive, true)?;
    println!(rt; "Additive by runs, without B: {text}")
}
