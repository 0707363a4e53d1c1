//! What the runs of a system show.
ghost use Rattle.std.specs.Prelude.{◌≡◌, ◌<◌, ◌^◌, ℕ, IfErr, IfOk, IsSome, None, Some, map};
ghost use Rattle.certs.specs.Named.{named};
ghost use Rattle.certs.specs.Plain.{crossing_shares, first_crossing as least_crossing};
ghost use Rattle.certs.specs.Tableau.{IsWellFormedSystem, variables};
ghost use Rattle.relaxation.specs.Runs.{HasNoRay, IsFailure, IsSolved};

use crate::running::{Reached, run};
use certs::{Combo, Dual, Point, Shares, Side, System};
use frac128::Frac;
use linear_oracle::first_crossing;
use simplex::{RunStop, combo_of, dual_of, limit_share, point_of};
use std::alloc::{AllocError, Global};

/// What a system's runs show: a combination, which nothing satisfies; or values of its columns at which the objective is
/// greatest, and a dual that shows so.
#[derive(Drop)]
pub(crate) enum Solved {
    Infeasible(Combo),
    Optimal(Point, Dual),
}

/// Why they show nothing: how they stop, or want of memory.
#[derive(Drop)]
pub(crate) enum Failure {
    Stopped(RunStop),
    OutOfMemory,
}

/// Solves a system whose objective no ray raises, with so many pivots for both of its runs together. Where limits cross,
/// those of the least variable whose limits do are the combination, and nothing is run.
///
/// # Errors
///
/// The stop of the settle run, or that of the improve run; or want of memory.
pub(crate) fn solve(alloc: Global, system: &System, pivots: u64) -> Result<Solved, Failure>
    requires formed { least_crossing system.now ≡ None → IsWellFormedSystem system.now }
    requires objective { IsSome system.now.objective }
    requires bounded { HasNoRay system.now }
    requires few { variables system.now < 2 ^ 31 }
    requires budget { pivots < 2 ^ 63 }
    ensures solved { IfOk result (IsSolved system.now) }
    ensures failure { IfErr result (IsFailure system.now pivots) }
{
    if let Some(variable) = first_crossing(system) {
        return crossing(alloc, system, variable);
    }
    let ran = match run(alloc, system, pivots) {
        Ok(ran) => ran,
        Err(stop) => return Err(Failure::Stopped(stop)),
    };
    match ran.reached {
        Reached::Blocked(variable) => {
            let Ok(combo) = combo_of(alloc, &ran.dictionary, variable) else {
                return Err(Failure::OutOfMemory);
            };
            Ok(Solved::Infeasible(combo))
        }
        Reached::Best => {
            let Ok(dual) = dual_of(alloc, &ran.dictionary) else {
                return Err(Failure::OutOfMemory);
            };
            let Ok(values) = point_of(alloc, &ran.dictionary) else {
                return Err(Failure::OutOfMemory);
            };
            Ok(Solved::Optimal(values, dual))
        }
    }
}

// Both limits of a variable whose limits cross, each once.
fn crossing(alloc: Global, system: &System, variable: u32) -> Result<Solved, Failure>
    requires few { variables system.now < 2 ^ 31 }
    requires crosses { least_crossing system.now ≡ Some variable }
    ensures solved { IfOk result (IsSolved system.now) }
    ensures failure { (pivots : ℕ) → IfErr result (IsFailure system.now pivots) }
{
    let columns = system.columns.len() as u32;
    let Ok(combo) = crossing_combo(alloc, columns, variable) else {
        return Err(Failure::OutOfMemory);
    };
    Ok(Solved::Infeasible(combo))
}

// The combination of both limits.
fn crossing_combo(alloc: Global, columns: u32, variable: u32) -> Result<Combo, AllocError>
    ensures { let shares = map (named columns) (crossing_shares variable) in
        IfOk result (λ combo. combo.shares ≡ shares) }
{
    let one = Frac::whole(1);
    let shares = [
        limit_share(columns, variable, Side::Lo, one),
        limit_share(columns, variable, Side::Up, one),
    ];
    Ok(Combo {
        shares: Shares::new(Vec::from_slice(alloc, &shares)?),
    })
}
