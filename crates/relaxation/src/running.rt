//! The runs of a system whose objective has an end.
ghost use Rattle.std.specs.Prelude.{◌≡◌, ◌<◌, ◌^◌, IfErr, IfOk, IsSome, length};
ghost use Rattle.certs.specs.Tableau.{IsWellFormedSystem, variables};
ghost use Rattle.two_widths.specs.Ends.{StopsSo};
ghost use Rattle.relaxation.specs.Runs.{HasNoRay, IsReached};

use certs::System;
use dictionary::Dictionary;
use frac128::Frac;
use simplex::RunStop;
use std::alloc::Global;
use two_widths::{End, solve};

/// Where the runs end: nothing helps this variable, which is outside its limits; or nothing raises the objective.
#[derive(Clone, Copy)]
pub enum Reached {
    Blocked(u32),
    Best,
}

/// The dictionary there.
#[derive(Drop)]
pub struct Ran {
    pub dictionary: Dictionary<Frac>,
    pub reached: Reached,
}

/// Settles and improves a system whose objective no ray raises from its start, with so many pivots for both together.
///
/// # Errors
///
/// The stop of the settle run, or that of the improve run.
pub fn run(alloc: Global, system: &System, pivots: u64) -> Result<Ran, RunStop>
    requires formed { IsWellFormedSystem system.now }
    requires objective { IsSome system.now.objective }
    requires few { variables system.now < 2 ^ 31 }
    requires bounded { HasNoRay system.now }
    requires budget { pivots < 2 ^ 63 }
    ensures reached { IfOk result (λ r. IsReached system.now r.dictionary r.reached) }
    ensures columns { IfOk result (λ r. r.dictionary.columns ≡ length system.now.columns) }
    ensures stop { IfErr result (StopsSo system.now pivots) }
{
    let solved = match solve(alloc, system, pivots) {
        Ok(solved) => solved,
        Err(stop) => return Err(stop),
    };
    match solved.end {
        End::Infeasible(variable) => Ok(Ran {
            dictionary: solved.dictionary,
            reached: Reached::Blocked(variable),
        }),
        End::Optimal => Ok(Ran {
            dictionary: solved.dictionary,
            reached: Reached::Best,
        }),
        End::Feasible => unreachable!(),
        End::Ray(_) => unreachable!(),
    }
}
