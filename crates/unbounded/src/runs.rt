//! The run of a system that can be satisfied.
ghost use Rattle.std.specs.Prelude.{◌≡◌, ◌<◌, ◌^◌, IfErr, IfOk, IsSome, length};
ghost use Rattle.frac128.specs.Limit.{limit};
ghost use Rattle.certs.specs.Tableau.{IsTableauOf, IsWellFormedSystem, variables};
ghost use Rattle.dictionary.specs.Value.{tableau_of};
ghost use Rattle.simplex.specs.ImproveEnds.{EndsAt, KeepsLimits, end_of};
ghost use Rattle.two_widths.specs.Ends.{EndsSo, StopsSo};
ghost use Rattle.unbounded.specs.Runs.{HasNoCombination};

use certs::System;
use dictionary::Dictionary;
use frac128::Frac;
use simplex::{Improved, RunStop};
use std::alloc::Global;
use two_widths::{End, solve};

/// The dictionary at the end of the improve run.
#[derive(Drop)]
pub(crate) struct Ran {
    pub(crate) dictionary: Dictionary<Frac>,
    pub(crate) end: Improved,
}

/// Settles and improves a system that nothing contradicts from its start, with so many pivots for both together.
///
/// # Errors
///
/// The stop of the settle run, or that of the improve run.
pub(crate) fn run(alloc: Global, system: &System, pivots: u64) -> Result<Ran, RunStop>
    requires formed { IsWellFormedSystem system.now }
    requires objective { IsSome system.now.objective }
    requires few { variables system.now < 2 ^ 31 }
    requires satisfied { HasNoCombination system.now }
    requires budget { pivots < 2 ^ 63 }
    ensures ended { IfOk result (λ r. EndsAt limit r.dictionary r.end) }
    ensures is_of { IfOk result (λ r. IsTableauOf system.now (tableau_of r.dictionary)) }
    ensures within { IfOk result (λ r. KeepsLimits system.now (tableau_of r.dictionary)) }
    ensures run { let ends = EndsSo system.now pivots in
        IfOk result (λ r. ends (end_of r.end) r.dictionary.basis) }
    ensures columns { IfOk result (λ r. r.dictionary.columns ≡ length system.now.columns) }
    ensures stop { IfErr result (StopsSo system.now pivots) }
{
    let solved = match solve(alloc, system, pivots) {
        Ok(solved) => solved,
        Err(stop) => return Err(stop),
    };
    match solved.end {
        End::Optimal => Ok(Ran {
            dictionary: solved.dictionary,
            end: Improved::Optimal,
        }),
        End::Ray(variable) => Ok(Ran {
            dictionary: solved.dictionary,
            end: Improved::Unbounded(variable),
        }),
        End::Feasible => unreachable!(),
        End::Infeasible(_) => unreachable!(),
    }
}
