//! The runs of a system over the narrowest fractions that do.
ghost use Rattle.std.specs.Prelude.{◌≡◌, ◌↔◌, ◌<◌, ◌^◌, IfErr, IfOk, IsTrue, None, true};
ghost use Rattle.frac128.specs.Limit.{limit, narrow_limit};
ghost use Rattle.certs.specs.Tableau.{IsWellFormedSystem, variables};
ghost use Rattle.two_widths.specs.Ends.{IsStopOf, LastEnds, StandsAt, StopsSo};
ghost use Rattle.two_widths.specs.Runs.{IsNarrow, StopsBy};

use crate::runs::{End, run};
use certs::System;
use dictionary::{Dictionary, fits_narrow, is_formed};
use frac128::{Frac, Frac64};
use simplex::RunStop;
use std::alloc::Global;

/// The dictionary at the end of a system's runs, whether fractions of 64 bits did, and how many pivots the run made that is told.
#[derive(Drop)]
pub struct Solved {
    pub dictionary: Dictionary<Frac>,
    pub end: End,
    pub narrow: bool,
    pub made: u64,
}

/// Settles a system, and where it has an objective and settled feasible improves it, with so many
/// pivots for both together.
///
/// The runs are made over fractions of 64 bits where all numbers of the system are such, and at the first operation that is
/// too wide for these made anew from the start, with the whole budget, over those of 128 bits. The end and the dictionary are
/// those of the latter runs either way.
///
/// # Errors
///
/// `Wide` and `Pivots` come exactly where the runs over 128 bits stop so, and `Memory` for want of it.
pub fn solve(alloc: Global, system: &System, pivots: u64) -> Result<Solved, RunStop>
    requires formed { IsWellFormedSystem system.now }
    requires few { variables system.now < 2 ^ 31 }
    requires budget { pivots < 2 ^ 63 }
    ensures ended { let ends = LastEnds system.now pivots in
        IfOk result (λ s. ends s.end s.dictionary.basis) }
    ensures stands { IfOk result (λ s. StandsAt limit system.now s.dictionary s.end) }
    ensures stop { IfErr result (StopsSo system.now pivots) }
    ensures plain { system.now.objective ≡ None → IfErr result (IsStopOf system.now pivots) }
    ensures narrow { IfOk result (λ s. IsTrue s.narrow ↔ IsNarrow system.now pivots) }
{
    if !fits_narrow(system) {
        return solve_wide(alloc, system, pivots);
    }
    let ran = match run::<Frac64>(alloc, system, pivots) {
        Ok(ran) => ran,
        Err(stop) => return after(alloc, system, pivots, stop),
    };
    let Ok(dictionary) = ran.dictionary.widened(alloc) else {
        return Err(RunStop::Memory);
    };
    Ok(Solved {
        dictionary,
        end: ran.end,
        narrow: true,
        made: ran.made,
    })
}

// What comes after a stop of the runs over fractions of 64 bits: where an operation was too wide for these, all is made anew.
fn after(alloc: Global, system: &System, pivots: u64, stop: RunStop) -> Result<Solved, RunStop>
    requires formed { IsWellFormedSystem system.now }
    requires few { variables system.now < 2 ^ 31 }
    requires budget { pivots < 2 ^ 63 }
    requires stopped { StopsBy narrow_limit system.now pivots stop }
    ensures ended { let ends = LastEnds system.now pivots in
        IfOk result (λ s. ends s.end s.dictionary.basis) }
    ensures stands { IfOk result (λ s. StandsAt limit system.now s.dictionary s.end) }
    ensures stop { IfErr result (StopsSo system.now pivots) }
    ensures plain { system.now.objective ≡ None → IfErr result (IsStopOf system.now pivots) }
    ensures narrow { IfOk result (λ s. IsTrue s.narrow ↔ IsNarrow system.now pivots) }
{
    match stop {
        RunStop::Wide(_, _) => solve_wide(alloc, system, pivots),
        RunStop::Pivots => Err(RunStop::Pivots),
        RunStop::Memory => Err(RunStop::Memory),
    }
}

// The same over fractions of 128 bits, where those of 64 do not do.
fn solve_wide(alloc: Global, system: &System, pivots: u64) -> Result<Solved, RunStop>
    requires formed { IsWellFormedSystem system.now }
    requires few { variables system.now < 2 ^ 31 }
    requires budget { pivots < 2 ^ 63 }
    requires wide { ¬ (IsNarrow system.now pivots) }
    ensures ended { let ends = LastEnds system.now pivots in
        IfOk result (λ s. ends s.end s.dictionary.basis) }
    ensures stands { IfOk result (λ s. StandsAt limit system.now s.dictionary s.end) }
    ensures stop { IfErr result (StopsSo system.now pivots) }
    ensures plain { system.now.objective ≡ None → IfErr result (IsStopOf system.now pivots) }
    ensures narrow { IfOk result (λ s. IsTrue s.narrow ↔ IsNarrow system.now pivots) }
{
    if !is_formed(system) {
        unreachable!();
    }
    let ran = match run::<Frac>(alloc, system, pivots) {
        Ok(ran) => ran,
        Err(stop) => return Err(stop),
    };
    Ok(Solved {
        dictionary: ran.dictionary,
        end: ran.end,
        narrow: false,
        made: ran.made,
    })
}
