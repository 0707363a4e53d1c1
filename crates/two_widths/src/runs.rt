//! The runs of a system over one width of fractions.
ghost use Rattle.std.specs.Prelude.{◌≡◌, ◌<◌, ◌^◌, IfErr, IfOk};
ghost use Rattle.certs.specs.Tableau.{IsWellFormedSystem};
ghost use Rattle.dictionary.specs.Starts.{FitSystem};
ghost use Rattle.two_widths.specs.Ends.{StandsAt};
ghost use Rattle.two_widths.specs.Runs.{EndsBy, StopsBy, end_as};

use certs::System;
use dictionary::Dictionary;
use frac128::Exact;
use simplex::{Improved, RunStop, Settled, improve, settle};
use std::alloc::Global;

/// How the runs of a system end. Without an objective: every variable is within its limits. With one or without: no choice of
/// the columns within their limits brings this variable within its own. With an objective: no change of a nonbasic variable
/// raises it, or a change of this one raises it without end.
#[derive(Clone, Copy)]
pub enum End {
    Feasible,
    Infeasible(u32),
    Optimal,
    Ray(u32),
}

// The end of the improve run as that of both.
fn last_end(improved: Improved) -> End
    ensures { result ≡ end_as improved }
{
    match improved {
        Improved::Optimal => End::Optimal,
        Improved::Unbounded(variable) => End::Ray(variable),
    }
}

/// The dictionary at the end, and how many pivots were made.
#[derive(Drop)]
pub(crate) struct Ran<N: Exact> {
    pub(crate) dictionary: Dictionary<N>,
    pub(crate) end: End,
    pub(crate) made: u64,
}

/// Settles, and improves where there is an objective and the settle run ended feasible, with so many pivots for both together.
///
/// # Errors
///
/// The stop of the settle run, or that of the improve run; `Memory` also where there is none for the start.
pub(crate) fn run<N: Exact>(alloc: Global, system: &System, pivots: u64) -> Result<Ran<N>, RunStop>
    requires formed { IsWellFormedSystem system.now }
    requires fits { FitSystem N.most system.now }
    requires budget { pivots < 2 ^ 63 }
    ensures ended { let ended = EndsBy N.most system.now pivots in
        IfOk result (λ r. ended r.end r.dictionary.basis) }
    ensures stands { IfOk result (λ r. StandsAt N.most system.now r.dictionary r.end) }
    ensures stop { IfErr result (StopsBy N.most system.now pivots) }
{
    let Ok(mut dictionary) = Dictionary::<N>::start(alloc, system) else {
        return Err(RunStop::Memory);
    };
    let mut left = pivots;
    let mut turn = 0;
    let settled = match settle(&mut dictionary, &mut left, &mut turn) {
        Ok(settled) => settled,
        Err(stop) => return Err(stop),
    };
    if let Settled::Infeasible(variable) = settled {
        let made = pivots.saturating_sub(left);
        let end = End::Infeasible(variable);
        return Ok(Ran {
            dictionary,
            end,
            made,
        });
    }
    if system.objective.is_none() {
        let made = pivots.saturating_sub(left);
        let end = End::Feasible;
        return Ok(Ran {
            dictionary,
            end,
            made,
        });
    }
    let improved = match improve(&mut dictionary, &mut left, &mut turn) {
        Ok(improved) => improved,
        Err(stop) => return Err(stop),
    };
    let made = pivots.saturating_sub(left);
    let end = last_end(improved);
    Ok(Ran {
        dictionary,
        end,
        made,
    })
}
