//! The settle run.
ghost use Rattle.std.specs.Prelude.{◌≡◌, ◌+◌, ◌<◌, ◌≤◌, ◌^◌, IfOk, None, true};
ghost use Rattle.frac128.specs.Calculation.{first_wide};
ghost use Rattle.certs.specs.System.{LinearSystem};
ghost use Rattle.certs.specs.Tableau.{IsTableauOf};
ghost use Rattle.certs.specs.Turns.{settle_choice, settle_values};
ghost use Rattle.dictionary.specs.Value.{tableau_of};
ghost use Rattle.simplex.specs.Ends.{told_as, IsEnd, IsSpent, NeverSpent, RanBy};

use crate::choices::{Choice, choose};
use dictionary::{Dictionary, PivotStop};
use frac128::{Exact, Wide};

/// How a settle run ends: every variable is within its limits, or no choice of the columns within theirs brings this one
/// within its own.
#[derive(Clone, Copy)]
pub enum Settled {
    Feasible,
    Infeasible(u32),
}

/// Why a run stops.
#[derive(Clone, Copy)]
pub enum RunStop {
    /// In the turn with this number this operation is the first that is too wide.
    Wide(u64, Wide),
    /// A pivot is due, and none is left.
    Pivots,
    /// Memory was refused for a pivot.
    Memory,
}

/// Why a run stops where its pivot in this turn does.
pub(crate) fn told(turn: u64, stop: PivotStop) -> RunStop
    ensures { result ≡ told_as turn stop }
{
    match stop {
        PivotStop::Wide(wide) => RunStop::Wide(turn, wide),
        PivotStop::Memory => RunStop::Memory,
    }
}

/// Makes settle turns until none is due.
///
/// `pivots` is what is left of the budget, and `turn` counts the turns begun, this run's after those before it. `Wide` and
/// `Pivots` come exactly where the run stops so, and `Memory` where there is no room for a pivot: the dictionary then stands at
/// the basis to which the run has come. The turns and what is left of the budget are together at most one greater
/// than before. With a budget of `bland_law::basis_bound` pivots, where that is a number, `Pivots` never comes (Bland 1977).
/// After a pivot that was too wide the dictionary must not be used; after a value that was, it may be.
pub fn settle<N: Exact>(
    dictionary: &mut Dictionary<N>,
    pivots: &mut u64,
    turn: &mut u64,
) -> Result<Settled, RunStop>
    requires usable { dictionary.old.usable ≡ true }
    requires room { turn.old + pivots.old + 1 < 2 ^ 64 }
    ensures run { (system : LinearSystem) → IsTableauOf system (tableau_of dictionary.old) → RanBy N.most system dictionary.old.basis pivots.old turn.old result dictionary.new pivots.new turn.new }
    ensures ended { IfOk result (λ settled. (dictionary.new.usable ≡ true) × (IsEnd settled (settle_choice (tableau_of dictionary.new)) × (first_wide N.most (settle_values (tableau_of dictionary.new)) ≡ None))) }
    ensures spent { IsSpent result → dictionary.new.usable ≡ true }
    // With as many pivots as 3 to the number of the system's columns and rows none is ever missing.
    ensures never_spent { (system : LinearSystem) → IsTableauOf system (tableau_of dictionary.old) → NeverSpent system pivots.old result }
    ensures columns { dictionary.new.columns ≡ dictionary.old.columns }
    ensures sum { turn.new + pivots.new ≤ turn.old + pivots.old + 1 }
{
    loop {
        *turn += 1;
        let choice = match choose(dictionary) {
            Ok(choice) => choice,
            Err(wide) => return Err(RunStop::Wide(*turn, wide)),
        };
        match choice {
            Choice::Settled => return Ok(Settled::Feasible),
            Choice::Blocked(variable) => return Ok(Settled::Infeasible(variable)),
            Choice::Exchange(leaving, upper, entering) => {
                if *pivots == 0 {
                    return Err(RunStop::Pivots);
                }
                if let Err(stop) = dictionary.pivot(leaving, upper, entering) {
                    return Err(told(*turn, stop));
                }
                *pivots -= 1;
            }
        }
    }
}
