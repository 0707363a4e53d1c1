//! The improve run.
ghost use Rattle.std.specs.Prelude.{◌≡◌, ◌+◌, ◌<◌, ◌≤◌, ◌^◌, IfOk, true};
ghost use Rattle.simplex.specs.ImproveEnds.{EndsAt, HasObjective, IsEnough, IsRun, IsSpent, KeepsSettled};

use crate::RunStop;
use crate::improve_choices::{Choice, choose};
use crate::settling::told;
use dictionary::Dictionary;
use frac128::Exact;

/// How an improve run ends: no change of a nonbasic variable raises the objective, or a change of this one raises it without
/// end.
#[derive(Clone, Copy)]
pub enum Improved {
    Optimal,
    Unbounded(u32),
}

/// Makes improve turns until none is due: the least nonbasic variable whose change raises the objective moves until it, or the
/// first basic variable, meets a limit; of those that are met at once the least gives way (Bland 1977).
///
/// The dictionary has an objective. `pivots` is what is left of the budget, and `turn` counts the turns begun, this run's after
/// those before it; a change of place without a pivot counts as a pivot. A run from a basis with no variable outside its limits
/// leaves none outside. The turns and what is left of the budget are together at most one greater than before.
///
/// # Errors
///
/// `Wide` and `Pivots` come exactly where the run stops so, and `Memory` where there is no room for a pivot: the dictionary then
/// stands at the basis to which the run has come. With a budget of `bland_law::basis_bound` pivots, where that is a
/// number, a run from a basis with no variable outside its limits never answers `Pivots`. After a pivot that was too wide the
/// dictionary must not be used; after another operation that was, it may be.
pub fn improve<N: Exact>(
    dictionary: &mut Dictionary<N>,
    pivots: &mut u64,
    turn: &mut u64,
) -> Result<Improved, RunStop>
    requires usable { dictionary.old.usable ≡ true }
    requires objective { HasObjective dictionary.old }
    requires room { turn.old + pivots.old + 1 < 2 ^ 64 }
    ensures run { IsRun N.most dictionary.old pivots.old turn.old result dictionary.new pivots.new turn.new }
    ensures ended { IfOk result (EndsAt N.most dictionary.new) }
    ensures spent { IsSpent result → dictionary.new.usable ≡ true }
    // Where no variable is outside its limits before, none is after.
    ensures keeps { KeepsSettled N.most dictionary.old dictionary.new }
    // And with as many pivots as 3 to the number of the system's columns and rows none is ever missing.
    ensures never_spent { IsEnough N.most dictionary.old pivots.old result }
    ensures columns { dictionary.new.columns ≡ dictionary.old.columns }
    ensures objective { dictionary.new.usable ≡ true → HasObjective dictionary.new }
    ensures sum { turn.new + pivots.new ≤ turn.old + pivots.old + 1 }
{
    loop {
        *turn += 1;
        let choice = match choose(dictionary) {
            Ok(choice) => choice,
            Err(wide) => return Err(RunStop::Wide(*turn, wide)),
        };
        match choice {
            Choice::Optimal => return Ok(Improved::Optimal),
            Choice::Free(variable) => return Ok(Improved::Unbounded(variable)),
            Choice::Flip(variable) => {
                if *pivots == 0 {
                    return Err(RunStop::Pivots);
                }
                dictionary.flip(variable);
                *pivots -= 1;
            }
            Choice::Leaves(leaving, upper, entering) => {
                if *pivots == 0 {
                    return Err(RunStop::Pivots);
                }
                if let Err(stop) = dictionary.pivot(leaving, upper, entering) {
                    return Err(told(*turn, stop));
                }
                *pivots -= 1;
            }
        }
    }
}
