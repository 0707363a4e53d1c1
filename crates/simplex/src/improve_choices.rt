//! What an improve turn chooses.
ghost use Rattle.std.specs.Prelude.{◌≡◌, ◌<◌, ◌-◌, MatchResult, Some, None, true, false, length, flat_map};
ghost use Rattle.frac128.specs.Calculation.{first_wide};
ghost use Rattle.certs.specs.System.{is_basic};
ghost use Rattle.certs.specs.Turns.{limited_basics, value_operations};
ghost use Rattle.certs.specs.Improves.{improve_choice, improve_values, improvement_for, improving as improving_one, reach_operations};
ghost use Rattle.dictionary.specs.Value.{tableau_of};
ghost use Rattle.simplex.specs.ImproveChosen.{choice_named};

use crate::blocks::nearest_block;
use crate::{entering, limited_variables};
use dictionary::Dictionary;
use frac128::{Exact, Wide};

/// What an improve turn chooses.
#[derive(Clone, Copy)]
pub enum Choice {
    /// Nothing raises the objective.
    Optimal,
    /// This one raises it without end.
    Free(u32),
    /// This one goes to its other limit.
    Flip(u32),
    /// The first leaves, to its upper limit or its lower one, and the last enters.
    Leaves(u32, bool, u32),
}

// Looks whether the value of a basic variable but the objective has an operation that is too wide.
fn look_at_values<N: Exact>(dictionary: &mut Dictionary<N>) -> Result<(), Wide>
    requires usable { dictionary.old.usable ≡ true }
    ensures same { dictionary.new ≡ dictionary.old }
    ensures narrow { let t = tableau_of dictionary.new in
        MatchResult result
        (λ done. first_wide N.most (flat_map (value_operations t) (limited_basics t)) ≡ None)
        (λ w. first_wide N.most (flat_map (value_operations t) (limited_basics t)) ≡ Some w) }
{
    for variable in 0..limited_variables(dictionary) {
        if !dictionary.is_basic(variable) {
            continue;
        }
        dictionary.valued(variable)?;
    }
    Ok(())
}

// Looks whether the objective's value has an operation that is too wide.
fn look_at_objective<N: Exact>(dictionary: &Dictionary<N>) -> Result<(), Wide>
    requires usable { dictionary.now.usable ≡ true }
    requires objective { is_basic dictionary.now.basis (length dictionary.now.basis - 1) ≡ true }
    ensures { let t = tableau_of dictionary.now in
        MatchResult result
        (λ done. first_wide N.most (reach_operations t None) ≡ None)
        (λ w. first_wide N.most (reach_operations t None) ≡ Some w) }
{
    let objective = dictionary.variables() - 1;
    dictionary.value(objective)?;
    Ok(())
}

// The least nonbasic variable whose change raises the objective.
fn improving<N: Exact>(dictionary: &Dictionary<N>) -> Option<u32>
    requires usable { dictionary.now.usable ≡ true }
    requires objective { is_basic dictionary.now.basis (length dictionary.now.basis - 1) ≡ true }
    ensures { result ≡ improving_one (tableau_of dictionary.now) }
{
    let objective = dictionary.variables() - 1;
    entering(dictionary, objective, false)
}

/// The choice of an improve turn.
pub(crate) fn choose<N: Exact>(dictionary: &mut Dictionary<N>) -> Result<Choice, Wide>
    requires usable { dictionary.old.usable ≡ true }
    requires objective { is_basic dictionary.old.basis (length dictionary.old.basis - 1) ≡ true }
    ensures same { dictionary.new ≡ dictionary.old }
    ensures choice { let t = tableau_of dictionary.new in
        MatchResult result
        (λ choice. (first_wide N.most (improve_values t) ≡ None) × (choice_named choice ≡ improve_choice t))
        (λ w. first_wide N.most (improve_values t) ≡ Some w) }
{
    look_at_values(dictionary)?;
    let Some(variable) = improving(dictionary) else {
        look_at_objective(dictionary)?;
        return Ok(Choice::Optimal);
    };
    choose_for(dictionary, variable)
}

// The choice for the variable that raises the objective.
fn choose_for<N: Exact>(dictionary: &Dictionary<N>, variable: u32) -> Result<Choice, Wide>
    requires usable { dictionary.now.usable ≡ true }
    requires objective { is_basic dictionary.now.basis (length dictionary.now.basis - 1) ≡ true }
    requires moving { variable < length dictionary.now.basis }
    requires nonbasic { is_basic dictionary.now.basis variable ≡ false }
    requires narrow { let t = tableau_of dictionary.now in
        first_wide N.most (flat_map (value_operations t) (limited_basics t)) ≡ None }
    ensures { let t = tableau_of dictionary.now in
        MatchResult result
        (λ choice. (first_wide N.most (reach_operations t (Some variable)) ≡ None) × (choice_named choice ≡ improvement_for t (Some variable)))
        (λ w. first_wide N.most (reach_operations t (Some variable)) ≡ Some w) }
{
    let Some(block) = nearest_block(dictionary, variable)? else {
        return Ok(Choice::Free(variable));
    };
    if block.variable == variable {
        return Ok(Choice::Flip(variable));
    }
    Ok(Choice::Leaves(block.variable, block.upper, variable))
}
