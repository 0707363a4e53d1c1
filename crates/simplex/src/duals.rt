//! The dual at the optimal end of an improve run.
ghost use Rattle.std.specs.Prelude.{◌≡◌, ◌≤◌, ◌<◌, ◌-◌, ◌++◌, IfOk, Some, true, List, length, map};
ghost use Rattle.rational.specs.Linear.{Term};
ghost use Rattle.frac128.specs.Limit.{limit};
ghost use Rattle.certs.specs.Named.{named};
ghost use Rattle.certs.specs.System.{LinearSystem};
ghost use Rattle.certs.specs.Tableau.{IsTableauOf, IsWellFormedSystem, value_of};
ghost use Rattle.certs.specs.Turns.{limited};
ghost use Rattle.certs.specs.Improves.{objective_variable};
ghost use Rattle.dictionary.specs.Value.{tableau_of};
ghost use Rattle.simplex.specs.Combined.{column_shares, row_shares};
ghost use Rattle.simplex.specs.ImproveEnds.{EndsAt, HasObjective};
ghost use Rattle.simplex.specs.declared.improving.Improved.TheVariants.{Optimal};
ghost use Rattle.simplex.specs.Duals.{IsNamedDual, objective_multiple, optimal_shares};

use crate::limited_variables;
use crate::numbers::{objective, objective_value};
use crate::shares::{append, on_side, share};
use certs::{Combo, Dual, Share, Shares};
use dictionary::Dictionary;
use frac128::Frac;
use std::alloc::{AllocError, Global};

/// The dual after an improve run has ended optimal: of each nonbasic variable that counts in the objective the
/// limit at which it stands, by its factor there, and as its bound the objective's value. Rows of the system come
/// first, then lower bounds of its columns, then upper ones. For a well-formed system the columns add up to the
/// objective and the right side is the bound (the multipliers of the simplex method's last table). No operation is
/// too wide, since the run's last turn, of which its clause `ended` says so, has made them all.
pub fn dual_of(alloc: Global, dictionary: &Dictionary<Frac>) -> Result<Dual, AllocError>
    requires objective { HasObjective dictionary.now }
    requires columns { dictionary.now.columns ≤ limited (tableau_of dictionary.now) }
    requires ended { EndsAt limit dictionary.now Optimal }
    ensures shares { let t = tableau_of dictionary.now in
        let n = dictionary.now.columns in
        (system : LinearSystem) → length system.columns ≡ n → IsTableauOf system t
        → IfOk result (λ dual. dual.combo.shares ≡ map (named n) (optimal_shares system t)) }
    ensures bound { let t = tableau_of dictionary.now in
        IfOk result (λ dual. dual.bound ≡ value_of t (objective_variable t)) }
    ensures dual { let t = tableau_of dictionary.now in
        (system : LinearSystem) → (terms : List Term) → IsWellFormedSystem system
        → system.objective ≡ Some terms → length system.columns ≡ dictionary.now.columns
        → IsTableauOf system t
        → IfOk result (λ dual. IsNamedDual system terms dual.combo.shares dual.bound) }
{
    let bound = objective_value(dictionary);
    let mut shares = Vec::new(alloc);
    push_rows(dictionary, &mut shares)?;
    push_columns(dictionary, false, &mut shares)?;
    push_columns(dictionary, true, &mut shares)?;
    Ok(Dual {
        combo: Combo {
            shares: Shares::new(shares),
        },
        bound,
    })
}

// How often a variable counts in the objective.
fn multiple(dictionary: &Dictionary<Frac>, variable: u32) -> Frac
    requires usable { dictionary.now.usable ≡ true }
    requires objective { HasObjective dictionary.now }
    requires known { variable < length dictionary.now.basis }
    ensures { result ≡ objective_multiple (tableau_of dictionary.now) variable }
{
    if dictionary.is_basic(variable) {
        return Frac::whole(0);
    }
    dictionary.entry(objective(dictionary), variable)
}

// Appends the shares of the rows.
fn push_rows(dictionary: &Dictionary<Frac>, shares: &mut Vec<Share>) -> Result<(), AllocError>
    requires usable { dictionary.now.usable ≡ true }
    requires objective { HasObjective dictionary.now }
    requires columns { dictionary.now.columns ≤ limited (tableau_of dictionary.now) }
    ensures { let t = tableau_of dictionary.now in
        let n = dictionary.now.columns in
        let rows = row_shares n (limited t - n) (objective_multiple t) in
        IfOk result (λ done. shares.new.items ≡ shares.old.items ++ rows) }
{
    let columns = dictionary.columns();
    for variable in columns..limited_variables(dictionary) {
        let count = multiple(dictionary, variable);
        append(shares, share(columns, variable, count))?;
    }
    Ok(())
}

// Appends the shares of the columns' lower limits, or of their upper ones.
fn push_columns(
    dictionary: &Dictionary<Frac>,
    upper: bool,
    shares: &mut Vec<Share>,
) -> Result<(), AllocError>
    requires usable { dictionary.now.usable ≡ true }
    requires objective { HasObjective dictionary.now }
    requires columns { dictionary.now.columns ≤ limited (tableau_of dictionary.now) }
    ensures { let t = tableau_of dictionary.now in
        let n = dictionary.now.columns in
        let more = column_shares n upper n (objective_multiple t) in
        IfOk result (λ done. shares.new.items ≡ shares.old.items ++ more) }
{
    let columns = dictionary.columns();
    for variable in 0..columns {
        let count = multiple(dictionary, variable);
        append(shares, on_side(share(columns, variable, count), upper))?;
    }
    Ok(())
}
