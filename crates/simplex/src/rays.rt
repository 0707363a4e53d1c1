//! The ray at the unbounded end of an improve run.
ghost use Rattle.std.specs.Prelude.{◌≡◌, ◌≤◌, ◌<◌, ℕ, IfOk, IsSome, cond, true, false, length};
ghost use Rattle.rational.specs.Rational.{neg_ℚ};
ghost use Rattle.frac128.specs.Limit.{limit};
ghost use Rattle.lp_model.specs.Satisfaction.{values_at};
ghost use Rattle.certs.specs.System.{LinearSystem, is_basic};
ghost use Rattle.certs.specs.Tableau.{IsTableauOf};
ghost use Rattle.certs.specs.Turns.{limited};
ghost use Rattle.certs.specs.Improves.{does_rise};
ghost use Rattle.dictionary.specs.Value.{tableau_of};
ghost use Rattle.simplex.specs.ImproveEnds.{EndsAt, HasObjective};
ghost use Rattle.simplex.specs.declared.improving.Improved.TheVariants.{Unbounded};
ghost use Rattle.simplex.specs.Rays.{IsSystemRay, change_along};

use crate::is_less;
use crate::numbers::objective;
use certs::{Ray, Values};
use dictionary::Dictionary;
use frac128::Frac;
use std::alloc::{AllocError, Global};

/// The ray after an improve run has ended unbounded by the entering variable: of each column how it changes where
/// that variable moves by 1 the way that raises the objective. It keeps every limit of the system, its rows
/// changing by their forms, and raises the objective. It is read from the last table, with no arithmetic.
pub fn ray_of(
    alloc: Global,
    dictionary: &Dictionary<Frac>,
    entering: u32,
) -> Result<Ray, AllocError>
    requires objective { HasObjective dictionary.now }
    requires columns { dictionary.now.columns ≤ limited (tableau_of dictionary.now) }
    requires ended { EndsAt limit dictionary.now (Unbounded entering) }
    ensures values { let t = tableau_of dictionary.now in
        IfOk result (λ ray. (length ray.values ≡ dictionary.now.columns)
        × ((v : ℕ) → v < dictionary.now.columns
        → values_at ray.values v ≡ change_along t entering v)) }
    ensures ray { let t = tableau_of dictionary.now in
        (system : LinearSystem) → IsSome system.objective
        → length system.columns ≡ dictionary.now.columns → IsTableauOf system t
        → IfOk result (λ ray. IsSystemRay system ray.values) }
{
    let upwards = rises(dictionary, entering);
    let mut values = Vec::new(alloc);
    for column in 0..dictionary.columns() {
        values.push(change(dictionary, entering, upwards, column))?;
    }
    Ok(Ray {
        values: Values::new(values),
    })
}

// Whether a nonbasic variable raises the objective by rising.
fn rises(dictionary: &Dictionary<Frac>, entering: u32) -> bool
    requires usable { dictionary.now.usable ≡ true }
    requires objective { HasObjective dictionary.now }
    requires known { entering < length dictionary.now.basis }
    requires nonbasic { is_basic dictionary.now.basis entering ≡ false }
    ensures { result ≡ does_rise (tableau_of dictionary.now) entering }
{
    let factor = dictionary.entry(objective(dictionary), entering);
    is_less(Frac::whole(0), factor)
}

// How a variable changes where the entering one moves by 1, upwards or downwards.
fn change(dictionary: &Dictionary<Frac>, entering: u32, upwards: bool, variable: u32) -> Frac
    requires usable { dictionary.now.usable ≡ true }
    requires known { variable < length dictionary.now.basis }
    requires entering { entering < length dictionary.now.basis }
    requires nonbasic { is_basic dictionary.now.basis entering ≡ false }
    requires way { upwards ≡ does_rise (tableau_of dictionary.now) entering }
    ensures { result ≡ change_along (tableau_of dictionary.now) entering variable }
{
    if variable == entering {
        return turned(upwards, Frac::whole(1));
    }
    if !dictionary.is_basic(variable) {
        return Frac::whole(0);
    }
    turned(upwards, dictionary.entry(variable, entering))
}

// A change, negated where the way is downwards.
fn turned(upwards: bool, change: Frac) -> Frac
    ensures { result ≡ cond upwards change (neg_ℚ change) }
{
    if upwards {
        return change;
    }
    change.negate()
}
