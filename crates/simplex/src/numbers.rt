//! Numbers of a dictionary at the end of an improve run.
ghost use Rattle.std.specs.Prelude.{◌≡◌, ◌<◌, None, true, length};
ghost use Rattle.frac128.specs.Limit.{limit};
ghost use Rattle.frac128.specs.Calculation.{first_wide};
ghost use Rattle.certs.specs.System.{is_basic};
ghost use Rattle.certs.specs.Tableau.{value_of};
ghost use Rattle.certs.specs.Turns.{operations_of};
ghost use Rattle.certs.specs.Improves.{objective_variable};
ghost use Rattle.dictionary.specs.Value.{tableau_of};
ghost use Rattle.simplex.specs.ImproveEnds.{EndsAt, HasObjective};
ghost use Rattle.simplex.specs.declared.improving.Improved.TheVariants.{Optimal};

use dictionary::Dictionary;
use frac128::Frac;

/// The objective's number, which is the greatest.
pub(crate) fn objective(dictionary: &Dictionary<Frac>) -> u32
    requires { HasObjective dictionary.now }
    ensures number { result ≡ objective_variable (tableau_of dictionary.now) }
    ensures known { result < length dictionary.now.basis }
    ensures basic { is_basic dictionary.now.basis result ≡ true }
{
    dictionary.variables() - 1
}

/// The objective's value at an optimal end. No operation of it is too wide, since the last turn has made them all.
pub(crate) fn objective_value(dictionary: &Dictionary<Frac>) -> Frac
    requires objective { HasObjective dictionary.now }
    requires ended { EndsAt limit dictionary.now Optimal }
    ensures { let t = tableau_of dictionary.now in
        result ≡ value_of t (objective_variable t) }
{
    narrow_value(dictionary, objective(dictionary))
}

// The value of a variable, no operation of which is too wide.
fn narrow_value(dictionary: &Dictionary<Frac>, variable: u32) -> Frac
    requires usable { dictionary.now.usable ≡ true }
    requires known { variable < length dictionary.now.basis }
    requires narrow { let t = tableau_of dictionary.now in
        first_wide limit (operations_of t variable) ≡ None }
    ensures { result ≡ value_of (tableau_of dictionary.now) variable }
{
    match dictionary.value(variable) {
        Ok(value) => value,
        Err(_) => unreachable!(),
    }
}
