//! What the objective's row shows where the cost is least: the cost, and a price for it.
ghost use Rattle.std.specs.Prelude.{◌≡◌, ◌+◌, ◌<◌, IfOk, true, length};
ghost use Rattle.dictionary.specs.Value.{tableau_of};
ghost use Rattle.simplex.specs.ImproveEnds.{HasObjective};
ghost use Rattle.simplex.specs.Duals.{objective_multiple};
ghost use Rattle.alt_polyhedron.specs.Reading.{IsPriceRead};

use certs::{Point, Values};
use dictionary::Dictionary;
use frac128::Frac;
use std::alloc::{AllocError, Global};

/// The cost: how often the row of the numbers counts in the objective. That row comes behind those of so many columns.
pub(crate) fn total_of(dictionary: &Dictionary<Frac>, columns: u32) -> Frac
    requires usable { dictionary.now.usable ≡ true }
    requires objective { HasObjective dictionary.now }
    requires rows { dictionary.now.columns + columns < length dictionary.now.basis }
    ensures { let t = tableau_of dictionary.now in
        result ≡ objective_multiple t (dictionary.now.columns + columns) }
{
    // That the sum fits is told with the number of the variables.
    let _variables = dictionary.variables();
    multiple(dictionary, dictionary.columns() + columns)
}

/// The price of each of so many columns: how often the column's row counts in the objective, negated.
pub(crate) fn price_of(
    alloc: Global,
    dictionary: &Dictionary<Frac>,
    columns: u32,
) -> Result<Point, AllocError>
    requires usable { dictionary.now.usable ≡ true }
    requires objective { HasObjective dictionary.now }
    requires rows { dictionary.now.columns + columns < length dictionary.now.basis }
    ensures { let t = tableau_of dictionary.now in
        let first = dictionary.now.columns in
        IfOk result (λ price. IsPriceRead t first columns price.values) }
{
    // That the sums fit is told with the number of the variables.
    let _variables = dictionary.variables();
    let first = dictionary.columns();
    let mut values = Vec::new(alloc);
    for column in 0..columns {
        values.push(multiple(dictionary, first + column).negate())?;
    }
    Ok(Point {
        values: Values::new(values),
    })
}

// How often a variable counts in the objective.
fn multiple(dictionary: &Dictionary<Frac>, variable: u32) -> Frac
    requires usable { dictionary.now.usable ≡ true }
    requires objective { HasObjective dictionary.now }
    requires known { variable < length dictionary.now.basis }
    ensures { result ≡ objective_multiple (tableau_of dictionary.now) variable }
{
    if dictionary.is_basic(variable) {
        return Frac::whole(0);
    }
    dictionary.entry(dictionary.variables() - 1, variable)
}
