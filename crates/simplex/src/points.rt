//! The point at the end of a settle run.
ghost use Rattle.std.specs.Prelude.{◌≡◌, ◌≤◌, ◌<◌, ℕ, IfOk, None, true, length};
ghost use Rattle.frac128.specs.Limit.{limit};
ghost use Rattle.frac128.specs.Calculation.{first_wide};
ghost use Rattle.lp_model.specs.Satisfaction.{values_at};
ghost use Rattle.certs.specs.System.{LinearSystem};
ghost use Rattle.certs.specs.Tableau.{IsTableauOf, IsWellFormedSystem, value_of};
ghost use Rattle.certs.specs.Turns.{limited, operations_of, settle_choice, settle_values};
ghost use Rattle.dictionary.specs.Value.{tableau_of};
ghost use Rattle.simplex.specs.Ends.{IsEnd};
ghost use Rattle.simplex.specs.Points.{IsFeasiblePoint};
ghost use Rattle.simplex.specs.declared.settling.Settled.TheVariants.{Feasible};

use certs::{Point, Values};
use dictionary::Dictionary;
use frac128::Frac;
use std::alloc::{AllocError, Global};

/// The values of the columns where a settle run has ended feasible: with those of the rows they keep all limits of the
/// system. No operation of theirs is too wide, since the last turn has made them all.
pub fn point_of(alloc: Global, dictionary: &Dictionary<Frac>) -> Result<Point, AllocError>
    requires usable { dictionary.now.usable ≡ true }
    requires columns { dictionary.now.columns ≤ limited (tableau_of dictionary.now) }
    requires settled { IsEnd Feasible (settle_choice (tableau_of dictionary.now)) }
    requires narrow { first_wide limit (settle_values (tableau_of dictionary.now)) ≡ None }
    ensures values { IfOk result (λ point. (length point.values ≡ dictionary.now.columns) × ((v : ℕ) → v < dictionary.now.columns → values_at point.values v ≡ value_of (tableau_of dictionary.now) v)) }
    ensures feasible { (system : LinearSystem) → IsWellFormedSystem system → length system.columns ≡ dictionary.now.columns → IsTableauOf system (tableau_of dictionary.now) → IfOk result (λ point. IsFeasiblePoint system point.values) }
{
    let mut values = Vec::new(alloc);
    for column in 0..dictionary.columns() {
        let value = column_value(dictionary, column);
        values.push(value)?;
    }
    Ok(Point {
        values: Values::new(values),
    })
}

// The value of a column, no operation of which is too wide.
fn column_value(dictionary: &Dictionary<Frac>, column: u32) -> Frac
    requires usable { dictionary.now.usable ≡ true }
    requires known { column < length dictionary.now.basis }
    requires narrow { first_wide limit (operations_of (tableau_of dictionary.now) column) ≡ None }
    ensures { result ≡ value_of (tableau_of dictionary.now) column }
{
    match dictionary.value(column) {
        Ok(value) => value,
        Err(_) => unreachable!(),
    }
}
