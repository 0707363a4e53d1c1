//! The value of the objective that is told.
ghost use Rattle.std.specs.Prelude.{◌≡◌, None, Some, MatchResult, false, true, length};
ghost use Rattle.frac128.specs.Limit.{limit};
ghost use Rattle.frac128.specs.Calculation.{first_wide};
ghost use Rattle.lp_model.specs.Evaluation.{value_operations};
ghost use Rattle.lp_model.specs.Satisfaction.{values_at};
ghost use Rattle.certs.specs.Bound.{objective_value as value_at};
ghost use Rattle.certs.specs.Trees.{has_mark as some_mark};
ghost use Rattle.unbounded.specs.Diagnosed.{if_narrow};

use bound_checks::{has_mark, objective_value};
use certs::Point;
use frac128::{Frac, Wide};
use lp_model::{MemberSet, Model};

/// The objective's value at a point: without a mark the bound, which it reaches, and with one its sum, where no
/// operation of that is too wide.
pub(crate) fn value_told(model: &Model, set: &MemberSet, bound: Frac, point: &Point) -> Option<Frac>
    requires { length point.now.values ≡ length model.now.columns }
    ensures unmarked { some_mark set.now.members ≡ false → result ≡ Some bound }
    ensures marked { let x = values_at point.now.values in
        let work = first_wide limit (value_operations model.now.objective x) in
        some_mark set.now.members ≡ true
        → result ≡ if_narrow work (value_at model.now x) }
{
    if !has_mark(set) {
        return Some(bound);
    }
    narrow(objective_value(model, point))
}

// The value, where there is one.
fn narrow(value: Result<Frac, Wide>) -> Option<Frac>
    ensures { MatchResult value (λ v. result ≡ Some v) (λ w. result ≡ None) }
{
    match value {
        Ok(value) => Some(value),
        Err(_) => None,
    }
}
