//! Whether rays and bounds of the objective hold.
ghost use Rattle.std.specs.Prelude.{◌≡◌, ◌+◌, ◌<◌, All, MatchResult, None, OnOk, length};
ghost use Rattle.lp_model.specs.Members.{active_members};
ghost use Rattle.lp_model.specs.Program.{Program};
ghost use Rattle.certs.specs.Combination.{source_form};
ghost use Rattle.certs.specs.Trees.{has_mark};
ghost use Rattle.report_text.specs.Form.{IsBoundedFor, IsPointFor, IsRayFor};
ghost use Rattle.report_text.specs.Grammar.{bounded_phrases, objective_phrases, unbounded_phrases};
ghost use Rattle.cert_check.specs.Trials.{bounded_trials, dual_trials, reached_trials, unbounded_trials, value_trials};
ghost use Rattle.cert_check.specs.Stops.{first_stop, IsStop, Says};
ghost use Rattle.cert_check.specs.Sparse.{IsActive, IsKept};

use crate::active::{Active, Kept, check_active, check_active_ray};
use crate::outcome::{Stop, settle};
use crate::room::{give_back, spread};
use bound_checks::{check_columns, check_right_side, check_value, objective_value};
use certs::{Dual, PackedPoint, PackedRay, Point};
use frac128::Frac;
use lp_model::Model;
use report_text::{BOUND_LINES, Bounded, OPENING_LINES};
use std::alloc::Global;

/// Checks a point of the active members and a ray, of an answer of which the command stands on the given line.
pub(crate) fn check_unbounded(
    alloc: Global,
    model: &Model,
    kept: &mut Kept,
    point: &PackedPoint,
    ray: &PackedRay,
    line: u32,
) -> Result<(), Stop>
    requires point { IsPointFor model.now point.now }
    requires ray { IsRayFor model.now ray.now }
    requires short { line + length (unbounded_phrases point.now ray.now) < 4294967290 }
    requires kept { IsKept model.now kept.old }
    ensures says { Says (first_stop (unbounded_trials model.now line point.now ray.now)) result }
    ensures kept { OnOk result (IsKept model.now kept.new) }
{
    let Ok((found, lines)) = check_active(alloc, model, kept, point) else {
        return Err(Stop::Memory);
    };
    let start = line + OPENING_LINES;
    settle(start, found)?;
    let Ok(found) = check_active_ray(alloc, model, kept, ray) else {
        return Err(Stop::Memory);
    };
    settle(start + lines as u32, found)
}

/// Checks a point of the active members, the objective's value there, and a dual, of an answer of which the command stands
/// on the given line.
pub(crate) fn check_bounded(
    alloc: Global,
    model: &Model,
    kept: &mut Kept,
    bounded: &Bounded,
    line: u32,
) -> Result<(), Stop>
    requires form { IsBoundedFor model.now bounded.now }
    requires short { line + length (bounded_phrases bounded.now) < 4294967290 }
    requires kept { IsKept model.now kept.old }
    ensures says { Says (first_stop (bounded_trials model.now line bounded.now)) result }
    ensures kept { OnOk result (IsKept model.now kept.new) }
{
    // That the program is well formed is told with the count.
    let _rows = model.row_count();
    let Ok((found, lines)) = check_active(alloc, model, kept, &bounded.point) else {
        return Err(Stop::Memory);
    };
    let start = line + OPENING_LINES;
    settle(start, found)?;
    let Ok(active) = Active::taken(alloc, model, &mut kept.active) else {
        return Err(Stop::Memory);
    };
    let Ok((values, columns)) = spread(alloc, &bounded.point.values, &mut kept.room) else {
        return Err(Stop::Memory);
    };
    let point = Point { values };
    let next = start + lines as u32;
    let bound = check_objective(model, &active, &point, bounded.objective, next)?;
    give_back(point.values, columns.as_slice(), &mut kept.room);
    let dual = &bounded.dual;
    check_dual(alloc, model, &active, dual, bounded.objective, bound)?;
    kept.active = Some(active);
    Ok(())
}

// Checks the value of the objective on the line behind its point; or that it may be left out, where the bound stands there. It
// gives the number of the bound's line.
fn check_objective(
    model: &Model,
    active: &Active,
    point: &Point,
    value: Option<Frac>,
    line: u32,
) -> Result<u32, Stop>
    requires active { IsActive model.now active.now }
    requires point { length point.now.values ≡ length model.now.columns }
    requires short { line + 1 < 4294967296 }
    ensures { let stop = first_stop (value_trials model.now line point.now value) in
        MatchResult result
        (λ bound. (stop ≡ None) × (bound ≡ line + length (objective_phrases value)))
        (IsStop stop) }
{
    let Some(value) = value else {
        if active.marked && objective_value(model, point).is_err() {
            return Ok(line);
        }
        return Err(Stop::Rejected(line));
    };
    settle(line, check_value(model, point, value))?;
    Ok(line + 1)
}

// Checks a dual whose bound stands on the given line: its right side, that the value reaches the bound, and its columns.
fn check_dual(
    alloc: Global,
    model: &Model,
    active: &Active,
    dual: &Dual,
    value: Option<Frac>,
    line: u32,
) -> Result<(), Stop>
    requires active { IsActive model.now active.now }
    requires known { let n = length model.now.columns in
        All (λ s. All (λ t. t.column < n) (source_form model.now s.source)) dual.now.combo.shares }
    requires short { line + 1 < 4294967296 }
    ensures { Says (first_stop (dual_trials model.now line value dual.now)) result }
{
    settle(line, check_right_side(model, &active.set, dual))?;
    check_reached(active.marked, value, dual.bound, line)?;
    let Ok(mut sums) = vec![in alloc; Frac::whole(0); model.column_count() as usize] else {
        return Err(Stop::Memory);
    };
    settle(
        line + BOUND_LINES,
        check_columns(model, &dual.combo, &mut sums),
    )
}

// Checks that a value is the bound, where no active member is a mark.
fn check_reached(marked: bool, value: Option<Frac>, bound: Frac, line: u32) -> Result<(), Stop>
    ensures { (model : Program) → marked ≡ has_mark (active_members model)
        → Says (first_stop (reached_trials model line value bound)) result }
{
    let Some(value) = value else {
        return Ok(());
    };
    if marked || value == bound {
        return Ok(());
    }
    Err(Stop::Rejected(line))
}
