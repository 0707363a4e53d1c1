//! Whether least weighted violations hold.
ghost use Rattle.std.specs.Prelude.{◌≡◌, ◌+◌, ◌<◌, OnOk, length};
ghost use Rattle.lp_model.specs.MemberSets.{active_set};
ghost use Rattle.report_text.specs.Form.{IsLeastFor};
ghost use Rattle.report_text.specs.Grammar.{least_phrases};
ghost use Rattle.cert_check.specs.Trials.{least_trials};
ghost use Rattle.cert_check.specs.Stops.{first_stop, Says};
ghost use Rattle.cert_check.specs.Sparse.{IsKept};

use crate::active::{Active, Kept};
use crate::outcome::{Stop, settle};
use crate::room::{give_back, spread};
use certs::{Dual, PackedPoint, Point, check_point};
use frac128::Frac;
use least_checks::{check_total, check_violation, check_weights, rigid_set};
use lp_model::{MemberSet, Model};
use report_text::{LEAST_LINES, OPENING_LINES, point_length};
use std::alloc::Global;

/// Checks a total, a point of the rigid active members, and a dual, of an answer of which the command stands on the given
/// line.
pub(crate) fn check_least(
    alloc: Global,
    model: &Model,
    kept: &mut Kept,
    packed: &PackedPoint,
    dual: &Dual,
    line: u32,
) -> Result<(), Stop>
    requires form { IsLeastFor model.now packed.now dual.now }
    requires short { line + length (least_phrases packed.now dual.now) < 4294967290 }
    requires kept { IsKept model.now kept.old }
    ensures says { Says (first_stop (least_trials model.now line packed.now dual.now)) result }
    ensures kept { OnOk result (IsKept model.now kept.new) }
{
    let Ok(active) = Active::taken(alloc, model, &mut kept.active) else {
        return Err(Stop::Memory);
    };
    let Ok((values, columns)) = spread(alloc, &packed.values, &mut kept.room) else {
        return Err(Stop::Memory);
    };
    let point = Point { values };
    check_whole(alloc, model, &active.set, &point, dual, line)?;
    give_back(point.values, columns.as_slice(), &mut kept.room);
    kept.active = Some(active);
    Ok(())
}

// Checks them with the whole point.
fn check_whole(
    alloc: Global,
    model: &Model,
    active: &MemberSet,
    point: &Point,
    dual: &Dual,
    line: u32,
) -> Result<(), Stop>
    requires active { active.now ≡ active_set model.now }
    requires form { IsLeastFor model.now point.now dual.now }
    requires short { line + length (least_phrases point.now dual.now) < 4294967290 }
    ensures { Says (first_stop (least_trials model.now line point.now dual.now)) result }
{
    // That the program is well formed is told with the count.
    let _rows = model.row_count();
    let total = line + OPENING_LINES;
    settle(total, check_total(model, active, dual))?;
    settle(total, check_violation(model, active, point, dual.bound))?;
    let Ok(rigid) = rigid_set(alloc, model, active) else {
        return Err(Stop::Memory);
    };
    let start = line + LEAST_LINES;
    settle(start, check_point(model, &rigid, point))?;
    let Ok(mut sums) = vec![in alloc; Frac::whole(0); model.column_count() as usize] else {
        return Err(Stop::Memory);
    };
    settle(
        start + point_length(point) as u32,
        check_weights(model, active, &dual.combo, &mut sums),
    )
}
