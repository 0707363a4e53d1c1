//! Suggestions by a guide.
ghost use Rattle.std.specs.Prelude.{◌≡◌, ◌≤◌, IfSome, length};
ghost use Rattle.certs.specs.Checks.{IsSetOf};

use crate::combinations::{combo, shares};
use crate::runs::{limited_start, put};
use crate::suggestions::{Guess, Suggestion};
use certs::{Branch, Combo, MemberSet, Point, Values};
use frac128::Frac;
use guide::{Guide, System};
use lp_model::Model;
use near::{far, near, system_of};
use quick_basis::{Basis, Blocked, point};
use std::alloc::Global;

/// What a guide suggests: that which is kept, or for a vertex a new one, which is kept then. None where it comes to no end, and
/// the guide is of no more use.
pub(crate) fn guided(
    alloc: Global,
    model: &Model,
    set: &MemberSet,
    path: &[Branch],
    guess: Guess,
    kept: &mut Option<Guide>,
    pivots: &mut u64,
) -> Option<Option<Suggestion>>
    requires same { IsSetOf model.now set.now }
    ensures { pivots.new ≤ pivots.old }
{
    let mut basis = limited_start(alloc, model, set, path)?;
    guided_from(alloc, model, set, path, guess, &mut basis, kept, pivots)
}

// The same, where the basis so far has the limits.
fn guided_from(
    alloc: Global,
    model: &Model,
    set: &MemberSet,
    path: &[Branch],
    guess: Guess,
    basis: &mut Basis,
    kept: &mut Option<Guide>,
    pivots: &mut u64,
) -> Option<Option<Suggestion>>
    requires same { IsSetOf model.now set.now }
    ensures { pivots.new ≤ pivots.old }
{
    let system = system_of(alloc, model, basis)?;
    if guess == Guess::Near {
        let guide = kept.as_mut()?;
        let found = near_guess(alloc, model, set, path, basis, &system, guide, pivots)?;
        return Some(Some(found));
    }
    if kept.is_none() {
        put(kept, Guide::new(alloc, &system));
    }
    let guide = kept.as_mut()?;
    settled(alloc, &system, guide, pivots)?;
    Some(vertex_guess(alloc, model, set, path, basis, guide))
}

// Runs the guide under the limits of a system; none where it comes to no end.
fn settled(alloc: Global, system: &System, guide: &mut Guide, pivots: &mut u64) -> Option<()>
    ensures { pivots.new ≤ pivots.old }
{
    guide.rest();
    guide.limit_to(alloc, system.ranges(alloc)?.as_slice())?;
    guide.run(alloc, pivots)?;
    Some(())
}

// The point or the row of the guide's basis, exactly, where the basis so far has the limits; none where a number does not fit.
fn vertex_guess(
    alloc: Global,
    model: &Model,
    set: &MemberSet,
    path: &[Branch],
    basis: &mut Basis,
    guide: &Guide,
) -> Option<Suggestion>
    requires same { IsSetOf model.now set.now }
{
    basis.stand(alloc, guide.head(), guide.sides())?;
    match guide.blocked() {
        Some((slot, side)) => {
            basis.solve_unit_row(slot)?;
            let blocked = Blocked { slot, side };
            Some(Suggestion::Combo(combo(alloc, basis, set, path, blocked)?))
        }
        None => {
            basis.solve_values(alloc)?;
            Some(Suggestion::Point(point(alloc, model, basis, None)?))
        }
    }
}

// Evidence of few digits near what the guide found: a point, or a combination where its last run ended at a blocked row.
fn near_guess(
    alloc: Global,
    model: &Model,
    set: &MemberSet,
    path: &[Branch],
    basis: &Basis,
    system: &System,
    guide: &mut Guide,
    pivots: &mut u64,
) -> Option<Suggestion>
    requires same { IsSetOf model.now set.now }
    ensures { pivots.new ≤ pivots.old }
{
    if let Some(rough) = guide.weights(alloc) {
        let weights = far(alloc, system, rough.as_slice(), pivots)?;
        let shares = shares(alloc, basis, weights.as_slice(), set, path).ok()?;
        return Some(Suggestion::Combo(Combo { shares }));
    }
    let values = near(alloc, system, guide, pivots)?;
    Some(Suggestion::Point(point_of(alloc, model, values.as_slice())?))
}

// The point of these values.
fn point_of(alloc: Global, model: &Model, values: &[Frac]) -> Option<Point>
    ensures { IfSome result (λ point. length point.values ≡ length model.now.columns) }
{
    let mut list = Vec::new(alloc);
    for column in 0..model.column_count() {
        list.push(*values.get(column as usize)?).ok()?;
    }
    Some(Point {
        values: Values::new(list),
    })
}
