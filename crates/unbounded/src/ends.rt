//! The diagnosis at the end of a run.
ghost use Rattle.std.specs.Prelude.{◌≡◌, ◌<◌, ℕ, [], IfOk, None, Ok, false, true, length};
ghost use Rattle.frac128.specs.Calculation.{first_wide};
ghost use Rattle.frac128.specs.Limit.{limit};
ghost use Rattle.lp_model.specs.Program.{Program};
ghost use Rattle.lp_model.specs.Satisfaction.{values_at};
ghost use Rattle.certs.specs.declared.solving.Verdict.TheVariants.{Feasible};
ghost use Rattle.certs.specs.Checks.{IsSetOf};
ghost use Rattle.certs.specs.Improves.{improve_values};
ghost use Rattle.certs.specs.Improves.ImproveEnd.{AtOptimum, Unbounded as WithoutEnd};
ghost use Rattle.certs.specs.Plain.{plain_system as system_of};
ghost use Rattle.certs.specs.Tableau.{value_of};
ghost use Rattle.certs.specs.Tales.{IsPointOf};
ghost use Rattle.certs.specs.Trees.{has_mark as some_mark};
ghost use Rattle.dictionary.specs.Value.{tableau_of};
ghost use Rattle.simplex.specs.ImproveEnds.{EndsAt, end_of};
ghost use Rattle.simplex.specs.declared.improving.Improved.TheVariants.{Optimal, Unbounded};
ghost use Rattle.two_widths.specs.Ends.{EndsSo, StopsSo};
ghost use Rattle.unbounded.specs.Diagnosed.{HasLastPoint, IsDiagnosis, IsImproveSite, IsOwnStop, PassesOn};
ghost use Rattle.unbounded.specs.Runs.{IsEndOf};

use crate::diagnosing::Diagnosis;
use crate::values::value_told;
use bound_checks::{directed, has_mark};
use certs::{Dual, MemberSet, Path, Point, Site, SiteKind, Stop, named_combo};
use dictionary::Dictionary;
use frac128::Frac;
use lp_model::Model;
use simplex::{Improved, RunStop, dual_of, point_of, ray_of};
use std::alloc::{AllocError, Global};

/// What the end of the improve run of a set shows. With a mark in the set the point is the one that was answered.
pub(crate) fn diagnosis_at(
    alloc: Global,
    model: &Model,
    set: &MemberSet,
    dictionary: &Dictionary<Frac>,
    end: Improved,
    asked: Point,
) -> Result<Diagnosis, AllocError>
    requires same { IsSetOf model.now set.now }
    requires asked { IsPointOf model.now set.now.members asked }
    requires stands { IsEndOf model.now set.now.members dictionary.now }
    requires ended { EndsAt limit dictionary.now end }
    ensures found { IfOk result (IsDiagnosis model.now set.now.members) }
    ensures passed { IfOk result (λ d. PassesOn set.now.members (Ok (Feasible asked)) (Ok d)) }
    ensures last { let system = system_of model.now set.now.members [] true in
        (pivots : ℕ) → EndsSo system pivots (end_of end) dictionary.now.basis
        → some_mark set.now.members ≡ false
        → IfOk result (HasLastPoint model.now set.now.members pivots) }
{
    match end {
        Improved::Unbounded(entering) => {
            unbounded_at(alloc, model, set, dictionary, entering, asked)
        }
        Improved::Optimal => bounded_at(alloc, model, set, dictionary, asked),
    }
}

// The ray by which the objective runs away.
fn unbounded_at(
    alloc: Global,
    model: &Model,
    set: &MemberSet,
    dictionary: &Dictionary<Frac>,
    entering: u32,
    asked: Point,
) -> Result<Diagnosis, AllocError>
    requires same { IsSetOf model.now set.now }
    requires asked { IsPointOf model.now set.now.members asked }
    requires stands { IsEndOf model.now set.now.members dictionary.now }
    requires ended { EndsAt limit dictionary.now (Unbounded entering) }
    ensures found { IfOk result (IsDiagnosis model.now set.now.members) }
    ensures passed { IfOk result (λ d. PassesOn set.now.members (Ok (Feasible asked)) (Ok d)) }
    ensures last { let system = system_of model.now set.now.members [] true in
        (pivots : ℕ) → EndsSo system pivots (WithoutEnd entering) dictionary.now.basis
        → some_mark set.now.members ≡ false
        → IfOk result (HasLastPoint model.now set.now.members pivots) }
{
    let ray = ray_of(alloc, dictionary, entering)?;
    let point = last_point(alloc, model, set, dictionary, asked)?;
    Ok(Diagnosis::Unbounded(point, ray))
}

// The dual by which the objective is bounded.
fn bounded_at(
    alloc: Global,
    model: &Model,
    set: &MemberSet,
    dictionary: &Dictionary<Frac>,
    asked: Point,
) -> Result<Diagnosis, AllocError>
    requires same { IsSetOf model.now set.now }
    requires asked { IsPointOf model.now set.now.members asked }
    requires stands { IsEndOf model.now set.now.members dictionary.now }
    requires ended { EndsAt limit dictionary.now Optimal }
    ensures found { IfOk result (IsDiagnosis model.now set.now.members) }
    ensures passed { IfOk result (λ d. PassesOn set.now.members (Ok (Feasible asked)) (Ok d)) }
    ensures last { let system = system_of model.now set.now.members [] true in
        (pivots : ℕ) → EndsSo system pivots (AtOptimum) dictionary.now.basis
        → some_mark set.now.members ≡ false
        → IfOk result (HasLastPoint model.now set.now.members pivots) }
{
    let dual = dual_of(alloc, dictionary)?;
    let combo = named_combo(alloc, model, set, &dual.combo)?;
    let bound = directed(model, dual.bound);
    let point = last_point(alloc, model, set, dictionary, asked)?;
    let value = value_told(model, set, bound, &point);
    Ok(Diagnosis::Bounded(point, value, Dual { combo, bound }))
}

// The point that was answered where the set has a mark, and else that of the run's last basis.
fn last_point(
    alloc: Global,
    model: &Model,
    set: &MemberSet,
    dictionary: &Dictionary<Frac>,
    asked: Point,
) -> Result<Point, AllocError>
    requires asked { IsPointOf model.now set.now.members asked }
    requires stands { IsEndOf model.now set.now.members dictionary.now }
    requires usable { dictionary.now.usable ≡ true }
    requires narrow { first_wide limit (improve_values (tableau_of dictionary.now)) ≡ None }
    ensures point { IfOk result (IsPointOf model.now set.now.members) }
    ensures marked { some_mark set.now.members ≡ true → IfOk result (λ point. point ≡ asked) }
    ensures unmarked { some_mark set.now.members ≡ false
        → IfOk result (λ point. (j : ℕ) → j < length model.now.columns
        → values_at point.values j ≡ value_of (tableau_of dictionary.now) j) }
{
    if has_mark(set) {
        return Ok(asked);
    }
    point_of(alloc, dictionary)
}

/// The stop of a run, with its site.
pub(crate) fn stop_at(alloc: Global, set: &MemberSet, stop: RunStop) -> Stop
    ensures { (model : Program) (pivots : ℕ) → IsSetOf model set.now
        → StopsSo (system_of model set.now.members [] true) pivots stop
        → IsOwnStop model set.now.members pivots result }
{
    let Ok(site) = improve_site(alloc, set) else {
        return Stop::Memory;
    };
    match stop {
        RunStop::Wide(turn, operation) => Stop::Wide(site, turn, operation),
        RunStop::Pivots => Stop::Pivots(site),
        RunStop::Memory => Stop::Memory,
    }
}

// The site of the improve run of a set's plain system, on no path and with no enforced part.
fn improve_site(alloc: Global, set: &MemberSet) -> Result<Site, AllocError>
    ensures { (model : Program) → IsSetOf model set.now
        → IfOk result (IsImproveSite model set.now.members) }
{
    let set = set.copy(alloc)?;
    let enforced = set.emptied(alloc)?;
    Ok(Site {
        kind: SiteKind::Improve,
        set,
        enforced,
        path: Path::new(Vec::new(alloc)),
    })
}
