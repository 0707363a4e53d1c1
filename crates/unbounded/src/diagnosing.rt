//! The diagnosis of a model's objective.
ghost use Rattle.std.specs.Prelude.{◌≡◌, ◌⊎◌, ◌<◌, ◌^◌, IfErr, IfOk, Err, Ok, false, true};
ghost use Rattle.lp_model.specs.Members.{active_members};
ghost use Rattle.lp_model.specs.MemberSets.{active_set};
ghost use Rattle.certs.specs.declared.solving.Verdict.TheVariants.{Feasible};
ghost use Rattle.certs.specs.Answers.{AnswersAt};
ghost use Rattle.certs.specs.Tales.{IsPointOf};
ghost use Rattle.certs.specs.Trees.{has_mark};
ghost use Rattle.unbounded.specs.Diagnosed.{AsksOnce, HasLastPoint, IsDiagnosis, IsOwnStop, PassesOn};

use crate::ends::{diagnosis_at, stop_at};
use crate::runs::run;
use certs::{Dual, MemberSet, Oracle, Point, Proof, Ray, Stop, Verdict, plain_system};
use frac128::Frac;
use lp_model::Model;
use std::alloc::Global;

/// Whether the objective runs away: by a point and a ray along which it gets ever better; or how far it can go: by a
/// point, its value, and a dual that shows the bound; or a proof that there is no point.
#[derive(Drop)]
pub enum Diagnosis {
    Unbounded(Point, Ray),
    Bounded(Point, Option<Frac>, Dual),
    Infeasible(Proof),
}

/// Whether the objective of a model runs away over its active members, or how far it can go.
///
/// The oracle is asked once, for the set of all active members. Where it answers a point, the plain system of the
/// set with the objective is settled and improved, marks left out, with so many pivots for both together. Without an
/// active mark the point is the last one of that run, and reaches the bound. With one it is the oracle's, and its
/// value is told where no operation of its sum is too wide; the bound and the ray do not count the marks.
///
/// # Errors
///
/// The oracle's stop, as it is; `Wide` or `Pivots` where the settle run or the improve run after it stops so, with the
/// site of that improve run; or `Memory`, for want of it.
pub fn diagnose<O: Oracle>(
    alloc: Global,
    model: &Model,
    oracle: &mut O,
    pivots: u64,
) -> Result<Diagnosis, Stop>
    requires same { (O.state oracle.old).model ≡ model.now }
    requires served { (O.state oracle.old).serves (active_members model.now) ≡ true }
    requires budget { pivots < 2 ^ 63 }
    ensures found { IfOk result (IsDiagnosis model.now (active_members model.now)) }
    ensures stop { let set = active_members model.now in
        let answers = AnswersAt O.answers (O.state oracle.old) set in
        IfErr result (λ stop. answers (Err stop) ⊎ IsOwnStop model.now set pivots stop) }
    ensures last { let set = active_members model.now in
        has_mark set ≡ false → IfOk result (HasLastPoint model.now set pivots) }
    // The oracle is asked for the active members, and for no other set; its stop and its proof are passed on.
    ensures asked { let set = active_members model.now in
        let answers = AnswersAt O.answers (O.state oracle.old) set in
        AsksOnce answers (O.state oracle.old) (O.state oracle.new) set result }
{
    let Ok(set) = model.members(alloc) else {
        return Err(Stop::Memory);
    };
    let verdict = oracle.ask(alloc, &set)?;
    match verdict {
        Verdict::Infeasible(proof) => Ok(Diagnosis::Infeasible(proof)),
        Verdict::Feasible(point) => improved(alloc, model, &set, point, pivots),
    }
}

// What the improve run of the active members shows, where the oracle has answered a point.
fn improved(
    alloc: Global,
    model: &Model,
    set: &MemberSet,
    asked: Point,
    pivots: u64,
) -> Result<Diagnosis, Stop>
    requires active { set.now ≡ active_set model.now }
    requires asked { IsPointOf model.now set.now.members asked }
    requires budget { pivots < 2 ^ 63 }
    ensures found { IfOk result (IsDiagnosis model.now set.now.members) }
    ensures stop { IfErr result (IsOwnStop model.now set.now.members pivots) }
    ensures last { let set = set.now.members in
        has_mark set ≡ false → IfOk result (HasLastPoint model.now set pivots) }
    ensures passed { PassesOn set.now.members (Ok (Feasible asked)) result }
{
    // With the counts it is told that the program is well formed, and that it has few rows and columns.
    let _rows = model.row_count();
    let _columns = model.column_count();
    set.stands_in_order();
    let Ok(system) = plain_system(alloc, model, set, true) else {
        return Err(Stop::Memory);
    };
    let ran = match run(alloc, &system, pivots) {
        Ok(ran) => ran,
        Err(stop) => return Err(stop_at(alloc, set, stop)),
    };
    let Ok(diagnosis) = diagnosis_at(alloc, model, set, &ran.dictionary, ran.end, asked) else {
        return Err(Stop::Memory);
    };
    Ok(diagnosis)
}
