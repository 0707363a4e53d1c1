//! Witnesses of an irreducible set.
ghost use Rattle.std.specs.Prelude.{IfErr, IfOk};
ghost use Rattle.lp_model.specs.Satisfaction.{IsIrreducible, IsSatisfiable};
ghost use Rattle.certs.specs.Answers.{IsAnsweredStop};
ghost use Rattle.certs.specs.Checks.{IsSetOf};
ghost use Rattle.certs.specs.Tales.{IsPointOf};
ghost use Rattle.filter_steps.specs.Isolated.{AreWitnesses};
ghost use Rattle.presolve_laws.specs.Answers.{IsPresolvedReference};
ghost use Rattle.analysis.specs.Answers.{IsOracleOf, IsWitnessStop, budgets_of};

use crate::answering::Budgets;
use crate::asking::Reference;
use certs::{MemberSet, Oracle, PackedPoint, Point, Stop, Verdict};
use lp_model::Model;
use quick_answers::QuickOracle;
use std::alloc::Global;

/// A point for each member of an irreducible set, which satisfies all the others. The oracle is asked for them without each
/// member, in member order.
///
/// # Errors
///
/// The stop of an ask, or `Memory`, for want of it.
pub(crate) fn witnesses(
    alloc: Global,
    model: &Model,
    budgets: Budgets,
    oracle: &mut QuickOracle<'_, Reference<'_>>,
    set: &MemberSet,
) -> Result<Vec<PackedPoint>, Stop>
    requires same { IsSetOf model.now set.now }
    requires irreducible { IsIrreducible model.now set.now.members }
    requires of { IsOracleOf model.now (budgets_of budgets) oracle.old.inner }
    ensures found { IfOk result (λ points. AreWitnesses model.now set.now.members points.items) }
    ensures stop { IfErr result (IsWitnessStop model.now (budgets_of budgets) set.now.members) }
{
    set.stands_in_order();
    let mut points = Vec::new(alloc);
    for member in set.iter() {
        let Ok(mut others) = set.copy(alloc) else {
            return Err(Stop::Memory);
        };
        others.remove(member);
        let point = witness(alloc, model, budgets, oracle, &others)?;
        let Ok(packed) = PackedPoint::of(alloc, &point) else {
            return Err(Stop::Memory);
        };
        let Ok(()) = points.push(packed) else {
            return Err(Stop::Memory);
        };
    }
    Ok(points)
}

/// A point of members that some point satisfies, by one ask.
///
/// # Errors
///
/// The stop of the ask.
pub(crate) fn witness(
    alloc: Global,
    model: &Model,
    budgets: Budgets,
    oracle: &mut QuickOracle<'_, Reference<'_>>,
    set: &MemberSet,
) -> Result<Point, Stop>
    requires same { IsSetOf model.now set.now }
    requires can { IsSatisfiable model.now set.now.members }
    requires of { IsOracleOf model.now (budgets_of budgets) oracle.old.inner }
    ensures of { IsOracleOf model.now (budgets_of budgets) oracle.new.inner }
    ensures found { IfOk result (IsPointOf model.now set.now.members) }
    ensures stop { let Reference = IsPresolvedReference model.now (budgets_of budgets) in
        IfErr result (IsAnsweredStop Reference set.now.members) }
{
    match oracle.ask(alloc, set) {
        Ok(Verdict::Feasible(point)) => Ok(point),
        Ok(Verdict::Infeasible(_)) => unreachable!(),
        Err(stop) => Err(stop),
    }
}
