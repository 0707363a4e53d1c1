//! The deletion filter.
ghost use Rattle.std.specs.Prelude.{◌≡◌, ◌+◌, ◌↔◌, true, IfErr, IfOk, IsTrue, OnOk, length};
ghost use Rattle.lp_model.specs.Satisfaction.{IsSatisfiable};
ghost use Rattle.certs.specs.Checks.{IsSetOf};
ghost use Rattle.certs.specs.Filter.{IsLateTest, Late};
ghost use Rattle.certs.specs.Proof.{IsProof};
ghost use Rattle.filter_steps.specs.Isolated.{IsIsolation, IsLeft, IsReduced, IsStoppedAt, is_feasible};

use certs::{Irreducible, MemberSet, Oracle, Proof, Stop, Verdict};
use filter_steps::{Reduction, try_without};
use std::alloc::Global;

/// What stays of a set when its members are tried in member order, each with those that stay before it and all after
/// it: a member stays where the others can be satisfied. Or a point that satisfies the set.
///
/// This is the deletion filter (Chinneck, *Feasibility and Infeasibility in Optimization*, 2008). It asks for the whole
/// set once, since a point of the set comes from no other ask. Then it asks once for each member that the last proof
/// uses, and for no other member: without one that the proof does not use, the same proof holds. A witness comes from
/// one ask, and no two members have the same one, so no filter asks less often than once for each member that stays,
/// and once more; this one asks besides only where a proof is replaced.
///
/// # Errors
///
/// The stop of an ask: of the whole set, or of a set that a late filter may ask for.
pub fn isolate<O: Oracle>(
    alloc: Global,
    oracle: &mut O,
    set: &MemberSet,
) -> Result<Irreducible, Stop>
    requires same { IsSetOf (O.state oracle.old).model set.now }
    requires served { (O.state oracle.old).serves set.now.members ≡ true }
    ensures found { IfOk result (IsIsolation Late O.answers (O.state oracle.old) set.now.members) }
    // A point comes exactly where the set can be satisfied.
    ensures which { IfOk result (λ answer. IsTrue (is_feasible answer) ↔ IsSatisfiable (O.state oracle.old).model set.now.members) }
    ensures stop { IfErr result (IsStoppedAt IsLateTest O.answers set.now.members (O.state oracle.old) (O.state oracle.new)) }
    ensures quiet { OnOk result ((O.state oracle.new).tale.stops ≡ (O.state oracle.old).tale.stops) }
    // At most one ask more than the set has members.
    ensures left { IsLeft (length set.now.members + 1) (O.state oracle.old) (O.state oracle.new) }
{
    let verdict = oracle.ask(alloc, set)?;
    match verdict {
        Verdict::Feasible(point) => Ok(Irreducible::Feasible(point)),
        Verdict::Infeasible(proof) => isolate_refuted(alloc, oracle, set, proof),
    }
}

/// The same of a set that a proof shows to be unsatisfiable. The set itself is not asked for again.
///
/// # Errors
///
/// The stop of an ask of a set that a late filter may ask for.
pub fn isolate_refuted<O: Oracle>(
    alloc: Global,
    oracle: &mut O,
    set: &MemberSet,
    proof: Proof,
) -> Result<Irreducible, Stop>
    requires same { IsSetOf (O.state oracle.old).model set.now }
    requires served { (O.state oracle.old).serves set.now.members ≡ true }
    requires proof { IsProof (O.state oracle.old).model set.now.members proof.nodes }
    ensures found { IfOk result (IsReduced Late O.answers (O.state oracle.old) set.now.members proof.nodes) }
    ensures stop { IfErr result (IsStoppedAt IsLateTest O.answers set.now.members (O.state oracle.old) (O.state oracle.new)) }
    ensures quiet { OnOk result ((O.state oracle.new).tale.stops ≡ (O.state oracle.old).tale.stops) }
    // At most one ask for each member.
    ensures left { IsLeft (length set.now.members) (O.state oracle.old) (O.state oracle.new) }
{
    set.stands_in_order();
    let Ok(mut reduction) = Reduction::new(alloc, set, proof) else {
        return Err(Stop::Memory);
    };
    for member in set.iter() {
        try_without(alloc, oracle, &mut reduction, member)?;
    }
    Ok(reduction.into_answer())
}
