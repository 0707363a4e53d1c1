//! The additive filter.
ghost use Rattle.std.specs.Prelude.{◌≡◌, ◌+◌, ◌↔◌, true, IfErr, IfOk, IsTrue, OnOk, length, reverse};
ghost use Rattle.lp_model.specs.Satisfaction.{IsSatisfiable};
ghost use Rattle.certs.specs.Checks.{IsSetOf};
ghost use Rattle.certs.specs.Filter.{Early, IsEarlyTest};
ghost use Rattle.certs.specs.Proof.{IsProof};
ghost use Rattle.filter_steps.specs.Isolated.{IsIsolation, IsLeft, IsReduced, IsStoppedAt, is_feasible};

use certs::{Irreducible, MemberSet, Oracle, PackedPoint, Proof, Stop, Verdict};
use filter_steps::{Reduction, listed, try_without};
use std::alloc::Global;

/// What stays of a set when its members are tried from the last one back, each with all before it and those that stay
/// after it: a member stays where the others can be satisfied. Or a point that satisfies the set.
///
/// This is what the additive method finds (Tamiz, Mardle and Jones, *Detecting IIS in infeasible linear programmes using
/// techniques from goal programming*, 1996): it adds members in member order until no point satisfies them, keeps the one
/// that was added last, and begins again with those that stay. `adding_gives_early` says that it comes to these members.
/// They are found here from the last one back, since that asks less often: once for the whole set, and then once for
/// each member that the last proof uses. A witness comes from one ask, and no two members have the same one, so no
/// filter asks less often than once for each member that stays, and once more; this one asks besides only where a proof
/// is replaced.
///
/// # Errors
///
/// The stop of an ask: of the whole set, or of a set that an early filter may ask for.
pub fn isolate<O: Oracle>(
    alloc: Global,
    oracle: &mut O,
    set: &MemberSet,
) -> Result<Irreducible, Stop>
    requires same { IsSetOf (O.state oracle.old).model set.now }
    requires served { (O.state oracle.old).serves set.now.members ≡ true }
    ensures found { IfOk result (IsIsolation Early O.answers (O.state oracle.old) set.now.members) }
    // A point comes exactly where the set can be satisfied.
    ensures which { IfOk result (λ answer. IsTrue (is_feasible answer) ↔ IsSatisfiable (O.state oracle.old).model set.now.members) }
    ensures stop { IfErr result (IsStoppedAt IsEarlyTest O.answers set.now.members (O.state oracle.old) (O.state oracle.new)) }
    ensures quiet { OnOk result ((O.state oracle.new).tale.stops ≡ (O.state oracle.old).tale.stops) }
    // At most one ask more than the set has members.
    ensures left { IsLeft (length set.now.members + 1) (O.state oracle.old) (O.state oracle.new) }
{
    let verdict = oracle.ask(alloc, set)?;
    match verdict {
        Verdict::Feasible(point) => Ok(Irreducible::Feasible(point)),
        Verdict::Infeasible(proof) => isolate_refuted(alloc, oracle, set, proof),
    }
}

// The same of a set that a proof shows to be unsatisfiable.
fn isolate_refuted<O: Oracle>(
    alloc: Global,
    oracle: &mut O,
    set: &MemberSet,
    proof: Proof,
) -> Result<Irreducible, Stop>
    requires same { IsSetOf (O.state oracle.old).model set.now }
    requires served { (O.state oracle.old).serves set.now.members ≡ true }
    requires proof { IsProof (O.state oracle.old).model set.now.members proof.nodes }
    ensures found { IfOk result (IsReduced Early O.answers (O.state oracle.old) set.now.members proof.nodes) }
    ensures stop { IfErr result (IsStoppedAt IsEarlyTest O.answers set.now.members (O.state oracle.old) (O.state oracle.new)) }
    ensures quiet { OnOk result ((O.state oracle.new).tale.stops ≡ (O.state oracle.old).tale.stops) }
    // At most one ask for each member.
    ensures left { IsLeft (length set.now.members) (O.state oracle.old) (O.state oracle.new) }
{
    set.stands_in_order();
    let Ok(mut front) = listed(alloc, set) else {
        return Err(Stop::Memory);
    };
    let Ok(mut reduction) = Reduction::new(alloc, set, proof) else {
        return Err(Stop::Memory);
    };
    while let Some(member) = front.pop() {
        try_without(alloc, oracle, &mut reduction, member)?;
    }
    // The last member was tried first.
    turn(&mut reduction.witnesses);
    Ok(reduction.into_answer())
}

// Puts points into the other order.
fn turn(points: &mut Vec<PackedPoint>)
    ensures { points.new.items ≡ reverse points.old.items }
{
    points.as_mut_slice().reverse();
}
