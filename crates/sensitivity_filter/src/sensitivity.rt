//! The sensitivity filter.
ghost use Rattle.std.specs.Prelude.{◌≡◌, ◌+◌, ◌↔◌, true, None, IfErr, IfOk, IsTrue, OnOk, length};
ghost use Rattle.lp_model.specs.Satisfaction.{IsSatisfiable};
ghost use Rattle.certs.specs.Answers.{AnswersAt};
ghost use Rattle.certs.specs.Checks.{IsSetOf};
ghost use Rattle.certs.specs.Filter.{IsLateTest, Late};
ghost use Rattle.certs.specs.Named.{used_members};
ghost use Rattle.certs.specs.Proof.{IsProof};
ghost use Rattle.filter_steps.specs.Isolated.{IsIsolation, IsLeft, IsReduced, IsStoppedAt, is_feasible};
ghost use Rattle.sensitivity_filter.specs.Cores.{IsCoreTest, IsLateOfCore, core_length};
ghost use Rattle.sensitivity_filter.specs.Pairs.{IsStoppedWith, either};

use certs::{Irreducible, MemberSet, Oracle, Proof, Stop, Verdict, members_used};
use deletion_filter::isolate_refuted;
use std::alloc::Global;

/// What the deletion filter keeps of the members that the first infeasible verdict uses, which is the one on the whole
/// set. Or a point that satisfies the set.
///
/// This is the sensitivity filter (Chinneck, *Feasibility and Infeasibility in Optimization*, 2008), followed by the
/// deletion filter. It asks for the whole set, and then for nothing outside the first core: at most once for each of
/// its members, and not for the core itself, which the verdict's proof is one of. The oracle has given no infeasible
/// verdict yet.
///
/// # Errors
///
/// The stop of an ask: of the whole set, or of a set that a late filter of the first core may ask for.
pub fn isolate<O: Oracle>(
    alloc: Global,
    oracle: &mut O,
    set: &MemberSet,
) -> Result<Irreducible, Stop>
    requires same { IsSetOf (O.state oracle.old).model set.now }
    requires served { (O.state oracle.old).serves set.now.members ≡ true }
    requires fresh { (O.state oracle.old).tale.first_core ≡ None }
    ensures found { IfOk result (IsIsolation (IsLateOfCore (AnswersAt O.answers (O.state oracle.old)) (O.state oracle.new).tale.first_core) O.answers (O.state oracle.old) set.now.members) }
    // A point comes exactly where the set can be satisfied.
    ensures which { IfOk result (λ answer. IsTrue (is_feasible answer) ↔ IsSatisfiable (O.state oracle.old).model set.now.members) }
    ensures stop { IfErr result (IsStoppedAt (IsCoreTest (AnswersAt O.answers (O.state oracle.old)) (O.state oracle.new).tale.first_core) O.answers set.now.members (O.state oracle.old) (O.state oracle.new)) }
    ensures quiet { OnOk result ((O.state oracle.new).tale.stops ≡ (O.state oracle.old).tale.stops) }
    // At most one ask more than the first core has members.
    ensures left { IsLeft (core_length (O.state oracle.new).tale.first_core + 1) (O.state oracle.old) (O.state oracle.new) }
{
    let verdict = oracle.ask(alloc, set)?;
    match verdict {
        Verdict::Feasible(point) => Ok(Irreducible::Feasible(point)),
        Verdict::Infeasible(proof) => isolate_core(alloc, oracle, set, proof),
    }
}

/// The same with two oracles of one program: the first is asked for the whole set, and the later one for all else. The
/// first core is the one that the first oracle's proof uses.
///
/// # Errors
///
/// The stop of an ask: the first oracle's for the whole set, or the later one's for a set that a late filter of the first
/// core may ask for.
pub fn isolate_with<O: Oracle, P: Oracle>(
    alloc: Global,
    first: &mut O,
    later: &mut P,
    set: &MemberSet,
) -> Result<Irreducible, Stop>
    requires same { IsSetOf (O.state first.old).model set.now }
    requires served { (O.state first.old).serves set.now.members ≡ true }
    requires fresh { (O.state first.old).tale.first_core ≡ None }
    requires program { (P.state later.old).model ≡ (O.state first.old).model }
    requires served_later { (P.state later.old).serves set.now.members ≡ true }
    ensures found { IfOk result (IsIsolation
        (IsLateOfCore (AnswersAt O.answers (O.state first.old)) (O.state first.new).tale.first_core)
        (either O.answers P.answers (P.state later.old).budgets) (O.state first.old)
        set.now.members) }
    // A point comes exactly where the set can be satisfied.
    ensures which { IfOk result (λ answer. IsTrue (is_feasible answer)
        ↔ IsSatisfiable (O.state first.old).model set.now.members) }
    ensures stop { IfErr result (IsStoppedWith O.answers P.answers set.now.members
        (O.state first.old) (O.state first.new) (P.state later.old) (P.state later.new)) }
    ensures quiet { OnOk result ((O.state first.new).tale.stops ≡ (O.state first.old).tale.stops) }
    ensures quiet_later { OnOk result
        ((P.state later.new).tale.stops ≡ (P.state later.old).tale.stops) }
    // One ask of the first oracle, and of the later one at most as many as the first core has members.
    ensures left { IsLeft 1 (O.state first.old) (O.state first.new) }
    ensures left_later { IsLeft (core_length (O.state first.new).tale.first_core)
        (P.state later.old) (P.state later.new) }
{
    let verdict = first.ask(alloc, set)?;
    match verdict {
        Verdict::Feasible(point) => Ok(Irreducible::Feasible(point)),
        Verdict::Infeasible(proof) => isolate_core(alloc, later, set, proof),
    }
}

// What the deletion filter keeps of the members that a proof of the set uses.
fn isolate_core<O: Oracle>(
    alloc: Global,
    oracle: &mut O,
    set: &MemberSet,
    proof: Proof,
) -> Result<Irreducible, Stop>
    requires same { IsSetOf (O.state oracle.old).model set.now }
    requires served { (O.state oracle.old).serves set.now.members ≡ true }
    requires proof { IsProof (O.state oracle.old).model set.now.members proof.nodes }
    ensures found { IfOk result (IsReduced Late O.answers (O.state oracle.old)
        (used_members set.now.members proof.nodes) proof.nodes) }
    ensures stop { IfErr result (IsStoppedAt IsLateTest O.answers
        (used_members set.now.members proof.nodes) (O.state oracle.old) (O.state oracle.new)) }
    ensures quiet { OnOk result
        ((O.state oracle.new).tale.stops ≡ (O.state oracle.old).tale.stops) }
    ensures left { IsLeft (length (used_members set.now.members proof.nodes))
        (O.state oracle.old) (O.state oracle.new) }
{
    set.stands_in_order();
    let Ok(core) = members_used(alloc, set, &proof) else {
        return Err(Stop::Memory);
    };
    isolate_refuted(alloc, oracle, &core, proof)
}
