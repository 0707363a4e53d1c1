//! A set that is being reduced.
ghost use Rattle.std.specs.Prelude.{◌≡◌, ◌⊎◌, ◌++◌, [], ◌∷◌, true, All, Contains, IfErr, IfOk, OnOk};
ghost use Rattle.lp_model.specs.MemberSets.{IsPossibleIn, set_with, set_without};
ghost use Rattle.certs.specs.Answers.{AnswersAt, IsAnsweredProof};
ghost use Rattle.certs.specs.Named.{IsKnownNode, used_set};
ghost use Rattle.certs.specs.declared.solving.Stop.TheVariants.{Memory};
ghost use Rattle.filter_steps.specs.Isolated.{IsJust, IsLeft, IsStoppedAt};
ghost use Rattle.filter_steps.specs.Reductions.{IsReduction, Tried};

use certs::{
    Irreducible, MemberSet, Oracle, PackedPoint, Point, Proof, Stop, Verdict, members_used,
};
use lp_model::Member;
use std::alloc::{AllocError, Global};

/// A set that no point satisfies, and what is known of it so far.
#[derive(Drop)]
pub struct Reduction {
    /// The members that are left.
    pub left: MemberSet,
    /// The proof that no point satisfies them.
    pub proof: Proof,
    /// The members that the proof uses.
    pub used: MemberSet,
    /// The witnesses of the members that stay, in the order in which those were tried.
    pub witnesses: Vec<PackedPoint>,
}

impl Reduction {
    /// The whole set, and the proof that no point satisfies it. Nothing was tried yet.
    pub fn new(alloc: Global, set: &MemberSet, proof: Proof) -> Result<Reduction, AllocError>
        requires { All (IsKnownNode set.now) proof.nodes }
        ensures left { IfOk result (λ r. r.left ≡ set.now) }
        ensures proof { IfOk result (λ r. r.proof ≡ proof) }
        ensures used { IfOk result (λ r. r.used ≡ used_set set.now proof.nodes) }
        ensures witnesses { IfOk result (λ r. r.witnesses.items ≡ []) }
    {
        let left = set.copy(alloc)?;
        let used = members_used(alloc, set, &proof)?;
        Ok(Reduction {
            left,
            proof,
            used,
            witnesses: Vec::new(alloc),
        })
    }

    /// The members that are left, with their witnesses and the proof.
    pub fn into_answer(self) -> Irreducible
        ensures { result ≡ Irreducible.Set self.left self.witnesses self.proof }
    {
        Irreducible::Set {
            members: self.left,
            witnesses: self.witnesses,
            proof: self.proof,
        }
    }

    // Puts a member back that was taken out, with its witness.
    fn keep(&mut self, alloc: Global, member: Member, witness: &Point) -> Result<(), Stop>
        requires { IsPossibleIn self.old.left member }
        ensures left { self.new.left ≡ set_with self.old.left member }
        ensures witnesses { OnOk result (self.new.witnesses.items ≡ self.old.witnesses.items ++ witness.now ∷ []) }
        ensures proof { self.new.proof ≡ self.old.proof }
        ensures used { self.new.used ≡ self.old.used }
        ensures err { IfErr result (λ stop. stop ≡ Memory) }
    {
        self.left.insert(member);
        let Ok(packed) = PackedPoint::of(alloc, witness) else {
            return Err(Stop::Memory);
        };
        match self.witnesses.push(packed) {
            Ok(()) => Ok(()),
            Err(_) => Err(Stop::Memory),
        }
    }

    // Takes the proof of what is left in place of the one before.
    fn refute(&mut self, alloc: Global, proof: Proof) -> Result<(), Stop>
        requires { All (IsKnownNode self.old.left) proof.nodes }
        ensures left { self.new.left ≡ self.old.left }
        ensures witnesses { self.new.witnesses.items ≡ self.old.witnesses.items }
        ensures proof { OnOk result (self.new.proof ≡ proof) }
        ensures used { OnOk result (self.new.used ≡ used_set self.old.left proof.nodes) }
        ensures err { IfErr result (λ stop. stop ≡ Memory) }
    {
        let Ok(used) = members_used(alloc, &self.left, &proof) else {
            return Err(Stop::Memory);
        };
        self.used = used;
        self.proof = proof;
        Ok(())
    }
}

/// Tries what is left without a member: it stays where the others can be satisfied, and is taken out where they cannot.
///
/// A member that the proof does not use is taken out without an ask, since the proof is then one of the others too.
///
/// # Errors
///
/// The stop of the one ask, of what is left without the member.
pub fn try_without<O: Oracle>(
    alloc: Global,
    oracle: &mut O,
    reduction: &mut Reduction,
    member: Member,
) -> Result<(), Stop>
    requires reduced { IsReduction (O.state oracle.old).model reduction.old.left reduction.old.used reduction.old.proof.nodes }
    requires there { Contains reduction.old.left.members member }
    requires served { (O.state oracle.old).serves (set_without reduction.old.left member).members ≡ true }
    ensures reduced { OnOk result (IsReduction (O.state oracle.old).model reduction.new.left reduction.new.used reduction.new.proof.nodes) }
    ensures tried { OnOk result (Tried (O.state oracle.old).model reduction.old.left reduction.old.witnesses.items member reduction.new.left reduction.new.witnesses.items) }
    ensures proof { OnOk result ((reduction.new.proof ≡ reduction.old.proof) ⊎ IsAnsweredProof (AnswersAt O.answers (O.state oracle.old)) reduction.new.proof.nodes) }
    ensures stop { IfErr result (IsStoppedAt IsJust O.answers (set_without reduction.old.left member).members (O.state oracle.old) (O.state oracle.new)) }
    ensures quiet { OnOk result ((O.state oracle.new).tale.stops ≡ (O.state oracle.old).tale.stops) }
    ensures left { IsLeft 1 (O.state oracle.old) (O.state oracle.new) }
{
    let is_used = reduction.used.contains(member);
    reduction.left.remove(member);
    if !is_used {
        return Ok(());
    }
    let verdict = oracle.ask(alloc, &reduction.left)?;
    match verdict {
        Verdict::Feasible(point) => reduction.keep(alloc, member, &point),
        Verdict::Infeasible(proof) => reduction.refute(alloc, proof),
    }
}
