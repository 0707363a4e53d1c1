//! Rounds of enforcing.
ghost use Rattle.std.specs.Prelude.{◌≡◌, false, All, IfErr, IfOk, List, filter};
ghost use Rattle.lp_model.specs.declared.members.Member.{Member as OneMember};
ghost use Rattle.lp_model.specs.Members.{is_mark};
ghost use Rattle.lp_model.specs.MemberSets.{IsPossibleIn};
ghost use Rattle.certs.specs.Checks.{IsSetOf};
ghost use Rattle.certs.specs.Named.{IsOfSize};
ghost use Rattle.elastic_filter.specs.Enforced.{AreRounds, IsEnforced, IsRoundStop, IsStretcherLeft};
ghost use Rattle.elastic_filter.specs.Included.{IsPartWithin, joined_test};

use certs::{Combo, MemberSet, Point, Stop, Stretched, Stretcher};
use evidence_laws::{combination_refutes, rounds_are_few};
use std::alloc::Global;

/// The members that the rounds enforced, which no point satisfies, with a combination of them and the number of rounds; or
/// a point of the whole set.
#[derive(Drop)]
pub enum Enforced {
    Set {
        members: MemberSet,
        combo: Combo,
        rounds: u64,
    },
    Feasible(Point),
}

/// Enforces members of a set without marks, round by round, until no point satisfies those that are enforced: each round
/// enforces what is violated at a point of least total violation among those that satisfy the members enforced before
/// (Chinneck and Dravnieks 1991). At most one round more is made than any unsatisfiable part of the set has members.
///
/// # Errors
///
/// The stop of a round, as the stretcher answered it; or `Memory`, for want of it.
pub fn enforce<S: Stretcher>(
    alloc: Global,
    stretcher: &mut S,
    set: &MemberSet,
) -> Result<Enforced, Stop>
    requires same { IsSetOf (S.model stretcher.old) set.now }
    requires linear { All (λ m. is_mark m ≡ false) set.now.members }
    ensures found { IfOk result (IsEnforced (S.model stretcher.old) set.now.members) }
    ensures stop { let round = IsRoundStop S.answers (S.model stretcher.old) (S.budgets stretcher.old) in
        IfErr result (round set.now.members) }
    // The rounds are told; so is the stop, at the end of the list; the program and the budgets stay.
    ensures rounds { IfOk result (AreRounds (S.rounds stretcher.old) (S.rounds stretcher.new)) }
    ensures left { let before = S.stops stretcher.old in
        IsStretcherLeft before (S.stops stretcher.new) set.now.members result }
    ensures model { S.model stretcher.new ≡ S.model stretcher.old }
    ensures budgets { S.budgets stretcher.new ≡ S.budgets stretcher.old }
{
    combination_refutes();
    rounds_are_few();
    set.stands_in_order();
    let Ok(mut enforced) = set.emptied(alloc) else {
        return Err(Stop::Memory);
    };
    let mut rounds: u64 = 1;
    loop {
        match stretcher.stretch(alloc, set, &enforced) {
            Err(stop) => return Err(stop),
            Ok(Stretched::Met(point)) => return Ok(Enforced::Feasible(point)),
            Ok(Stretched::Cut(combo)) => return Ok(refuted(enforced, combo, rounds)),
            Ok(Stretched::Stretched(further)) => {
                include(&further, &mut enforced);
                rounds += 1;
            }
        }
    }
}

// The answer once no point satisfies the enforced members.
fn refuted(members: MemberSet, combo: Combo, rounds: u64) -> Enforced
    ensures { result ≡ Enforced.Set members combo rounds }
{
    Enforced::Set {
        members,
        combo,
        rounds,
    }
}

// Puts members into the enforced ones.
fn include(further: &MemberSet, enforced: &mut MemberSet)
    requires { All (IsPossibleIn enforced.old) further.now.members }
    ensures same { IsOfSize enforced.old enforced.new }
    ensures members { (set : List OneMember) → IsPartWithin enforced.old set further.now.members
        → enforced.new.members ≡ filter (joined_test enforced.old.members further.now.members) set }
{
    for member in further.iter() {
        enforced.insert(member);
    }
}
