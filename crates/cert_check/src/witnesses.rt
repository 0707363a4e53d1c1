//! Whether the members of an irreducible set are active, and its witnesses satisfy the others.
ghost use Rattle.std.specs.Prelude.{◌≡◌, ◌+◌, ◌<◌, ◌∷◌, [], All, IsTrue, OnOk, MatchResult, None, length, zip, flat_map};
ghost use Rattle.lp_model.specs.Members.{has};
ghost use Rattle.lp_model.specs.MemberSets.{IsPossibleIn};
ghost use Rattle.certs.specs.Checks.{IsSetOf};
ghost use Rattle.report_text.specs.Grammar.{witness_phrases};
ghost use Rattle.cert_check.specs.Trials.{witness_trials};
ghost use Rattle.cert_check.specs.Stops.{first_stop, IsStop};
ghost use Rattle.cert_check.specs.Sparse.{IsRoom, IsSparseFor};

use crate::outcome::{Stop, settle};
use crate::sparse::{Sparse, check_packed, sparse_for};
use certs::PackedPoint;
use frac128::Frac;
use lp_model::{Member, MemberSet, Model};
use report_text::MEMBER_LINES;
use std::alloc::Global;

/// Checks each member with its witness, the first on the given line. It gives the number of the line after them.
///
/// `others` is a copy of the members, and is one again where nothing stops the check.
pub(crate) fn check_witnesses(
    alloc: Global,
    model: &Model,
    members: &MemberSet,
    others: &mut MemberSet,
    witnesses: &[PackedPoint],
    room: &mut Vec<Frac>,
    start: u32,
) -> Result<u32, Stop>
    requires same { IsSetOf model.now members.now }
    requires copy { others.old ≡ members.now }
    requires each { length witnesses.now ≡ length members.now.members }
    requires points { All (λ p. length p.values ≡ length model.now.columns) witnesses.now }
    requires room { IsRoom (length model.now.columns) room.old.items }
    requires short { start + length (flat_map witness_phrases (zip members.now.members witnesses.now)) < 4294967296 }
    ensures says { MatchResult result
        (λ line. (first_stop (witness_trials model.now members.now.members start (zip members.now.members witnesses.now)) ≡ None)
        × (line ≡ start + length (flat_map witness_phrases (zip members.now.members witnesses.now))))
        (IsStop (first_stop (witness_trials model.now members.now.members start (zip members.now.members witnesses.now)))) }
    ensures room { OnOk result (IsRoom (length model.now.columns) room.new.items) }
{
    members.stands_in_order();
    let Ok(sparse) = sparse_for(alloc, model, members, room.as_slice()) else {
        return Err(Stop::Memory);
    };
    let sparse = &sparse;
    let mut line = start;
    let mut left = members.iter();
    for witness in witnesses {
        let Some(member) = left.next() else {
            unreachable!()
        };
        line += check_witness(alloc, model, others, sparse, member, witness, room, line)?;
    }
    Ok(line)
}

// Checks a member on the given line, and its witness on the next. It gives how many lines they have. The set of all members is
// the same afterwards.
fn check_witness(
    alloc: Global,
    model: &Model,
    members: &mut MemberSet,
    sparse: &Option<Sparse>,
    member: Member,
    witness: &PackedPoint,
    room: &mut Vec<Frac>,
    line: u32,
) -> Result<u32, Stop>
    requires same { IsSetOf model.now members.old }
    requires there { IsTrue (has members.old.members member) }
    requires possible { IsPossibleIn members.old member }
    requires sparse { IsSparseFor model.now members.old.members sparse.now }
    requires point { length witness.now.values ≡ length model.now.columns }
    requires room { IsRoom (length model.now.columns) room.old.items }
    requires short { line + length (witness_phrases (member, witness.now)) < 4294967296 }
    ensures says { let stop = first_stop (witness_trials model.now members.old.members line ((member, witness.now) ∷ [])) in
        MatchResult result (λ lines. (stop ≡ None) × (lines ≡ length (witness_phrases (member, witness.now)))) (IsStop stop) }
    ensures stays { members.new ≡ members.old }
    ensures room { OnOk result (IsRoom (length model.now.columns) room.new.items) }
{
    members.stands_in_order();
    if !model.is_active(member) {
        return Err(Stop::Rejected(line));
    }
    members.remove(member);
    let found = check_packed(alloc, model, members, sparse, Some(member), witness, room);
    members.insert(member);
    let Ok((found, lines)) = found else {
        return Err(Stop::Memory);
    };
    settle(line + MEMBER_LINES, found)?;
    Ok(MEMBER_LINES + lines as u32)
}
