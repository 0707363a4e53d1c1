//! Whether printed members are of a set, and those that a proof uses.
ghost use Rattle.std.specs.Prelude.{◌≡◌, ◌+◌, ◌<◌, ◌↔◌, All, IfOk, IsTrue, MatchResult, None, Some, length};
ghost use Rattle.std.specs.List.{list_any};
ghost use Rattle.lp_model.specs.MemberSets.{empty_set};
ghost use Rattle.certs.specs.Checks.{IsSetOf};
ghost use Rattle.certs.specs.Named.{IsKnownNode, IsKnownSource, node_uses};
ghost use Rattle.certs.specs.Violation.{is_of};
ghost use Rattle.cert_check.specs.Trials.{paired_trials, is_use_of, proof_members};
ghost use Rattle.cert_check.specs.Stops.{first_stop, IsStop};
ghost use Rattle.cert_check.specs.Uses.{with_source, with_tested};

use crate::outcome::Stop;
use certs::{Node, Proof, Share, Source};
use lp_model::{Member, MemberSet, Model};
use std::alloc::{AllocError, Global};

/// The members that the proof uses: those that its shares name, and the marks of its split columns.
pub(crate) fn used_members(
    alloc: Global,
    model: &Model,
    proof: &Proof,
) -> Result<MemberSet, AllocError>
    requires { All (IsKnownNode (empty_set model.now)) proof.now.nodes }
    ensures same { IfOk result (λ set. IsSetOf model.now set) }
    ensures used { IfOk result (λ set. set.members ≡ proof_members model.now proof.now) }
{
    let mut used = MemberSet::empty(alloc, model)?;
    for node in proof.nodes.as_slice() {
        insert_node(&mut used, node);
    }
    used.stands_in_order();
    Ok(used)
}

// Puts in the members that a node uses.
fn insert_node(set: &mut MemberSet, node: &Node)
    requires { IsKnownNode set.old node.now }
    ensures { set.new ≡ with_tested set.old (λ m. node_uses m node.now) }
{
    match node {
        Node::Split { column, .. } => set.insert(Member::Whole(*column)),
        Node::Leaf(combo) => insert_shares(set, combo.shares.as_slice()),
    }
}

// Puts in the members that shares name.
fn insert_shares(set: &mut MemberSet, shares: &[Share])
    requires { All (λ s. IsKnownSource set.old s.source) shares.now }
    ensures { set.new ≡ with_tested set.old (λ m. list_any (λ s. is_of m s.source) shares.now) }
{
    for share in shares {
        insert_source(set, share.source);
    }
    set.stands_in_order();
}

// Puts in the member that a source names.
fn insert_source(set: &mut MemberSet, source: Source)
    requires { IsKnownSource set.old source }
    ensures { set.new ≡ with_source set.old source }
{
    if let Source::Member(member) = source {
        set.insert(member);
    }
}

/// Compares the printed members with the used ones position by position, the first on the given line. Each is to be of
/// the set. It gives the number of the line after them.
pub(crate) fn check_members(
    model: &Model,
    among: &MemberSet,
    printed: &MemberSet,
    used: &MemberSet,
    start: u32,
) -> Result<u32, Stop>
    requires among { IsSetOf model.now among.now }
    requires printed { IsSetOf model.now printed.now }
    requires used { IsSetOf model.now used.now }
    requires short { start + length printed.now.members < 4294967296 }
    ensures { let agree = is_use_of among.now.members in
        let stop = first_stop (paired_trials agree start printed.now.members used.now.members) in
        MatchResult result
        (λ line. (stop ≡ None) × (line ≡ start + length printed.now.members))
        (IsStop stop) }
{
    printed.stands_in_order();
    let mut line = start;
    let mut uses = used.iter();
    for member in printed.iter() {
        if !among.contains(member) {
            return Err(Stop::Rejected(line));
        }
        if !is_next(uses.next(), member) {
            return Err(Stop::Rejected(line));
        }
        line += 1;
    }
    match uses.next() {
        Some(_) => Err(Stop::Rejected(line)),
        None => Ok(line),
    }
}

// Whether the member comes next.
fn is_next(next: Option<Member>, member: Member) -> bool
    ensures { IsTrue result ↔ (next ≡ Some member) }
{
    next == Some(member)
}
