//! Proofs, and members with their witnesses.
ghost use Rattle.std.specs.Prelude.{◌≡◌, ◌<◌, ◌^◌, Bool, ◌≤◌, length, zip, Some, None, Ok, MatchOption};
ghost use Rattle.report_text.specs.declared.phrases.Phrase.{Phrase as OnePhrase};
ghost use Rattle.report_text.specs.declared.phrases.Phrase.TheVariants.{Leaf};
ghost use Rattle.report_text.specs.Form.{AreMembers};
ghost use Rattle.report_reader.specs.Kinds.{IsCursor, IsRead};
ghost use Rattle.report_reader.specs.Things.{found, point as one_point, node as one_node, node_of, is_leaf as is_leaf_by, IsBegun, due_after, tree, proof as one_proof, witnessed};

use crate::cursor::{Cursor, Word};
use crate::lists::{Listing, next_member, read_shares, read_values};
use crate::reader::ReportStop;
use certs::{Combo, Node, Nodes, PackedPoint, Proof, Shares};
use lp_model::{Member, Model};
use report_text::{Phrase, Witnesses};
use std::alloc::Global;

/// A point.
pub(crate) fn read_point(alloc: Global, model: &Model, cursor: &mut Cursor<'_>) -> PackedPoint
    requires { IsCursor model.now cursor.old }
    ensures read { IsRead model.now (one_point model.now) cursor.old cursor.new (tt, result) }
    ensures stands { IsCursor model.now cursor.new }
{
    cursor.pass_word(alloc, model, Word::Point);
    let values = read_values(alloc, model, cursor);
    PackedPoint { values }
}

// The node that the next line begins, without shares, where it may stand.
fn node_in(alloc: Global, splits: bool, ahead: &Result<Phrase, ReportStop>) -> Option<Node>
    ensures { result ≡ found (node_of splits) ahead.now }
{
    match ahead {
        Ok(Phrase::Split(column, at)) if splits => Some(Node::Split {
            column: *column,
            at: *at,
        }),
        Ok(Phrase::Leaf) => Some(Node::Leaf(Combo {
            shares: Shares::new(Vec::new(alloc)),
        })),
        _ => None,
    }
}

// A leaf, whose first line stands next.
fn read_leaf(alloc: Global, model: &Model, cursor: &mut Cursor<'_>) -> Node
    requires { IsCursor model.now cursor.old }
    ensures read { (splits : Bool) → cursor.old.ahead ≡ Ok Leaf →
        IsRead model.now (one_node model.now splits) cursor.old cursor.new result }
    ensures stands { IsCursor model.now cursor.new }
{
    cursor.pass(alloc, model, true);
    let shares = read_shares(alloc, model, cursor);
    Node::Leaf(Combo { shares })
}

// Whether a node is a leaf.
fn is_leaf(node: &Node) -> bool
    ensures { result ≡ is_leaf_by node.now }
{
    match node {
        Node::Split { column: _, at: _ } => false,
        Node::Leaf(_) => true,
    }
}

// The node that the next line begins, with its shares.
fn read_begun(
    alloc: Global,
    model: &Model,
    cursor: &mut Cursor<'_>,
    splits: bool,
    begun: Node,
) -> Node
    requires stands { IsCursor model.now cursor.old }
    requires begun { found (node_of splits) cursor.old.ahead ≡ Some begun }
    ensures read { IsRead model.now (one_node model.now splits) cursor.old cursor.new result }
    ensures stands { IsCursor model.now cursor.new }
{
    if is_leaf(&begun) {
        return read_leaf(alloc, model, cursor);
    }
    cursor.pass(alloc, model, true);
    begun
}

// A node of a proof, if one may stand next.
fn read_node(alloc: Global, model: &Model, cursor: &mut Cursor<'_>, splits: bool) -> Option<Node>
    requires { IsCursor model.now cursor.old }
    ensures read { MatchOption result
        ((found (node_of splits) cursor.old.ahead ≡ None) × (cursor.new ≡ cursor.old))
        (λ node. IsBegun splits cursor.old.ahead × IsRead model.now (one_node model.now splits) cursor.old cursor.new node) }
    ensures stands { IsCursor model.now cursor.new }
{
    let begun = node_in(alloc, splits, &cursor.ahead)?;
    Some(read_begun(alloc, model, cursor, splits, begun))
}

// How many subtrees are due behind a node in the place of one.
fn due_behind(due: u64, node: &Node) -> u64
    requires some { 0 < due }
    requires few { due ≤ 2 ^ 63 }
    ensures { result ≡ due_after due node.now }
{
    match node {
        Node::Split { column: _, at: _ } => due + 1,
        Node::Leaf(_) => due - 1,
    }
}

// The nodes of a proof.
fn read_tree(alloc: Global, model: &Model, cursor: &mut Cursor<'_>, splits: bool) -> Nodes
    requires { IsCursor model.now cursor.old }
    ensures read { IsRead model.now (tree model.now splits) cursor.old cursor.new result }
    ensures stands { IsCursor model.now cursor.new }
{
    let mut nodes = Vec::new(alloc);
    let mut due: u64 = 1;
    while due > 0 {
        let Some(node) = read_node(alloc, model, cursor, splits) else {
            cursor.pass(alloc, model, false);
            return Nodes::new(nodes);
        };
        due = due_behind(due, &node);
        cursor.push(&mut nodes, node);
    }
    Nodes::new(nodes)
}

/// A proof, which is one leaf where it may have no split.
pub(crate) fn read_proof(
    alloc: Global,
    model: &Model,
    cursor: &mut Cursor<'_>,
    splits: bool,
) -> Proof
    requires { IsCursor model.now cursor.old }
    ensures read { IsRead model.now (one_proof model.now splits) cursor.old cursor.new (tt, result.nodes) }
    ensures stands { IsCursor model.now cursor.new }
{
    cursor.pass_word(alloc, model, Word::Proof);
    let nodes = read_tree(alloc, model, cursor, splits);
    Proof { nodes }
}

/// Members, each after those before it, and a witness for each.
pub(crate) fn read_witnessed(
    alloc: Global,
    model: &Model,
    cursor: &mut Cursor<'_>,
) -> (Vec<Member>, Witnesses)
    requires { IsCursor model.now cursor.old }
    ensures read { IsRead model.now (witnessed model.now) cursor.old cursor.new (zip result.0.items result.1) }
    ensures each { (q : OnePhrase) → cursor.new.ahead ≡ Ok q → length result.1 ≡ length result.0.items }
    ensures form { AreMembers model.now result.0.items }
    ensures stands { IsCursor model.now cursor.new }
{
    let mut members = Vec::new(alloc);
    let mut witnesses = Vec::new(alloc);
    while let Some(member) = next_member(
        model,
        Listing::Listed,
        members.as_slice(),
        &cursor.ahead,
    ) {
        cursor.pass(alloc, model, true);
        let point = read_point(alloc, model, cursor);
        cursor.push(&mut members, member);
        cursor.push(&mut witnesses, point);
    }
    (members, Witnesses::new(witnesses))
}
