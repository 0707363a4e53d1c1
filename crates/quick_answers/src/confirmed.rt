//! Points, combinations and proofs that are confirmed by their checks, and copies of them.
ghost use Rattle.std.specs.Prelude.{◌≡◌, ◌<◌, [], All, IfSome, List, length, true};
ghost use Rattle.lp_model.specs.declared.members.Member.{Member as OneMember};
ghost use Rattle.lp_model.specs.Program.{Program};
ghost use Rattle.certs.specs.Checks.{IsSetOf};
ghost use Rattle.certs.specs.Combination.{IsCombination};
ghost use Rattle.certs.specs.Order.{AreLeavesInOrder, AreSharesInOrder, IsNodeInOrder};
ghost use Rattle.certs.specs.Proof.{IsFittingNode};
ghost use Rattle.certs.specs.Tales.{IsPointOf};
ghost use Rattle.quick_answers.specs.Answers.{IsConfirmed};

use branch_proof::{Judged, check_proof};
use certs::{
    BranchPath, Checked, Combo, MemberSet, Node, Nodes, Point, Proof, Shares, Values, Verdict,
    are_in_order, check_combo, check_point,
};
use frac128::Frac;
use linear_oracle::leaf_proof;
use lp_model::Model;
use std::alloc::{AllocError, Global};

/// Whether a point has a value for each column, and its check says that it satisfies the set.
pub fn is_point(model: &Model, set: &MemberSet, point: &Point) -> bool
    ensures { result ≡ true → IsPointOf model.now set.now.members point.now }
{
    if point.values.as_slice().len() != model.column_count() as usize {
        return false;
    }
    is_yes(check_point(model, set, point))
}

/// Whether the shares of a combination stand in order, and its check says that no point satisfies the set. Where memory is
/// refused, it does not.
pub fn is_combo(alloc: Global, model: &Model, set: &MemberSet, combo: &Combo) -> bool
    requires same { IsSetOf model.now set.now }
    ensures { result ≡ true → IsCombination model.now set.now.members [] combo.now.shares
        × AreSharesInOrder combo.now.shares }
{
    is_combo_on(alloc, model, set, &BranchPath::new(alloc), combo)
}

/// Whether it is so, and its check says that no point on a path satisfies the set.
pub(crate) fn is_combo_on(
    alloc: Global,
    model: &Model,
    set: &MemberSet,
    path: &BranchPath,
    combo: &Combo,
) -> bool
    requires same { IsSetOf model.now set.now }
    requires known { All (λ b. b.column < length model.now.columns) path.now }
    ensures { result ≡ true → IsCombination model.now set.now.members path.now combo.now.shares
        × AreSharesInOrder combo.now.shares }
{
    if !are_in_order(combo.shares.as_slice()) {
        return false;
    }
    // That the program is well formed is told with its count of rows.
    let _rows = model.row_count();
    let Ok(mut sums) = vec![in alloc; Frac::whole(0); model.column_count() as usize] else {
        return false;
    };
    is_yes(check_combo(model, set, path, combo, sums.as_mut_slice()))
}

/// Whether a check says yes.
pub fn is_yes(checked: Checked) -> bool
    ensures { result ≡ true → checked ≡ Checked.Yes }
{
    matches!(checked, Checked::Yes)
}

/// The verdict of the proof whose one node is a leaf with this combination, where memory allows.
pub(crate) fn leaf_verdict(alloc: Global, combo: Combo) -> Option<Verdict>
    ensures { (model : Program) (set : List OneMember) → IsCombination model set [] combo.shares
        → AreSharesInOrder combo.shares → IfSome result (IsConfirmed model set) }
{
    let Ok(proof) = leaf_proof(alloc, combo) else {
        return None;
    };
    Some(Verdict::Infeasible(proof))
}

/// The verdict of a proof, where its check says that it proves the set, and the shares of each leaf stand in order. Where
/// memory is refused, there is none.
pub(crate) fn proof_verdict(
    alloc: Global,
    model: &Model,
    set: &MemberSet,
    proof: Proof,
) -> Option<Verdict>
    requires same { IsSetOf model.now set.now }
    requires fitting { All IsFittingNode proof.nodes }
    ensures { IfSome result (IsConfirmed model.now set.now.members) }
{
    if !are_leaves_in_order(proof.nodes.as_slice()) {
        return None;
    }
    let Ok(Judged::Yes) = check_proof(alloc, model, set, &proof) else {
        return None;
    };
    Some(Verdict::Infeasible(proof))
}

// Whether the shares of each leaf stand in order.
fn are_leaves_in_order(nodes: &[Node]) -> bool
    ensures { result ≡ true → AreLeavesInOrder nodes.now }
{
    for node in nodes {
        if !is_node_in_order(node) {
            return false;
        }
    }
    true
}

// Whether those of a node do, where it is a leaf.
fn is_node_in_order(node: &Node) -> bool
    ensures { result ≡ true → IsNodeInOrder node.now }
{
    match node {
        Node::Split { .. } => true,
        Node::Leaf(combo) => are_in_order(combo.shares.as_slice()),
    }
}

/// The same point once more.
pub(crate) fn copied_point(alloc: Global, point: &Point) -> Result<Point, AllocError> {
    Ok(Point {
        values: Values::new(Vec::from_slice(alloc, point.values.as_slice())?),
    })
}

/// The same combination once more.
pub(crate) fn copied_combo(alloc: Global, combo: &Combo) -> Result<Combo, AllocError> {
    Ok(Combo {
        shares: Shares::new(Vec::from_slice(alloc, combo.shares.as_slice())?),
    })
}

/// The same proof once more.
pub(crate) fn copied_proof(alloc: Global, proof: &Proof) -> Result<Proof, AllocError> {
    let mut nodes = Vec::new(alloc);
    for node in proof.nodes.as_slice() {
        nodes.push(copied_node(alloc, node)?)?;
    }
    Ok(Proof {
        nodes: Nodes::new(nodes),
    })
}

// The same node once more.
fn copied_node(alloc: Global, node: &Node) -> Result<Node, AllocError> {
    match node {
        Node::Split { column, at } => Ok(Node::Split {
            column: *column,
            at: *at,
        }),
        Node::Leaf(combo) => Ok(Node::Leaf(copied_combo(alloc, combo)?)),
    }
}
