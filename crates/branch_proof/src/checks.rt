//! Whether nodes are those of one tree that proves a set.
ghost use Rattle.std.specs.Prelude.{◌≡◌, ◌≢◌, ◌<◌, ◌↔◌, All, IfOk, length, ℕ};
ghost use Rattle.rational.specs.Rational.{zero_ℚ};
ghost use Rattle.lp_model.specs.Satisfaction.{IsUnsatisfiable};
ghost use Rattle.certs.specs.Checks.{IsSetOf};
ghost use Rattle.certs.specs.Proof.{IsProof};
ghost use Rattle.certs.specs.Trees.{mark_test};
ghost use Rattle.certs.specs.Proof.{IsFittingNode};
ghost use Rattle.branch_proof.specs.Walk.{IsWithin, judgement, node_check};
ghost use Rattle.branch_proof.specs.Narrow.{IsNarrowProof};

use crate::paths::go_on;
use certs::{BranchPath, Checked, Node, Proof, check_leaf};
use frac128::{Frac, Wide};
use lp_model::{Member, MemberSet, Model};
use std::alloc::{AllocError, Global};

/// What the check of a proof answers.
///
/// `Yes` comes where the nodes are those of one tree that proves the set, and no sum is too wide. Else the answer has the
/// number of the first node that does not pass, from 0. `No` comes where the mark of a split is not one of the program and
/// of the set, as where the program has no such column, or where the shares of a leaf are no combination for its path;
/// `Wide` where a sum of a leaf is too wide, with that operation. Where each node passes but one is missing, or nodes
/// follow the whole tree, `No` has the number of nodes.
#[derive(Clone, Copy)]
pub enum Judged {
    Yes,
    No(usize),
    Wide(usize, Wide),
}

/// Whether the nodes of the proof are those of one tree that proves that no point satisfies the set.
///
/// The nodes are taken in order, each with its path: the branches from the root on, at most `at` to a lower child and at
/// least `at + 1` to an upper one. A split's `at` stands from -(2^127 - 1) to 2^127 - 2. A proof is never answered `No`.
///
/// # Errors
///
/// There is no memory for a number a column, or for a branch a level of the tree.
pub fn check_proof(
    alloc: Global,
    model: &Model,
    set: &MemberSet,
    proof: &Proof,
) -> Result<Judged, AllocError>
    requires same { IsSetOf model.now set.now }
    requires fitting { All IsFittingNode proof.now.nodes }
    ensures said { IfOk result (λ judged. judged ≡ judgement model.now set.now.members proof.now.nodes) }
    ensures yes { IfOk result (λ judged. (judged ≡ Judged.Yes) ↔ IsNarrowProof model.now set.now.members proof.now.nodes) }
    ensures never_no { IfOk result (λ judged. IsProof model.now set.now.members proof.now.nodes → (n : ℕ) → judged ≢ Judged.No n) }
    ensures unsatisfiable { IfOk result (λ judged. judged ≡ Judged.Yes → IsUnsatisfiable model.now set.now.members) }
    ensures within { IfOk result (IsWithin (length proof.now.nodes)) }
{
    // That the program is well formed is told with the count.
    let _rows = model.row_count();
    let mut room = vec![in alloc; Frac::whole(0); model.column_count() as usize]?;
    let sums = room.as_mut_slice();
    let mut path = BranchPath::new(alloc);
    let nodes = proof.nodes.as_slice();
    for (n, node) in nodes.iter().enumerate() {
        match check_node(model, set, &path, node, sums) {
            Checked::Yes => {}
            Checked::No => return Ok(Judged::No(n)),
            Checked::Wide(wide) => return Ok(Judged::Wide(n, wide)),
        }
        if !go_on(&mut path, node)? {
            if n + 1 == nodes.len() {
                return Ok(Judged::Yes);
            }
            return Ok(Judged::No(nodes.len()));
        }
    }
    Ok(Judged::No(nodes.len()))
}

// Whether a node passes on its path: a split by its mark, a leaf by its combination.
fn check_node(
    model: &Model,
    set: &MemberSet,
    path: &BranchPath,
    node: &Node,
    sums: &mut [Frac],
) -> Checked
    requires room { length sums.old ≡ length model.now.columns }
    requires zeros { All (λ q. q ≡ zero_ℚ) sums.old }
    requires known { All (λ b. b.column < length model.now.columns) path.now }
    requires same { IsSetOf model.now set.now }
    ensures zeros { result ≡ Checked.Yes → All (λ q. q ≡ zero_ℚ) sums.new }
    ensures said { result ≡ node_check model.now set.now.members path.now node.now }
{
    match node {
        Node::Split { column, .. } => {
            if is_marked(model, set, *column) {
                Checked::Yes
            } else {
                Checked::No
            }
        }
        Node::Leaf(combo) => check_leaf(model, set, path, combo, sums),
    }
}

/// Whether the program and the set have the mark of a column. The program may lack the column.
pub fn is_marked(model: &Model, set: &MemberSet, column: u32) -> bool
    requires { IsSetOf model.now set.now }
    ensures { result ≡ mark_test model.now set.now.members column }
{
    let mark = Member::Whole(column);
    column < model.column_count() && model.exists(mark) && set.contains(mark)
}
