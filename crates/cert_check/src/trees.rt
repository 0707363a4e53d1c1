//! Whether the proofs of a report hold.
ghost use Rattle.std.specs.Prelude.{◌≡◌, ◌+◌, ◌≤◌, ◌<◌, OnOk, length, flat_map};
ghost use Rattle.certs.specs.Checks.{IsSetOf};
ghost use Rattle.report_text.specs.Form.{IsProofFor};
ghost use Rattle.report_text.specs.Grammar.{node_phrases};
ghost use Rattle.cert_check.specs.Trials.{node_line, proof_trials};
ghost use Rattle.cert_check.specs.Stops.{first_stop, Says};
ghost use Rattle.cert_check.specs.Sparse.{IsRoom};

use crate::outcome::{Stop, settle};
use branch_proof::{Judged, check_proof};
use certs::{BranchPath, Node, Proof, check_leaf};
use frac128::Frac;
use lp_model::{MemberSet, Model};
use std::alloc::Global;

/// Checks a proof against members. Its first node stands on the given line.
pub(crate) fn check_tree(
    alloc: Global,
    model: &Model,
    set: &MemberSet,
    proof: &Proof,
    room: &mut Vec<Frac>,
    line: u32,
) -> Result<(), Stop>
    requires same { IsSetOf model.now set.now }
    requires form { IsProofFor model.now proof.now }
    requires room { IsRoom (length model.now.columns) room.old.items }
    requires short { line + length (flat_map node_phrases proof.now.nodes) < 4294967296 }
    ensures says { Says (first_stop (proof_trials model.now set.now.members line proof.now)) result }
    ensures room { OnOk result (IsRoom (length model.now.columns) room.new.items) }
{
    let nodes = proof.nodes.as_slice();
    if let [Node::Leaf(combo)] = nodes {
        let path = BranchPath::new(alloc);
        let found = check_leaf(model, set, &path, combo, room.as_mut_slice());
        return settle(line, found);
    }
    let Ok(judged) = check_proof(alloc, model, set, proof) else {
        return Err(Stop::Memory);
    };
    match judged {
        Judged::Yes => Ok(()),
        Judged::No(n) => Err(Stop::Rejected(line_of(nodes, n, line))),
        Judged::Wide(n, wide) => Err(Stop::Wide(line_of(nodes, n, line), wide)),
    }
}

// The line of node number n, where the first stands on the given line.
fn line_of(nodes: &[Node], n: usize, first: u32) -> u32
    requires there { n ≤ length nodes.now }
    requires short { first + length (flat_map node_phrases nodes.now) < 4294967296 }
    ensures { result ≡ node_line first nodes.now n }
{
    let mut line = first;
    for node in &nodes[..n] {
        line += node_length(node);
    }
    line
}

/// The line behind a proof, of which the first node stands on the given line.
pub(crate) fn line_behind(proof: &Proof, first: u32) -> u32
    requires { first + length (flat_map node_phrases proof.now.nodes) < 4294967296 }
    ensures { result ≡ first + length (flat_map node_phrases proof.now.nodes) }
{
    let nodes = proof.nodes.as_slice();
    line_of(nodes, nodes.len(), first)
}

// How many lines a node has.
fn node_length(node: &Node) -> u32
    requires { length (node_phrases node.now) < 4294967296 }
    ensures { result ≡ length (node_phrases node.now) }
{
    match node {
        Node::Split { .. } => 1,
        Node::Leaf(combo) => 1 + combo.shares.as_slice().len() as u32,
    }
}
