//! The lines of proofs, node by node.

ghost use Rattle.std.specs.Prelude.{◌≡◌, ◌++◌, ◌∷◌, OnOk, map, All};
ghost use Rattle.report_text.specs.Grammar.{node_phrases, proof_phrases, phrases_text};
ghost use Rattle.report_text.specs.Form.{IsWithinLimit};
ghost use Rattle.report_printer.specs.EvidenceNumbers.{HasWeightsWithin, IsProofWithin};
ghost use Rattle.report_printer.specs.Evidence.{IsKnownSource, IsKnownNode, IsKnownProof};

use crate::lines::print_phrase;
use crate::words::push_line;
use certs::{Node, Proof, Share};
use lp_model::Model;
use report_text::Phrase;
use std::alloc::AllocError;

/// Appends the lines of shares.
pub(crate) fn print_uses(
    model: &Model,
    shares: &[Share],
    into: &mut Vec<u8>,
) -> Result<(), AllocError>
    requires { All (λ s. IsKnownSource model.now s.source) shares.now }
    ensures text { OnOk result (into.new.items ≡ into.old.items ++ phrases_text model.now (map Phrase.Use shares.now)) }
    ensures within { OnOk result (All (λ s. IsWithinLimit s.weight) shares.now) }
{
    for share in shares {
        print_phrase(model, Phrase::Use(*share), into)?;
    }
    Ok(())
}

// Appends the lines of a leaf.
fn print_leaf(model: &Model, shares: &[Share], into: &mut Vec<u8>) -> Result<(), AllocError>
    requires { All (λ s. IsKnownSource model.now s.source) shares.now }
    ensures text { OnOk result (into.new.items ≡ into.old.items ++ phrases_text model.now (Phrase.Leaf ∷ map Phrase.Use shares.now)) }
    ensures within { OnOk result (All (λ s. IsWithinLimit s.weight) shares.now) }
{
    push_line(b"leaf", into)?;
    print_uses(model, shares, into)
}

// Appends the lines of a node.
fn print_node(model: &Model, node: &Node, into: &mut Vec<u8>) -> Result<(), AllocError>
    requires { IsKnownNode model.now node.now }
    ensures text { OnOk result (into.new.items ≡ into.old.items ++ phrases_text model.now (node_phrases node.now)) }
    ensures within { OnOk result (HasWeightsWithin node.now) }
{
    match node {
        Node::Split { column, at } => {
            print_phrase(model, Phrase::Split(*column, *at), into)?;
            Ok(())
        }
        Node::Leaf(combo) => print_leaf(model, combo.shares.as_slice(), into),
    }
}

/// Appends the lines of a proof.
pub(crate) fn print_proof(
    model: &Model,
    proof: &Proof,
    into: &mut Vec<u8>,
) -> Result<(), AllocError>
    requires { IsKnownProof model.now proof.now }
    ensures text { OnOk result (into.new.items ≡ into.old.items ++ phrases_text model.now (proof_phrases proof.now)) }
    ensures within { OnOk result (IsProofWithin proof.now) }
{
    push_line(b"proof", into)?;
    for node in proof.nodes.as_slice() {
        print_node(model, node, into)?;
    }
    Ok(())
}
