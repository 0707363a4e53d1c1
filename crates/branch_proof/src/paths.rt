//! The path to the next node of a tree.
ghost use Rattle.std.specs.Prelude.{◌≡◌, ◌<◌, ◌∷◌, [], ◌++◌, All, IfOk, true, ℕ, if◌then◌else◌};
ghost use Rattle.certs.specs.Combination.{IsFitting};
ghost use Rattle.certs.specs.Proof.{at_most as at_most_of};
ghost use Rattle.certs.specs.Trees.{child_paths};
ghost use Rattle.certs.specs.Proof.{IsFittingNode};
ghost use Rattle.branch_proof.specs.Pending.{AreKnown, IsKnown, IsTurnable, pending, turned as turned_of};

use certs::{Branch, BranchPath, Node};
use std::alloc::AllocError;

/// Goes on from a node to the next one of its tree, in preorder, and takes its path. Whether there is one.
///
/// A path tells what is still to come: for each branch that says at most, the subtree of the upper child. From a split the
/// path goes on to the lower child; from a leaf it is taken back to the last branch that says at most, which is turned to
/// say at least one more. The numbers of the path and of the node stand within -(2^127 - 1) and 2^127 - 1 also when they
/// are turned.
///
/// # Errors
///
/// There is no memory for one branch more. The path may then be cut short.
pub fn go_on(path: &mut BranchPath, node: &Node) -> Result<bool, AllocError>
    requires turnable { All IsTurnable path.old }
    requires fitting { IsFittingNode node.now }
    ensures next { IfOk result
        (λ more. child_paths path.old node.now ++ pending path.old ≡ (if more then path.new ∷ pending path.new else [])) }
    ensures turnable { IfOk result (λ more. All IsTurnable path.new) }
    ensures known { (n : ℕ) → IsKnown n node.now → AreKnown n path.old → IfOk result (λ more. AreKnown n path.new) }
{
    match node {
        Node::Split { column, at } => {
            path.push(at_most(*column, *at))?;
            Ok(true)
        }
        Node::Leaf(_) => turn(path),
    }
}

// Takes branches back up to the last that says at most, and turns that one. Whether there is one.
fn turn(path: &mut BranchPath) -> Result<bool, AllocError>
    requires { All IsTurnable path.old }
    ensures next { IfOk result (λ more. pending path.old ≡ (if more then path.new ∷ pending path.new else [])) }
    ensures turnable { IfOk result (λ more. All IsTurnable path.new) }
    ensures known { (n : ℕ) → AreKnown n path.old → IfOk result (λ more. AreKnown n path.new) }
{
    while let Some(branch) = path.pop() {
        if branch.upper {
            path.push(turned(branch))?;
            return Ok(true);
        }
    }
    Ok(false)
}

// That a column is at most a number.
fn at_most(column: u32, at: i128) -> Branch
    ensures { result ≡ at_most_of column at }
{
    Branch {
        column,
        upper: true,
        at,
    }
}

// The branch to the upper child, from that to the lower one.
fn turned(branch: Branch) -> Branch
    requires { IsFitting (turned_of branch) }
    ensures { result ≡ turned_of branch }
{
    Branch {
        column: branch.column,
        upper: false,
        at: branch.at + 1,
    }
}
