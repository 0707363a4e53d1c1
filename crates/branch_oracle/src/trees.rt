//! The reference tree of a set, node by node.
ghost use Rattle.std.specs.Prelude.{◌≡◌, ◌≤◌, ℕ, [], ◌∷◌, ◌++◌, All, Err, IfOk, if◌then◌else◌};
ghost use Rattle.lp_model.specs.Program.{Program};
ghost use Rattle.certs.specs.Answers.{IsTreeVerdict};
ghost use Rattle.certs.specs.Checks.{IsSetOf};
ghost use Rattle.certs.specs.Sites.{Budgets};
ghost use Rattle.certs.specs.Trees.{TreeEnd, HasTree, child_paths};
ghost use Rattle.branch_proof.specs.Pending.{AreKnown, IsKnown, IsTurnable, pending};
ghost use Rattle.certs.specs.Proof.{IsFittingNode};

use crate::nodes::{Step, take_node};
use branch_proof::go_on;
use certs::{BranchAsk, BranchPath, MemberSet, Node, Nodes, Proof, Stop, Verdict};
use linear_oracle::settle_site;
use lp_model::Model;
use std::alloc::{AllocError, Global};

/// The end of the set's tree, which may have so many nodes. Those that it takes are added to a count.
///
/// # Errors
///
/// The stop of the first node whose run stops, or that of the whole tree where a node is left to take and none may be.
pub(crate) fn solve_tree<B: BranchAsk>(
    alloc: Global,
    model: &Model,
    inner: &mut B,
    set: &MemberSet,
    nodes: u64,
    taken: &mut u64,
) -> Result<Verdict, Stop>
    requires same { IsSetOf model.now set.now }
    requires program { (B.state inner.old).model ≡ model.now }
    ensures ends { IsTreeVerdict model.now (record { pivots = (B.state inner.old).budgets.pivots; nodes = nodes }) set.now.members result }
    ensures untold { B.state inner.new ≡ B.state inner.old }
    ensures taken { taken.old ≤ taken.new }
{
    let mut path = BranchPath::new(alloc);
    let mut list = Vec::new(alloc);
    for _node in 0..nodes {
        *taken = with_one_more(*taken);
        let node = match take_node(alloc, model, inner, set, &path)? {
            Step::Found(point) => return Ok(Verdict::Feasible(point)),
            Step::Further(node) => node,
        };
        let Ok(is_more) = go_further(&mut path, &mut list, node) else {
            return Err(Stop::Memory);
        };
        if !is_more {
            return Ok(Verdict::Infeasible(Proof {
                nodes: Nodes::new(list),
            }));
        }
    }
    Err(out_of_nodes(alloc, set))
}

// A count with one more; it stays at its greatest value once there.
fn with_one_more(count: u64) -> u64
    ensures { count ≤ result }
{
    count.saturating_add(1)
}

// Lists a node, and takes the path to the next one. Whether there is one.
fn go_further(path: &mut BranchPath, list: &mut Vec<Node>, node: Node) -> Result<bool, AllocError>
    requires turnable { All IsTurnable path.old }
    requires fitting { IsFittingNode node }
    ensures next { IfOk result (λ more. child_paths path.old node ++ pending path.old
        ≡ (if more then path.new ∷ pending path.new else [])) }
    ensures turnable { IfOk result (λ more. All IsTurnable path.new) }
    ensures known { (n : ℕ) → IsKnown n node → AreKnown n path.old → IfOk result (λ more. AreKnown n path.new) }
    ensures listed { IfOk result (λ more. list.new.items ≡ list.old.items ++ node ∷ []) }
{
    let is_more = go_on(path, &node)?;
    list.push(node)?;
    Ok(is_more)
}

// The stop of a whole tree that has no more nodes.
fn out_of_nodes(alloc: Global, set: &MemberSet) -> Stop
    ensures { (model : Program) (budgets : Budgets) → IsSetOf model set.now → HasTree model set.now.members budgets.pivots budgets.nodes TreeEnd.OutOfNodes
        → IsTreeVerdict model budgets set.now.members (Err result) }
{
    match settle_site(alloc, set, &[]) {
        Ok(site) => Stop::Nodes(site),
        Err(_) => Stop::Memory,
    }
}
