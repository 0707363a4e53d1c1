//! Proofs that are followed: the nodes of one for another set, where they serve for this one.
ghost use Rattle.std.specs.Prelude.{IfSome};
ghost use Rattle.certs.specs.Checks.{IsSetOf};
ghost use Rattle.quick_answers.specs.Walks.{IsWalkNode, IsWalkPath};

use crate::confirmed::{copied_combo, is_combo_on};
use crate::splits::split;
use certs::{BranchPath, MemberSet, Node};
use lp_model::Model;
use std::alloc::Global;

/// The nodes of a proof that are still ahead, of which the first stands for the walk's next node; but where the walk went apart
/// it is for the first one whose path is not longer than that at which it did.
#[derive(Clone, Copy)]
pub(crate) struct Guide<'a> {
    ahead: &'a [Node],
    apart: Option<usize>,
}

impl<'a> Guide<'a> {
    /// All of these nodes are ahead.
    pub(crate) fn new(ahead: &'a [Node]) -> Guide<'a> {
        Guide { ahead, apart: None }
    }

    /// The node that stands for the one on this path, where there is one and it serves for the set. Where it does not, its
    /// subtree is left out, and the walk is apart until it comes out of its own.
    pub(crate) fn followed(
        &mut self,
        alloc: Global,
        model: &Model,
        set: &MemberSet,
        path: &BranchPath,
    ) -> Option<Node>
        requires same { IsSetOf model.now set.now }
        requires path { IsWalkPath model.now path.now }
        ensures { IfSome result (IsWalkNode model.now set.now.members) }
    {
        if self
            .apart
            .is_some_and(|length| path.as_slice().len() > length)
        {
            return None;
        }
        let [first, rest @ ..] = self.ahead else {
            return None;
        };
        let served = served(alloc, model, set, path, first);
        if served.is_some() {
            self.apart = None;
            self.ahead = rest;
        } else {
            self.apart = Some(path.as_slice().len());
            self.ahead = behind_subtree(self.ahead);
        }
        served
    }
}

// A node once more, where it serves for the set on this path: a split whose mark the set has, or the leaf of a combination.
fn served(
    alloc: Global,
    model: &Model,
    set: &MemberSet,
    path: &BranchPath,
    node: &Node,
) -> Option<Node>
    requires same { IsSetOf model.now set.now }
    requires path { IsWalkPath model.now path.now }
    ensures { IfSome result (IsWalkNode model.now set.now.members) }
{
    match node {
        Node::Split { column, at } => split(model, set, *column, *at),
        Node::Leaf(combo) => {
            if !is_combo_on(alloc, model, set, path, combo) {
                return None;
            }
            Some(Node::Leaf(copied_combo(alloc, combo).ok()?))
        }
    }
}

// The nodes behind the subtree of the first one.
fn behind_subtree(nodes: &[Node]) -> &[Node] {
    let mut left = nodes;
    let mut open: usize = 1;
    while let [first, rest @ ..] = left {
        left = rest;
        open = match first {
            Node::Split { .. } => open.saturating_add(1),
            Node::Leaf(_) => open.saturating_sub(1),
        };
        if open == 0 {
            break;
        }
    }
    left
}
