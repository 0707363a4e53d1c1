//! Trees of sets with marks, whose nodes are quick runs.
ghost use Rattle.std.specs.Prelude.{◌≡◌, ◌*◌, All, IfSome, length};
ghost use Rattle.certs.specs.Checks.{IsSetOf};
ghost use Rattle.certs.specs.Proof.{IsFittingNode};
ghost use Rattle.quick_answers.specs.Answers.{IsConfirmed};
ghost use Rattle.branch_proof.specs.Pending.{IsKnown};
ghost use Rattle.quick_answers.specs.Value.{AllowsEach};
ghost use Rattle.quick_answers.specs.Walks.{IsStep, IsWalkPath};
ghost use Rattle.quick_run.specs.Pivots.{Allows};

use crate::confirmed::{is_combo_on, is_point, proof_verdict};
use crate::guides::Guide;
use crate::kept::Budget;
use crate::splits::broken_split;
use branch_proof::go_on;
use certs::{Branch, BranchPath, MemberSet, Node, Nodes, Point, Proof, Verdict};
use lp_model::Model;
use quick_run::{Guess, Suggest, Suggestion};
use std::alloc::Global;

/// What a node gives: a point of the set, or a node at which the walk goes on.
#[derive(Drop)]
pub(crate) enum Step {
    Found(Point),
    Further(Node),
}

/// A confirmed verdict by a walk that follows the nodes of another proof, or else by one that follows none. Both together take
/// at most so many nodes, with quick runs of so many pivots for each.
pub(crate) fn quick_tree<S: Suggest>(
    alloc: Global,
    model: &Model,
    set: &MemberSet,
    run: &mut S,
    last: &[Node],
    budget: Budget,
) -> Option<Verdict>
    requires same { IsSetOf model.now set.now }
    ensures confirmed { IfSome result (IsConfirmed model.now set.now.members) }
    ensures allowed { Allows (S.allowed run.old) (S.allowed run.new) (budget.pivots * budget.nodes) }
{
    let Budget { pivots, mut nodes } = budget;
    if let Some(verdict) = walk(alloc, model, set, run, last, pivots, &mut nodes) {
        return Some(verdict);
    }
    if last.is_empty() {
        return None;
    }
    walk(alloc, model, set, run, &[], pivots, &mut nodes)
}

// A confirmed verdict by a walk over the tree in preorder, of as many nodes as are left; those that it takes are taken off. At
// each node the walk follows another proof's nodes where they still serve, and else there are quick runs of so many pivots
// in all. Nothing that is taken on the way is trusted: the nodes are checked once they are all there.
fn walk<S: Suggest>(
    alloc: Global,
    model: &Model,
    set: &MemberSet,
    run: &mut S,
    ahead: &[Node],
    pivots: u64,
    left: &mut u64,
) -> Option<Verdict>
    requires same { IsSetOf model.now set.now }
    ensures confirmed { IfSome result (IsConfirmed model.now set.now.members) }
    ensures allowed { AllowsEach (S.allowed run.old) (S.allowed run.new) pivots left.old left.new }
{
    let mut guide = Guide::new(ahead);
    let mut path = BranchPath::new(alloc);
    let mut list = Vec::new(alloc);
    for _node in 0..*left {
        *left = left.saturating_sub(1);
        let step = next_step(alloc, model, set, run, &mut guide, &path, pivots)?;
        let node = match step {
            Step::Found(point) => return Some(Verdict::Feasible(point)),
            Step::Further(node) => node,
        };
        if !go_further(model, &mut path, &mut list, node)? {
            let nodes = Nodes::new(list);
            return proof_verdict(alloc, model, set, Proof { nodes });
        }
    }
    None
}

// Lists a node, and takes the path to the next one. Whether there is one; none where memory is refused.
fn go_further(
    model: &Model,
    path: &mut BranchPath,
    list: &mut Vec<Node>,
    node: Node,
) -> Option<bool>
    requires path { IsWalkPath model.now path.old }
    requires known { IsKnown (length model.now.columns) node }
    requires fits { IsFittingNode node }
    requires fitting { All IsFittingNode list.old.items }
    ensures path { IfSome result (λ more. IsWalkPath model.now path.new) }
    ensures fitting { IfSome result (λ more. All IsFittingNode list.new.items) }
{
    let Ok(is_more) = go_on(path, &node) else {
        return None;
    };
    list.push(node).ok()?;
    Some(is_more)
}

// The next step of a walk: the node that is followed, or else what quick runs give.
fn next_step<S: Suggest>(
    alloc: Global,
    model: &Model,
    set: &MemberSet,
    run: &mut S,
    guide: &mut Guide<'_>,
    path: &BranchPath,
    pivots: u64,
) -> Option<Step>
    requires same { IsSetOf model.now set.now }
    requires path { IsWalkPath model.now path.now }
    ensures step { IfSome result (IsStep model.now set.now.members) }
    ensures allowed { Allows (S.allowed run.old) (S.allowed run.new) pivots }
{
    if let Some(node) = guide.followed(alloc, model, set, path) {
        return Some(Step::Further(node));
    }
    step_by_runs(alloc, model, set, run, path, pivots)
}

// What a quick run gives at a node; where what was kept gave nothing, one from nothing, and then a guide, all with the pivots left.
fn step_by_runs<S: Suggest>(
    alloc: Global,
    model: &Model,
    set: &MemberSet,
    run: &mut S,
    path: &BranchPath,
    pivots: u64,
) -> Option<Step>
    requires same { IsSetOf model.now set.now }
    requires path { IsWalkPath model.now path.now }
    ensures step { IfSome result (IsStep model.now set.now.members) }
    ensures allowed { Allows (S.allowed run.old) (S.allowed run.new) pivots }
{
    run.allow(pivots);
    if let Some(step) = step_by_run(alloc, model, set, run, path.as_slice()) {
        return Some(step);
    }
    if run.restart()
        && let Some(step) = step_by_run(alloc, model, set, run, path.as_slice())
    {
        return Some(step);
    }
    if let Some(step) = step_by_guide(alloc, model, set, run, path, Guess::Vertex) {
        return Some(step);
    }
    step_by_guide(alloc, model, set, run, path, Guess::Near)
}

// What one quick run gives at a node.
fn step_by_run<S: Suggest>(
    alloc: Global,
    model: &Model,
    set: &MemberSet,
    run: &mut S,
    path: &[Branch],
) -> Option<Step>
    requires same { IsSetOf model.now set.now }
    ensures step { IfSome result (IsStep model.now set.now.members) }
    ensures kept { S.allowed run.new ≡ S.allowed run.old }
{
    match run.suggest(alloc, model, set, path)? {
        Suggestion::Point(point) => step_at(model, set, point),
        Suggestion::Combo(combo) => Some(Step::Further(Node::Leaf(combo))),
    }
}

// What a guide gives at a node, whose combination is checked, since rounded numbers were compared on the way.
fn step_by_guide<S: Suggest>(
    alloc: Global,
    model: &Model,
    set: &MemberSet,
    run: &mut S,
    path: &BranchPath,
    guess: Guess,
) -> Option<Step>
    requires same { IsSetOf model.now set.now }
    requires path { IsWalkPath model.now path.now }
    ensures step { IfSome result (IsStep model.now set.now.members) }
    ensures kept { S.allowed run.new ≡ S.allowed run.old }
{
    match run.suggest_by_guide(alloc, model, set, path.as_slice(), guess)? {
        Suggestion::Point(point) => step_at(model, set, point),
        Suggestion::Combo(combo) => {
            is_combo_on(alloc, model, set, path, &combo).then_some(Step::Further(Node::Leaf(combo)))
        }
    }
}

// What is made of a point: it breaks a mark, at the least of which the node is split, or it is found where it is confirmed.
fn step_at(model: &Model, set: &MemberSet, point: Point) -> Option<Step>
    requires same { IsSetOf model.now set.now }
    ensures { IfSome result (IsStep model.now set.now.members) }
{
    if let Some(split) = broken_split(model, set, point.values.as_slice()) {
        return Some(Step::Further(split));
    }
    if !is_point(model, set, &point) {
        return None;
    }
    Some(Step::Found(point))
}
