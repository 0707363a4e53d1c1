//! The answers, and whether they are right.
ghost use Rattle.std.specs.Prelude.{◌≡◌, ◌∷◌, [], IfOk};
ghost use Rattle.certs.specs.Checks.{IsSetOf};
ghost use Rattle.table_oracle.specs.Value.{is_leaf as leaf_is_right, is_point as point_is_right, is_yes as check_says_yes};

use certs::{
    BranchPath, Checked, Combo, MemberSet, Node, Nodes, Point, Proof, are_in_order, check_combo,
    check_point,
};
use frac128::Frac;
use lp_model::Model;
use std::alloc::{AllocError, Global};

/// An answer: a point, the combination of a proof's one leaf, or that no pivot is left.
#[derive(Drop)]
pub enum TableAnswer {
    Point(Point),
    Leaf(Combo),
    Spent,
}

/// Whether the point has a value for each column, and satisfies the set by its check.
pub(crate) fn is_point(model: &Model, set: &MemberSet, point: &Point) -> bool
    ensures { result ≡ point_is_right model.now set.now.members point.now }
{
    if point.values.as_slice().len() != model.column_count() as usize {
        return false;
    }
    is_yes(check_point(model, set, point))
}

/// Whether the combination shows by its check that no point satisfies the set, and its shares stand in order.
pub(crate) fn is_leaf(
    alloc: Global,
    model: &Model,
    set: &MemberSet,
    combo: &Combo,
) -> Result<bool, AllocError>
    requires { IsSetOf model.now set.now }
    ensures { IfOk result (λ b. b ≡ leaf_is_right model.now set.now.members combo.now) }
{
    let mut sums = vec![in alloc; Frac::whole(0); model.column_count() as usize]?;
    let checked = check_combo(
        model,
        set,
        &BranchPath::new(alloc),
        combo,
        sums.as_mut_slice(),
    );
    Ok(is_yes(checked) && are_in_order(combo.shares.as_slice()))
}

// Whether a check says yes.
fn is_yes(checked: Checked) -> bool
    ensures { result ≡ check_says_yes checked }
{
    matches!(checked, Checked::Yes)
}

/// The proof whose one node is a leaf.
pub(crate) fn leaf_proof(alloc: Global, combo: Combo) -> Result<Proof, AllocError>
    ensures { IfOk result (λ proof. proof.nodes ≡ Node.Leaf combo ∷ []) }
{
    let mut nodes = Vec::new(alloc);
    nodes.push(Node::Leaf(combo))?;
    Ok(Proof {
        nodes: Nodes::new(nodes),
    })
}
