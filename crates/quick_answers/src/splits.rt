//! Splits of the columns whose marks a program and a set have.
ghost use Rattle.std.specs.Prelude.{◌≡◌, ℕ, true, IfSome};
ghost use Rattle.certs.specs.Checks.{IsSetOf};
ghost use Rattle.certs.specs.declared.evidence.Node.TheVariants.{Split};
ghost use Rattle.certs.specs.Proof.{IsFittingNode};
ghost use Rattle.quick_answers.specs.Walks.{IsWalkNode};

use branch_proof::is_marked;
use certs::{MemberSet, Node};
use frac128::Frac;
use lp_model::Model;

/// The split at the least column whose mark these values break, at the floor of its value.
pub(crate) fn broken_split(model: &Model, set: &MemberSet, values: &[Frac]) -> Option<Node>
    requires same { IsSetOf model.now set.now }
    ensures { IfSome result (IsWalkNode model.now set.now.members) }
{
    for column in 0..model.column_count() {
        let value = values.get(column as usize).copied()?;
        if !value.is_whole() && is_marked(model, set, column) {
            return split(model, set, column, value.floor());
        }
    }
    None
}

/// The split of a column at a number, where the program and the set have its mark and the number fits.
pub(crate) fn split(model: &Model, set: &MemberSet, column: u32, at: i128) -> Option<Node>
    requires same { IsSetOf model.now set.now }
    ensures { IfSome result (IsWalkNode model.now set.now.members) }
{
    if !is_marked(model, set, column) || !is_fitting(at) {
        return None;
    }
    Some(Node::Split { column, at })
}

// Whether a number and the next one are of a magnitude that a fraction's part may have.
fn is_fitting(at: i128) -> bool
    ensures { result ≡ true → (column : ℕ) → IsFittingNode (Split column at) }
{
    at > i128::MIN && at < i128::MAX
}
