//! Why members cannot all be met: a sum, or cases with a sum each.
ghost use Rattle.std.specs.Prelude.{OnOk};
ghost use Rattle.report_page.specs.Pieces.{IsMarkedUp};

use crate::cases::write_cases;
use crate::numbers::write_number;
use crate::pieces::Piece::Fixed;
use crate::pieces::{write, write_fixed};
use bound_checks::right_side;
use certs::{Node, Share};
use frac128::Frac;
use lp_model::Model;
use std::alloc::AllocError;

// The shares of a node, where it is a leaf.
fn shares_of(node: &Node) -> Option<&[Share]> {
    match node {
        Node::Split { .. } => None,
        Node::Leaf(combo) => Some(combo.shares.as_slice()),
    }
}

// The shares of the only node, where it is a leaf.
fn leaf_of(nodes: &[Node]) -> Option<&[Share]> {
    let [node] = nodes else {
        return None;
    };
    shares_of(node)
}

/// The shares of a proof without cases, or none.
pub(crate) fn leaf_shares(nodes: &[Node]) -> &[Share] {
    match leaf_of(nodes) {
        Some(shares) => shares,
        None => &[],
    }
}

/// The number that 0 would have to be at least by the shares of a proof without cases, where no operation on the way to it is
/// too wide.
pub(crate) fn gap_of(model: &Model, nodes: &[Node]) -> Option<Frac> {
    match right_side(model, leaf_of(nodes)?) {
        Ok(sum) => Some(sum.negate()),
        Err(_) => None,
    }
}

// Writes a number that 0 would have to be at least.
fn write_gap(gap: Option<Frac>, into: &mut Vec<u8>) -> Result<(), AllocError>
    ensures { OnOk result (IsMarkedUp into.old.items into.new.items) }
{
    match gap {
        Some(gap) => write_number(gap, into),
        None => write_fixed("a number above 0", into),
    }
}

// Writes what the shares of a proof without cases add up to.
fn write_total(gap: Option<Frac>, into: &mut Vec<u8>) -> Result<(), AllocError>
    ensures { OnOk result (IsMarkedUp into.old.items into.new.items) }
{
    write(
        &[
            Fixed("<p>Take each as often as it says, turn round those with &lt;=, and add up: "),
            Fixed("on the left everything cancels, and together they say that 0 is at least "),
        ],
        into,
    )?;
    write_gap(gap, into)?;
    write(
        &[
            Fixed(", which is false. So together they have to give way by at least as much, "),
            Fixed(
                "each counted as often as it is taken. One of them alone, moved as far as it says, ",
            ),
            Fixed("ends this contradiction; there may be others.</p>\n"),
        ],
        into,
    )
}

/// Writes why the members of a proof cannot all be met.
pub(crate) fn write_reason(
    model: &Model,
    nodes: &[Node],
    into: &mut Vec<u8>,
) -> Result<(), AllocError>
    ensures { OnOk result (IsMarkedUp into.old.items into.new.items) }
{
    match leaf_of(nodes) {
        Some(_) => write_total(gap_of(model, nodes), into),
        None => write_cases(model, nodes, into),
    }
}
