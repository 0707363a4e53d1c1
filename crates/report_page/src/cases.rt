//! The cases of a proof: nested lists of two cases each, with a sum in each case that is not split again.
ghost use Rattle.std.specs.Prelude.{OnOk};
ghost use Rattle.report_page.specs.Pieces.{IsMarkedUp};

use crate::demands::write_title;
use crate::parts::column_name;
use crate::pieces::Piece::{Count, Fixed, Number, Text, Whole};
use crate::pieces::{write, write_fixed};
use certs::{Node, Share, Source};
use lp_model::Model;
use std::alloc::AllocError;

/// A choice on a column: at most a number in its first case, and above it in its second.
#[derive(Clone, Copy)]
struct Choice {
    column: u32,
    at: i128,
}

/// Writes what a share takes.
pub(crate) fn write_source(
    model: &Model,
    source: Source,
    into: &mut Vec<u8>,
) -> Result<(), AllocError>
    ensures { OnOk result (IsMarkedUp into.old.items into.new.items) }
{
    match source {
        Source::Member(member) => write_title(model, member, into),
        Source::Below(column) => write(
            &[
                Fixed("the upper limit of this case on "),
                Text(column_name(model, column)),
            ],
            into,
        ),
        Source::Above(column) => write(
            &[
                Fixed("the lower limit of this case on "),
                Text(column_name(model, column)),
            ],
            into,
        ),
    }
}

// Writes the sum of a case.
fn write_sum(model: &Model, shares: &[Share], into: &mut Vec<u8>) -> Result<(), AllocError>
    ensures { OnOk result (IsMarkedUp into.old.items into.new.items) }
{
    write_fixed("<p>Add up: ", into)?;
    for share in shares {
        write(&[Number(share.weight), Fixed(" times ")], into)?;
        write_source(model, share.source, into)?;
        write_fixed(". ", into)?;
    }
    write_fixed("</p>\n", into)
}

// Begins a list of two cases with the first.
fn write_first(model: &Model, choice: Choice, into: &mut Vec<u8>) -> Result<(), AllocError>
    ensures { OnOk result (IsMarkedUp into.old.items into.new.items) }
{
    write(
        &[
            Fixed("\n<ul class=cases>\n<li>Either <code>"),
            Text(column_name(model, choice.column)),
            Fixed(" &lt;= "),
            Whole(choice.at),
            Fixed("</code>"),
        ],
        into,
    )
}

// Ends the first case, and begins the second.
fn write_second(model: &Model, choice: Choice, into: &mut Vec<u8>) -> Result<(), AllocError>
    ensures { OnOk result (IsMarkedUp into.old.items into.new.items) }
{
    write(
        &[
            Fixed("</li>\n<li>Or <code>"),
            Text(column_name(model, choice.column)),
            Fixed(" &gt; "),
            Whole(choice.at),
            Fixed("</code>"),
        ],
        into,
    )
}

// Goes on behind the sum of a case: ends the second cases that it lies in, up to a choice whose second case begins. The
// path has the choices in a case of which it lies, the innermost last; none in the place of one where that is its second.
fn write_next(
    model: &Model,
    path: &mut Vec<Option<Choice>>,
    into: &mut Vec<u8>,
) -> Result<(), AllocError>
    ensures { OnOk result (IsMarkedUp into.old.items into.new.items) }
{
    while let Some(case) = path.pop() {
        if let Some(choice) = case {
            path.push(None)?;
            return write_second(model, choice, into);
        }
        write_fixed("</li>\n</ul>\n", into)?;
    }
    Ok(())
}

// Writes a node.
fn write_node(
    model: &Model,
    node: &Node,
    path: &mut Vec<Option<Choice>>,
    into: &mut Vec<u8>,
) -> Result<(), AllocError>
    ensures { OnOk result (IsMarkedUp into.old.items into.new.items) }
{
    match node {
        Node::Split { column, at } => {
            let choice = Choice {
                column: *column,
                at: *at,
            };
            path.push(Some(choice))?;
            write_first(model, choice, into)
        }
        Node::Leaf(combo) => {
            write_sum(model, combo.shares.as_slice(), into)?;
            write_next(model, path, into)
        }
    }
}

// Writes nodes, and ends what is open in the end.
fn write_nodes(model: &Model, nodes: &[Node], into: &mut Vec<u8>) -> Result<(), AllocError>
    ensures { OnOk result (IsMarkedUp into.old.items into.new.items) }
{
    let mut path: Vec<Option<Choice>> = Vec::new(*into.allocator());
    for node in nodes {
        write_node(model, node, &mut path, into)?;
    }
    while path.pop().is_some() {
        write_fixed("</li>\n</ul>\n", into)?;
    }
    Ok(())
}

/// Writes the cases of a proof.
pub(crate) fn write_cases(
    model: &Model,
    nodes: &[Node],
    into: &mut Vec<u8>,
) -> Result<(), AllocError>
    ensures { OnOk result (IsMarkedUp into.old.items into.new.items) }
{
    write(
        &[
            Fixed("<p>Since whole numbers are asked for, cases are told apart. "),
            Fixed("In each of them a sum as below comes to what is false.</p>\n"),
            Fixed("<details>\n<summary>Choices and cases: "),
            Count(nodes.len() as u64),
            Fixed("</summary>\n"),
        ],
        into,
    )?;
    write_nodes(model, nodes, into)?;
    write_fixed("</details>\n", into)
}
