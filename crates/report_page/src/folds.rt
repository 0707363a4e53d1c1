//! Parts of a page that a reader may fold up.
ghost use Rattle.std.specs.Prelude.{OnOk};
ghost use Rattle.report_page.specs.Pieces.{IsClosed, IsMarkedUp};

use crate::pieces::Piece::{Count, Fixed};
use crate::pieces::{write, write_fixed};
use std::alloc::AllocError;

/// The most items of a fold that is open.
const MOST_OPEN: u64 = 20;

/// How a fold of so many items begins.
pub(crate) fn fold_tag(count: u64) -> &'static str
    ensures { IsClosed result.now }
{
    if count <= MOST_OPEN {
        "<details open>\n<summary>"
    } else {
        "<details>\n<summary>"
    }
}

/// Begins a fold of so many items.
pub(crate) fn begin_fold(
    title: &'static str,
    count: u64,
    into: &mut Vec<u8>,
) -> Result<(), AllocError>
    requires { IsClosed title.now }
    ensures { OnOk result (IsMarkedUp into.old.items into.new.items) }
{
    begin_fold_of(title, count, count, into)
}

/// Begins a fold of so many things, which stand in so many items.
pub(crate) fn begin_fold_of(
    title: &'static str,
    count: u64,
    items: u64,
    into: &mut Vec<u8>,
) -> Result<(), AllocError>
    requires { IsClosed title.now }
    ensures { OnOk result (IsMarkedUp into.old.items into.new.items) }
{
    write_fixed(fold_tag(items), into)?;
    write_fixed(title, into)?;
    write(&[Count(count), Fixed("</summary>\n")], into)
}
