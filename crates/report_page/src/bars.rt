//! Bars of what is asked for and of what is possible, in a sum that is no more than its members allow.
ghost use Rattle.std.specs.Prelude.{OnOk};
ghost use Rattle.report_page.specs.Pieces.{IsMarkedUp};

use crate::numbers::{product, quotient, sum, write_number};
use crate::parts::asked;
use crate::pieces::Piece::{Count, Fixed};
use crate::pieces::{write, write_fixed};
use certs::{Share, Source};
use frac128::Frac;
use lp_model::{Member, Model};
use std::alloc::AllocError;

/// What the members of a sum that bound from below ask for in all, each as often as it is taken, and what the others allow.
#[derive(Clone, Copy)]
struct Totals {
    asked: Frac,
    possible: Frac,
}

// The totals with one share more, unless that is a limit of a case, or an operation on the way is too wide.
fn with_share(model: &Model, totals: &Totals, share: &Share) -> Option<Totals> {
    let Source::Member(member) = share.source else {
        return None;
    };
    let part = product(share.weight, asked(model, member))?;
    match member {
        Member::RowLo(_) | Member::Lower(_) => Some(Totals {
            asked: sum(totals.asked, part)?,
            possible: totals.possible,
        }),
        _ => Some(Totals {
            asked: totals.asked,
            possible: sum(totals.possible, part)?,
        }),
    }
}

// The totals of shares, where they are known.
fn totals_of(model: &Model, shares: &[Share]) -> Option<Totals> {
    let mut totals = Totals {
        asked: Frac::whole(0),
        possible: Frac::whole(0),
    };
    for share in shares {
        totals = with_share(model, &totals, share)?;
    }
    Some(totals)
}

// How many hundredths what is possible is of what is asked, where it is from none to all of them.
fn hundredths(totals: &Totals) -> Option<u64> {
    let part = product(quotient(totals.possible, totals.asked)?, Frac::whole(100))?;
    match u64::try_from(part.floor()) {
        Ok(count) if count <= 100 => Some(count),
        _ => None,
    }
}

/// Writes what is asked for and what is possible as bars, where both are above 0 and known.
pub(crate) fn write_bars(
    model: &Model,
    shares: &[Share],
    into: &mut Vec<u8>,
) -> Result<(), AllocError>
    ensures { OnOk result (IsMarkedUp into.old.items into.new.items) }
{
    let Some(totals) = totals_of(model, shares) else {
        return Ok(());
    };
    let Some(hundredths) = hundredths(&totals) else {
        return Ok(());
    };
    write_fixed("<dl class=bars>\n<dt>Asked for in all: ", into)?;
    write_number(totals.asked, into)?;
    write_fixed("</dt>\n<dd></dd>\n<dt>Possible: ", into)?;
    write_number(totals.possible, into)?;
    write(
        &[
            Fixed("</dt>\n<dd style='width:"),
            Count(hundredths),
            Fixed("%'></dd>\n</dl>\n"),
        ],
        into,
    )
}
