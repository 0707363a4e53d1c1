//! Shares as weights.
ghost use Rattle.std.specs.Prelude.{◌≡◌, ◌<◌, ◌+◌, ◌^◌, All};
ghost use Rattle.trace_back.specs.Held as writing;

use crate::weights::Weights;
use certs::{Share, Source};
use lp_model::Member;

/// Gives the limits of shares their weights, in order.
pub fn fill(weights: &mut Weights, shares: &[Share])
    requires held { writing.IsHeld weights.old }
    requires known { All (λ s. writing.source_variable weights.old.columns s.source
        < weights.old.columns + weights.old.rows) shares.now }
    ensures { writing.IsNow weights.old weights.new
        (writing.written weights.old.columns shares.now (writing.weights_in weights.old)) }
{
    for share in shares {
        let variable = source_variable(weights.columns(), share.source);
        weights.put(share.source.side(), variable, share.weight);
    }
}

// The variable that a source is of, in a system of so many columns.
fn source_variable(columns: u32, source: Source) -> u32
    requires { writing.source_variable columns source < 2 ^ 32 }
    ensures { result ≡ writing.source_variable columns source }
{
    match source {
        Source::Member(member) => member_variable(columns, member),
        Source::Below(column) | Source::Above(column) => column,
    }
}

// The variable that a member is of.
fn member_variable(columns: u32, member: Member) -> u32
    requires { writing.member_variable columns member < 2 ^ 32 }
    ensures { result ≡ writing.member_variable columns member }
{
    match member {
        Member::RowLo(row) | Member::RowUp(row) => columns + row,
        Member::Lower(column) | Member::Upper(column) | Member::Whole(column) => column,
    }
}
