//! The order in which the shares of a combination stand.
ghost use Rattle.std.specs.Prelude.{◌≡◌, ◌&&◌};
ghost use Rattle.std.specs.List.{list_all};
ghost use Rattle.certs.specs.Order.{are_in_order as all_in_order, source_before};

use crate::evidence::{Share, Source};

/// Whether a source stands before another: members in their order, and then the branches by column, `Below` before
/// `Above`.
pub fn stands_before(first: Source, second: Source) -> bool
    ensures { result ≡ source_before first second }
{
    match (first, second) {
        (Source::Member(member), Source::Member(other)) => member < other,
        (Source::Member(_), _) => true,
        (_, Source::Member(_)) => false,
        (Source::Below(column), Source::Above(other)) => column <= other,
        (Source::Below(column), Source::Below(other)) => column < other,
        (Source::Above(column), Source::Below(other)) => column < other,
        (Source::Above(column), Source::Above(other)) => column < other,
    }
}

// Whether a source stands before the first of these: where they are in order, before all of them.
fn stands_before_next(source: Source, rest: &[Share]) -> bool
    ensures { let before_all = list_all (λ t. source_before source t.source) rest.now in
        (before_all && all_in_order rest.now) ≡ (result && all_in_order rest.now) }
{
    match rest {
        [next, ..] => stands_before(source, next.source),
        [] => true,
    }
}

/// Whether each share stands before all after it: it does where each stands before the next.
pub fn are_in_order(shares: &[Share]) -> bool
    ensures { result ≡ all_in_order shares.now }
{
    let mut left = shares;
    while let [first, rest @ ..] = left {
        if !stands_before_next(first.source, rest) {
            return false;
        }
        left = rest;
    }
    true
}
