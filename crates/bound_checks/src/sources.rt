//! The members that shares take, and the numbers that they ask for.
ghost use Rattle.std.specs.Prelude.{◌≡◌, ◌&&◌, []};
ghost use Rattle.rational.specs.Rational.{zero_ℚ, lt_q};
ghost use Rattle.certs.specs.Combination.{source_number as number_of_source};
ghost use Rattle.certs.specs.Checks.{IsSetOf, there_test, usable_test};

use certs::{Share, Source, is_less, is_member_there, member_number};
use frac128::Frac;
use lp_model::{MemberSet, Model};

/// Whether each share has a weight above 0, and a member that the set has, with a number. No arithmetic is done.
pub fn are_usable(model: &Model, set: &MemberSet, shares: &[Share]) -> bool
    requires same { IsSetOf model.now set.now }
    ensures { result ≡ usable_test model.now set.now.members [] shares.now }
{
    for share in shares {
        if !is_usable(model, set, share) {
            return false;
        }
    }
    true
}

// Whether one share has.
fn is_usable(model: &Model, set: &MemberSet, share: &Share) -> bool
    requires same { IsSetOf model.now set.now }
    ensures { let there = there_test model.now set.now.members [] share.now in
        result ≡ (lt_q zero_ℚ share.now.weight && there) }
{
    is_less(Frac::whole(0), share.weight) && is_there(model, set, share)
}

// Whether the set has the member of a share, with a number. Without a path there is nothing else.
fn is_there(model: &Model, set: &MemberSet, share: &Share) -> bool
    requires same { IsSetOf model.now set.now }
    ensures { result ≡ there_test model.now set.now.members [] share.now }
{
    match share.source {
        Source::Member(member) => is_member_there(model, set, member),
        Source::Below(_) => false,
        Source::Above(_) => false,
    }
}

/// The number that a source asks for where there is no path, where it asks for one.
pub(crate) fn source_number(model: &Model, source: Source) -> Option<Frac>
    ensures { result ≡ number_of_source model.now [] source }
{
    match source {
        Source::Member(member) => member_number(model, member),
        Source::Below(_) => None,
        Source::Above(_) => None,
    }
}
