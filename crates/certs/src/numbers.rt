//! The numbers that members and paths ask for.
ghost use Rattle.std.specs.Prelude.{◌≡◌, ◌&&◌, is_some, IfSome, ◌≤◌, unsigned_abs};
ghost use Rattle.std.specs.Option.{option_map};
ghost use Rattle.rational.specs.Rational.{whole, zero_ℚ, lt_q};
ghost use Rattle.frac128.specs.Limit.{limit};
ghost use Rattle.lp_model.specs.Members.{number, has};
ghost use Rattle.certs.specs.Combination.{source_number as number_of_source};
ghost use Rattle.certs.specs.Checks.{IsSetOf, there_test, usable_test};

use crate::evidence::{Share, Source};
use crate::paths::BranchPath;
use crate::points::is_present;
use frac128::Frac;
use lp_model::{Member, MemberSet, Model};

/// Whether each share has a weight above 0, and a source that the set and the path have, with a number.
pub(crate) fn are_usable(
    model: &Model,
    set: &MemberSet,
    path: &BranchPath,
    shares: &[Share],
) -> bool
    requires same { IsSetOf model.now set.now }
    ensures { result ≡ usable_test model.now set.now.members path.now shares.now }
{
    for share in shares {
        if !is_usable(model, set, path, share) {
            return false;
        }
    }
    true
}

// Whether one share has.
fn is_usable(model: &Model, set: &MemberSet, path: &BranchPath, share: &Share) -> bool
    requires same { IsSetOf model.now set.now }
    ensures { result ≡ (lt_q zero_ℚ share.now.weight && there_test model.now set.now.members path.now share.now) }
{
    is_positive(share.weight) && is_there(model, set, path, share)
}

// Whether a number is above 0.
fn is_positive(number: Frac) -> bool
    ensures { result ≡ lt_q zero_ℚ number }
{
    is_less(Frac::whole(0), number)
}

/// Whether a number is below another.
pub fn is_less(a: Frac, b: Frac) -> bool
    ensures { result ≡ lt_q a b }
{
    a < b
}

// Whether the set or the path has the source of a share, with a number.
fn is_there(model: &Model, set: &MemberSet, path: &BranchPath, share: &Share) -> bool
    requires same { IsSetOf model.now set.now }
    ensures { result ≡ there_test model.now set.now.members path.now share.now }
{
    match share.source {
        Source::Member(member) => is_member_there(model, set, member),
        Source::Below(_) => source_number(model, path, share.source).is_some(),
        Source::Above(_) => source_number(model, path, share.source).is_some(),
    }
}

/// Whether the set has the member, and the program has it with a number. A mark has none.
pub fn is_member_there(model: &Model, set: &MemberSet, member: Member) -> bool
    requires { IsSetOf model.now set.now }
    ensures { result ≡ (has set.now.members member && is_some (number model.now member)) }
{
    if !is_present(model, member) {
        return false;
    }
    set.contains(member) && member_number(model, member).is_some()
}

/// The number that a source asks for, where there is one.
pub(crate) fn source_number(model: &Model, path: &BranchPath, source: Source) -> Option<Frac>
    ensures { result ≡ number_of_source model.now path.now source }
{
    match source {
        Source::Member(member) => member_number(model, member),
        Source::Below(column) => as_fraction(path.tightest(column).upper),
        Source::Above(column) => as_fraction(path.tightest(column).lower),
    }
}

/// The number that a member asks for, where the program has the member; a mark asks for none.
pub fn member_number(model: &Model, member: Member) -> Option<Frac>
    ensures { result ≡ number model.now member }
{
    if !is_present(model, member) {
        return None;
    }
    match member {
        Member::RowLo(index) => model.row(index).lo,
        Member::RowUp(index) => model.row(index).up,
        Member::Lower(index) => model.column(index).lo,
        Member::Upper(index) => model.column(index).up,
        Member::Whole(_) => None,
    }
}

// The fraction that a whole number is.
fn as_fraction(at: Option<i128>) -> Option<Frac>
    requires { IfSome at (λ n. unsigned_abs n ≤ limit) }
    ensures { result ≡ option_map whole at }
{
    match at {
        Some(number) => Frac::new(number, 1).ok(),
        None => None,
    }
}
