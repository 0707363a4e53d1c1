//! The support of values of members: the shares of those above 0, and the members that they come from.
ghost use Rattle.std.specs.Prelude.{◌≡◌, ◌++◌, [], ◌∷◌, All, IfOk, length};
ghost use Rattle.lp_model.specs.Satisfaction.{values_at};
ghost use Rattle.certs.specs.declared.evidence.Node.TheVariants.{Leaf};
ghost use Rattle.certs.specs.Combination.{IsFrom};
ghost use Rattle.certs.specs.Named.{used_set};
ghost use Rattle.certs.specs.System.{support as shares_of};
ghost use Rattle.alt_polyhedron.specs.Reading.{share_of};

use certs::{Combo, MemberSet, Share, Shares, Source};
use frac128::Frac;
use lp_model::Member;
use simplex::is_less;
use std::alloc::{AllocError, Global};

/// The shares of the members whose values are above 0, as often as their values say.
pub(crate) fn support(
    alloc: Global,
    members: &[Member],
    values: &[Frac],
) -> Result<Combo, AllocError>
    requires { length values.now ≡ length members.now }
    ensures { let shares = shares_of members.now (values_at values.now) in
        IfOk result (λ combo. combo.shares ≡ shares) }
{
    let mut shares = Vec::new(alloc);
    for (index, member) in members.iter().enumerate() {
        push_share(*member, values[index], &mut shares)?;
    }
    Ok(Combo {
        shares: Shares::new(shares),
    })
}

// Appends the share of a member whose value is above 0.
fn push_share(member: Member, value: Frac, shares: &mut Vec<Share>) -> Result<(), AllocError>
    ensures { let more = share_of member value in
        IfOk result (λ done. shares.new.items ≡ shares.old.items ++ more) }
{
    if is_less(Frac::whole(0), value) {
        shares.push(Share {
            source: Source::Member(member),
            weight: value,
        })?;
    }
    Ok(())
}

/// The members of a set that shares come from, as a set.
pub(crate) fn used_members(
    alloc: Global,
    set: &MemberSet,
    combo: &Combo,
) -> Result<MemberSet, AllocError>
    requires { All (λ s. IsFrom set.now.members s.source) combo.now.shares }
    ensures { let used = used_set set.now (Leaf combo.now ∷ []) in
        IfOk result (λ members. members ≡ used) }
{
    set.stands_in_order();
    let mut used = set.emptied(alloc)?;
    for share in combo.shares.as_slice() {
        if let Source::Member(member) = share.source {
            used.insert(member);
        }
    }
    Ok(used)
}
