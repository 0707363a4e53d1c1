//! Whether a dual shows a least weighted violation.
ghost use Rattle.std.specs.Prelude.{◌≡◌, ◌≢◌, [], length};
ghost use Rattle.rational.specs.Rational.{◌≤ℚ◌};
ghost use Rattle.rational.specs.Linear.{Assignment};
ghost use Rattle.lp_model.specs.Satisfaction.{Satisfies};
ghost use Rattle.certs.specs.Checks.{IsSetOf, checked_of, least_steps, outcome};
ghost use Rattle.certs.specs.Violation.{IsLeastDual, rigid_members, weighted_violation};
ghost use Rattle.least_checks.specs.Least.{ReachedLaw};

use crate::weights::{are_weights, is_right};
use bound_checks::are_usable;
use certs::{Checked, Dual, Share, checked};
use evidence_laws::{checked_least, least_is_bounded, refused_least};
use frac128::{Frac, Wide};
use lp_model::{MemberSet, Model};

/// Whether the dual shows that no point that satisfies the set's rigid members has a smaller weighted violation than its
/// bound, the total.
///
/// Before any arithmetic it is `No` where a weight is not above 0, or where a source is a mark, a branch, or a
/// member that the set does not have. Then each column is summed: the shares in order, the terms of each in
/// order, factor times weight, and that plus where the member is on `Up` and minus on `Lo`. The sums must be 0. Then
/// the weights on each soft member of the set are added up from 0, and must be at most the member's own. Last comes the
/// right side in the same way, from the members' numbers: it must be the total, negated. `Wide` comes with the first operation
/// that is too wide, where no test before it fails. A yes shows that no point undercuts the total (weak duality), and no
/// dual is answered with a no.
///
/// `sums` is room for one number a column: what it held does not matter.
pub fn check_least(model: &Model, set: &MemberSet, dual: &Dual, sums: &mut [Frac]) -> Checked
    requires room { length sums.old ≡ length model.now.columns }
    requires same { IsSetOf model.now set.now }
    ensures said { let shares = dual.now.combo.shares in
        result ≡ outcome (least_steps model.now set.now.members [] shares dual.now.bound) }
    ensures dual { let shares = dual.now.combo.shares in
        result ≡ Checked.Yes → IsLeastDual model.now set.now.members [] shares dual.now.bound }
    ensures least { let set = set.now.members in
        result ≡ Checked.Yes → (x : Assignment) → Satisfies model.now (rigid_members model.now set) x
        → dual.now.bound ≤ℚ weighted_violation model.now set x }
    ensures refused { let shares = dual.now.combo.shares in
        IsLeastDual model.now set.now.members [] shares dual.now.bound → result ≢ Checked.No }
{
    // That the program is well formed is told with the count.
    let _rows = model.row_count();
    checked_least();
    least_is_bounded();
    refused_least();
    checked(is_shown(model, set, dual.combo.shares.as_slice(), dual.bound, sums))
}

// Whether the shares show the total.
fn is_shown(
    model: &Model,
    set: &MemberSet,
    shares: &[Share],
    total: Frac,
    sums: &mut [Frac],
) -> Result<bool, Wide>
    requires room { length sums.old ≡ length model.now.columns }
    requires same { IsSetOf model.now set.now }
    ensures { let steps = least_steps model.now set.now.members [] shares.now total in
        checked_of result ≡ outcome steps }
{
    if !are_usable(model, set, shares) {
        return Ok(false);
    }
    // That the terms of a row name the program's columns is told with the count.
    let _rows = model.row_count();
    if !are_weights(model, set, shares, sums)? {
        return Ok(false);
    }
    is_right(model, shares, total)
}

/// What reaches the total of a dual is of least weighted violation.
pub fn reached_is_least()
    ensures { ReachedLaw }
{
    least_is_bounded();
}
