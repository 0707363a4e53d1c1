//! Whether shares bound the objective.
ghost use Rattle.std.specs.Prelude.{◌≡◌, ◌≢◌, length};
ghost use Rattle.certs.specs.Bound.{IsBoundDual, IsValidBound};
ghost use Rattle.certs.specs.Checks.{IsSetOf, bound_steps, checked_of, outcome};

use crate::sources::are_usable;
use crate::sums::{are_factors, clear, directed, right_side};
use certs::{Checked, Dual, Share, add_shares, checked};
use evidence_laws::{bound_is_valid, checked_bound, refused_bound};
use frac128::{Frac, Wide};
use lp_model::{MemberSet, Model};

/// Whether the dual shows that no point of the set has a better value of the objective than its bound.
///
/// Before any arithmetic it is `No` where a weight is not above 0, or where a source is a mark, a branch, or a
/// member that the set does not have. Then each column is summed: the shares in order, the terms of each in
/// order, factor times weight, and that plus where the member is on `Up` and minus on `Lo`. The sums must be
/// the factors of the objective, each negated when minimising. Last comes the right side in the same way, from
/// the members' numbers: it must be the bound, negated when minimising. `Wide` comes with the first operation
/// that is too wide, where no test before it fails. A yes shows that the bound is valid (weak duality), and no
/// dual is answered with a no.
///
/// `sums` is room for one number a column: what it held does not matter.
pub fn check_bound(model: &Model, set: &MemberSet, dual: &Dual, sums: &mut [Frac]) -> Checked
    requires room { length sums.old ≡ length model.now.columns }
    requires same { IsSetOf model.now set.now }
    ensures said { let shares = dual.now.combo.shares in
        result ≡ outcome (bound_steps model.now set.now.members shares dual.now.bound) }
    ensures dual { let shares = dual.now.combo.shares in
        result ≡ Checked.Yes → IsBoundDual model.now set.now.members shares dual.now.bound }
    ensures valid { result ≡ Checked.Yes → IsValidBound model.now set.now.members dual.now.bound }
    ensures refused { let shares = dual.now.combo.shares in
        IsBoundDual model.now set.now.members shares dual.now.bound → result ≢ Checked.No }
{
    // That the program is well formed is told with the count.
    let _rows = model.row_count();
    checked_bound();
    bound_is_valid();
    refused_bound();
    checked(is_shown(model, set, dual.combo.shares.as_slice(), dual.bound, sums))
}

// Whether the shares show the bound.
fn is_shown(
    model: &Model,
    set: &MemberSet,
    shares: &[Share],
    bound: Frac,
    sums: &mut [Frac],
) -> Result<bool, Wide>
    requires room { length sums.old ≡ length model.now.columns }
    requires same { IsSetOf model.now set.now }
    ensures { let steps = bound_steps model.now set.now.members shares.now bound in
        checked_of result ≡ outcome steps }
{
    if !are_usable(model, set, shares) {
        return Ok(false);
    }
    clear(sums);
    // That the terms of a row name the program's columns is told with the count.
    let _rows = model.row_count();
    add_shares(model, shares, sums)?;
    if !are_factors(model, sums) {
        return Ok(false);
    }
    let right = right_side(model, shares)?;
    Ok(right == directed(model, bound))
}
