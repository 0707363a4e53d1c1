//! Whether a dual shows a least weighted violation, in two parts.
ghost use Rattle.std.specs.Prelude.{◌≡◌, ◌<◌, All, length};
ghost use Rattle.certs.specs.Checks.{IsSetOf, checked_of, outcome};
ghost use Rattle.certs.specs.Combination.{source_form};
ghost use Rattle.least_checks.specs.Parts.{PartsLaw, total_steps, weight_steps};

use crate::weights::{are_weights, is_right};
use bound_checks::are_usable;
use certs::{Checked, Combo, Dual, Share, checked};
use frac128::{Frac, Wide};
use lp_model::{MemberSet, Model};

/// Whether the shares of a dual may be used, and its total is what their numbers add up to, negated.
///
/// Before any arithmetic it is `No` where a weight is not above 0, or where a source is a mark, a branch, or a member that
/// the set does not have. Then the right side is summed, from 0: the shares in order, number times weight, and that plus where
/// the member is on `Up` and minus on `Lo`. `Wide` comes with the first operation that is too wide.
pub fn check_total(model: &Model, set: &MemberSet, dual: &Dual) -> Checked
    requires same { IsSetOf model.now set.now }
    ensures { let shares = dual.now.combo.shares in
        result ≡ outcome (total_steps model.now set.now.members shares dual.now.bound) }
{
    checked(is_total(model, set, dual.combo.shares.as_slice(), dual.bound))
}

// Whether it is.
fn is_total(model: &Model, set: &MemberSet, shares: &[Share], total: Frac) -> Result<bool, Wide>
    requires same { IsSetOf model.now set.now }
    ensures { let steps = total_steps model.now set.now.members shares.now total in
        checked_of result ≡ outcome steps }
{
    if !are_usable(model, set, shares) {
        return Ok(false);
    }
    is_right(model, shares, total)
}

/// Whether the columns of the shares cancel, and no soft member of the set is given more than its weight. `Wide` comes with
/// the first operation that is too wide.
///
/// The shares name columns of the program. `sums` is room for one number a column: what it held does not matter.
pub fn check_weights(model: &Model, set: &MemberSet, combo: &Combo, sums: &mut [Frac]) -> Checked
    requires room { length sums.old ≡ length model.now.columns }
    requires same { IsSetOf model.now set.now }
    requires known { let n = length model.now.columns in
        All (λ s. All (λ t. t.column < n) (source_form model.now s.source)) combo.now.shares }
    ensures { result ≡ outcome (weight_steps model.now set.now.members combo.now.shares) }
{
    checked(are_weights(model, set, combo.shares.as_slice(), sums))
}

/// A yes to both parts shows that the dual is one of the least weighted violation.
pub fn parts_show_least()
    ensures { PartsLaw }
{}
