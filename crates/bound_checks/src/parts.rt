//! Whether shares bound the objective, in two parts.
ghost use Rattle.std.specs.Prelude.{◌≡◌, ◌<◌, All, length};
ghost use Rattle.certs.specs.Checks.{IsSetOf, checked_of, outcome};
ghost use Rattle.certs.specs.Combination.{source_form};
ghost use Rattle.bound_checks.specs.Parts.{factor_steps, right_steps, PartsLaw};

use crate::sources::are_usable;
use crate::sums::{are_factors, clear, directed, right_side};
use certs::{Checked, Combo, Dual, Share, add_shares, checked};
use frac128::{Frac, Wide};
use lp_model::{MemberSet, Model};

/// Whether the shares of a dual may be used, and its bound is what their numbers add up to.
///
/// Before any arithmetic it is `No` where a weight is not above 0, or where a source is a mark, a branch, or a member that
/// the set does not have. Then the right side is summed, from 0: the shares in order, number times weight, and that plus where
/// the member is on `Up` and minus on `Lo`. It must be the bound, negated when minimising. `Wide` comes with the first
/// operation that is too wide.
pub fn check_right_side(model: &Model, set: &MemberSet, dual: &Dual) -> Checked
    requires same { IsSetOf model.now set.now }
    ensures { let shares = dual.now.combo.shares in
        result ≡ outcome (right_steps model.now set.now.members shares dual.now.bound) }
{
    checked(is_right_side(model, set, dual.combo.shares.as_slice(), dual.bound))
}

// Whether it is.
fn is_right_side(
    model: &Model,
    set: &MemberSet,
    shares: &[Share],
    bound: Frac,
) -> Result<bool, Wide>
    requires same { IsSetOf model.now set.now }
    ensures { let steps = right_steps model.now set.now.members shares.now bound in
        checked_of result ≡ outcome steps }
{
    if !are_usable(model, set, shares) {
        return Ok(false);
    }
    let right = right_side(model, shares)?;
    Ok(right == directed(model, bound))
}

/// Whether the columns of the shares add up to the factors of the objective, each negated when minimising: the shares in
/// order, the terms of each in order, factor times weight, and that plus where the source is on `Up` and minus on `Lo`.
/// `Wide` comes with the first operation that is too wide.
///
/// The shares name columns of the program. `sums` is room for one number a column: what it held does not matter.
pub fn check_columns(model: &Model, combo: &Combo, sums: &mut [Frac]) -> Checked
    requires room { length sums.old ≡ length model.now.columns }
    requires known { let n = length model.now.columns in
        All (λ s. All (λ t. t.column < n) (source_form model.now s.source)) combo.now.shares }
    ensures { result ≡ outcome (factor_steps model.now combo.now.shares) }
{
    checked(are_columns(model, combo.shares.as_slice(), sums))
}

// Whether they do.
fn are_columns(model: &Model, shares: &[Share], sums: &mut [Frac]) -> Result<bool, Wide>
    requires room { length sums.old ≡ length model.now.columns }
    requires known { let n = length model.now.columns in
        All (λ s. All (λ t. t.column < n) (source_form model.now s.source)) shares.now }
    ensures { checked_of result ≡ outcome (factor_steps model.now shares.now) }
{
    clear(sums);
    add_shares(model, shares, sums)?;
    Ok(are_factors(model, sums))
}

/// A yes to both parts shows the bound.
pub fn parts_show_bound()
    ensures { PartsLaw }
{}
