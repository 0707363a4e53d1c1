//! Whether shares are a combination.
ghost use Rattle.std.specs.Prelude.{◌≡◌, ◌<◌, [], All, Ok, true, length};
ghost use Rattle.rational.specs.Rational.{zero_ℚ};
ghost use Rattle.rational.specs.Linear.{Assignment};
ghost use Rattle.lp_model.specs.Satisfaction.{Satisfies, IsUnsatisfiable};
ghost use Rattle.certs.specs.Combination.{KeepsPath};
ghost use Rattle.certs.specs.Checks.{IsSetOf, outcome, combination_steps, checked_of};

use crate::evidence::{Checked, Combo, Share};
use crate::numbers::are_usable;
use crate::paths::BranchPath;
use crate::points::checked;
use crate::sums::{add_shares, are_zero, right_side};
use frac128::{Frac, Wide};
use lp_model::{MemberSet, Model};

/// Whether the combination shows that no point on the path satisfies the set.
///
/// Before any arithmetic it is `No` where a weight is not above 0, or where a source is a mark or one that the set and the
/// path do not have. Then each column is summed: the shares in order, the terms of each in order, factor times weight, and
/// that plus where the source is on `Up` and minus on `Lo`. All sums must be 0. Last comes the right side in the same way,
/// from the sources' numbers: it must be below 0. `Wide` comes with the first operation that is too wide, where no test
/// before it fails.
/// A yes shows that no point that keeps the path satisfies the set, and without a path that no point does.
///
/// `sums` has a number for each column. What it held does not matter, and what it holds afterwards is not said.
pub fn check_combo(
    model: &Model,
    set: &MemberSet,
    path: &BranchPath,
    combo: &Combo,
    sums: &mut [Frac],
) -> Checked
    requires room { length sums.old ≡ length model.now.columns }
    requires known { All (λ b. b.column < length model.now.columns) path.now }
    requires same { IsSetOf model.now set.now }
    ensures said { result
        ≡ outcome (combination_steps model.now set.now.members path.now combo.now.shares) }
    ensures sound { result ≡ Checked.Yes → (x : Assignment)
        → Satisfies model.now set.now.members x → KeepsPath x path.now → ⊥ }
    ensures unsatisfiable { result ≡ Checked.Yes → path.now ≡ []
        → IsUnsatisfiable model.now set.now.members }
{
    sums.fill(Frac::whole(0));
    check_leaf(model, set, path, combo, sums)
}

/// `check_combo` for a walk over many leaves: `sums` is a 0 for each column, and is so again after a yes. The time that
/// this takes follows the shares and their terms, whatever the path's length and the number of columns are.
pub fn check_leaf(
    model: &Model,
    set: &MemberSet,
    path: &BranchPath,
    combo: &Combo,
    sums: &mut [Frac],
) -> Checked
    requires room { length sums.old ≡ length model.now.columns }
    requires zeros { All (λ q. q ≡ zero_ℚ) sums.old }
    requires known { All (λ b. b.column < length model.now.columns) path.now }
    requires same { IsSetOf model.now set.now }
    ensures zeros { result ≡ Checked.Yes → All (λ q. q ≡ zero_ℚ) sums.new }
    ensures said { result
        ≡ outcome (combination_steps model.now set.now.members path.now combo.now.shares) }
    ensures sound { result ≡ Checked.Yes → (x : Assignment)
        → Satisfies model.now set.now.members x → KeepsPath x path.now → ⊥ }
    ensures unsatisfiable { result ≡ Checked.Yes → path.now ≡ []
        → IsUnsatisfiable model.now set.now.members }
{
    // That the program is well formed is told with the count.
    let _rows = model.row_count();
    checked(combines(model, set, path, combo.shares.as_slice(), sums))
}

// Whether the shares do.
fn combines(
    model: &Model,
    set: &MemberSet,
    path: &BranchPath,
    shares: &[Share],
    sums: &mut [Frac],
) -> Result<bool, Wide>
    requires room { length sums.old ≡ length model.now.columns }
    requires zeros { All (λ q. q ≡ zero_ℚ) sums.old }
    requires known { All (λ b. b.column < length model.now.columns) path.now }
    requires same { IsSetOf model.now set.now }
    ensures zeros { result ≡ Ok true → All (λ q. q ≡ zero_ℚ) sums.new }
    ensures said { checked_of result ≡ outcome (combination_steps model.now set.now.members path.now shares.now) }
{
    if !are_usable(model, set, path, shares) {
        return Ok(false);
    }
    // That the terms of a row name the program's columns is told with the count.
    let _rows = model.row_count();
    add_shares(model, shares, sums)?;
    if !are_zero(model, shares, sums) {
        return Ok(false);
    }
    let right = right_side(model, path, shares)?;
    Ok(right < Frac::whole(0))
}
