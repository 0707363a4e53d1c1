//! Whether a point satisfies a set.
ghost use Rattle.std.specs.Prelude.{◌≡◌, ◌∷◌, [], IsTrue, length};
ghost use Rattle.lp_model.specs.Members.{exists};
ghost use Rattle.lp_model.specs.Satisfaction.{values_at, IsSatisfiable};
ghost use Rattle.lp_model.specs.Evaluation.{IsInRange};
ghost use Rattle.certs.specs.Checks.{outcome, point_steps, checked_of};

use crate::evidence::{Checked, Point};
use frac128::{Frac, Wide};
use lp_model::{Member, MemberSet, Model};

/// Whether every member of the set holds at the point.
///
/// The members are taken in order, and a row's sum over its terms in order, from 0. A member that the program does not
/// have holds everywhere, with no arithmetic. `Wide` comes with the first operation that is too wide, where no member
/// before it fails. A yes shows that some point satisfies the set.
pub fn check_point(model: &Model, set: &MemberSet, point: &Point) -> Checked
    requires { length point.now.values ≡ length model.now.columns }
    ensures said { result ≡ outcome (point_steps model.now set.now.members (values_at point.now.values)) }
    ensures sound { result ≡ Checked.Yes → IsSatisfiable model.now set.now.members }
{
    checked(members_hold(model, set, point.values.as_slice()))
}

/// A yes or a no, or what was too wide.
pub fn checked(answer: Result<bool, Wide>) -> Checked
    ensures { result ≡ checked_of answer }
{
    match answer {
        Ok(true) => Checked::Yes,
        Ok(false) => Checked::No,
        Err(wide) => Checked::Wide(wide),
    }
}

// Whether every member holds.
fn members_hold(model: &Model, set: &MemberSet, values: &[Frac]) -> Result<bool, Wide>
    requires { length values.now ≡ length model.now.columns }
    ensures { checked_of result ≡ outcome (point_steps model.now set.now.members (values_at values.now)) }
{
    for member in set.iter() {
        if !member_holds(model, member, values)? {
            return Ok(false);
        }
    }
    Ok(true)
}

// Whether one member holds.
fn member_holds(model: &Model, member: Member, values: &[Frac]) -> Result<bool, Wide>
    requires { length values.now ≡ length model.now.columns }
    ensures { checked_of result ≡ outcome (point_steps model.now (member ∷ []) (values_at values.now)) }
{
    if is_present(model, member) {
        model.holds(member, values)
    } else {
        Ok(true)
    }
}

/// Whether the program has the member, whatever its number.
pub fn is_present(model: &Model, member: Member) -> bool
    ensures there { result ≡ exists model.now member }
    ensures in_range { IsTrue result → IsInRange model.now member }
{
    let known = match member {
        Member::RowLo(index) => index < model.row_count(),
        Member::RowUp(index) => index < model.row_count(),
        Member::Lower(index) => index < model.column_count(),
        Member::Upper(index) => index < model.column_count(),
        Member::Whole(index) => index < model.column_count(),
    };
    known && model.exists(member)
}
