//! The members of a set that ask for a number.
ghost use Rattle.std.specs.Prelude.{◌≡◌, ◌<◌, ◌^◌, All, IfOk, length};
ghost use Rattle.certs.specs.Checks.{IsSetOf};
ghost use Rattle.certs.specs.System.{bounding};
ghost use Rattle.relaxation.specs.Origins.{IsMemberIn};

use lp_model::{Member, MemberSet, Model};
use relaxation::member_number;
use std::alloc::{AllocError, Global};

/// The members of a set that ask for a number, in member order: neither marks nor what the program lacks. Each has its
/// variable in the set's system of the alternative, by its place in this list.
///
/// # Errors
///
/// There is no memory for the list.
pub fn bounding_members(
    alloc: Global,
    model: &Model,
    set: &MemberSet,
) -> Result<Vec<Member>, AllocError>
    requires { IsSetOf model.now set.now }
    ensures members { let members = bounding model.now set.now.members in
        IfOk result (λ list. list.items ≡ members) }
    ensures known { IfOk result (λ list. All (IsMemberIn model.now) list.items) }
    ensures few { IfOk result (λ list. length list.items < 2 ^ 31) }
{
    // That the members are few is told with the counts and by their order.
    let _rows = model.row_count();
    let _columns = model.column_count();
    set.stands_in_order();
    let mut list = Vec::new(alloc);
    for member in set.iter() {
        if member_number(model, member).is_some() {
            list.push(member)?;
        }
    }
    Ok(list)
}
