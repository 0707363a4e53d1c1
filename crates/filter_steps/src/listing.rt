//! The members of a set, as a list.
ghost use Rattle.std.specs.Prelude.{◌≡◌, IfOk};

use certs::MemberSet;
use lp_model::Member;
use std::alloc::{AllocError, Global};

/// The members of a set, in member order.
pub fn listed(alloc: Global, set: &MemberSet) -> Result<Vec<Member>, AllocError>
    ensures { IfOk result (λ list. list.items ≡ set.now.members) }
{
    let mut list = Vec::new(alloc);
    for member in set.iter() {
        list.push(member)?;
    }
    Ok(list)
}
