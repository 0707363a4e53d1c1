//! The lines of members.

ghost use Rattle.std.specs.Prelude.{◌≡◌, ◌++◌, OnOk, map};
ghost use Rattle.certs.specs.Checks.{IsSetOf};
ghost use Rattle.report_text.specs.Grammar.{phrases_text};

use crate::lines::print_phrase;
use lp_model::Model;
use report_text::{MemberList, Phrase};
use std::alloc::AllocError;

/// Appends the lines of members.
pub(crate) fn print_members(
    model: &Model,
    set: &MemberList,
    into: &mut Vec<u8>,
) -> Result<(), AllocError>
    requires { IsSetOf model.now set.now }
    ensures { OnOk result (into.new.items ≡ into.old.items ++ phrases_text model.now (map Phrase.Member set.now.members)) }
{
    set.stands_in_order();
    for member in set.iter() {
        print_phrase(model, Phrase::Member(member), into)?;
    }
    Ok(())
}
