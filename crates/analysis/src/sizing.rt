//! How large a dictionary may be.
ghost use Rattle.std.specs.Prelude.{◌≡◌, ◌≤◌, ◌+◌, ◌*◌, IfOk, length};
ghost use Rattle.lp_model.specs.MemberSets.{active_set};
ghost use Rattle.certs.specs.Plain.{rows_in};
ghost use Rattle.analysis.specs.Objectives.{IsSizedFirst, system_size};

use crate::reducing::set_rows;
use certs::MemberSet;
use lp_model::Model;
use report_text::{Answer, ToldStop};
use std::alloc::{AllocError, Global};

/// The most entries that the dictionary of a run may have.
pub const MOST_ENTRIES: u64 = 64_000_000;

/// The size of the dictionary of the active members' plain system, with a row more or none, where it passes the most.
pub(crate) fn too_large(
    alloc: Global,
    model: &Model,
    set: &MemberSet,
    more: u64,
) -> Result<Option<Answer>, AllocError>
    requires whole { set.now ≡ active_set model.now }
    requires few { more ≤ 1 }
    ensures { IfOk result (IsSizedFirst (system_size model.now more)) }
{
    Ok(large(size_of(alloc, model, set, more)?))
}

/// A size, where it passes the most.
pub(crate) fn large(size: u64) -> Option<Answer>
    ensures { IsSizedFirst size result }
{
    if size > MOST_ENTRIES {
        return Some(Answer::Stopped(ToldStop::Large(size)));
    }
    None
}

// How many entries the dictionary has.
fn size_of(alloc: Global, model: &Model, set: &MemberSet, more: u64) -> Result<u64, AllocError>
    requires whole { set.now ≡ active_set model.now }
    requires few { more ≤ 1 }
    ensures { IfOk result (λ size. size ≡ system_size model.now more) }
{
    // That there are few rows is told with their count.
    let _rows = model.row_count();
    let rows = set_rows(alloc, model, set)?;
    let columns = model.column_count() as u64;
    Ok((rows.as_slice().len() as u64 + more) * columns)
}
