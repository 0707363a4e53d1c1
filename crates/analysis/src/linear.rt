//! What only a program without active marks is asked.
ghost use Rattle.std.specs.Prelude.{◌≡◌, ◌+◌, ◌<◌, ◌^◌, IfOk, length};
ghost use Rattle.lp_model.specs.Program.{Program};
ghost use Rattle.lp_model.specs.MemberSets.{active_set};
ghost use Rattle.certs.specs.Checks.{IsSetOf};
ghost use Rattle.certs.specs.Elastic.{soft_members};
ghost use Rattle.certs.specs.Named.{IsOfSize};
ghost use Rattle.analysis.specs.Linear.{IsBegun, alternative_size, elastic_size, first_mark as first_mark_of};

use crate::reducing::set_rows;
use crate::sizing::large;
use alt_polyhedron::bounding_members;
use certs::{Member, MemberSet};
use lp_model::Model;
use report_text::Answer;
use std::alloc::{AllocError, Global};

/// Why the elastic system of the active members, these of them enforced, is not solved: the column of the first mark, or the
/// size of the dictionary, where it passes the most; none where it may be solved.
pub(crate) fn not_begun(
    alloc: Global,
    model: &Model,
    set: &MemberSet,
    enforced: &MemberSet,
) -> Result<Option<Answer>, AllocError>
    requires whole { set.now ≡ active_set model.now }
    requires enforced { IsSetOf model.now enforced.now }
    ensures { let size = elastic_size model.now set.now.members enforced.now.members in
        IfOk result (IsBegun model.now size) }
{
    let size = size_of(alloc, model, set, enforced)?;
    Ok(hindrance(set, size))
}

/// The same of the system of the alternative of the active members.
pub(crate) fn not_weighed(
    alloc: Global,
    model: &Model,
    set: &MemberSet,
) -> Result<Option<Answer>, AllocError>
    requires whole { set.now ≡ active_set model.now }
    ensures { let size = alternative_size model.now set.now.members in
        IfOk result (IsBegun model.now size) }
{
    let members = bounding_members(alloc, model, set)?;
    let size = (model.column_count() as u64 + 2) * members.as_slice().len() as u64;
    Ok(hindrance(set, size))
}

// The column of the first mark of the active members, or else the size of a dictionary, where it passes the most.
fn hindrance(set: &MemberSet, size: u64) -> Option<Answer>
    ensures { (model : Program) → set.now ≡ active_set model → IsBegun model size result }
{
    if let Some(column) = first_mark(set) {
        return Some(Answer::NotLinear(column));
    }
    large(size)
}

// The column of the first mark of a set.
fn first_mark(set: &MemberSet) -> Option<u32>
    ensures { result ≡ first_mark_of set.now.members }
{
    for member in set.iter() {
        if let Member::Whole(column) = member {
            return Some(column);
        }
    }
    None
}

// How many entries the dictionary of the elastic system has.
fn size_of(
    alloc: Global,
    model: &Model,
    set: &MemberSet,
    enforced: &MemberSet,
) -> Result<u64, AllocError>
    requires same { IsSetOf model.now set.now }
    requires enforced { IsSetOf model.now enforced.now }
    ensures { let size = elastic_size model.now set.now.members enforced.now.members in
        IfOk result (λ found. found ≡ size) }
{
    // That there are few rows is told with their count.
    let _rows = model.row_count();
    set.stands_in_order();
    let columns = model.column_count() as u64;
    let rows = set_rows(alloc, model, enforced)?;
    let soft = soft_count(set, enforced);
    Ok((rows.as_slice().len() as u64 + soft + 1) * (columns + soft))
}

// How many members of a set are not enforced.
fn soft_count(set: &MemberSet, enforced: &MemberSet) -> u64
    requires same { IsOfSize set.now enforced.now }
    requires few { length set.now.members < 2 ^ 64 }
    ensures { result ≡ length (soft_members set.now.members enforced.now.members) }
{
    set.stands_in_order();
    let mut count: u64 = 0;
    for member in set.iter() {
        if !enforced.contains(member) {
            count += 1;
        }
    }
    count
}
