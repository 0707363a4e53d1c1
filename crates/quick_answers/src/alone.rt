//! Sets that no quick run is made of, or none at first.
ghost use Rattle.std.specs.Prelude.{◌≡◌, ◌<◌, length, not};
ghost use Rattle.certs.specs.Answers.{is_linear};
ghost use Rattle.certs.specs.Checks.{IsSetOf};
ghost use Rattle.certs.specs.Plain.{has_row as has_side, rows_in};
ghost use Rattle.quick_answers.specs.Alone.{is_small as has_few_rows, size_of as size, stands_alone as is_alone};

use certs::{Member, MemberSet};
use lp_model::Model;

// A set is small where its rows times the columns are at most this.
const SMALL: u64 = 1_000;

// And tiny where they are at most this.
const TINY: u64 = 10;

/// Whether no quick run is to be made of a set: it is tiny, or it has a mark and a quick tree may have no nodes.
pub fn stands_alone(model: &Model, set: &MemberSet, nodes: u64) -> bool
    requires { IsSetOf model.now set.now }
    ensures { result ≡ is_alone model.now set.now.members nodes }
{
    size_of(model, set) <= TINY || has_mark(set, model.column_count()) && nodes == 0
}

/// Whether a set is small: the rows of which it has a side, times the columns, are at most 1,000. A quick run is made of it only
/// where the reference has met a number that does not fit.
pub fn is_small(model: &Model, set: &MemberSet) -> bool
    requires { IsSetOf model.now set.now }
    ensures { result ≡ has_few_rows model.now set.now.members }
{
    size_of(model, set) <= SMALL
}

// The rows of which the set has a side, times the columns.
fn size_of(model: &Model, set: &MemberSet) -> u64
    requires { IsSetOf model.now set.now }
    ensures { result ≡ size model.now set.now.members }
{
    let rows = count_rows(model, set);
    u64::from(rows) * u64::from(model.column_count())
}

// How many rows there are of which the set has a side.
fn count_rows(model: &Model, set: &MemberSet) -> u32
    requires { IsSetOf model.now set.now }
    ensures { result ≡ length (rows_in model.now set.now.members) }
{
    let mut count = 0;
    for row in 0..model.row_count() {
        if has_row(set, row) {
            count += 1;
        }
    }
    count
}

// Whether the set has a side of a row.
fn has_row(set: &MemberSet, row: u32) -> bool
    requires { row < set.now.rows }
    ensures { result ≡ has_side set.now.members row }
{
    set.contains(Member::RowLo(row)) || set.contains(Member::RowUp(row))
}

/// Whether the set has the mark of one of the columns.
pub(crate) fn has_mark(set: &MemberSet, columns: u32) -> bool
    requires { columns ≡ set.now.columns }
    ensures { result ≡ not (is_linear set.now.members) }
{
    set.stands_in_order();
    for column in 0..columns {
        if set.contains(Member::Whole(column)) {
            return true;
        }
    }
    false
}
