//! The change that a pivot makes to all rows.
ghost use Rattle.std.specs.Prelude.{◌≡◌, ◌≢◌, ℕ, ◌+◌, ◌<◌, ◌≤◌, MatchResult, OnOk, Some, None, [], All, map, flat_map, length, slice_index_or, vec_capacity};
ghost use Rattle.rational.specs.Rational.{zero_ℚ};
ghost use Rattle.rational.specs.Linear.{factor_of};
ghost use Rattle.frac128.specs.Calculation.{first_wide};
ghost use Rattle.dictionary.specs.Rows.{terms_of, rows_of, row_work, rows_work, IsRow, IsRowChanged, AreRowsExchanged};
ghost use Rattle.dictionary.specs.Sound.{AreForgotten};

use crate::entries::{Entry, factor_in};
use crate::numbers::is_zero;
use crate::rows::{change_row, solve_row, split_row};
use frac128::{Exact, Wide};
use std::alloc::AllocError;
use std::mem;

/// Makes room for so many entries more in each row in which the entering variable counts, and for any of them in a spare
/// one. Where memory is refused all rows are as they were.
pub(crate) fn make_room<N: Exact>(
    rows: &mut [Vec<Entry<N>>],
    spare: &mut Vec<Entry<N>>,
    entering: u32,
    more: usize,
) -> Result<(), AllocError>
    requires { All (λ r. IsRow (terms_of N.value r.items)) rows.old }
    ensures same { map (λ r. r.items) rows.new ≡ map (λ r. r.items) rows.old }
    ensures room { OnOk result (All (λ r. factor_of (terms_of N.value r.items) entering ≢ zero_ℚ
        → length r.items + more ≤ vec_capacity r) rows.new) }
    ensures spare { OnOk result (All (λ r. factor_of (terms_of N.value r.items) entering ≢ zero_ℚ
        → length r.items ≤ vec_capacity spare.new) rows.new) }
{
    spare.clear();
    for place in 0..rows.len() {
        make_row_room(&mut rows[place], spare, entering, more)?;
    }
    Ok(())
}

// Makes it in one row.
fn make_row_room<N: Exact>(
    row: &mut Vec<Entry<N>>,
    spare: &mut Vec<Entry<N>>,
    entering: u32,
    more: usize,
) -> Result<(), AllocError>
    requires row { IsRow (terms_of N.value row.old.items) }
    requires empty { spare.old.items ≡ [] }
    ensures row { row.new.items ≡ row.old.items }
    ensures empty { spare.new.items ≡ [] }
    ensures room { OnOk result (factor_of (terms_of N.value row.old.items) entering ≢ zero_ℚ
        → length row.new.items + more ≤ vec_capacity row.new) }
    ensures spare { OnOk result (factor_of (terms_of N.value row.old.items) entering ≢ zero_ℚ
        → length row.new.items ≤ vec_capacity spare.new) }
    ensures capacity { vec_capacity spare.old ≤ vec_capacity spare.new }
{
    if is_zero(factor_in(row, entering)) {
        return Ok(());
    }
    row.try_reserve_exact(more)?;
    spare.try_reserve(row.len())?;
    Ok(())
}

/// Forgets the kept values of the rows in which a variable counts.
pub(crate) fn forget<N: Exact>(rows: &[Vec<Entry<N>>], values: &mut [Option<N>], variable: u32)
    requires rows { All (λ r. IsRow (terms_of N.value r.items)) rows.now }
    requires long { length values.old ≡ length rows.now }
    ensures { AreForgotten (rows_of N.value rows.now) variable values.old values.new }
{
    for place in 0..rows.len() {
        if is_zero(factor_in(&rows[place], variable)) {
            continue;
        }
        values[place] = None;
    }
}

// Changes all rows but that of the leaving variable, which is empty.
fn change_rows<N: Exact>(
    rows: &mut [Vec<Entry<N>>],
    spare: &mut Vec<Entry<N>>,
    leaving: u32,
    entering: u32,
    inverse: N,
    quotients: &[Entry<N>],
) -> Result<(), Wide>
    requires rows { All (λ r. IsRow (terms_of N.value r.items)) rows.old }
    requires leaving { All (λ r. factor_of (terms_of N.value r.items) leaving ≡ zero_ℚ) rows.old }
    requires quotients { IsRow (terms_of N.value quotients.now) }
    requires no_leaving { factor_of (terms_of N.value quotients.now) leaving ≡ zero_ℚ }
    requires no_entering { factor_of (terms_of N.value quotients.now) entering ≡ zero_ℚ }
    requires apart { leaving ≢ entering }
    requires inverse { N.value inverse ≢ zero_ℚ }
    requires room { All (λ r. factor_of (terms_of N.value r.items) entering ≢ zero_ℚ
        → length r.items + length quotients.now ≤ vec_capacity r) rows.old }
    requires spare { All (λ r. factor_of (terms_of N.value r.items) entering ≢ zero_ℚ
        → length r.items ≤ vec_capacity spare.old) rows.old }
    ensures { let work = flat_map (row_work entering (N.value inverse) (terms_of N.value quotients.now)) (rows_of N.value rows.old) in
        MatchResult result
        (λ done. (first_wide N.most work ≡ None)
        × ((r : ℕ) → r < length rows.old
        → IsRowChanged leaving entering (N.value inverse) (terms_of N.value quotients.now) (slice_index_or (rows_of N.value rows.old) r []) (slice_index_or (rows_of N.value rows.new) r [])))
        (λ w. first_wide N.most work ≡ Some w) }
{
    for place in 0..rows.len() {
        change_row(
            &mut rows[place],
            spare,
            leaving,
            entering,
            inverse,
            quotients,
        )?;
    }
    Ok(())
}

/// Changes the rows for a pivot: the leaving one is solved for the entering variable, and that is put into the others, in the
/// order of the basic variables.
///
/// `Wide` comes with the first operation that is too wide; the rows are then of no more use. No memory is taken.
pub(crate) fn exchange_rows<N: Exact>(
    rows: &mut [Vec<Entry<N>>],
    quotients: &mut Vec<Entry<N>>,
    spare: &mut Vec<Entry<N>>,
    leaving: u32,
    entering: u32,
) -> Result<(), Wide>
    requires rows { All (λ r. IsRow (terms_of N.value r.items)) rows.old }
    requires no_leaving { All (λ r. factor_of (terms_of N.value r.items) leaving
        ≡ zero_ℚ) rows.old }
    requires leaving { leaving < length rows.old }
    requires entering { entering < length rows.old }
    requires apart { leaving ≢ entering }
    requires nonzero { factor_of (slice_index_or (rows_of N.value rows.old) leaving []) entering
        ≢ zero_ℚ }
    requires room { All (λ r. factor_of (terms_of N.value r.items) entering ≢ zero_ℚ
        → length r.items + length (slice_index_or (rows_of N.value rows.old) leaving [])
        ≤ vec_capacity r) rows.old }
    requires spare { All (λ r. factor_of (terms_of N.value r.items) entering ≢ zero_ℚ
        → length r.items ≤ vec_capacity spare.old) rows.old }
    ensures { let work = rows_work leaving entering (rows_of N.value rows.old) in
        MatchResult result
        (λ done. (first_wide N.most work ≡ None)
        × AreRowsExchanged leaving entering (rows_of N.value rows.old) (rows_of N.value rows.new))
        (λ w. first_wide N.most work ≡ Some w) }
{
    quotients.clear();
    mem::swap(&mut rows[leaving as usize], quotients);
    let inverse = split_row(quotients, entering)?;
    change_rows(rows, spare, leaving, entering, inverse, quotients)?;
    solve_row(quotients, leaving, inverse);
    mem::swap(&mut rows[entering as usize], quotients);
    Ok(())
}
