//! The changes that a pivot makes to single rows.
ghost use Rattle.std.specs.Prelude.{◌≡◌, ◌≢◌, ℕ, ◌+◌, ◌<◌, ◌≤◌, ◌++◌, MatchResult, OnOk, Some, None, [], map, flat_map, length, vec_capacity};
ghost use Rattle.rational.specs.Rational.{◌-ℚ◌, ◌*ℚ◌, ◌/ℚ◌, neg_ℚ, zero_ℚ, one_ℚ};
ghost use Rattle.rational.specs.Linear.{factor_of};
ghost use Rattle.frac128.specs.Calculation.{first_wide};
ghost use Rattle.certs.specs.Turns.{counted};
ghost use Rattle.dictionary.specs.Rows.{terms_of, without, quotients_of, reductions, row_work, IsRow, IsRowChanged};

use crate::entries::{Entry, pass, push_counted, put_entry, take_entry};
use crate::numbers::{difference, product, quotient};
use frac128::{Exact, Op, Wide};

/// Divides the factors of a row, in order.
pub(crate) fn divide_row<N: Exact>(row: &mut [Entry<N>], pivot: N) -> Result<(), Wide>
    requires { N.value pivot ≢ zero_ℚ }
    ensures { let work = flat_map
        (λ t. counted Op.Over t.factor (N.value pivot)) (terms_of N.value row.old) in
        MatchResult result
        (λ done. (first_wide N.most work ≡ None)
        × (terms_of N.value row.new ≡ map
        (λ t. record { column = t.column; factor = t.factor /ℚ N.value pivot }) (terms_of N.value row.old)))
        (λ w. first_wide N.most work ≡ Some w) }
{
    for place in 0..row.len() {
        let entry = row[place];
        let factor = quotient(entry.factor, pivot)?;
        row[place] = Entry {
            variable: entry.variable,
            factor,
        };
    }
    Ok(())
}

/// Puts the opposite of each factor in its place.
pub(crate) fn negate_row<N: Exact>(row: &mut [Entry<N>])
    ensures { terms_of N.value row.new ≡ map
        (λ t. record { column = t.column; factor = neg_ℚ t.factor }) (terms_of N.value row.old) }
{
    for place in 0..row.len() {
        let entry = row[place];
        row[place] = Entry {
            variable: entry.variable,
            factor: entry.factor.negate(),
        };
    }
}

/// Writes a row, from which a factor times each quotient is taken, in order, into an empty one with room for both.
pub(crate) fn reduce_row<N: Exact>(
    out: &mut Vec<Entry<N>>,
    row: &[Entry<N>],
    factor: N,
    quotients: &[Entry<N>],
) -> Result<(), Wide>
    requires row { IsRow (terms_of N.value row.now) }
    requires quotients { IsRow (terms_of N.value quotients.now) }
    requires empty { out.old.items ≡ [] }
    requires room { length row.now + length quotients.now ≤ vec_capacity out.old }
    ensures reduced { let work = reductions (N.value factor) (terms_of N.value row.now) (terms_of N.value quotients.now) in
        MatchResult result
        (λ done. (first_wide N.most work ≡ None)
        × (IsRow (terms_of N.value out.new.items)
        × ((k : ℕ) → factor_of (terms_of N.value out.new.items) k
        ≡ factor_of (terms_of N.value row.now) k -ℚ N.value factor *ℚ factor_of (terms_of N.value quotients.now) k)))
        (λ w. first_wide N.most work ≡ Some w) }
    ensures longer { OnOk result (length out.new.items ≤ length row.now + length quotients.now) }
    ensures capacity { vec_capacity out.old ≤ vec_capacity out.new }
{
    let mut next = 0;
    for quotient in quotients {
        let (old, passed) = pass(out, &row[next..], quotient.variable);
        let taken = product(factor, quotient.factor)?;
        let reduced = difference(old, taken)?;
        push_counted(out, quotient.variable, reduced);
        next += passed;
    }
    out.extend_from_slice(&row[next..]).unwrap();
    Ok(())
}

/// Changes a row other than the leaving one.
///
/// Its factor of the entering variable goes, times the inverse of the pivot, to the leaving one, and each other factor
/// loses it times the quotient there. A row in which the entering variable does not count stays.
pub(crate) fn change_row<N: Exact>(
    row: &mut Vec<Entry<N>>,
    spare: &mut Vec<Entry<N>>,
    leaving: u32,
    entering: u32,
    inverse: N,
    quotients: &[Entry<N>],
) -> Result<(), Wide>
    requires row { IsRow (terms_of N.value row.old.items) }
    requires leaving { factor_of (terms_of N.value row.old.items) leaving ≡ zero_ℚ }
    requires quotients { IsRow (terms_of N.value quotients.now) }
    requires no_leaving { factor_of (terms_of N.value quotients.now) leaving ≡ zero_ℚ }
    requires no_entering { factor_of (terms_of N.value quotients.now) entering ≡ zero_ℚ }
    requires apart { leaving ≢ entering }
    requires inverse { N.value inverse ≢ zero_ℚ }
    requires room { factor_of (terms_of N.value row.old.items) entering ≢ zero_ℚ
        → length row.old.items + length quotients.now ≤ vec_capacity row.old }
    requires spare { factor_of (terms_of N.value row.old.items) entering ≢ zero_ℚ
        → length row.old.items ≤ vec_capacity spare.old }
    ensures changed { let work = row_work entering (N.value inverse) (terms_of N.value quotients.now) (terms_of N.value row.old.items) in
        MatchResult result
        (λ done. (first_wide N.most work ≡ None)
        × IsRowChanged leaving entering (N.value inverse) (terms_of N.value quotients.now) (terms_of N.value row.old.items) (terms_of N.value row.new.items))
        (λ w. first_wide N.most work ≡ Some w) }
    ensures spare { vec_capacity spare.old ≤ vec_capacity spare.new }
{
    let Some(factor) = take_entry(row, entering) else {
        return Ok(());
    };
    let own = product(factor, inverse)?;
    spare.clear();
    spare.extend_from_slice(row).unwrap();
    row.clear();
    reduce_row(row, spare, factor, quotients)?;
    put_entry(row, leaving, own);
    Ok(())
}

/// Takes the entering variable out of the leaving row, divides the others by its factor, and gives the inverse of that.
pub(crate) fn split_row<N: Exact>(row: &mut Vec<Entry<N>>, entering: u32) -> Result<N, Wide>
    requires row { IsRow (terms_of N.value row.old.items) }
    requires nonzero { factor_of (terms_of N.value row.old.items) entering ≢ zero_ℚ }
    ensures split { let p = factor_of (terms_of N.value row.old.items) entering in
        let work = counted Op.Over one_ℚ p ++ flat_map (λ t. counted Op.Over t.factor p) (without entering (terms_of N.value row.old.items)) in
        MatchResult result
        (λ inverse. (first_wide N.most work ≡ None)
        × ((N.value inverse ≡ one_ℚ /ℚ p) × (terms_of N.value row.new.items
        ≡ quotients_of entering (terms_of N.value row.old.items))))
        (λ w. first_wide N.most work ≡ Some w) }
    ensures shorter { OnOk result (length row.new.items < length row.old.items) }
    ensures capacity { vec_capacity row.new ≡ vec_capacity row.old }
{
    let Some(pivot) = take_entry(row, entering) else {
        unreachable!()
    };
    let inverse = quotient(N::one(), pivot)?;
    divide_row(row, pivot)?;
    Ok(inverse)
}

/// Makes of the quotients the row that is solved for the entering variable.
pub(crate) fn solve_row<N: Exact>(row: &mut Vec<Entry<N>>, leaving: u32, inverse: N)
    requires row { IsRow (terms_of N.value row.old.items) }
    requires new { factor_of (terms_of N.value row.old.items) leaving ≡ zero_ℚ }
    requires nonzero { N.value inverse ≢ zero_ℚ }
    requires room { length row.old.items < vec_capacity row.old }
    ensures row { IsRow (terms_of N.value row.new.items) }
    ensures own { factor_of (terms_of N.value row.new.items) leaving ≡ N.value inverse }
    ensures others { (k : ℕ) → k ≢ leaving → factor_of (terms_of N.value row.new.items) k
        ≡ neg_ℚ (factor_of (terms_of N.value row.old.items) k) }
{
    negate_row(row);
    put_entry(row, leaving, inverse);
}
