//! Entries of a row, in the order of their variables.
ghost use Rattle.std.specs.Prelude.{◌≡◌, ◌≢◌, ℕ, ◌+◌, ◌<◌, ◌≤◌, nat_lt, not, true, false, cond, [], ◌∷◌, MatchOption, IfSome, ◌++◌, filter, take, drop, length, slice_index_or, vec_capacity};
ghost use Rattle.rational.specs.Rational.{zero_ℚ, eq_ℚ};
ghost use Rattle.rational.specs.Linear.{Term, factor_of};
ghost use Rattle.dictionary.specs.Rows.{terms_of, IsRow, without};

use crate::numbers::is_zero;
use frac128::Exact;

/// A nonbasic variable that counts in a basic one, and how often; the factor is not 0.
#[derive(Clone, Copy)]
pub(crate) struct Entry<N: Exact> {
    pub(crate) variable: u32,
    pub(crate) factor: N,
}

/// How many entries are of lesser variables.
pub(crate) fn count_below<N: Exact>(row: &[Entry<N>], variable: u32) -> usize
    requires { IsRow (terms_of N.value row.now) }
    ensures within { result ≤ length row.now }
    ensures front { take result (terms_of N.value row.now) ≡ filter
        (λ t. nat_lt t.column variable) (terms_of N.value row.now) }
    ensures back { drop result (terms_of N.value row.now) ≡ filter
        (λ t. not (nat_lt t.column variable)) (terms_of N.value row.now) }
{
    row.partition_point(|entry| entry.variable < variable)
}

// Whether an entry of this variable stands at a place.
fn is_of<N: Exact>(row: &[Entry<N>], place: usize, variable: u32) -> bool
    ensures there { result ≡ true → (place < length row.now) × ((d : Term)
        → (slice_index_or (terms_of N.value row.now) place d).column ≡ variable) }
    ensures none { result ≡ false → (d : Term) → place < length row.now
        → (slice_index_or (terms_of N.value row.now) place d).column ≢ variable }
{
    if place < row.len() {
        return row[place].variable == variable;
    }
    false
}

/// The factor of a variable; 0 where it has no entry.
pub(crate) fn factor_in<N: Exact>(row: &[Entry<N>], variable: u32) -> N
    requires { IsRow (terms_of N.value row.now) }
    ensures { N.value result ≡ factor_of (terms_of N.value row.now) variable }
{
    let place = count_below(row, variable);
    if is_of(row, place, variable) {
        return row[place].factor;
    }
    N::zero()
}

/// Takes the entry of a variable out of a row, where it has one.
pub(crate) fn take_entry<N: Exact>(row: &mut Vec<Entry<N>>, variable: u32) -> Option<N>
    requires { IsRow (terms_of N.value row.old.items) }
    ensures rest { terms_of N.value row.new.items
        ≡ without variable (terms_of N.value row.old.items) }
    ensures factor { MatchOption result (factor_of (terms_of N.value row.old.items) variable
        ≡ zero_ℚ)
        (λ f. (N.value f ≡ factor_of (terms_of N.value row.old.items) variable) × (N.value f
        ≢ zero_ℚ)) }
    ensures shorter { IfSome result (λ f. length row.new.items + 1 ≡ length row.old.items) }
    ensures capacity { vec_capacity row.new ≡ vec_capacity row.old }
{
    let place = count_below(row, variable);
    if is_of(row, place, variable) {
        return Some(row.remove(place).factor);
    }
    None
}

/// Puts an entry of a variable that has none into a row with room for it.
pub(crate) fn put_entry<N: Exact>(row: &mut Vec<Entry<N>>, variable: u32, factor: N)
    requires row { IsRow (terms_of N.value row.old.items) }
    requires new { factor_of (terms_of N.value row.old.items) variable ≡ zero_ℚ }
    requires nonzero { N.value factor ≢ zero_ℚ }
    requires room { length row.old.items < vec_capacity row.old }
    ensures row { IsRow (terms_of N.value row.new.items) }
    ensures own { factor_of (terms_of N.value row.new.items) variable ≡ N.value factor }
    ensures others { (k : ℕ) → k ≢ variable → factor_of (terms_of N.value row.new.items) k
        ≡ factor_of (terms_of N.value row.old.items) k }
{
    let place = count_below(row, variable);
    row.insert(place, Entry { variable, factor }).unwrap();
}

/// Copies the entries of lesser variables, and gives the factor of a variable and how many entries are passed, its own too.
pub(crate) fn pass<N: Exact>(
    out: &mut Vec<Entry<N>>,
    rest: &[Entry<N>],
    variable: u32,
) -> (N, usize)
    requires row { IsRow (terms_of N.value rest.now) }
    requires room { length out.old.items + length rest.now ≤ vec_capacity out.old }
    ensures items { terms_of N.value out.new.items ≡ terms_of N.value out.old.items ++ filter
        (λ t. nat_lt t.column variable) (terms_of N.value rest.now) }
    ensures factor { N.value result.0 ≡ factor_of (terms_of N.value rest.now) variable }
    ensures rest { drop result.1 (terms_of N.value rest.now) ≡ filter
        (λ t. nat_lt variable t.column) (terms_of N.value rest.now) }
    ensures within { result.1 ≤ length rest.now }
    ensures longer { length out.new.items ≤ length out.old.items + result.1 }
    ensures capacity { vec_capacity out.old ≤ vec_capacity out.new }
{
    let place = count_below(rest, variable);
    out.extend_from_slice(&rest[..place]).unwrap();
    if is_of(rest, place, variable) {
        return (rest[place].factor, place + 1);
    }
    (N::zero(), place)
}

/// Puts a factor at the end, if it is not 0.
pub(crate) fn push_counted<N: Exact>(out: &mut Vec<Entry<N>>, variable: u32, factor: N)
    requires room { length out.old.items < vec_capacity out.old }
    ensures items { terms_of N.value out.new.items ≡ terms_of N.value out.old.items
        ++ cond (eq_ℚ (N.value factor) zero_ℚ) [] (record { column = variable; factor = N.value factor } ∷ []) }
    ensures longer { length out.new.items ≤ length out.old.items + 1 }
    ensures capacity { vec_capacity out.old ≤ vec_capacity out.new }
{
    if is_zero(factor) {
        return;
    }
    out.push(Entry { variable, factor }).unwrap();
}
