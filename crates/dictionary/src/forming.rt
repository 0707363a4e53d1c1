//! Whether a dictionary can start from a system.
ghost use Rattle.std.specs.Prelude.{◌≡◌, ◌+◌, ◌<◌, ◌^◌, ◌&&◌, nat_lt, cond, true, is_some, IfSome, All};
ghost use Rattle.frac128.specs.Limit.{limit};
ghost use Rattle.certs.specs.Checks.{every};
ghost use Rattle.certs.specs.Rows.{row_of};
ghost use Rattle.certs.specs.Tableau.{IsWellFormedSystem, variables};
ghost use Rattle.dictionary.specs.Starts.{Fits, FitForm, FitLimits, FitSystem};
ghost use Rattle.dictionary.specs.Forming.{ascends, follows, in_order, passes, uncrossed};

use certs::{Limits, System};
use frac128::{Exact, Frac};
use lp_model::{Row, Term, Terms};

// There are fewer variables than so many.
const MOST_VARIABLES: usize = 1 << 31;

/// Whether a dictionary can start from a system: no lower limit passes its upper one, the terms of each form ascend over
/// the system's columns with factors that are not 0, and there are fewer than 2^31 variables.
pub fn is_formed(system: &System) -> bool
    ensures formed { result ≡ true → IsWellFormedSystem system.now }
    ensures fits { result ≡ true → FitSystem limit system.now }
    ensures all { IsWellFormedSystem system.now → variables system.now < 2 ^ 31 → result ≡ true }
{
    let columns = system.columns.len();
    if !are_few(columns, system.rows.len(), system.objective.is_some()) {
        return false;
    }
    if !are_uncrossed(&system.columns) {
        return false;
    }
    if !are_rows(columns, &system.rows) {
        return false;
    }
    is_objective(columns, &system.objective)
}

/// Whether there are fewer than 2^31 variables.
pub(crate) fn are_few(columns: usize, rows: usize, objective: bool) -> bool
    ensures { result ≡ nat_lt (columns + rows + cond objective 1 0) (2 ^ 31) }
{
    if columns >= MOST_VARIABLES {
        return false;
    }
    if rows >= MOST_VARIABLES {
        return false;
    }
    columns + rows + usize::from(objective) < MOST_VARIABLES
}

// A number fits, where it is there. It does nothing when it runs.
fn known_to_fit(number: Option<Frac>)
    ensures { IfSome number (Fits limit) }
{
    if let Some(number) = number {
        let _number = number.widen();
    }
}

// Whether a lower limit does not pass an upper one, where both are there.
fn is_in_order(lower: Option<Frac>, upper: Option<Frac>) -> bool
    ensures { result ≡ in_order lower upper }
{
    let Some(least) = lower else {
        return true;
    };
    let Some(greatest) = upper else {
        return true;
    };
    !greatest.cmp(&least).is_lt()
}

// The same of limits.
fn is_uncrossed(limits: Limits) -> bool
    ensures test { result ≡ uncrossed limits }
    ensures fits { FitLimits limit limits }
{
    known_to_fit(limits.lo);
    known_to_fit(limits.up);
    is_in_order(limits.lo, limits.up)
}

// The same of each of the limits.
fn are_uncrossed(limits: &[Limits]) -> bool
    ensures test { result ≡ every uncrossed limits.now }
    ensures fits { result ≡ true → All (FitLimits limit) limits.now }
{
    for one in limits {
        if !is_uncrossed(*one) {
            return false;
        }
    }
    true
}

// Whether a term's column stands between a least one and the number of columns, and its factor is not 0.
fn is_next(columns: usize, least: usize, term: Term) -> bool
    ensures test { result ≡ follows columns least term }
    ensures fits { Fits limit term.factor }
{
    let column = term.column as usize;
    let _factor = term.factor.widen();
    !(column < least) && column < columns && term.factor != Frac::whole(0)
}

// Whether terms ascend over the columns with factors that are not 0.
fn is_form(columns: usize, terms: &[Term]) -> bool
    ensures test { result ≡ ascends columns 0 terms.now }
    ensures fits { result ≡ true → FitForm limit terms.now }
{
    let mut least = 0;
    for term in terms {
        if !is_next(columns, least, *term) {
            return false;
        }
        least = term.column as usize + 1;
    }
    true
}

// The same of an objective, where there is one.
fn is_objective(columns: usize, objective: &Option<Terms>) -> bool
    ensures test { result ≡ true → IfSome objective.now (λ terms. ascends columns 0 terms ≡ true) }
    ensures fits { result ≡ true → IfSome objective.now (FitForm limit) }
    ensures all { IfSome objective.now (λ terms. ascends columns 0 terms ≡ true) → result ≡ true }
{
    match objective {
        Some(terms) => is_form(columns, terms.as_slice()),
        None => true,
    }
}

// Whether a row has a form, and its sides do not cross.
fn is_row(columns: usize, row: &Row) -> bool
    ensures test { result ≡ passes columns (row_of row.now) }
    ensures fits { FitLimits limit (row_of row.now).limits }
    ensures form_fits { result ≡ true → FitForm limit row.now.terms }
{
    let uncrossed = is_uncrossed(Limits {
        lo: row.lo,
        up: row.up,
    });
    if !uncrossed {
        return false;
    }
    is_form(columns, row.terms.as_slice())
}

// The same of each row.
fn are_rows(columns: usize, rows: &[Row]) -> bool
    ensures test { result ≡ every (λ r. passes columns (row_of r)) rows.now }
    ensures fits { result ≡ true → All (λ r. FitLimits limit (row_of r).limits) rows.now }
    ensures forms_fit { result ≡ true → All (λ r. FitForm limit r.terms) rows.now }
{
    for row in rows {
        if !is_row(columns, row) {
            return false;
        }
    }
    true
}
