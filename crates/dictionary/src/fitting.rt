//! Whether the numbers of a system are fractions of 64 bits.
ghost use Rattle.std.specs.Prelude.{◌↔◌, All, IfSome, IsTrue};
ghost use Rattle.frac128.specs.Limit.{narrow_limit};
ghost use Rattle.certs.specs.Rows.{row_of};
ghost use Rattle.dictionary.specs.Starts.{Fits, FitForm, FitLimits, FitSystem};

use crate::forming::are_few;
use certs::{Limits, System};
use frac128::{Frac, Frac64};
use lp_model::{Row, Term, Terms};

/// Whether all numbers of a system are fractions of 64 bits, and there are fewer than 2^31 variables.
pub fn fits_narrow(system: &System) -> bool
    ensures { IsTrue result ↔ FitSystem narrow_limit system.now }
{
    let columns = system.columns.len();
    if !are_few(columns, system.rows.len(), system.objective.is_some()) {
        return false;
    }
    if !all_limits_fit(&system.columns) {
        return false;
    }
    if !rows_fit(&system.rows) {
        return false;
    }
    objective_fits(&system.objective)
}

// Whether a number fits.
fn fits(number: Frac) -> bool
    ensures { IsTrue result ↔ Fits narrow_limit number }
{
    Frac64::narrow(number).is_some()
}

// Where it is there.
fn limit_fits(limit: Option<Frac>) -> bool
    ensures { IsTrue result ↔ IfSome limit (Fits narrow_limit) }
{
    match limit {
        Some(number) => fits(number),
        None => true,
    }
}

// Both limits.
fn limits_fit(limits: Limits) -> bool
    ensures { IsTrue result ↔ FitLimits narrow_limit limits }
{
    limit_fits(limits.lo) && limit_fits(limits.up)
}

// Those of each of a list.
fn all_limits_fit(limits: &[Limits]) -> bool
    ensures { IsTrue result ↔ All (FitLimits narrow_limit) limits.now }
{
    for one in limits {
        if !limits_fit(*one) {
            return false;
        }
    }
    true
}

// The factors of a form.
fn form_fits(terms: &[Term]) -> bool
    ensures { IsTrue result ↔ FitForm narrow_limit terms.now }
{
    for term in terms {
        if !fits(term.factor) {
            return false;
        }
    }
    true
}

// Those of an objective, where there is one.
fn objective_fits(objective: &Option<Terms>) -> bool
    ensures { IsTrue result ↔ IfSome objective.now (FitForm narrow_limit) }
{
    match objective {
        Some(terms) => form_fits(terms.as_slice()),
        None => true,
    }
}

// The limits and the form of each row.
fn rows_fit(rows: &[Row]) -> bool
    ensures { IsTrue result ↔ (All (λ r. FitLimits narrow_limit (row_of r).limits) rows.now
        × All (λ r. FitForm narrow_limit r.terms) rows.now) }
{
    for row in rows {
        if !row_fits(row) {
            return false;
        }
    }
    true
}

// Those of one row.
fn row_fits(row: &Row) -> bool
    ensures { IsTrue result ↔ (FitLimits narrow_limit (row_of row.now).limits × FitForm narrow_limit row.now.terms) }
{
    let limits = Limits {
        lo: row.lo,
        up: row.up,
    };
    limits_fit(limits) && form_fits(row.terms.as_slice())
}
