//! What a dictionary starts from.
ghost use Rattle.std.specs.Prelude.{◌≡◌, ◌-◌, ◌≤◌, [], ◌∷◌, ◌++◌, cond, IfOk, IfSome, All, map, length, take, replicate, None};
ghost use Rattle.std.specs.Option.{option_map};
ghost use Rattle.certs.specs.Rows.{row_of};
ghost use Rattle.certs.specs.System.{no_limits};
ghost use Rattle.certs.specs.System.Place.{Basic as BasicPlace};
ghost use Rattle.certs.specs.Tableau.{forms_of, start_place as first_place};
ghost use Rattle.dictionary.specs.Layouts.{place_of_code, basis_of};
ghost use Rattle.dictionary.specs.Rows.{rows_of, terms_of};
ghost use Rattle.dictionary.specs.Starts.{Fits, FitLimits, FitForm};

use crate::entries::Entry;
use crate::places::{Bounds, Place};
use certs::Limits;
use frac128::{Exact, Frac};
use lp_model::{Row, Term, Terms};
use std::alloc::{AllocError, Global};

/// A number that fits.
pub(crate) fn narrowed<N: Exact>(number: Frac) -> N
    requires { Fits N.most number }
    ensures { N.value result ≡ number }
{
    match N::narrow(number) {
        Some(narrow) => narrow,
        None => unreachable!(),
    }
}

/// A limit that fits, where it is there.
pub(crate) fn narrowed_limit<N: Exact>(limit: Option<Frac>) -> Option<N>
    requires { IfSome limit (Fits N.most) }
    ensures { option_map N.value result ≡ limit }
{
    match limit {
        Some(number) => Some(narrowed(number)),
        None => None,
    }
}

/// The limits of all variables: of the columns, of the rows, and of the objective, which has none.
pub(crate) fn all_bounds<N: Exact>(
    alloc: Global,
    columns: &[Limits],
    rows: &[Row],
    objective: bool,
) -> Result<Vec<Bounds<N>>, AllocError>
    requires columns { All (FitLimits N.most) columns.now }
    requires rows { All (λ r. FitLimits N.most (row_of r).limits) rows.now }
    ensures { IfOk result (λ b. map (λ b. record { lower = option_map N.value b.lower; upper = option_map N.value b.upper }) b.items ≡ columns.now ++ (map (λ r. (row_of r).limits) rows.now ++ cond objective (no_limits ∷ []) [])) }
{
    let mut bounds = Vec::new(alloc);
    for limits in columns {
        bounds.push(Bounds {
            lower: narrowed_limit(limits.lo),
            upper: narrowed_limit(limits.up),
        })?;
    }
    for row in rows {
        bounds.push(Bounds {
            lower: narrowed_limit(row.lo),
            upper: narrowed_limit(row.up),
        })?;
    }
    if !objective {
        return Ok(bounds);
    }
    bounds.push(Bounds {
        lower: None,
        upper: None,
    })?;
    Ok(bounds)
}

/// Where a nonbasic variable with these limits starts.
pub(crate) fn start_place<N: Exact>(bounds: Bounds<N>) -> Place
    ensures { place_of_code result ≡ first_place (record { lower = option_map N.value bounds.lower; upper = option_map N.value bounds.upper }) }
{
    if bounds.lower.is_some() {
        return Place::AtLower;
    }
    if bounds.upper.is_some() {
        return Place::AtUpper;
    }
    Place::AtZero
}

/// Where each variable starts: those of the columns by their limits, and the others in the basis.
pub(crate) fn start_places<N: Exact>(
    alloc: Global,
    bounds: &[Bounds<N>],
    columns: usize,
) -> Result<Vec<Place>, AllocError>
    requires { columns ≤ length bounds.now }
    ensures { IfOk result (λ p. basis_of p.items ≡ map first_place (take columns (map (λ b. record { lower = option_map N.value b.lower; upper = option_map N.value b.upper }) bounds.now)) ++ replicate (length bounds.now - columns) BasicPlace) }
{
    let mut places = Vec::new(alloc);
    for variable in 0..columns {
        places.push(start_place(bounds[variable]))?;
    }
    for _ in columns..bounds.len() {
        places.push(Place::Basic)?;
    }
    Ok(places)
}

/// A form as a row.
pub(crate) fn narrowed_row<N: Exact>(
    alloc: Global,
    terms: &[Term],
) -> Result<Vec<Entry<N>>, AllocError>
    requires { FitForm N.most terms.now }
    ensures { IfOk result (λ r. terms_of N.value r.items ≡ terms.now) }
{
    let mut row = Vec::with_capacity(alloc, terms.len())?;
    for term in terms {
        row.push(Entry {
            variable: term.column,
            factor: narrowed(term.factor),
        })?;
    }
    Ok(row)
}

/// The rows at the start: none for a column, and then the forms of the rows and that of the objective where there is one.
pub(crate) fn start_rows<N: Exact>(
    alloc: Global,
    columns: usize,
    rows: &[Row],
    objective: &Option<Terms>,
) -> Result<Vec<Vec<Entry<N>>>, AllocError>
    requires fits { All (λ r. FitForm N.most r.terms) rows.now }
    requires objective_fits { IfSome objective.now (FitForm N.most) }
    ensures { IfOk result (λ s. rows_of N.value s.items
        ≡ replicate columns [] ++ (map (λ r. r.terms) rows.now ++ forms_of objective.now)) }
{
    let mut forms = Vec::new(alloc);
    for _ in 0..columns {
        forms.push(Vec::new(alloc))?;
    }
    for row in rows {
        forms.push(narrowed_row(alloc, row.terms.as_slice())?)?;
    }
    let Some(terms) = objective else {
        return Ok(forms);
    };
    forms.push(narrowed_row(alloc, terms.as_slice())?)?;
    Ok(forms)
}

/// The kept values of so many variables at the start: none.
pub(crate) fn no_values<N: Exact>(alloc: Global, count: usize) -> Result<Vec<Option<N>>, AllocError>
    ensures { IfOk result (λ v. v.items ≡ replicate count None) }
{
    Ok(vec![in alloc; None; count]?)
}
