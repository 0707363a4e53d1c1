//! A dictionary's numbers as fractions of 128 bits.
ghost use Rattle.std.specs.Prelude.{◌≡◌, IfOk};
ghost use Rattle.std.specs.Option.{option_map};
ghost use Rattle.dictionary.specs.Rows.{bounds_of, rows_of, terms_of};

use crate::entries::Entry;
use crate::places::Bounds;
use frac128::{Exact, Frac};
use std::alloc::{AllocError, Global};

// A limit, where it is there.
fn widened_limit<N: Exact>(limit: Option<N>) -> Option<Frac>
    ensures { result ≡ option_map N.value limit }
{
    match limit {
        Some(number) => Some(number.widen()),
        None => None,
    }
}

/// The limits of all variables.
pub(crate) fn widened_bounds<N: Exact>(
    alloc: Global,
    bounds: &[Bounds<N>],
) -> Result<Vec<Bounds<Frac>>, AllocError>
    ensures { IfOk result (λ b. bounds_of (λ f. f) b.items ≡ bounds_of N.value bounds.now) }
{
    let mut wide = Vec::with_capacity(alloc, bounds.len())?;
    for one in bounds {
        wide.push(Bounds {
            lower: widened_limit(one.lower),
            upper: widened_limit(one.upper),
        })?;
    }
    Ok(wide)
}

// The entries of a row.
fn widened_row<N: Exact>(alloc: Global, row: &[Entry<N>]) -> Result<Vec<Entry<Frac>>, AllocError>
    ensures { IfOk result (λ r. terms_of (λ f. f) r.items ≡ terms_of N.value row.now) }
{
    let mut wide = Vec::with_capacity(alloc, row.len())?;
    for entry in row {
        wide.push(Entry {
            variable: entry.variable,
            factor: entry.factor.widen(),
        })?;
    }
    Ok(wide)
}

/// All rows.
pub(crate) fn widened_rows<N: Exact>(
    alloc: Global,
    rows: &[Vec<Entry<N>>],
) -> Result<Vec<Vec<Entry<Frac>>>, AllocError>
    ensures { IfOk result (λ r. rows_of (λ f. f) r.items ≡ rows_of N.value rows.now) }
{
    let mut wide = Vec::with_capacity(alloc, rows.len())?;
    for row in rows {
        wide.push(widened_row(alloc, row.as_slice())?)?;
    }
    Ok(wide)
}
