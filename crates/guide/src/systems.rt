//! Systems of rows with limits.
use crate::guides::Range;
use crate::rounded::Rounded;
use certs::Limits;
use frac128::Frac;
use lp_model::Term;
use std::alloc::Global;

/// So many columns, rows of terms in them, and what limits the columns and then the rows have.
#[derive(Drop)]
pub struct System {
    pub columns: u32,
    pub rows: Vec<Vec<Term>>,
    pub limits: Vec<Limits>,
}

impl System {
    /// The variable of a row.
    pub fn variable(&self, row: u32) -> Option<u32> {
        self.columns.checked_add(row)
    }

    /// How many rows there are.
    pub fn row_count(&self) -> u32 {
        u32::try_from(self.rows.len()).unwrap_or(0)
    }

    /// The terms of a row.
    pub fn terms(&self, row: u32) -> Option<&[Term]> {
        Some(self.rows.get(row as usize)?.as_slice())
    }

    /// The limits of a variable.
    pub fn limit(&self, variable: u32) -> Option<&Limits> {
        self.limits.get(variable as usize)
    }

    /// The limits of all variables, rounded.
    pub fn ranges(&self, alloc: Global) -> Option<Vec<Range>> {
        let mut ranges = Vec::new(alloc);
        for limits in self.limits.iter() {
            let (lo, up) = (rough(limits.lo), rough(limits.up));
            ranges.push(Range { lo, up }).ok()?;
        }
        Some(ranges)
    }
}

/// A limit, rounded.
pub fn rough(limit: Option<Frac>) -> Option<Rounded> {
    match limit {
        Some(limit) => Some(Rounded::of(limit)),
        None => None,
    }
}
