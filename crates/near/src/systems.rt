//! Programs as systems.
use certs::{Limits, Side};
use guide::System;
use lp_model::Model;
use quick_basis::Basis;
use std::alloc::Global;

/// A program under the limits that a basis has.
pub fn system_of(alloc: Global, model: &Model, basis: &Basis) -> Option<System> {
    let mut limits = Vec::new(alloc);
    let mut rows = Vec::new(alloc);
    for known in basis.variables.iter() {
        let (lo, up) = (known.limit_on(Side::Lo), known.limit_on(Side::Up));
        limits.push(Limits { lo, up }).ok()?;
    }
    for index in 0..model.row_count() {
        let terms = model.row(index).terms.as_slice();
        rows.push(Vec::from_slice(alloc, terms).ok()?).ok()?;
    }
    Some(System {
        columns: model.column_count(),
        rows,
        limits,
    })
}
