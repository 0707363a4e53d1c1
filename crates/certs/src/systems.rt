//! Linear systems: limits of columns and rows, and an objective.
use frac128::Frac;
use lp_model::{Row, Terms};
use std::marker::Model;

/// A least and a greatest value, each where it is there.
#[derive(Clone, Copy)]
pub struct Limits {
    pub lo: Option<Frac>,
    pub up: Option<Frac>,
}

impl Model for Limits {
    ghost use Rattle.certs.specs.System.{Limits as VariableLimits};

    ghost Value = { VariableLimits };

    ghost view = { λ l. record { lower = l.lo; upper = l.up } };

    ghost inverse = { λ v. record { lo = v.lower; up = v.upper } };
}

/// Columns with limits, rows with sides, and where there is one an objective that is to be made greatest.
///
/// The terms of the rows and of the objective ascend over the columns, and no factor is 0. Of a row only the terms and the
/// sides count. Contracts see the lists.
#[derive(Drop)]
pub struct System {
    pub columns: Vec<Limits>,
    pub rows: Vec<Row>,
    pub objective: Option<Terms>,
}

impl Model for System {
    ghost use Rattle.std.specs.Prelude.{map};
    ghost use Rattle.certs.specs.System.{LinearSystem};
    ghost use Rattle.certs.specs.Rows.{row_of};

    ghost Value = { LinearSystem };

    ghost view = { λ s. record { columns = s.columns.items; rows = map row_of s.rows.items; objective = s.objective } };
}
