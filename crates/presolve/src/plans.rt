//! What a rule finds.
use certs::{Limits, Shares};
use lp_model::{Row, Terms};
use reductions::Step;
use std::marker::Model;

/// New limits of a column.
#[derive(Clone, Copy)]
pub struct NewLimits {
    pub column: u32,
    pub limits: Limits,
}

impl Model for NewLimits {
    ghost use Rattle.certs.specs.System.{Limits as VariableLimits};
    ghost use Rattle.presolve.specs.Plans.{At};

    ghost Value = { At VariableLimits };

    ghost view = { λ n. record { number = n.column; item = n.limits } };

    ghost inverse = { λ v. record { column = v.number; limits = v.item } };
}

/// A new row.
#[derive(Drop)]
pub struct NewRow {
    pub index: u32,
    pub row: Row,
}

impl Model for NewRow {
    ghost use Rattle.certs.specs.Rows.{row_of};
    ghost use Rattle.certs.specs.System.{SystemRow};
    ghost use Rattle.presolve.specs.Plans.{At};

    ghost Value = { At SystemRow };

    ghost view = { λ n. record { number = n.index; item = row_of n.row } };
}

/// A step, with what it makes of the system: new limits of columns, new rows, and the objective's new terms where it has other ones.
#[derive(Drop)]
pub struct Plan {
    pub step: Step,
    pub columns: Vec<NewLimits>,
    pub rows: Vec<NewRow>,
    pub objective: Option<Terms>,
}

impl Model for Plan {
    ghost use Rattle.presolve.specs.Plans.{PlanValue};

    ghost Value = { PlanValue };

    ghost view = { λ p. record { step = p.step; columns = p.columns.items; rows = p.rows.items; objective = p.objective } };
}

/// What is next: a step, or shares that contradict one another.
#[derive(Drop)]
pub enum Next {
    Plan(Plan),
    Contradiction(Shares),
}
