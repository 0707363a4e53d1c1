//! The parts of a program: terms, weights, rows, columns and notes.
ghost use Rattle.std.specs.Prelude.{◌≡◌};
ghost use Rattle.lp_model.specs.Shown.{new_column, new_row};

use crate::items::Items;
use frac128::Frac;
use std::marker::Model;

/// What it costs to miss a constraint by one. A rigid one may not be missed.
#[derive(Clone, Copy, PartialEq, Eq)]
pub enum Weight {
    Soft(Frac),
    Rigid,
}

/// What a reader did to the lower bound of a column, by the column's number.
#[derive(Clone, Copy)]
pub enum Note {
    LowerRemoved(u32),
    LowerKept(u32),
}

/// A factor times the variable of a column.
#[derive(Clone, Copy)]
pub struct Term {
    pub column: u32,
    pub factor: Frac,
}

impl Model for Term {
    ghost use Rattle.rational.specs.Linear.{Term as LinearTerm};

    ghost Value = { LinearTerm };

    ghost view = { λ t. record { column = t.column; factor = t.factor } };

    ghost inverse = { λ v. record { column = v.column; factor = v.factor } };
}

/// A linear form, as the list of its terms.
pub type Terms = Items<Term>;

/// A row without its name: its form, its sides, and their flags and weights.
///
/// The terms ascend by column, and no factor is 0. An absent side has the flag `true` and the weight 1.
#[derive(Clone, Drop)]
pub struct Row {
    pub terms: Terms,
    pub lo: Option<Frac>,
    pub up: Option<Frac>,
    pub lo_active: bool,
    pub up_active: bool,
    pub lo_weight: Weight,
    pub up_weight: Weight,
}

impl Row {
    /// The row of these terms between these sides, which are kept and weigh 1.
    pub fn new(terms: Terms, lo: Option<Frac>, up: Option<Frac>) -> Row
        ensures { result ≡ new_row terms lo up }
    {
        Row {
            terms,
            lo,
            up,
            lo_active: true,
            up_active: true,
            lo_weight: Weight::Soft(Frac::whole(1)),
            up_weight: Weight::Soft(Frac::whole(1)),
        }
    }
}

/// A column without its name: its bounds, its integrality mark, and their flags and weights.
///
/// An absent bound or mark has the flag `true` and the weight 1.
#[derive(Clone, Copy, PartialEq, Eq)]
pub struct Column {
    pub lo: Option<Frac>,
    pub up: Option<Frac>,
    pub whole: bool,
    pub lower_active: bool,
    pub upper_active: bool,
    pub whole_active: bool,
    pub lower_weight: Weight,
    pub upper_weight: Weight,
}

impl Column {
    /// The column between these bounds, with or without a mark; all of them are kept, and the bounds weigh 1.
    pub fn new(lo: Option<Frac>, up: Option<Frac>, whole: bool) -> Column
        ensures { result ≡ new_column lo up whole }
    {
        Column {
            lo,
            up,
            whole,
            lower_active: true,
            upper_active: true,
            whole_active: true,
            lower_weight: Weight::Soft(Frac::whole(1)),
            upper_weight: Weight::Soft(Frac::whole(1)),
        }
    }
}
