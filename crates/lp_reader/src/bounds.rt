//! Statements of bounds and marks.
ghost use Rattle.std.specs.Prelude.{◌≡◌, ◌<◌, ◌||◌, None, length, MatchResult};
ghost use Rattle.name_map.specs.Names.{names_of, StandsAt};
ghost use Rattle.lp_statements.specs.Statements.{shown_text};
ghost use Rattle.lp_reader.specs.Faults.{unknown_fault};
ghost use Rattle.lp_reader.specs.Bounds.{said_of, is_said, said_first, bound_after};
ghost use Rattle.lp_reader.specs.Said.{lower_by, upper_by, changed, SetsBounds};
ghost use Rattle.text_fields.specs.Faults.{IsFaultOf};

use crate::columns::{Bounds, Columns, place_of};
use frac128::Frac;
use lp_statements::{Relation, Text};
use text_fields::{ReadFault, ReadKind};

/// What a statement says of a bound.
#[derive(Clone, Copy)]
pub(crate) enum Said {
    /// Nothing: it stays as it is.
    Nothing,
    /// That there is none.
    Unbounded,
    /// That it is this.
    At(Frac),
}

impl Said {
    /// What a side says: that there is no bound, or which.
    pub fn of(side: Option<Frac>) -> Said
        ensures { result ≡ said_of side }
    {
        match side {
            Some(value) => Said::At(value),
            None => Said::Unbounded,
        }
    }

    /// Whether anything is said.
    fn is_something(&self) -> bool
        ensures { result ≡ is_said self.now }
    {
        !matches!(self, Said::Nothing)
    }

    /// This, or, where it is nothing, what is said then.
    fn or(&self, later: &Said) -> Said
        ensures { result ≡ said_first self.now later.now }
    {
        match self {
            Said::Nothing => *later,
            _ => *self,
        }
    }

    /// The bound after what is said of it.
    pub fn after(&self, old: Option<Frac>) -> Option<Frac>
        ensures { result ≡ bound_after old self.now }
    {
        match self {
            Said::Nothing => old,
            Said::Unbounded => None,
            Said::At(value) => Some(*value),
        }
    }
}

/// The number of a column that has to be there.
#[tactic(auto, unfolding(crate::specs::Faults::unknown_fault))]
pub(crate) fn known_column(columns: &Columns, name: Text<'_>) -> Result<usize, ReadFault>
    ensures { MatchResult result
        (λ j. (unknown_fault (names_of columns.now.names) (shown_text name.entry) ≡ None) × StandsAt (names_of columns.now.names) name.entry.bytes.now j)
        (IsFaultOf (unknown_fault (names_of columns.now.names) (shown_text name.entry))) }
{
    let Some(column) = place_of(&columns.names, name.bytes) else {
        return Err(ReadFault::stop_at(name.line, ReadKind::UnknownName));
    };
    Ok(column)
}

/// What a bound statement says of the lower bound, by what its constants say.
pub(crate) fn lower_said(left: &Said, relation: Relation, right: &Said) -> Said
    ensures { result ≡ lower_by left.now relation right.now }
{
    match relation {
        Relation::AtMost => *left,
        Relation::AtLeast => *right,
        Relation::Equal => left.or(right),
    }
}

/// And of the upper one.
pub(crate) fn upper_said(left: &Said, relation: Relation, right: &Said) -> Said
    ensures { result ≡ upper_by left.now relation right.now }
{
    match relation {
        Relation::AtMost => *right,
        Relation::AtLeast => *left,
        Relation::Equal => left.or(right),
    }
}

/// Bounds after a statement: what it does not set stays.
fn changed_bounds(old: Bounds, lower: Said, upper: Said, whole: bool) -> Bounds
    ensures { result ≡ changed old lower upper whole }
{
    Bounds {
        lo: lower.after(old.lo),
        up: upper.after(old.up),
        whole: old.whole || whole,
        lower_set: old.lower_set || lower.is_something(),
    }
}

/// Sets the bounds and the mark of a column.
pub(crate) fn set_bounds(
    columns: &mut Columns,
    column: usize,
    lower: Said,
    upper: Said,
    whole: bool,
)
    requires { column < length columns.old.bounds.items }
    ensures { SetsBounds columns.old columns.new column lower upper whole }
{
    let old = columns.bounds[column];
    columns.bounds[column] = changed_bounds(old, lower, upper, whole);
}
