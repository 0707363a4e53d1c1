//! What is put in for a column, in forms, rows and objectives.
ghost use Rattle.std.specs.Prelude.{◌≡◌, ◌≢◌, ◌<◌, ◌^◌, ◌++◌, ◌∷◌, [], All, IfOk, IfSome, None, Some, cond, false, filter, length, map, nat_lt};
ghost use Rattle.std.specs.Option.{option_map};
ghost use Rattle.rational.specs.Rational.{◌-ℚ◌, ◌*ℚ◌, ◌/ℚ◌, zero_ℚ};
ghost use Rattle.rational.specs.Linear.{factor_of as factor_in};
ghost use Rattle.frac128.specs.Width.{operation};
ghost use Rattle.frac128.specs.declared.Op.TheVariants.{Minus, Over};
ghost use Rattle.certs.specs.Rows.{row_of};
ghost use Rattle.reductions.specs.Limited.{map_limits};
ghost use Rattle.reductions.specs.Reduction.{term_of, with_factor as form_with_factor, without_column};
ghost use Rattle.presolve.specs.Eliminated.{AreChanged, IsChanged, WhereNarrow, rows_steps, CanDivide, IsAscending, emptied, form_steps, gone_column, is_equation as is_its_row, less_steps, objective_steps, one_steps, put_number, row_steps, row_times, row_with as row_after, sides_steps, terms_steps, terms_with as terms_after, times_by, times_steps};

use crate::plans::NewRow;
use certs::Limits;
use frac128::Frac;
use lp_model::{Row, Term, Terms};
use reductions::Change;
use std::alloc::{AllocError, Global};

/// A row of two terms that is equal to a value: one column is kept, and the other one goes.
#[derive(Clone, Copy)]
pub(crate) struct Equation {
    pub(crate) row: u32,
    pub(crate) kept: Term,
    pub(crate) gone: Term,
    pub(crate) value: Frac,
}

/// What is put in for a column: a value, or what an equation makes of it.
#[derive(Clone, Copy)]
pub(crate) enum Elimination {
    Value { column: u32, value: Frac },
    Equation(Equation),
}

/// What the rows become: of each changed one how many times what is put in was taken from it, and the new rows.
#[derive(Drop)]
pub(crate) struct ChangedRows {
    pub(crate) changes: Vec<Change>,
    pub(crate) rows: Vec<NewRow>,
}

/// The same of an objective, with its new terms where it has other ones.
#[derive(Drop)]
pub(crate) struct ChangedObjective {
    pub(crate) times: Frac,
    pub(crate) terms: Option<Terms>,
}

// The same of one row.
#[derive(Drop)]
struct ChangedRow {
    times: Frac,
    row: Row,
}

impl Elimination {
    // The column that goes.
    fn column(&self) -> u32
        ensures { result ≡ gone_column self.now }
    {
        match self {
            Elimination::Value { column, .. } => *column,
            Elimination::Equation(equation) => equation.gone.column,
        }
    }

    // The value.
    fn value(&self) -> Frac
        ensures { result ≡ put_number self.now }
    {
        match self {
            Elimination::Value { value, .. } => *value,
            Elimination::Equation(equation) => equation.value,
        }
    }

    // Whether a row is the equation itself.
    fn is_equation(&self, index: u32) -> bool
        ensures { result ≡ is_its_row self.now index }
    {
        match self {
            Elimination::Value { .. } => false,
            Elimination::Equation(equation) => equation.row == index,
        }
    }

    // How many times what is put in is taken from a form with this factor of the column.
    fn times(&self, factor: Frac) -> Option<Frac>
        requires { CanDivide self.now }
        ensures { WhereNarrow (times_steps self.now factor) (λ t. t ≡ times_by self.now factor) result }
    {
        match self {
            Elimination::Value { .. } => Some(factor),
            Elimination::Equation(equation) => quotient(factor, equation.gone.factor),
        }
    }
}

// A quotient by a number that is not 0, where it is not too wide.
fn quotient(number: Frac, divisor: Frac) -> Option<Frac>
    requires { divisor ≢ zero_ℚ }
    ensures { WhereNarrow (operation Over number divisor ∷ []) (λ r. r ≡ number /ℚ divisor) result }
{
    match number.over(divisor) {
        Ok(quotient) => Some(quotient),
        Err(_) => None,
    }
}

/// The factor of a column in terms that ascend, or 0.
pub(crate) fn factor_of(terms: &[Term], column: u32) -> Frac
    requires { IsAscending terms.now }
    ensures { result ≡ factor_in terms.now column }
{
    for term in terms {
        if term.column == column {
            return term.factor;
        }
    }
    Frac::whole(0)
}

/// A number less the product of two others, where no operation is too wide.
pub(crate) fn less_product(number: Frac, left: Frac, right: Frac) -> Option<Frac>
    ensures { WhereNarrow (less_steps number left right) (λ r. r ≡ number -ℚ left *ℚ right) result }
{
    let Ok(product) = left.times(right) else {
        return None;
    };
    match number.minus(product) {
        Ok(less) => Some(less),
        Err(_) => None,
    }
}

// The terms without a column.
fn terms_without(alloc: Global, terms: &[Term], column: u32) -> Result<Vec<Term>, AllocError>
    ensures { IfOk result (λ others. others.items ≡ without_column column terms.now) }
{
    let mut others = Vec::new(alloc);
    for term in terms {
        if term.column != column {
            others.push(*term)?;
        }
    }
    Ok(others)
}

// The terms with another factor of a column.
fn with_factor(
    alloc: Global,
    terms: &[Term],
    column: u32,
    factor: Frac,
) -> Result<Vec<Term>, AllocError>
    ensures { IfOk result (λ changed. changed.items ≡ form_with_factor column factor terms.now) }
{
    let mut changed = Vec::new(alloc);
    push_below(&mut changed, terms, column)?;
    push_term(&mut changed, column, factor)?;
    push_above(&mut changed, terms, column)?;
    Ok(changed)
}

// The terms of columns below one go last.
fn push_below(changed: &mut Vec<Term>, terms: &[Term], column: u32) -> Result<(), AllocError>
    ensures { IfOk result (λ done. changed.new.items ≡ changed.old.items ++ filter (λ t. nat_lt t.column column) terms.now) }
{
    for term in terms {
        if term.column < column {
            changed.push(*term)?;
        }
    }
    Ok(())
}

// The terms of columns above one go last.
fn push_above(changed: &mut Vec<Term>, terms: &[Term], column: u32) -> Result<(), AllocError>
    ensures { IfOk result (λ done. changed.new.items ≡ changed.old.items ++ filter (λ t. nat_lt column t.column) terms.now) }
{
    for term in terms {
        if column < term.column {
            changed.push(*term)?;
        }
    }
    Ok(())
}

// A term goes last, where its factor is not 0.
fn push_term(changed: &mut Vec<Term>, column: u32, factor: Frac) -> Result<(), AllocError>
    ensures { IfOk result (λ done. changed.new.items ≡ changed.old.items ++ term_of column factor) }
{
    if factor == Frac::whole(0) {
        return Ok(());
    }
    changed.push(Term { column, factor })?;
    Ok(())
}

// A form from which what is put in is taken so many times.
fn terms_with(
    alloc: Global,
    elimination: &Elimination,
    terms: &[Term],
    times: Frac,
) -> Result<Option<Terms>, AllocError>
    requires { IsAscending terms.now }
    ensures { IfOk result (WhereNarrow (terms_steps elimination.now times terms.now)
        (λ made. made ≡ terms_after elimination.now times terms.now)) }
{
    let others = terms_without(alloc, terms, elimination.column())?;
    match elimination {
        Elimination::Value { .. } => Ok(Some(Terms::new(others))),
        Elimination::Equation(equation) => {
            let kept = equation.kept;
            let factor = factor_of(terms, kept.column);
            let Some(factor) = less_product(factor, times, kept.factor) else {
                return Ok(None);
            };
            let changed = with_factor(alloc, &others, kept.column, factor)?;
            Ok(Some(Terms::new(changed)))
        }
    }
}

// A side less a number, where it is there.
fn side_less(side: Option<Frac>, number: Frac) -> Option<Option<Frac>>
    ensures { WhereNarrow (one_steps (λ s. operation Minus s number ∷ []) side)
        (λ r. r ≡ option_map (λ s. s -ℚ number) side) result }
{
    let Some(side) = side else {
        return Some(None);
    };
    match side.minus(number) {
        Ok(less) => Some(Some(less)),
        Err(_) => None,
    }
}

// Sides less a product.
fn sides_less(sides: Limits, left: Frac, right: Frac) -> Option<Limits>
    ensures { WhereNarrow (sides_steps left right sides)
        (λ r. r ≡ map_limits (λ s. s -ℚ left *ℚ right) sides) result }
{
    let Ok(product) = left.times(right) else {
        return None;
    };
    let Some(lo) = side_less(sides.lo, product) else {
        return None;
    };
    let Some(up) = side_less(sides.up, product) else {
        return None;
    };
    Some(Limits { lo, up })
}

// A row that has the column, with this factor.
fn row_with(
    alloc: Global,
    elimination: &Elimination,
    row: &Row,
    factor: Frac,
) -> Result<Option<ChangedRow>, AllocError>
    requires ascending { IsAscending row.now.terms }
    requires factor { factor ≡ factor_in row.now.terms (gone_column elimination.now) }
    requires divisor { CanDivide elimination.now }
    ensures { IfOk result (WhereNarrow (row_steps elimination.now (row_of row.now))
        (λ made. (made.times ≡ row_times elimination.now (row_of row.now))
        × (row_of made.row ≡ row_after elimination.now (row_of row.now)))) }
{
    let Some(times) = elimination.times(factor) else {
        return Ok(None);
    };
    let sides = Limits {
        lo: row.lo,
        up: row.up,
    };
    let Some(sides) = sides_less(sides, times, elimination.value()) else {
        return Ok(None);
    };
    let made = terms_with(alloc, elimination, row.terms.as_slice(), times)?;
    let Some(terms) = made else {
        return Ok(None);
    };
    let row = Row::new(terms, sides.lo, sides.up);
    Ok(Some(ChangedRow { times, row }))
}

// The factor of the column in a row, or 0 in the equation itself, which is emptied.
fn factor_left(elimination: &Elimination, index: u32, row: &Row) -> Frac
    requires { IsAscending row.now.terms }
    ensures { result ≡ cond (is_its_row elimination.now index) zero_ℚ (factor_in row.now.terms (gone_column elimination.now)) }
{
    if elimination.is_equation(index) {
        return Frac::whole(0);
    }
    factor_of(row.terms.as_slice(), elimination.column())
}

// The equation, emptied, where there is one.
fn emptied_rows(alloc: Global, elimination: &Elimination) -> Result<Vec<NewRow>, AllocError>
    ensures { IfOk result (λ rows. rows.items ≡ emptied elimination.now) }
{
    let mut rows = Vec::new(alloc);
    if let Elimination::Equation(equation) = elimination {
        rows.push(NewRow {
            index: equation.row,
            row: Row::new(Terms::new(Vec::new(alloc)), None, None),
        })?;
    }
    Ok(rows)
}

/// The rows that have the column, after what is put in for it is taken from them, and the equation itself emptied. Nothing
/// where an operation is too wide.
///
/// # Errors
///
/// There is no memory for the rows.
pub(crate) fn changed_rows(
    alloc: Global,
    elimination: &Elimination,
    rows: &[Row],
) -> Result<Option<ChangedRows>, AllocError>
    requires forms { All (λ r. IsAscending r.terms) rows.now }
    requires small { length rows.now < 2 ^ 31 }
    requires divisor { CanDivide elimination.now }
    ensures { IfOk result (WhereNarrow (rows_steps elimination.now (map row_of rows.now))
        (λ made. AreChanged elimination.now (map row_of rows.now) made.changes.items made.rows.items)) }
{
    let zero = Frac::whole(0);
    let mut changes = Vec::new(alloc);
    let mut changed = emptied_rows(alloc, elimination)?;
    for (place, row) in rows.iter().enumerate() {
        let index = place as u32;
        let factor = factor_left(elimination, index, row);
        if factor == zero {
            continue;
        }
        let made = row_with(alloc, elimination, row, factor)?;
        let Some(made) = made else {
            return Ok(None);
        };
        changes.push(Change {
            row: index,
            factor: made.times,
        })?;
        changed.push(NewRow {
            index,
            row: made.row,
        })?;
    }
    Ok(Some(ChangedRows {
        changes,
        rows: changed,
    }))
}

/// The objective, where there is one, after what is put in for the column is taken from it. Nothing where an operation is too
/// wide.
///
/// # Errors
///
/// There is no memory for the terms.
pub(crate) fn changed_objective(
    alloc: Global,
    elimination: &Elimination,
    objective: &Option<Terms>,
) -> Result<Option<ChangedObjective>, AllocError>
    requires form { IfSome objective.now IsAscending }
    requires divisor { CanDivide elimination.now }
    ensures { IfOk result (WhereNarrow (objective_steps elimination.now objective.now)
        (λ made. IsChanged elimination.now objective.now made.times made.terms)) }
{
    match objective {
        Some(terms) => changed_form(alloc, elimination, terms.as_slice()),
        None => Ok(Some(ChangedObjective {
            times: Frac::whole(0),
            terms: None,
        })),
    }
}

// The same of its terms.
fn changed_form(
    alloc: Global,
    elimination: &Elimination,
    terms: &[Term],
) -> Result<Option<ChangedObjective>, AllocError>
    requires form { IsAscending terms.now }
    requires divisor { CanDivide elimination.now }
    ensures { IfOk result (WhereNarrow (form_steps elimination.now terms.now)
        (λ made. IsChanged elimination.now (Some terms.now) made.times made.terms)) }
{
    let zero = Frac::whole(0);
    let factor = factor_of(terms, elimination.column());
    if factor == zero {
        return Ok(Some(ChangedObjective {
            times: zero,
            terms: None,
        }));
    }
    let Some(times) = elimination.times(factor) else {
        return Ok(None);
    };
    let made = terms_with(alloc, elimination, terms, times)?;
    let Some(changed) = made else {
        return Ok(None);
    };
    Ok(Some(ChangedObjective {
        times,
        terms: Some(changed),
    }))
}
