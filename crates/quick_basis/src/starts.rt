//! The basis at the start: the rows are basic, and each column stands at its lower limit, else at its upper one, else at 0.
ghost use Rattle.certs.specs.Checks.{IsSetOf};

use crate::bases::Basis;
use crate::limits::{column_limits, row_limits};
use crate::numbers::scale_of;
use crate::variables::Variable;
use certs::MemberSet;
use factors::{Columns, Factors, SparseVector};
use frac128::Frac;
use lp_model::{Model, Term};
use std::alloc::Global;

/// The basis of a program under the limits of a set; none where a row does not fit, or memory is refused.
pub fn start(alloc: Global, model: &Model, set: &MemberSet) -> Option<Basis>
    requires same { IsSetOf model.now set.now }
{
    let variables = variables(alloc, model, set)?;
    let mut head = Vec::new(alloc);
    let by_row = rows(alloc, model, &mut head)?;
    let mut basis = basis_of_rows(alloc, model.column_count(), variables, by_row, head)?;
    basis.fill(alloc, model)?;
    Some(basis)
}

// What is solved for in a basis, all 0.
#[derive(Drop)]
struct Solved {
    solved: SparseVector,
    costs: SparseVector,
    prices: SparseVector,
    row: SparseVector,
}

// What is solved for in a basis of so many rows and variables.
fn unsolved(alloc: Global, rows: usize, variables: usize) -> Option<Solved> {
    let solved = SparseVector::new(alloc, rows)?;
    let costs = SparseVector::new(alloc, rows)?;
    let prices = SparseVector::new(alloc, rows)?;
    let row = SparseVector::new(alloc, variables)?;
    Some(Solved {
        solved,
        costs,
        prices,
        row,
    })
}

// The basis of these variables of the rows, behind so many columns, which is still to be filled.
fn basis_of_rows(
    alloc: Global,
    columns: u32,
    variables: Vec<Variable>,
    by_row: Columns,
    head: Vec<u32>,
) -> Option<Basis> {
    let by_column = by_row.transposed(alloc, variables.len())?;
    let factors = Factors::new(alloc, &by_column, head.as_slice())?;
    let vectors = unsolved(alloc, head.len(), variables.len())?;
    Some(Basis {
        variables,
        columns,
        by_row,
        by_column,
        head,
        factors,
        solved: vectors.solved,
        costs: vectors.costs,
        prices: vectors.prices,
        row: vectors.row,
        lengths: Vec::new(alloc),
        counts: Vec::new(alloc),
        outside: Vec::new(alloc),
        is_listed: Vec::new(alloc),
        blocked: None,
        crossed: None,
        is_narrow: false,
    })
}

// The columns and then the rows, the columns at limits.
fn variables(alloc: Global, model: &Model, set: &MemberSet) -> Option<Vec<Variable>>
    requires same { IsSetOf model.now set.now }
{
    let mut variables = Vec::new(alloc);
    for index in 0..model.column_count() {
        let limits = column_limits(model, set, index);
        variables.push(Variable::at_start(limits, None)).ok()?;
    }
    for index in 0..model.row_count() {
        let limits = row_limits(model, set, index);
        variables
            .push(Variable::at_start(limits, Some(index)))
            .ok()?;
    }
    Some(variables)
}

// The rows as equations in whole numbers, each with its own variable, which is put to the head.
fn rows(alloc: Global, model: &Model, head: &mut Vec<u32>) -> Option<Columns> {
    let mut rows = Columns::new(alloc)?;
    for index in 0..model.row_count() {
        let terms = model.row(index).terms.as_slice();
        let variable = model.column_count().checked_add(index)?;
        head.push(variable).ok()?;
        put_row(&mut rows, terms, variable)?;
    }
    Some(rows)
}

// Puts the row whose variable is the sum of these terms.
fn put_row(rows: &mut Columns, terms: &[Term], variable: u32) -> Option<()> {
    let scale = scale_of(terms)?;
    for term in terms {
        rows.push(term.column, term.factor.times(scale).ok()?)?;
    }
    rows.push(variable, scale.negate())?;
    rows.end()
}

impl Basis {
    // Counts the entries, lists no slot, and puts the variable of each row at the sum of its terms.
    fn fill(&mut self, alloc: Global, model: &Model) -> Option<()> {
        self.counts = self.by_column.lengths(alloc)?;
        self.lengths = self.by_row.lengths(alloc)?;
        self.is_listed = vec![in alloc; false; self.head.len()].ok()?;
        for index in 0..model.row_count() {
            let sum = self.sum(model.row(index).terms.as_slice())?;
            let base = self.base(index)?;
            self.variables.get_mut(base as usize)?.put_at(sum);
        }
        Some(())
    }

    // The sum of terms.
    fn sum(&self, terms: &[Term]) -> Option<Frac> {
        let mut sum = Frac::whole(0);
        for term in terms {
            let value = self.variable(term.column)?.value;
            if value.num() != 0 {
                sum = sum.plus(term.factor.times(value).ok()?).ok()?;
            }
        }
        Some(sum)
    }
}
