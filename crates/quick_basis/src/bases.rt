//! A basis of a program, factored, with where each variable stands.
ghost use Rattle.certs.specs.Checks.{IsSetOf};

use crate::limits::{column_limits, row_limits};
use crate::variables::Variable;
use certs::{Branch, MemberSet, Side};
use factors::{Columns, Entry, Factors, SparseVector, at, is_zero, put};
use frac128::Frac;
use lp_model::Model;
use std::alloc::Global;

/// A basic variable that cannot come to its limit on a side: the basis' row, which is kept until another one is solved for,
/// has every other variable at a limit.
#[derive(Clone, Copy)]
pub struct Blocked {
    pub slot: u32,
    pub side: Side,
}

/// The columns and then the rows of a program as variables, of which each slot of the basis has one.
///
/// Each row of the program is an equation in whole numbers between its columns and its own variable, by rows and by columns.
/// `solved` is over slots, `row` over variables, `costs` over slots: what was solved for last. `outside` lists the slots whose
/// variables may miss a limit.
#[derive(Drop)]
pub struct Basis {
    pub variables: Vec<Variable>,
    pub columns: u32,
    pub by_row: Columns,
    pub by_column: Columns,
    pub head: Vec<u32>,
    pub factors: Factors,
    pub solved: SparseVector,
    pub costs: SparseVector,
    pub prices: SparseVector,
    pub row: SparseVector,
    pub lengths: Vec<u64>,
    pub counts: Vec<u64>,
    pub outside: Vec<u32>,
    pub is_listed: Vec<bool>,
    pub blocked: Option<Blocked>,
    /// The last variable whose limits cross, where some do.
    pub crossed: Option<u32>,
    /// Whether a value whose parts pass 32 bits ends a run.
    pub is_narrow: bool,
}

impl Basis {
    /// What is known of a variable.
    pub fn variable(&self, variable: u32) -> Option<&Variable> {
        self.variables.get(variable as usize)
    }

    /// The variable of a slot.
    pub fn base(&self, slot: u32) -> Option<u32> {
        at(&self.head, slot)
    }

    /// What is known of the variable of a slot.
    pub fn basic(&self, slot: u32) -> Option<&Variable> {
        self.variable(self.base(slot)?)
    }

    /// Puts the variables under the limits of a set, narrowed by the branches of a path, and moves each nonbasic one that is
    /// outside to the limit that it misses. None where a branch is on no column.
    pub fn limit(
        &mut self,
        alloc: Global,
        model: &Model,
        set: &MemberSet,
        path: &[Branch],
    ) -> Option<()>
        requires same { IsSetOf model.now set.now }
    {
        self.put_all_limits(model, set)?;
        for branch in path {
            if branch.column >= self.columns {
                return None;
            }
            let number = Frac::new(branch.at, 1).ok()?;
            let known = self.variables.get_mut(branch.column as usize)?;
            known.narrow(number, branch.upper);
        }
        self.bring_inside(alloc)
    }

    /// Puts the variables under the limits of a set, and moves none.
    pub fn put_all_limits(&mut self, model: &Model, set: &MemberSet) -> Option<()>
        requires same { IsSetOf model.now set.now }
    {
        let columns = model.column_count();
        for index in 0..columns {
            let limits = column_limits(model, set, index);
            self.variables.get_mut(index as usize)?.put_limits(limits);
        }
        for index in 0..model.row_count() {
            let variable = columns.checked_add(index)? as usize;
            let limits = row_limits(model, set, index);
            self.variables.get_mut(variable)?.put_limits(limits);
        }
        Some(())
    }

    /// Whether a branch gives the limit of a variable on a side.
    pub fn is_branched(&self, variable: u32, side: Side) -> bool {
        match (self.variable(variable), side) {
            (None, _) => false,
            (Some(known), Side::Lo) => known.is_raised,
            (Some(known), Side::Up) => known.is_lowered,
        }
    }

    // Moves the nonbasic variables that are outside their limits to those that they miss, and the basic ones with them.
    fn bring_inside(&mut self, alloc: Global) -> Option<()> {
        let mut right = SparseVector::new(alloc, self.head.len())?;
        let mut moved = false;
        self.crossed = None;
        for variable in 0..u32::try_from(self.variables.len()).ok()? {
            let known = self.variables.get_mut(variable as usize)?;
            if known.is_crossed() {
                self.crossed = Some(variable);
            } else if known.slot.is_none()
                && let Some(side) = known.missed
            {
                let limit = known.limit_on(side)?;
                let step = limit.minus(known.value).ok()?;
                known.put_at(limit);
                take_off(&mut right, &self.by_column, variable, step)?;
                moved = true;
            }
        }
        if !moved {
            return Some(());
        }
        self.factors.solve(right.entries(), &mut self.solved)?;
        self.shift_basics(Frac::whole(-1))
    }

    /// Solves for how the basic variables change as a nonbasic one rises: so many times `solved` they fall.
    pub fn solve_column(&mut self, variable: u32) -> Option<()> {
        self.factors
            .solve(self.by_column.column(variable)?, &mut self.solved)
    }

    /// Solves for the row of a basic variable: with so many times `row` of the nonbasic ones it is 0.
    pub fn solve_unit_row(&mut self, slot: u32) -> Option<()> {
        self.costs.clear();
        self.costs.set(slot, Frac::whole(1))?;
        self.solve_row()
    }

    /// Solves for the sum of the rows of basic variables, each as often as `costs` says, which are 0 then.
    pub fn solve_row(&mut self) -> Option<()> {
        self.blocked = None;
        self.factors
            .solve_transposed(&mut self.costs, &mut self.prices)?;
        self.costs.clear();
        self.row.clear();
        for entry in self.prices.entries() {
            if !is_zero(entry.value) {
                let row = self.by_row.column(entry.place)?;
                add_row(&mut self.row, &self.variables, row, entry.value.negate())?;
            }
        }
        Some(())
    }

    /// Moves a nonbasic variable by a step, for which `solved` was solved, and the basic ones with it.
    pub fn shift(&mut self, variable: u32, step: Frac) -> Option<()> {
        if is_zero(step) {
            return Some(());
        }
        self.shift_basics(step)?;
        let known = self.variables.get_mut(variable as usize)?;
        known.put_at(known.value.plus(step).ok()?);
        Some(())
    }

    // Moves the basic variables against so many times `solved`.
    fn shift_basics(&mut self, step: Frac) -> Option<()> {
        for entry in self.solved.entries() {
            if is_zero(entry.value) {
                continue;
            }
            let base = at(&self.head, entry.place)?;
            let known = self.variables.get_mut(base as usize)?;
            if known.fall(entry.value, step, self.is_narrow)? {
                list(&mut self.outside, &mut self.is_listed, entry.place)?;
            }
        }
        Some(())
    }

    /// Puts a nonbasic variable, for which `solved` was solved, into a slot. Where none is returned, the basis is of no more use.
    pub fn exchange(&mut self, alloc: Global, slot: u32, variable: u32) -> Option<()> {
        self.blocked = None;
        self.factors.exchange(slot, &self.solved)?;
        let leaves = at(&self.head, slot)?;
        put(&mut self.head, slot, variable)?;
        self.variables.get_mut(leaves as usize)?.slot = None;
        let known = self.variables.get_mut(variable as usize)?;
        known.slot = Some(slot);
        if known.missed.is_some() {
            list(&mut self.outside, &mut self.is_listed, slot)?;
        }
        if self.factors.are_stale() {
            return self.refactor(alloc);
        }
        Some(())
    }

    /// Makes the factors anew, whose numbers are often less wide then. Where none is returned, the basis is of no more use.
    pub fn refactor(&mut self, alloc: Global) -> Option<()> {
        self.factors = Factors::new(alloc, &self.by_column, self.head.as_slice())?;
        Some(())
    }

    /// Takes another basis, by the variable of each slot; each variable without one stands at its limit on a side, where there is
    /// one. The values of the basic ones stay as they are. Where none is returned, the basis is of no more use.
    pub fn stand(&mut self, alloc: Global, head: &[u32], sides: &[Option<Side>]) -> Option<()> {
        self.blocked = None;
        self.head = Vec::from_slice(alloc, head).ok()?;
        self.refactor(alloc)?;
        let count = self.variables.len().min(sides.len());
        for variable in 0..u32::try_from(count).ok()? {
            let known = self.variables.get_mut(variable as usize)?;
            known.slot = None;
            if let Some(Some(side)) = at(sides, variable)
                && let Some(limit) = known.limit_on(side)
            {
                known.put_at(limit);
            }
        }
        for slot in 0..u32::try_from(head.len()).ok()? {
            let base = at(head, slot)?;
            self.variables.get_mut(base as usize)?.slot = Some(slot);
        }
        Some(())
    }

    /// Solves for the values of the basic variables by those of the others.
    pub fn solve_values(&mut self, alloc: Global) -> Option<()> {
        let mut right = SparseVector::new(alloc, self.head.len())?;
        for variable in 0..u32::try_from(self.variables.len()).ok()? {
            let known = self.variable(variable)?;
            if known.slot.is_none() && !is_zero(known.value) {
                take_off(&mut right, &self.by_column, variable, known.value)?;
            }
        }
        self.factors.solve(right.entries(), &mut self.solved)?;
        for slot in 0..u32::try_from(self.head.len()).ok()? {
            let value = self.solved.value(slot)?;
            let base = at(&self.head, slot)?;
            self.variables.get_mut(base as usize)?.put_at(value);
        }
        Some(())
    }

    /// Lists the slots whose variables miss a limit.
    pub fn list_outside(&mut self) -> Option<()> {
        self.outside.clear();
        for slot in 0..u32::try_from(self.head.len()).ok()? {
            let misses = self.basic(slot)?.missed.is_some();
            put(&mut self.is_listed, slot, misses)?;
            if misses {
                self.outside.push(slot).ok()?;
            }
        }
        Some(())
    }
}

// Lists a slot, where it is not listed yet.
fn list(outside: &mut Vec<u32>, is_listed: &mut Vec<bool>, slot: u32) -> Option<()> {
    if at(is_listed, slot)? {
        return Some(());
    }
    put(is_listed, slot, true)?;
    outside.push(slot).ok()
}

/// Takes so many times the column of a variable off a right side.
pub fn take_off(
    right: &mut SparseVector,
    columns: &Columns,
    variable: u32,
    times: Frac,
) -> Option<()> {
    right.subtract_all(columns.column(variable)?, times)
}

// Takes so many times a row off that of the nonbasic variables.
fn add_row(
    row: &mut SparseVector,
    variables: &[Variable],
    entries: &[Entry],
    times: Frac,
) -> Option<()> {
    for entry in entries {
        if variables.get(entry.place as usize)?.slot.is_none() {
            row.subtract(entry.place, entry.value, times)?;
        }
    }
    Some(())
}
