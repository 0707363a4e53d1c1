//! The guide: where each variable of a program stands, in rounded numbers.
use crate::products::{Entry, Product};
use crate::rounded::Rounded;
use crate::systems::System;
use crate::turns::Leaving;
use certs::Side;
use std::alloc::Global;

/// A least and a greatest number, each where it is there.
#[derive(Clone, Copy)]
pub struct Range {
    pub lo: Option<Rounded>,
    pub up: Option<Rounded>,
}

impl Range {
    /// The limit on a side.
    pub(crate) fn limit_on(&self, side: Side) -> Option<Rounded> {
        match side {
            Side::Lo => self.lo,
            Side::Up => self.up,
        }
    }
}

/// The limit of a variable on a side, so many times.
#[derive(Clone, Copy)]
pub struct RoughWeight {
    pub variable: u32,
    pub side: Side,
    pub weight: Rounded,
}

/// The columns and then the rows of a program as variables, each with a range, a value and a cost, which is made up; those of the
/// basis have slots, and the others stand at sides, where they have limits.
#[derive(Drop)]
pub struct Guide {
    pub(crate) columns: u32,
    pub(crate) by_row: Vec<Vec<Entry>>,
    pub(crate) by_column: Vec<Vec<Entry>>,
    pub(crate) ranges: Vec<Range>,
    pub(crate) values: Vec<Rounded>,
    pub(crate) slots: Vec<Option<u32>>,
    pub(crate) sides: Vec<Option<Side>>,
    pub(crate) costs: Vec<Rounded>,
    pub(crate) prices: Vec<Rounded>,
    pub(crate) head: Vec<u32>,
    pub(crate) product: Product,
    pub(crate) inverted: usize,
    pub(crate) row: Vec<Rounded>,
    pub(crate) blocked: Option<Leaving>,
    pub(crate) effort: usize,
}

/// The other side.
pub(crate) fn opposite(side: Side) -> Side {
    match side {
        Side::Lo => Side::Up,
        Side::Up => Side::Lo,
    }
}

/// The cost that is made up for a variable that stands at a side: from 1 to 1.5, all different; nothing where it stands at none.
pub(crate) fn made_up(variable: u32, side: Option<Side>) -> Rounded {
    let cost = (1 << 20) + i128::from(variable.wrapping_mul(2_654_435_761) >> 13);
    match side {
        Some(Side::Lo) => Rounded::scaled(cost, -20),
        Some(Side::Up) => Rounded::scaled(cost, -20).negate(),
        None => Rounded::zero(),
    }
}

impl Guide {
    /// The rows are the basis, and nothing has a limit.
    pub fn new(alloc: Global, system: &System) -> Option<Guide> {
        let columns = system.columns;
        let by_row = rows(alloc, system)?;
        let count = (columns as usize).checked_add(by_row.len())?;
        let by_column = transposed(alloc, by_row.as_slice(), count)?;
        let nowhere = Range { lo: None, up: None };
        let mut slots = vec![in alloc; None; count].ok()?;
        let mut head = Vec::new(alloc);
        for row in 0..system.row_count() {
            let variable = columns.checked_add(row)?;
            *slots.get_mut(variable as usize)? = Some(row);
            head.push(variable).ok()?;
        }
        Some(Guide {
            columns,
            by_row,
            by_column,
            ranges: vec![in alloc; nowhere; count].ok()?,
            values: vec![in alloc; Rounded::zero(); count].ok()?,
            slots,
            sides: vec![in alloc; None; count].ok()?,
            costs: vec![in alloc; Rounded::zero(); count].ok()?,
            prices: vec![in alloc; Rounded::scaled(1, 0); count].ok()?,
            head,
            product: Product::new(alloc),
            inverted: 0,
            row: Vec::new(alloc),
            blocked: None,
            effort: 0,
        })
    }

    /// Forgets how much the runs so far have looked at, which is bounded.
    pub fn rest(&mut self) {
        self.effort = 0;
    }

    /// Puts the variables under these limits: one without a slot stays at its side, where there is a limit.
    pub fn limit_to(&mut self, alloc: Global, ranges: &[Range]) -> Option<()> {
        for variable in 0..u32::try_from(self.ranges.len()).ok()? {
            let range = *ranges.get(variable as usize)?;
            *self.ranges.get_mut(variable as usize)? = range;
            if self.slot(variable)?.is_none() {
                self.stand(variable, range)?;
            }
        }
        self.put_values(alloc)
    }

    // Puts a variable without a slot at its side, else at one where there is a limit, else at 0.
    fn stand(&mut self, variable: u32, range: Range) -> Option<()> {
        let last = self.sides.get_mut(variable as usize)?;
        let side = match *last {
            Some(side) if range.limit_on(side).is_some() => Some(side),
            _ if range.lo.is_some() => Some(Side::Lo),
            _ if range.up.is_some() => Some(Side::Up),
            _ => None,
        };
        if side != *last {
            *self.costs.get_mut(variable as usize)? = made_up(variable, side);
        }
        *last = side;
        let limit = match side {
            Some(side) => range.limit_on(side)?,
            None => Rounded::zero(),
        };
        *self.values.get_mut(variable as usize)? = limit;
        Some(())
    }

    /// Solves for the values of the basic variables by those of the others.
    pub(crate) fn put_values(&mut self, alloc: Global) -> Option<()> {
        let values = self.basic_values(alloc)?;
        for (base, value) in self.head.iter().zip(values.iter()) {
            *self.values.get_mut(*base as usize)? = *value;
        }
        Some(())
    }

    // The values of the basic variables, by slots, that follow from those of the others.
    fn basic_values(&self, alloc: Global) -> Option<Vec<Rounded>> {
        let mut values = vec![in alloc; Rounded::zero(); self.head.len()].ok()?;
        for (variable, column) in (0..).zip(self.by_column.iter()) {
            let times = self.value(variable)?;
            if self.slot(variable)?.is_none() && !times.is_zero() {
                for entry in column.iter() {
                    let value = values.get_mut(entry.place as usize)?;
                    *value = value.minus(entry.value.times(times));
                }
            }
        }
        self.product.solve(values.as_mut_slice())?;
        Some(values)
    }

    /// Makes the inverse of the basis anew: the rows' own variables keep their slots, and the columns come in by their lengths,
    /// each where it has a great value, in a short row. None where the basis is singular.
    pub(crate) fn invert(&mut self, alloc: Global) -> Option<()> {
        self.product = Product::new(alloc);
        let mut open = vec![in alloc; true; self.head.len()].ok()?;
        let mut coming = Vec::new(alloc);
        for base in self.head.iter() {
            match base.checked_sub(self.columns) {
                Some(row) => *open.get_mut(row as usize)? = false,
                None => {
                    let length = self.by_column.get(*base as usize)?.len();
                    coming.push((length, *base)).ok()?;
                }
            }
        }
        coming.sort_unstable();
        for base in 0..self.head.len() {
            *self.head.get_mut(base)? = self.columns.checked_add(u32::try_from(base).ok()?)?;
        }
        for (_, variable) in coming.iter() {
            let solved = self.solved(alloc, *variable)?;
            let slot = self.widest(open.as_slice(), solved.as_slice())?;
            self.product.push(alloc, slot, solved.as_slice())?;
            *open.get_mut(slot as usize)? = false;
            *self.head.get_mut(slot as usize)? = *variable;
        }
        self.inverted = self.product.count();
        for (slot, base) in (0..).zip(self.head.iter()) {
            *self.slots.get_mut(*base as usize)? = Some(slot);
        }
        self.put_values(alloc)
    }

    // Of the open slots where a column has more than a sixteenth of its greatest value the one of the shortest row.
    fn widest(&self, open: &[bool], solved: &[Rounded]) -> Option<u32> {
        let mut greatest = Rounded::zero();
        for (is_open, value) in open.iter().zip(solved.iter()) {
            if *is_open && value.key() > greatest.key() {
                greatest = *value;
            }
        }
        let mut best: Option<(usize, u32)> = None;
        for (slot, value) in (0u32..).zip(solved.iter()) {
            if *open.get(slot as usize)?
                && !value.is_zero()
                && value.top() > greatest.top().saturating_sub(4)
            {
                let key = (self.by_row.get(slot as usize)?.len(), slot);
                if best.is_none_or(|least| key < least) {
                    best = Some(key);
                }
            }
        }
        Some(best?.1)
    }

    /// How the basic variables fall as a variable without a slot rises.
    pub(crate) fn solved(&mut self, alloc: Global, variable: u32) -> Option<Vec<Rounded>> {
        self.effort = self.effort.saturating_add(self.product.size());
        let mut solved = vec![in alloc; Rounded::zero(); self.head.len()].ok()?;
        for entry in self.by_column.get(variable as usize)?.iter() {
            *solved.get_mut(entry.place as usize)? = entry.value;
        }
        self.product.solve(solved.as_mut_slice())?;
        Some(solved)
    }

    /// The row of a slot: with so many times it of the variables without slots its own one is 0.
    pub(crate) fn unit_row(&mut self, alloc: Global, slot: u32) -> Option<Vec<Rounded>> {
        let size = self.product.size().saturating_add(self.values.len());
        self.effort = self.effort.saturating_add(size);
        let mut times = vec![in alloc; Rounded::zero(); self.head.len()].ok()?;
        *times.get_mut(slot as usize)? = Rounded::scaled(1, 0);
        self.product.solve_transposed(times.as_mut_slice())?;
        self.sum_of_rows(alloc, times.as_slice())
    }

    // The sum of rows, each so many times, over the variables without slots.
    fn sum_of_rows(&self, alloc: Global, times: &[Rounded]) -> Option<Vec<Rounded>> {
        let mut sums = vec![in alloc; Rounded::zero(); self.values.len()].ok()?;
        for (entries, times) in self.by_row.iter().zip(times.iter()) {
            if times.is_zero() {
                continue;
            }
            for entry in entries.iter() {
                if self.slot(entry.place)?.is_none() {
                    let sum = sums.get_mut(entry.place as usize)?;
                    *sum = sum.plus(entry.value.times(*times));
                }
            }
        }
        Some(sums)
    }

    /// The slot of a variable, where it has one.
    pub(crate) fn slot(&self, variable: u32) -> Option<Option<u32>> {
        self.slots.get(variable as usize).copied()
    }

    /// The value of a variable.
    pub fn value(&self, variable: u32) -> Option<Rounded> {
        self.values.get(variable as usize).copied()
    }

    /// The variables of the slots.
    pub fn head(&self) -> &[u32] {
        self.head.as_slice()
    }

    /// The sides at which the variables without slots stand.
    pub fn sides(&self) -> &[Option<Side>] {
        self.sides.as_slice()
    }

    /// The slot whose variable cannot come to its limit on the side that it misses, where the last run ended so.
    pub fn blocked(&self) -> Option<(u32, Side)> {
        let blocked = self.blocked?;
        Some((blocked.slot, blocked.side))
    }

    /// How often the blocked row takes each limit.
    pub fn weights(&self, alloc: Global) -> Option<Vec<RoughWeight>> {
        let Leaving { slot, side } = self.blocked?;
        let mut weights = Vec::new(alloc);
        let own = RoughWeight {
            variable: *self.head.get(slot as usize)?,
            side,
            weight: Rounded::scaled(1, 0),
        };
        weights.push(own).ok()?;
        for (variable, factor) in (0..).zip(self.row.iter()) {
            if !factor.is_zero() {
                let side = blocking(*factor, side);
                let weight = factor.size();
                let weight = RoughWeight {
                    variable,
                    side,
                    weight,
                };
                weights.push(weight).ok()?;
            }
        }
        Some(weights)
    }
}

/// The side of its limit at which a variable with this factor in the row of one that misses a side cannot help.
pub(crate) fn blocking(factor: Rounded, missed: Side) -> Side {
    if factor.is_negative() {
        opposite(missed)
    } else {
        missed
    }
}

// The rows as equations, each with its own variable once and its columns by the opposites of their factors.
fn rows(alloc: Global, system: &System) -> Option<Vec<Vec<Entry>>> {
    let mut rows = Vec::new(alloc);
    for (index, terms) in (0..).zip(system.rows.iter()) {
        let mut row = Vec::new(alloc);
        for term in terms.iter() {
            let place = term.column;
            let value = Rounded::of(term.factor).negate();
            row.push(Entry { place, value }).ok()?;
        }
        let place = system.variable(index)?;
        let value = Rounded::scaled(1, 0);
        row.push(Entry { place, value }).ok()?;
        rows.push(row).ok()?;
    }
    Some(rows)
}

// The rows as columns, of which there are so many.
fn transposed(alloc: Global, rows: &[Vec<Entry>], count: usize) -> Option<Vec<Vec<Entry>>> {
    let mut columns = Vec::new(alloc);
    for _ in 0..count {
        columns.push(Vec::new(alloc)).ok()?;
    }
    for (row, entries) in (0..).zip(rows.iter()) {
        for entry in entries.iter() {
            let column: &mut Vec<Entry> = columns.get_mut(entry.place as usize)?;
            let (place, value) = (row, entry.value);
            column.push(Entry { place, value }).ok()?;
        }
    }
    Some(columns)
}
