//! The factors of a basis.
use crate::arithmetic::{is_zero, quotient, reduced};
use crate::columns::{Columns, Entry};
use crate::elimination::Elimination;
use crate::triangles::Work;
use crate::vectors::SparseVector;
use frac128::Frac;
use std::alloc::Global;

// The fewest exchanges after which factors may be stale.
const FEWEST_EXCHANGES: usize = 64;

// A slot whose column was exchanged, with the value there of the solved column. Its other values are the column of the etas at
// the index.
#[derive(Clone, Copy)]
struct Exchange {
    index: u32,
    slot: u32,
    pivot: Frac,
}

/// Sparse LU factors of a basis, with the exchanges of its columns since (the product form).
///
/// The triangles are over the positions of pivots, without their diagonals, which are ones and the pivots, and each is there by
/// its columns and by its rows. After a call that returns none, the factors are of no more use.
#[derive(Drop)]
pub struct Factors {
    basis: Elimination,
    exchanges: Vec<Exchange>,
    etas: Columns,
    work: Work,
}

impl Factors {
    /// `head` has for each slot the index of its column in `columns`; there are as many rows as slots. None where the basis is
    /// singular, a number does not fit, or memory is refused.
    pub fn new(alloc: Global, columns: &Columns, head: &[u32]) -> Option<Factors> {
        let mut basis = Elimination::new(alloc, columns.chosen(alloc, head)?)?;
        basis.eliminate(alloc)?;
        let etas = Columns::new(alloc)?;
        let work = Work::new(alloc, head.len())?;
        Some(Factors {
            basis,
            exchanges: Vec::new(alloc),
            etas,
            work,
        })
    }

    /// FTRAN: B x = column; x over slots into `out`, which is cleared first.
    pub fn solve(&mut self, column: &[Entry], out: &mut SparseVector) -> Option<()> {
        out.clear();
        let Elimination {
            rows,
            slots,
            pivots,
        } = &self.basis;
        self.work.put_all(column, &rows.positions)?;
        self.work.solve_forward(&slots.triangle, &[])?;
        self.work
            .solve_back(&rows.lines, pivots, &slots.taken, out)?;
        for exchange in self.exchanges.iter() {
            exchange.solve(&self.etas, out)?;
        }
        Some(())
    }

    /// BTRAN: B^T y = costs, which are over slots and are changed; y over rows into `out`, which is cleared first.
    pub fn solve_transposed(
        &mut self,
        costs: &mut SparseVector,
        out: &mut SparseVector,
    ) -> Option<()> {
        out.clear();
        for exchange in self.exchanges.iter().rev() {
            exchange.solve_transposed(&self.etas, costs)?;
        }
        let Elimination {
            rows,
            slots,
            pivots,
        } = &self.basis;
        self.work.put_all(costs.entries(), &slots.positions)?;
        self.work.solve_forward(&rows.triangle, pivots)?;
        self.work.solve_back(&slots.lines, &[], &rows.taken, out)
    }

    /// The solved column (as `solve` gives it) comes into a slot in place of the one that is there.
    pub fn exchange(&mut self, slot: u32, solved: &SparseVector) -> Option<()> {
        let pivot = solved.value(slot)?;
        if is_zero(pivot) {
            return None;
        }
        for entry in solved.entries() {
            if entry.place != slot {
                self.etas.push(entry.place, entry.value)?;
            }
        }
        self.etas.end()?;
        let index = u32::try_from(self.exchanges.len()).ok()?;
        self.exchanges.push(Exchange { index, slot, pivot }).ok()
    }

    /// Whether factors made anew would serve better: as many exchanges as max(64, rows / 32), or entries of exchanges above 3
    /// times those of the factors plus the rows.
    pub fn are_stale(&self) -> bool {
        let rows = self.basis.pivots.len();
        let entries = rows
            .saturating_add(self.basis.slots.triangle.entries.len())
            .saturating_add(self.basis.rows.triangle.entries.len());
        let most = entries.saturating_mul(3).saturating_add(rows);
        self.exchanges.len() >= FEWEST_EXCHANGES.max(rows / 32) || self.etas.entries.len() > most
    }
}

impl Exchange {
    // Brings a solution from before the exchange behind it.
    fn solve(&self, etas: &Columns, solution: &mut SparseVector) -> Option<()> {
        let own = solution.value(self.slot)?;
        if is_zero(own) {
            return Some(());
        }
        let times = quotient(own, self.pivot)?;
        solution.set(self.slot, times)?;
        solution.subtract_all(etas.column(self.index)?, times)
    }

    // Brings costs from behind the exchange before it.
    fn solve_transposed(&self, etas: &Columns, costs: &mut SparseVector) -> Option<()> {
        let own = costs.value(self.slot)?;
        let mut rest = own;
        for entry in etas.column(self.index)? {
            let cost = costs.value(entry.place)?;
            if !is_zero(cost) {
                rest = reduced(rest, entry.value, cost)?;
            }
        }
        if is_zero(own) && is_zero(rest) {
            return Some(());
        }
        costs.set(self.slot, quotient(rest, self.pivot)?)
    }
}
