//! A basis that is kept while runs go on from it, to come back to it.
use crate::bases::{Basis, Blocked};
use crate::variables::Variable;
use factors::Entry;
use std::alloc::Global;

/// A basis, with the row that was blocked.
#[derive(Drop)]
pub struct Saved {
    variables: Vec<Variable>,
    head: Vec<u32>,
    row: Vec<Entry>,
    blocked: Option<Blocked>,
}

impl Basis {
    /// The basis as it is.
    pub fn save(&self, alloc: Global) -> Option<Saved> {
        Some(Saved {
            variables: Vec::from_slice(alloc, self.variables.as_slice()).ok()?,
            head: Vec::from_slice(alloc, self.head.as_slice()).ok()?,
            row: Vec::from_slice(alloc, self.row.entries()).ok()?,
            blocked: self.blocked,
        })
    }

    /// Goes back to a saved basis. Where none is returned, the basis is of no more use.
    pub fn restore(&mut self, alloc: Global, saved: &Saved) -> Option<()> {
        self.variables = Vec::from_slice(alloc, saved.variables.as_slice()).ok()?;
        self.head = Vec::from_slice(alloc, saved.head.as_slice()).ok()?;
        self.refactor(alloc)?;
        self.row.assign(&saved.row)?;
        self.blocked = saved.blocked;
        Some(())
    }
}
