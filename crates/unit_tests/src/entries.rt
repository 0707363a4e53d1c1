//! The entries that a dictionary keeps.
use certs::{Limits, System};
use dictionary::{Dictionary, is_formed};
use frac128::{Frac, read_fraction};
use lp_model::{Row, Term, Terms};
use simplex::{Settled, settle};
use std::alloc::{AllocError, Global};
use std::test::Fail;

// A row in which two columns count so often.
fn row(alloc: Global, factor: i64, lo: Option<Frac>, up: Option<Frac>) -> Result<Row, AllocError> {
    let mut terms = Vec::new(alloc);
    for column in 0..2 {
        terms.push(Term {
            column,
            factor: Frac::whole(factor),
        })?;
    }
    Ok(Row::new(Terms::new(terms), lo, up))
}

/// `3 x + 3 y <= 1` and `x + y >= 1/2`, where neither column is below 0.
pub(crate) fn system(alloc: Global) -> Result<System, AllocError> {
    let least = Limits {
        lo: Some(Frac::whole(0)),
        up: None,
    };
    let mut rows = Vec::new(alloc);
    rows.push(row(alloc, 3, None, Some(Frac::whole(1)))?)?;
    rows.push(row(alloc, 1, read_fraction(b"1/2"), None)?)?;
    Ok(System {
        columns: vec![in alloc; least; 2]?,
        rows,
        objective: None,
    })
}

// How many entries are kept at the start, and after a run that ends infeasible with the pivots that it makes.
fn stored(alloc: Global) -> Result<Option<(u64, u64, u64)>, AllocError> {
    let system = system(alloc)?;
    if !is_formed(&system) {
        return Ok(None);
    }
    let mut dictionary = Dictionary::<Frac>::start(alloc, &system)?;
    let first = dictionary.stored();
    let mut left = 9;
    let mut turns = 0;
    match settle(&mut dictionary, &mut left, &mut turns) {
        Ok(Settled::Infeasible(_)) => Ok(Some((first, dictionary.stored(), turns - 1))),
        _ => Ok(None),
    }
}

#[test]
fn entries(rt: HostRuntime) -> Result<(), Fail> {
    assert!(rt; stored(rt.alloc())? == Some((4, 3, 1)));
    Ok(())
}
