//! A budget that is never spent, and parts of sets of bits.
use bland_law::basis_bound;
use certs::{Limits, System};
use lane_scan::subset;
use std::alloc::{AllocError, Global};
use std::test::Fail;

// How many pivots a run over a system of so many columns does with.
fn bound_of(alloc: Global, columns: usize) -> Result<Option<u64>, AllocError> {
    let free = Limits { lo: None, up: None };
    Ok(basis_bound(&System {
        columns: vec![in alloc; free; columns]?,
        rows: Vec::new(alloc),
        objective: None,
    }))
}

#[test]
fn calls(rt: HostRuntime) -> Result<(), Fail> {
    let alloc = rt.alloc();
    assert!(rt; bound_of(alloc, 4)? == Some(81));
    assert!(rt; bound_of(alloc, 41)?.is_none());
    assert!(rt; subset(&[5, 0], &[7, 8]) && !subset(&[5, 1], &[7, 8]));
    Ok(())
}
