//! The width of the fractions over which a system is solved.
ghost use Rattle.std.specs.Prelude.{◌<◌, ◌^◌};

use crate::entries::system;
use certs::{Limits, Point, System};
use dictionary::is_formed;
use frac128::{Frac, Op, read_fraction};
use lp_model::{Row, Term, Terms};
use simplex::{RunStop, point_of};
use std::alloc::{AllocError, Global};
use std::test::Fail;
use two_widths::{End, solve};

// A row equal to 1 in which the two columns count so often.
fn row(alloc: Global, first: Frac, second: Frac) -> Result<Row, AllocError> {
    let mut terms = Vec::new(alloc);
    terms.push(Term {
        column: 0,
        factor: first,
    })?;
    terms.push(Term {
        column: 1,
        factor: second,
    })?;
    let lo = Some(Frac::whole(1));
    let up = Some(Frac::whole(1));
    Ok(Row::new(Terms::new(terms), lo, up))
}

// `f x + y = 1` and `x + f y = 1`, where neither column is below 0.
fn crossed(alloc: Global, factor: Frac) -> Result<System, AllocError> {
    let least = Limits {
        lo: Some(Frac::whole(0)),
        up: None,
    };
    let one = Frac::whole(1);
    let mut rows = Vec::new(alloc);
    rows.push(row(alloc, factor, one)?)?;
    rows.push(row(alloc, one, factor)?)?;
    Ok(System {
        columns: vec![in alloc; least; 2]?,
        rows,
        objective: None,
    })
}

// Whether 64 bits do for a system of small numbers that cannot be met.
fn infeasible(alloc: Global) -> Result<Option<bool>, AllocError> {
    let system = system(alloc)?;
    if !is_formed(&system) {
        return Ok(None);
    }
    let Ok(solved) = solve(alloc, &system, 9) else {
        return Ok(None);
    };
    match solved.end {
        End::Infeasible(_) => Ok(Some(solved.narrow)),
        _ => Ok(None),
    }
}

// Whether they do for one that can, where the square of a number does not fit; and the values there.
fn feasible(alloc: Global) -> Result<Option<(bool, Point)>, AllocError> {
    let system = crossed(alloc, Frac::whole(10000000000))?;
    if !is_formed(&system) {
        return Ok(None);
    }
    let Ok(solved) = solve(alloc, &system, 9) else {
        return Ok(None);
    };
    match solved.end {
        End::Feasible => Ok(Some((solved.narrow, point_of(alloc, &solved.dictionary)?))),
        _ => Ok(None),
    }
}

// How one stops, a number of which does not fit, with so many pivots.
fn stop(alloc: Global, pivots: u64) -> Result<Option<RunStop>, AllocError>
    requires { pivots < 2 ^ 63 }
{
    let Some(factor) = read_fraction(b"1000000000000000000000000000000") else {
        return Ok(None);
    };
    let system = crossed(alloc, factor)?;
    if !is_formed(&system) {
        return Ok(None);
    }
    match solve(alloc, &system, pivots) {
        Ok(_) => Ok(None),
        Err(stop) => Ok(Some(stop)),
    }
}

#[test]
fn small_numbers_are_narrow(rt: HostRuntime) -> Result<(), Fail> {
    assert!(rt; infeasible(rt.alloc())? == Some(true));
    Ok(())
}

#[test]
fn a_wide_product_is_made_anew(rt: HostRuntime) -> Result<(), Fail> {
    let Some((narrow, point)) = feasible(rt.alloc())? else {
        assert!(rt; false);
        return Ok(());
    };
    assert!(rt; !narrow && point.values.as_slice().len() == 2);
    for value in point.values.as_slice() {
        assert!(rt; Some(*value) == read_fraction(b"1/10000000001"));
    }
    Ok(())
}

#[test]
fn stops_are_those_of_128_bits(rt: HostRuntime) -> Result<(), Fail> {
    let Some(RunStop::Wide(turn, wide)) = stop(rt.alloc(), 9)? else {
        assert!(rt; false);
        return Ok(());
    };
    assert!(rt; turn == 1 && wide.op == Op::Minus);
    assert!(rt; Some(wide.left) == read_fraction(b"1000000000000000000000000000000"));
    assert!(rt; matches!(stop(rt.alloc(), 0)?, Some(RunStop::Pivots)));
    Ok(())
}
