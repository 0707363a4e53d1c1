//! The way back of a forcing row.
ghost use Rattle.std.specs.Prelude.{◌≡◌, ◌<◌, MatchResult, Some, None, All, flat_map, map};
ghost use Rattle.rational.specs.Rational.{zero_ℚ};
ghost use Rattle.frac128.specs.Calculation.{first_wide};
ghost use Rattle.frac128.specs.Limit.{limit};
ghost use Rattle.reductions.specs.Back as back;
ghost use Rattle.reductions.specs.Limited as limited;
ghost use Rattle.reductions.specs.Known.{IsKnownStep, IsKnownTerm};
ghost use Rattle.trace_back.specs.Ends.{Gives, IsBackStop};
ghost use Rattle.trace_back.specs.Held.{AreColumns, IsHeld, IsNow, shares_written, weights_in};
ghost use Rattle.trace_back.specs.Taking as taking;

use crate::sides::{magnitude, opposite, turned};
use crate::stops::BackStop;
use crate::weights::Weights;
use dictionary::{difference, product, quotient, sum};
use frac128::{Frac, Wide};
use lp_model::{Side, Term};
use reductions::{Forcing, Step};
use std::alloc::Global;
use std::marker::Model;

// A limit of a column, with its weight.
#[derive(Clone, Copy)]
struct Limit {
    side: Side,
    column: u32,
    weight: Frac,
}

impl Model for Limit {
    ghost use Rattle.certs.specs.System.{VariableShare};

    ghost Value = { VariableShare };

    ghost view = { λ l. record { variable = l.column; side = l.side; weight = l.weight } };

    ghost inverse = { λ v. record { side = v.side; column = v.variable; weight = v.weight } };
}

/// A side of a row takes over from the limits that it made.
pub(crate) fn forcing_back(
    alloc: Global,
    weights: &mut Weights,
    forcing: &Forcing,
) -> Result<(), BackStop>
    requires held { IsHeld weights.old }
    requires known { IsKnownStep weights.old.columns weights.old.rows (Step.Forcing forcing.now) }
    ensures { let w = weights_in weights.old in
        let work = back.weights_step_work weights.old.columns (Step.Forcing forcing.now) w in
        MatchResult result
        (λ done. IsNow weights.old weights.new
        (back.forcing_before weights.old.columns forcing.now w) × (first_wide limit work ≡ None))
        (IsBackStop work) }
{
    let row = weights.variable(forcing.row);
    let times = forcing_times(weights, forcing)?;
    let limits = forced_limits(alloc, weights, forcing, times)?;
    put_limits(weights, limits);
    weights.put_one(forcing.side, row, times);
    Ok(())
}

// The side of the limit that the row's sum takes of a column.
fn forced_side(side: Side, factor: Frac) -> Side
    ensures { result ≡ limited.turned factor (limited.opposite side) }
{
    turned(factor, opposite(side))
}

// How often the side of the row is taken.
fn forcing_times(weights: &Weights, forcing: &Forcing) -> Result<Frac, Wide>
    requires held { IsHeld weights.now }
    requires known { All (IsKnownTerm weights.now.columns) forcing.now.terms }
    ensures { let w = weights_in weights.now in
        Gives result (back.forcing_times forcing.now w)
        (back.times_work forcing.now w zero_ℚ forcing.now.terms) }
{
    let mut times = Frac::whole(0);
    let terms = forcing.terms.as_slice();
    for term in terms {
        times = times_with(weights, forcing, term, times)?;
    }
    Ok(times)
}

// A sum with how often a term's made limit takes the side.
fn times_with(weights: &Weights, forcing: &Forcing, term: &Term, so_far: Frac) -> Result<Frac, Wide>
    requires held { IsHeld weights.now }
    requires known { IsKnownTerm weights.now.columns term.now }
    ensures { let w = weights_in weights.now in
        Gives result (taking.times_with forcing.now w so_far term.now)
        (taking.time_work forcing.now w so_far term.now) }
{
    let made = opposite(forced_side(forcing.side, term.factor));
    let quotient = quotient(weights.at(made, term.column), magnitude(term.factor))?;
    sum(so_far, quotient)
}

// The limits that the row's sum takes, with their weights where the side is taken so often.
fn forced_limits(
    alloc: Global,
    weights: &Weights,
    forcing: &Forcing,
    times: Frac,
) -> Result<Vec<Limit>, BackStop>
    requires held { IsHeld weights.now }
    requires known { All (IsKnownTerm weights.now.columns) forcing.now.terms }
    ensures { let w = weights_in weights.now in
        let work = flat_map (taking.part_work forcing.now w times) forcing.now.terms in
        MatchResult result
        (λ limits. (limits.items ≡ map (taking.forced_share forcing.now w times) forcing.now.terms)
        × (first_wide limit work ≡ None))
        (IsBackStop work) }
{
    let mut limits = Vec::new(alloc);
    let terms = forcing.terms.as_slice();
    for term in terms {
        let limit = forced_limit(weights, forcing, term, times)?;
        limits.push(limit)?;
    }
    Ok(limits)
}

// The limit that the row's sum takes of a term's column.
fn forced_limit(
    weights: &Weights,
    forcing: &Forcing,
    term: &Term,
    times: Frac,
) -> Result<Limit, Wide>
    requires held { IsHeld weights.now }
    requires known { IsKnownTerm weights.now.columns term.now }
    ensures { let w = weights_in weights.now in
        MatchResult result
        (λ one. (one ≡ taking.forced_share forcing.now w times term.now)
        × (first_wide limit (taking.part_work forcing.now w times term.now) ≡ None))
        (λ wide. first_wide limit (taking.part_work forcing.now w times term.now) ≡ Some wide) }
{
    let side = forced_side(forcing.side, term.factor);
    let product = product(magnitude(term.factor), times)?;
    let rest = difference(product, weights.at(opposite(side), term.column))?;
    let weight = sum(weights.at(side, term.column), rest)?;
    Ok(Limit {
        side,
        column: term.column,
        weight,
    })
}

// Gives the limits their weights, and the other limits of their columns none, the last first.
fn put_limits(weights: &mut Weights, mut limits: Vec<Limit>)
    requires held { IsHeld weights.old }
    requires known { AreColumns weights.old.columns limits.items }
    ensures { IsNow weights.old weights.new (shares_written limits.items (weights_in weights.old)) }
{
    while let Some(limit) = limits.pop() {
        weights.put_one(limit.side, limit.column, limit.weight);
    }
}
