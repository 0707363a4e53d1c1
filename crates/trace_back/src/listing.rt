//! Weights as shares.
ghost use Rattle.std.specs.Prelude.{◌≡◌, ◌+◌, ◌++◌, ◌<◌, IfOk, flat_map, map};
ghost use Rattle.certs.specs.Ended.{numbers_from};
ghost use Rattle.certs.specs.Named.{named};
ghost use Rattle.reductions.specs.Back as back;
ghost use Rattle.trace_back.specs.Held.{IsHeld, weights_in};

use crate::weights::Weights;
use certs::Share;
use frac128::Frac;
use lp_model::Side;
use simplex::limit_share;
use std::alloc::{AllocError, Global};

/// The shares of weights: the sides of the rows, the lower side first, then the lower limits of the columns, then
/// their upper ones, each where it is taken.
pub fn shares_of(alloc: Global, weights: &Weights) -> Result<Vec<Share>, AllocError>
    requires { IsHeld weights.now }
    ensures { IfOk result (λ shares. shares.items ≡ map (named weights.now.columns)
        (back.shares_of weights.now.columns weights.now.rows (weights_in weights.now))) }
{
    let mut shares = Vec::new(alloc);
    push_rows(weights, &mut shares)?;
    push_columns(weights, Side::Lo, &mut shares)?;
    push_columns(weights, Side::Up, &mut shares)?;
    Ok(shares)
}

// Appends the shares of the rows.
fn push_rows(weights: &Weights, shares: &mut Vec<Share>) -> Result<(), AllocError>
    requires { IsHeld weights.now }
    ensures { let w = weights_in weights.now in
        IfOk result (λ done. shares.new.items ≡ shares.old.items ++ map (named weights.now.columns)
        (flat_map (λ v. back.share_of w Side.Lo v ++ back.share_of w Side.Up v)
        (numbers_from weights.now.columns weights.now.rows))) }
{
    for row in 0..weights.rows() {
        let variable = weights.variable(row);
        push_limit(weights, Side::Lo, variable, shares)?;
        push_limit(weights, Side::Up, variable, shares)?;
    }
    Ok(())
}

// Appends the shares of the columns' limits on a side.
fn push_columns(weights: &Weights, side: Side, shares: &mut Vec<Share>) -> Result<(), AllocError>
    requires { IsHeld weights.now }
    ensures { let columns = weights.now.columns in
        IfOk result (λ done. shares.new.items ≡ shares.old.items ++ map (named columns)
        (flat_map (back.share_of (weights_in weights.now) side) (numbers_from 0 columns))) }
{
    for column in 0..weights.columns() {
        push_limit(weights, side, column, shares)?;
    }
    Ok(())
}

// Appends the share of a limit, where it is taken.
fn push_limit(
    weights: &Weights,
    side: Side,
    variable: u32,
    shares: &mut Vec<Share>,
) -> Result<(), AllocError>
    requires held { IsHeld weights.now }
    requires known { variable < weights.now.columns + weights.now.rows }
    ensures { IfOk result (λ done. shares.new.items ≡ shares.old.items
        ++ map (named weights.now.columns) (back.share_of (weights_in weights.now) side variable)) }
{
    let weight = weights.at(side, variable);
    if weight != Frac::whole(0) {
        shares.push(limit_share(weights.columns(), variable, side, weight))?;
    }
    Ok(())
}
