//! How often changed rows are taken.
ghost use Rattle.std.specs.Prelude.{◌<◌};
ghost use Rattle.rational.specs.Rational.{zero_ℚ, neg_ℚ};
ghost use Rattle.reductions.specs.Back as back;
ghost use Rattle.reductions.specs.Known.{AreKnownChanges};
ghost use Rattle.trace_back.specs.Ends.{Gives};
ghost use Rattle.trace_back.specs.Held.{IsHeld, weights_in};
ghost use Rattle.trace_back.specs.Taking as taking;

use crate::weights::Weights;
use dictionary::{difference, product, sum};
use frac128::{Frac, Wide};
use lp_model::Side;
use reductions::Change;

/// How often changed rows are taken, each as often as what it was changed by: on the upper side plus, on the lower
/// one minus.
pub fn taken_of(weights: &Weights, changes: &[Change]) -> Result<Frac, Wide>
    requires held { IsHeld weights.now }
    requires known { AreKnownChanges weights.now.rows changes.now }
    ensures { let w = weights_in weights.now in
        Gives result (back.taken_of weights.now.columns changes.now w)
        (back.taken_work weights.now.columns w zero_ℚ changes.now) }
{
    let mut taken = Frac::whole(0);
    for change in changes {
        taken = taken_with(weights, change, taken)?;
    }
    Ok(taken)
}

// A sum less the product for the lower side of a changed row, and with that for the upper one.
fn taken_with(weights: &Weights, change: &Change, so_far: Frac) -> Result<Frac, Wide>
    requires held { IsHeld weights.now }
    requires known { change.now.row < weights.now.rows }
    ensures { let w = weights_in weights.now in
        Gives result (taking.taken_with weights.now.columns w so_far change.now)
        (taking.take_work weights.now.columns w so_far change.now) }
{
    let row = weights.variable(change.row);
    let lower = product(change.factor, weights.at(Side::Lo, row))?;
    let less = difference(so_far, lower)?;
    let upper = product(change.factor, weights.at(Side::Up, row))?;
    sum(less, upper)
}

/// The opposite of how often changed rows are taken: on the lower side plus, on the upper one minus.
pub fn given_of(weights: &Weights, changes: &[Change]) -> Result<Frac, Wide>
    requires held { IsHeld weights.now }
    requires known { AreKnownChanges weights.now.rows changes.now }
    ensures { let w = weights_in weights.now in
        Gives result (neg_ℚ (back.taken_of weights.now.columns changes.now w))
        (back.equation_work weights.now.columns w zero_ℚ changes.now) }
{
    let mut given = Frac::whole(0);
    for change in changes {
        given = given_with(weights, change, given)?;
    }
    Ok(given)
}

// A sum with the product for the lower side of a changed row, and less that for the upper one.
fn given_with(weights: &Weights, change: &Change, so_far: Frac) -> Result<Frac, Wide>
    requires held { IsHeld weights.now }
    requires known { change.now.row < weights.now.rows }
    ensures { let w = weights_in weights.now in
        Gives result (taking.given_with weights.now.columns w so_far change.now)
        (taking.give_work weights.now.columns w so_far change.now) }
{
    let row = weights.variable(change.row);
    let lower = product(change.factor, weights.at(Side::Lo, row))?;
    let more = sum(so_far, lower)?;
    let upper = product(change.factor, weights.at(Side::Up, row))?;
    difference(more, upper)
}
