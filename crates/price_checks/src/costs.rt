//! What weightings cost.
ghost use Rattle.std.specs.Prelude.{◌≡◌, ◌≢◌, MatchResult, Some, None};
ghost use Rattle.frac128.specs.Limit.{limit};
ghost use Rattle.frac128.specs.Calculation.{first_wide};
ghost use Rattle.certs.specs.Alternative.{cost as cost_of};
ghost use Rattle.certs.specs.Checks.{checked_of, outcome};
ghost use Rattle.price_checks.specs.Costs.{CostLaw, CostNoLaw, HasCost, PricedLaw, cost_operations, cost_steps};

use crate::members::source_cost;
use crate::sums::added;
use bound_checks::right_side;
use certs::{Checked, Combo, Share, checked};
use evidence_laws::price_is_least;
use frac128::{Frac, Wide};
use lp_model::Model;

/// Whether the numbers of the shares add up to -1, and the shares cost the total.
///
/// First the right side is summed, from 0: the shares in order, number times weight, and that plus where the member is on
/// `Up` and minus on `Lo`. It must be -1. Then the cost is summed, from 0: the shares in order, the weight of the member,
/// or 1 where it is rigid, times the weight of the share. It must be the total. `Wide` comes with the first operation
/// that is too wide, where no test before it fails. A yes shows both, and where both hold the answer is never a no. Such shares
/// are a weighting where they are a combination of the set besides (Gleeson and Ryan 1990).
///
/// Whether the shares may be used is not looked at: a source that asks for no number counts with the number 0, and a branch,
/// or a member that the program does not have, costs 1.
pub fn check_cost(model: &Model, combo: &Combo, total: Frac) -> Checked
    ensures said { result ≡ outcome (cost_steps model.now combo.now.shares total) }
    ensures cost { result ≡ Checked.Yes → HasCost model.now combo.now.shares total }
    ensures refused { HasCost model.now combo.now.shares total → result ≢ Checked.No }
{
    checked_cost();
    refused_cost();
    checked(is_cost(model, combo.shares.as_slice(), total))
}

// Whether they do.
fn is_cost(model: &Model, shares: &[Share], total: Frac) -> Result<bool, Wide>
    ensures { checked_of result ≡ outcome (cost_steps model.now shares.now total) }
{
    let right = right_side(model, shares)?;
    if right != Frac::whole(-1) {
        return Ok(false);
    }
    let sum = cost(model, shares)?;
    Ok(sum == total)
}

// What the shares cost, from 0.
fn cost(model: &Model, shares: &[Share]) -> Result<Frac, Wide>
    ensures { let work = cost_operations model.now shares.now in
        MatchResult result
        (λ v. (v ≡ cost_of model.now shares.now) × (first_wide limit work ≡ None))
        (λ w. first_wide limit work ≡ Some w) }
{
    let mut sum = Frac::whole(0);
    for share in shares {
        let cost = source_cost(model, share.source);
        sum = added(sum, cost, share.weight)?;
    }
    Ok(sum)
}

/// A yes to a cost shows that the right side is -1, and that the shares cost the total.
pub fn checked_cost()
    ensures { CostLaw }
{}

/// The check never says no of shares with the right side -1 that cost the total.
pub fn refused_cost()
    ensures { CostNoLaw }
{}

/// A combination of a set with the right side -1 is a cheapest weighting of the set where what it costs has a price, and then
/// no weighting of the set costs less (Gleeson and Ryan 1990).
pub fn price_shows_cheapest()
    ensures { PricedLaw }
{
    price_is_least();
}
