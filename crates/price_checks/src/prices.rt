//! Whether values are a price for a total.
ghost use Rattle.std.specs.Prelude.{◌≡◌, ◌≢◌, List, length};
ghost use Rattle.rational.specs.Rational.{◌≤ℚ◌, le_q};
ghost use Rattle.lp_model.specs.Evaluation.{IsInRange};
ghost use Rattle.lp_model.specs.Members.{number as number_by};
ghost use Rattle.lp_model.specs.Satisfaction.{values_at};
ghost use Rattle.certs.specs.declared.evidence.Share.{Share as OneShare};
ghost use Rattle.certs.specs.Alternative.{IsPrice, IsWeighting, cost};
ghost use Rattle.certs.specs.Checks.{IsSetOf, checked_of, outcome, price_steps, priced_steps};

use crate::members::{member_cost, number_of, value_on_side};
use crate::sums::signed;
use certs::{Checked, Point, checked};
use evidence_laws::{checked_price, price_is_least, refused_price};
use frac128::{Frac, Wide};
use lp_model::{Member, MemberSet, Model};

/// Whether the price shows that no weighting of the set costs less than the total.
///
/// The members are taken in order; marks, and members that the program does not have, ask for nothing. The form of a member
/// is summed at the price over its terms in order, factor times value, from 0; a bound has its column as its form, with the
/// factor 1. Then the total is multiplied by the member's number, and that is taken from the sum. What is left must be at most
/// the member's weight, or 1 where it is rigid. On a lower side or bound the factors and the number are negated. `Wide` comes
/// with the first operation that is too wide, where no test before it fails. A yes shows that the values are a price for the
/// total, so that every weighting of the set costs at least the total (Gleeson and Ryan 1990, by weak duality), and no price
/// is answered with a no.
///
/// The price has a value for each column.
pub fn check_price(model: &Model, set: &MemberSet, total: Frac, price: &Point) -> Checked
    requires price { length price.now.values ≡ length model.now.columns }
    requires same { IsSetOf model.now set.now }
    ensures said { let z = values_at price.now.values in
        result ≡ outcome (price_steps model.now set.now.members total z) }
    ensures price { let z = values_at price.now.values in
        result ≡ Checked.Yes → IsPrice model.now set.now.members total z }
    ensures least { let set = set.now.members in
        result ≡ Checked.Yes → (shares : List OneShare) → IsWeighting model.now set shares
        → total ≤ℚ cost model.now shares }
    ensures refused { let z = values_at price.now.values in
        IsPrice model.now set.now.members total z → result ≢ Checked.No }
{
    checked_price();
    price_is_least();
    refused_price();
    checked(is_price(model, set, total, price.values.as_slice()))
}

// Whether each member is priced.
fn is_price(model: &Model, set: &MemberSet, total: Frac, values: &[Frac]) -> Result<bool, Wide>
    requires price { length values.now ≡ length model.now.columns }
    requires same { IsSetOf model.now set.now }
    ensures { let steps = price_steps model.now set.now.members total (values_at values.now) in
        checked_of result ≡ outcome steps }
{
    set.stands_in_order();
    for member in set.iter() {
        if !is_priced(model, member, total, values)? {
            return Ok(false);
        }
    }
    Ok(true)
}

// Whether the value of a member's form, less the total times its number, is at most what it costs; where it asks for a number.
fn is_priced(model: &Model, member: Member, total: Frac, values: &[Frac]) -> Result<bool, Wide>
    requires price { length values.now ≡ length model.now.columns }
    requires member { IsInRange model.now member }
    ensures { let z = values_at values.now in
        let steps = priced_steps model.now total z member (number_by model.now member) in
        checked_of result ≡ outcome steps }
{
    let Some(number) = number_of(model, member) else {
        return Ok(true);
    };
    let value = value_on_side(model, member, values)?;
    let product = total.times(signed(member.side(), number))?;
    let left = value.minus(product)?;
    Ok(is_at_most(left, member_cost(model, member)))
}

// Whether a number is not above another.
fn is_at_most(a: Frac, b: Frac) -> bool
    ensures { result ≡ le_q a b }
{
    a <= b
}
