//! The cheapest irreducible set of a set, by quick runs.
ghost use Rattle.std.specs.Prelude.{◌≡◌, ◌∷◌, [], IfSome, None, length, true};
ghost use Rattle.certs.specs.Alternative.{IsPrice, members_of};
ghost use Rattle.certs.specs.Checks.{IsSetOf};
ghost use Rattle.certs.specs.Combination.{IsCombination};
ghost use Rattle.certs.specs.Order.{AreSharesInOrder};
ghost use Rattle.certs.specs.Proof.{IsProof};
ghost use Rattle.lp_model.specs.Satisfaction.{values_at};
ghost use Rattle.price_checks.specs.Costs.{HasCost};
ghost use Rattle.quick_run.specs.Pivots.{Allows};
ghost use Rattle.quick_answers.specs.Alone.{stands_alone as is_alone};
ghost use Rattle.quick_answers.specs.Cores.{IsListed, IsQuickCore, IsWeighed};

use crate::alone::stands_alone;
use crate::confirmed::{is_combo, is_point, is_yes};
use crate::kept::Kept;
use crate::witnesses::witnesses;
use certs::{Combo, Node, PackedPoint, Point, Proof, Share, Source, members_used};
use evidence_laws::combination_refutes;
use frac128::Frac;
use linear_oracle::leaf_proof;
use lp_model::{MemberSet, Model};
use price_checks::{check_cost, check_price, price_shows_cheapest};
use quick_run::{CheapestSuggestion, Suggest, Suggestion};
use std::alloc::Global;

/// An irreducible set of members, with the proof of one leaf whose shares are the cheapest weighting that refutes the set that
/// they are from, with the right side -1; what that costs, and a price for it, with a value for each column; and for each
/// member a point that satisfies all the others.
#[derive(Drop)]
pub struct QuickCore {
    pub members: MemberSet,
    pub proof: Proof,
    pub total: Frac,
    pub price: Point,
    pub witnesses: Vec<PackedPoint>,
}

/// A point of a set, or its cheapest irreducible set.
#[derive(Drop)]
pub enum Weighed {
    Feasible(Point),
    Core(QuickCore),
}

/// The cheapest weighting of a set that refutes it, where quick runs of at most so many pivots suggest it and the checks
/// confirm it: its cost has a price, and each member that it uses has a witness, so that these members are irreducible (Gleeson
/// and Ryan 1990); or a point. Where what was kept gives nothing, it is tried once more from nothing. None where nothing was
/// confirmed, and where the set stands alone: it is tiny, or it has a mark.
pub fn quick_cheapest<S: Suggest>(
    alloc: Global,
    model: &Model,
    set: &MemberSet,
    kept: &mut Kept<S>,
    pivots: u64,
) -> Option<Weighed>
    requires same { IsSetOf model.now set.now }
    ensures found { IfSome result (IsWeighed model.now set.now.members) }
    ensures alone { is_alone model.now set.now.members 0 ≡ true → result ≡ None }
    ensures allowed { Allows kept.old kept.new pivots }
{
    if stands_alone(model, set, 0) {
        return None;
    }
    kept.run.allow(pivots);
    if let Some(found) = cheapest_once(alloc, model, set, kept) {
        return Some(found);
    }
    kept.run.restart();
    cheapest_once(alloc, model, set, kept)
}

// The same by what is kept: the set is settled, and a row that refutes it is made the cheapest.
fn cheapest_once<S: Suggest>(
    alloc: Global,
    model: &Model,
    set: &MemberSet,
    kept: &mut Kept<S>,
) -> Option<Weighed>
    requires same { IsSetOf model.now set.now }
    ensures found { IfSome result (IsWeighed model.now set.now.members) }
    ensures kept { kept.new ≡ kept.old }
{
    if let Suggestion::Point(point) = kept.run.suggest(alloc, model, set, &[])? {
        return is_point(model, set, &point).then_some(Weighed::Feasible(point));
    }
    let found = kept.run.suggest_cheapest(alloc, model, set)?;
    let core = core(alloc, model, set, kept, found)?;
    Some(Weighed::Core(core))
}

// The members of a weighting, where it is confirmed, with their witnesses.
fn core<S: Suggest>(
    alloc: Global,
    model: &Model,
    set: &MemberSet,
    kept: &mut Kept<S>,
    found: CheapestSuggestion,
) -> Option<QuickCore>
    requires same { IsSetOf model.now set.now }
    ensures found { IfSome result (IsQuickCore model.now set.now.members) }
    ensures kept { kept.new ≡ kept.old }
{
    let CheapestSuggestion {
        combo,
        total,
        price,
    } = found;
    if !is_priced(alloc, model, set, &combo, total, &price) {
        return None;
    }
    combination_refutes();
    price_shows_cheapest();
    let Ok(proof) = leaf_proof(alloc, combo) else {
        return None;
    };
    let members = members_of_leaf(alloc, model, set, &proof)?;
    let witnesses = witnesses(alloc, model, &members, kept)?;
    Some(QuickCore {
        members,
        proof,
        total,
        price,
        witnesses,
    })
}

// Whether the checks confirm that a combination refutes the set, with its shares in order, and that what it costs has a price.
fn is_priced(
    alloc: Global,
    model: &Model,
    set: &MemberSet,
    combo: &Combo,
    total: Frac,
    price: &Point,
) -> bool
    requires same { IsSetOf model.now set.now }
    ensures combination { result ≡ true → IsCombination model.now set.now.members [] combo.now.shares }
    ensures ordered { result ≡ true → AreSharesInOrder combo.now.shares }
    ensures cost { result ≡ true → HasCost model.now combo.now.shares total }
    ensures each { result ≡ true → length price.now.values ≡ length model.now.columns }
    ensures price { let z = values_at price.now.values in
        result ≡ true → IsPrice model.now set.now.members total z }
{
    if price.values.as_slice().len() != model.column_count() as usize {
        return false;
    }
    is_combo(alloc, model, set, combo)
        && is_yes(check_cost(model, combo, total))
        && is_yes(check_price(model, set, total, price))
}

// The members that the shares of a proof's one leaf are from, where they come in order, each once.
fn members_of_leaf(
    alloc: Global,
    model: &Model,
    set: &MemberSet,
    proof: &Proof,
) -> Option<MemberSet>
    requires same { IsSetOf model.now set.now }
    requires refutes { IsProof model.now set.now.members proof.now.nodes }
    ensures { IfSome result (IsListed model.now proof.now) }
{
    let combo = only_leaf(proof)?;
    set.stands_in_order();
    let Ok(members) = members_used(alloc, set, proof) else {
        return None;
    };
    if !are_listed(&members, combo.shares.as_slice()) {
        return None;
    }
    Some(members)
}

// The combination of a proof's node, where it is one leaf and nothing else.
fn only_leaf(proof: &Proof) -> Option<&Combo>
    ensures { IfSome result (λ combo. proof.now.nodes ≡ Node.Leaf combo.now ∷ []) }
{
    match proof.nodes.as_slice() {
        [Node::Leaf(combo)] => Some(combo),
        _ => None,
    }
}

// Whether shares are from just these members, in their order.
fn are_listed(members: &MemberSet, shares: &[Share]) -> bool
    ensures { result ≡ true → members.now.members ≡ members_of shares.now }
{
    let mut rest = shares;
    for member in members.iter() {
        let [first, others @ ..] = rest else {
            return false;
        };
        if first.source != Source::Member(member) {
            return false;
        }
        rest = others;
    }
    rest.is_empty()
}
