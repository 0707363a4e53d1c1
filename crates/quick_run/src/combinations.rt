//! Combinations that the basis shows.
ghost use Rattle.std.specs.Prelude.{◌≡◌, ◌<◌, true, All, IfOk, IfSome, IsTrue, List};
ghost use Rattle.lp_model.specs.declared.members.Member.{Member as OneMember};
ghost use Rattle.certs.specs.declared.evidence.Branch.{Branch as OneBranch};
ghost use Rattle.certs.specs.declared.evidence.Source.TheVariants.{Below};
ghost use Rattle.certs.specs.Checks.{IsSetOf};
ghost use Rattle.certs.specs.Order.{AreSharesInOrder, source_before};
ghost use Rattle.rational.specs.Rational.{◌<ℚ◌, zero_ℚ};
ghost use Rattle.quick_run.specs.Shape.{IsLimitOf, IsShareOf, IsSourceOf, has_least, has_most};

use certs::{Branch, Combo, Share, Shares, Side, Source, is_member_there, stands_before};
use frac128::Frac;
use lp_model::{Member, MemberSet, Model};
use quick_basis::{Basis, Blocked, LimitWeight, member_of, row_weights, variable_of, whole_times};
use std::alloc::{AllocError, Global};

/// The combination that a blocked row is: its basic variable once, on the side that it misses, and each nonbasic one by its
/// factor, on the side at which it stands, all in whole numbers where these have 64 bits. Only members of the set and branches of
/// the path are taken.
pub(crate) fn combo(
    alloc: Global,
    basis: &Basis,
    set: &MemberSet,
    path: &[Branch],
    blocked: Blocked,
) -> Option<Combo>
    ensures order { IfSome result (λ combo. AreSharesInOrder combo.shares) }
    ensures shares { IfSome result (λ combo. All (IsShareOf set.now.members path.now) combo.shares) }
{
    let weights = row_weights(alloc, basis, blocked, whole_times(basis))?;
    let shares = shares(alloc, basis, weights.as_slice(), set, path).ok()?;
    Some(Combo { shares })
}

/// The shares of the members of the set and of the branches that are taken, in order.
pub(crate) fn shares(
    alloc: Global,
    basis: &Basis,
    weights: &[Option<LimitWeight>],
    set: &MemberSet,
    path: &[Branch],
) -> Result<Shares, AllocError>
    ensures order { IfOk result AreSharesInOrder }
    ensures shares { IfOk result (All (IsShareOf set.now.members path.now)) }
{
    let mut shares = member_shares(alloc, basis, weights, set)?;
    push_branches(basis, weights, path, &mut shares)?;
    Ok(Shares::new(shares))
}

// The shares of the members of the set that are taken, in member order.
fn member_shares(
    alloc: Global,
    basis: &Basis,
    weights: &[Option<LimitWeight>],
    set: &MemberSet,
) -> Result<Vec<Share>, AllocError>
    ensures order { IfOk result (λ shares. AreSharesInOrder shares.items) }
    ensures shares { (path : List OneBranch) → IfOk result (λ shares. All (IsShareOf set.now.members path) shares.items) }
    ensures members { IfOk result (λ shares. All (λ s. IsTrue (source_before s.source (Below 0))) shares.items) }
{
    set.stands_in_order();
    let mut shares = Vec::new(alloc);
    for member in set.iter() {
        if let Some(weight) = weight_of(basis, weights, member) {
            let source = Source::Member(member);
            shares.push(Share { source, weight })?;
        }
    }
    Ok(shares)
}

// How often a member is taken; none where it is not.
fn weight_of(basis: &Basis, weights: &[Option<LimitWeight>], member: Member) -> Option<Frac>
    ensures { IfSome result (λ weight. zero_ℚ <ℚ weight) }
{
    let variable = variable_of(basis.columns, member)?;
    let limit = (*weights.get(variable as usize)?)?;
    let is_taken = limit.side == member.side() && !basis.is_branched(variable, limit.side);
    if is_taken && is_positive(limit.weight) {
        Some(limit.weight)
    } else {
        None
    }
}

// Puts the shares of the branches that are taken behind those of members, by column.
fn push_branches(
    basis: &Basis,
    weights: &[Option<LimitWeight>],
    path: &[Branch],
    shares: &mut Vec<Share>,
) -> Result<(), AllocError>
    requires order { AreSharesInOrder shares.old.items }
    requires members { All (λ s. IsTrue (source_before s.source (Below 0))) shares.old.items }
    ensures order { IfOk result (λ done. AreSharesInOrder shares.new.items) }
    ensures shares { (set : List OneMember) → All (IsShareOf set path.now) shares.old.items
        → IfOk result (λ done. All (IsShareOf set path.now) shares.new.items) }
{
    for column in 0..basis.columns {
        if let Some(share) = branch_share(basis, weights, path, column) {
            shares.push(share)?;
        }
    }
    Ok(())
}

// The share of the branches of a column, where they are taken.
fn branch_share(
    basis: &Basis,
    weights: &[Option<LimitWeight>],
    path: &[Branch],
    column: u32,
) -> Option<Share>
    ensures { IfSome result (λ share. IsLimitOf path.now column share.source × zero_ℚ <ℚ share.weight) }
{
    let limit = (*weights.get(column as usize)?)?;
    if !basis.is_branched(column, limit.side) || !is_positive(limit.weight) {
        return None;
    }
    Some(Share {
        source: branch_source(path, column, limit.side)?,
        weight: limit.weight,
    })
}

// The limit that the path has of a column on a side.
fn branch_source(path: &[Branch], column: u32, side: Side) -> Option<Source>
    ensures { IfSome result (IsLimitOf path.now column) }
{
    match side {
        Side::Lo => {
            if !has_branch_above(path, column) {
                return None;
            }
            Some(Source::Above(column))
        }
        Side::Up => {
            if !has_branch_below(path, column) {
                return None;
            }
            Some(Source::Below(column))
        }
    }
}

// Whether some branch of the path says that the column is at most a number.
fn has_branch_below(path: &[Branch], column: u32) -> bool
    ensures { result ≡ has_most path.now column }
{
    for branch in path {
        if branch.column == column && branch.upper {
            return true;
        }
    }
    false
}

// Whether some branch of the path says that the column is at least a number.
fn has_branch_above(path: &[Branch], column: u32) -> bool
    ensures { result ≡ has_least path.now column }
{
    for branch in path {
        if branch.column == column && !branch.upper {
            return true;
        }
    }
    false
}

/// The combination of the two limits of a variable, each once: where they cross they contradict one another.
pub(crate) fn crossing(
    alloc: Global,
    model: &Model,
    basis: &Basis,
    set: &MemberSet,
    path: &[Branch],
    variable: u32,
) -> Option<Combo>
    requires same { IsSetOf model.now set.now }
    ensures order { IfSome result (λ combo. AreSharesInOrder combo.shares) }
    ensures shares { IfSome result (λ combo. All (IsShareOf set.now.members path.now) combo.shares) }
{
    let lower = limit_source(model, basis, set, path, variable, Side::Lo)?;
    let upper = limit_source(model, basis, set, path, variable, Side::Up)?;
    if stands_before(lower, upper) {
        return pair(alloc, lower, upper);
    }
    pair(alloc, upper, lower)
}

// What gives the limit of a variable on a side: the path or a member of the set.
fn limit_source(
    model: &Model,
    basis: &Basis,
    set: &MemberSet,
    path: &[Branch],
    variable: u32,
    side: Side,
) -> Option<Source>
    requires { IsSetOf model.now set.now }
    ensures { IfSome result (IsSourceOf set.now.members path.now) }
{
    if basis.is_branched(variable, side) {
        return branch_source(path, variable, side);
    }
    let member = member_of(basis.columns, variable, side);
    if !is_member_there(model, set, member) {
        return None;
    }
    Some(Source::Member(member))
}

// The combination of two sources, each once, where the first stands before the second.
fn pair(alloc: Global, first: Source, second: Source) -> Option<Combo>
    ensures order { IfSome result (λ combo. AreSharesInOrder combo.shares) }
    ensures shares { (set : List OneMember) (path : List OneBranch) → IsSourceOf set path first → IsSourceOf set path second
        → IfSome result (λ combo. All (IsShareOf set path) combo.shares) }
{
    if !stands_before(first, second) {
        return None;
    }
    let mut shares = Vec::new(alloc);
    shares.push(once(first)).ok()?;
    shares.push(once(second)).ok()?;
    let shares = Shares::new(shares);
    Some(Combo { shares })
}

// A source, once.
fn once(source: Source) -> Share
    ensures source { result.source ≡ source }
    ensures positive { zero_ℚ <ℚ result.weight }
{
    Share {
        source,
        weight: Frac::whole(1),
    }
}

// Whether a number is above 0.
fn is_positive(number: Frac) -> bool
    ensures { result ≡ true → zero_ℚ <ℚ number }
{
    number > Frac::whole(0)
}
