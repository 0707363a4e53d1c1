//! Combinations of a plain system as combinations of the program, and the members that a proof uses.
ghost use Rattle.std.specs.Prelude.{◌≡◌, ◌<◌, [], ◌++◌, ◌||◌, Bool, All, IfOk, filter, length};
ghost use Rattle.std.specs.List.{list_any};
ghost use Rattle.lp_model.specs.declared.members.Member.{Member as OneMember};
ghost use Rattle.lp_model.specs.Members.{is_same};
ghost use Rattle.lp_model.specs.MemberSets.{IsPossibleIn};
ghost use Rattle.certs.specs.Checks.{IsSetOf};
ghost use Rattle.certs.specs.Combination.{IsCombination};
ghost use Rattle.certs.specs.Named.{IsKnownNode, IsKnownSource, IsNamedCombination, IsOfSize, IsPartBy, IsOfSystem, arranged as arranged_by, is_above, is_below, is_member, node_uses, on_column, program_shares, stands_for as source_for, translated as translated_one, used_set};
ghost use Rattle.certs.specs.Plain.{plain_system, rows_in};
ghost use Rattle.certs.specs.Violation.{is_of};

use crate::evidence::{Combo, Node, Proof, Share, Shares, Source};
use crate::paths::BranchPath;
use crate::plain_systems::{has_row, limit_source};
use lp_model::{Member, MemberSet, Model, Side};
use std::alloc::{AllocError, Global};

/// A combination of the plain system of a set on no path, as one of the program.
pub fn named_combo(
    alloc: Global,
    model: &Model,
    set: &MemberSet,
    combo: &Combo,
) -> Result<Combo, AllocError>
    requires same { IsSetOf model.now set.now }
    requires of_system { All (λ s. IsOfSystem (length model.now.columns) (length (rows_in model.now set.now.members)) s.source) combo.now.shares }
    ensures shares { IfOk result (λ named. named.shares ≡ program_shares model.now set.now.members [] combo.now.shares) }
    ensures combination { (objective : Bool) → IsNamedCombination (plain_system model.now set.now.members [] objective) combo.now.shares → IfOk result (λ named. IsCombination model.now set.now.members [] named.shares) }
{
    node_combo(alloc, model, set, &BranchPath::new(alloc), combo)
}

/// A combination of a plain system, whose shares name sides of rows and limits of that system, as one of the program on the
/// path.
///
/// Each side of a row becomes the member that it stands for; each limit the bound that gave it, or the branches where the
/// path gave it. Weights stay. The shares of members come first, in the order in which they stood,
/// and then those of branches by column, `Below` before `Above`.
pub fn node_combo(
    alloc: Global,
    model: &Model,
    set: &MemberSet,
    path: &BranchPath,
    combo: &Combo,
) -> Result<Combo, AllocError>
    requires same { IsSetOf model.now set.now }
    requires known { All (λ b. b.column < length model.now.columns) path.now }
    requires of_system { All (λ s. IsOfSystem (length model.now.columns) (length (rows_in model.now set.now.members)) s.source) combo.now.shares }
    ensures shares { IfOk result (λ named. named.shares ≡ program_shares model.now set.now.members path.now combo.now.shares) }
    ensures combination { (objective : Bool) → IsNamedCombination (plain_system model.now set.now.members path.now objective) combo.now.shares → IfOk result (λ named. IsCombination model.now set.now.members path.now named.shares) }
{
    // That the program is well formed is told with the count.
    let _count = model.row_count();
    let rows = set_rows(alloc, model, set)?;
    let mut shares = Vec::new(alloc);
    for share in combo.shares.as_slice() {
        shares.push(translated(model, set, path, rows.as_slice(), *share))?;
    }
    Ok(Combo {
        shares: arranged(alloc, model.column_count(), shares.as_slice())?,
    })
}

// The numbers of the rows of which the set has a side.
fn set_rows(alloc: Global, model: &Model, set: &MemberSet) -> Result<Vec<u32>, AllocError>
    requires same { IsSetOf model.now set.now }
    ensures { IfOk result (λ rows. rows.items ≡ rows_in model.now set.now.members) }
{
    let mut rows = Vec::new(alloc);
    for row in 0..model.row_count() {
        if has_row(set, row) {
            rows.push(row)?;
        }
    }
    Ok(rows)
}

// A share of the system as one of the program.
fn translated(
    model: &Model,
    set: &MemberSet,
    path: &BranchPath,
    rows: &[u32],
    share: Share,
) -> Share
    requires same { IsSetOf model.now set.now }
    requires rows { rows.now ≡ rows_in model.now set.now.members }
    requires of_system { IsOfSystem (length model.now.columns) (length rows.now) share.source }
    ensures { result ≡ translated_one model.now set.now.members path.now share }
{
    Share {
        source: stands_for(model, set, path, rows, share.source),
        weight: share.weight,
    }
}

// What a side of a row or a limit of the system stands for.
fn stands_for(
    model: &Model,
    set: &MemberSet,
    path: &BranchPath,
    rows: &[u32],
    source: Source,
) -> Source
    requires same { IsSetOf model.now set.now }
    requires rows { rows.now ≡ rows_in model.now set.now.members }
    requires of_system { IsOfSystem (length model.now.columns) (length rows.now) source }
    ensures { result ≡ source_for model.now set.now.members path.now source }
{
    let Source::Member(member) = source else {
        return source;
    };
    match member {
        Member::RowLo(row) => Source::Member(Member::RowLo(rows[row as usize])),
        Member::RowUp(row) => Source::Member(Member::RowUp(rows[row as usize])),
        Member::Lower(column) => limit_source(model, set, path, column, Side::Lo),
        Member::Upper(column) => limit_source(model, set, path, column, Side::Up),
        Member::Whole(_) => source,
    }
}

// The shares of members, and then those of branches by column.
fn arranged(alloc: Global, columns: u32, shares: &[Share]) -> Result<Shares, AllocError>
    ensures { IfOk result (λ list. list ≡ arranged_by columns shares.now) }
{
    let mut list = Vec::new(alloc);
    let mut branches = Vec::new(alloc);
    for share in shares {
        if is_of_member(share.source) {
            list.push(*share)?;
        } else {
            branches.push(*share)?;
        }
    }
    for column in 0..columns {
        push_column(branches.as_slice(), column, &mut list)?;
    }
    Ok(Shares::new(list))
}

// Appends the shares of the branches on a column.
fn push_column(shares: &[Share], column: u32, list: &mut Vec<Share>) -> Result<(), AllocError>
    ensures { IfOk result (λ done. list.new.items ≡ list.old.items ++ on_column shares.now column) }
{
    push_below(shares, column, list)?;
    push_above(shares, column, list)
}

// Appends the shares of those that bound it above.
fn push_below(shares: &[Share], column: u32, list: &mut Vec<Share>) -> Result<(), AllocError>
    ensures { IfOk result (λ done. list.new.items ≡ list.old.items ++ filter (λ s. is_below column s.source) shares.now) }
{
    for share in shares {
        if share.source == Source::Below(column) {
            list.push(*share)?;
        }
    }
    Ok(())
}

// Appends the shares of those that bound it below.
fn push_above(shares: &[Share], column: u32, list: &mut Vec<Share>) -> Result<(), AllocError>
    ensures { IfOk result (λ done. list.new.items ≡ list.old.items ++ filter (λ s. is_above column s.source) shares.now) }
{
    for share in shares {
        if share.source == Source::Above(column) {
            list.push(*share)?;
        }
    }
    Ok(())
}

// Whether a source is a member.
fn is_of_member(source: Source) -> bool
    ensures { result ≡ is_member source }
{
    matches!(source, Source::Member(_))
}

/// The members of the set that the proof uses: those of its shares, and the marks of its split columns.
///
/// The columns and rows that the proof names are ones of the set's program.
pub fn members_used(alloc: Global, set: &MemberSet, proof: &Proof) -> Result<MemberSet, AllocError>
    requires { All (IsKnownNode set.now) proof.now.nodes }
    ensures { IfOk result (λ used. used ≡ used_set set.now proof.now.nodes) }
{
    let mut used = set.emptied(alloc)?;
    for node in proof.nodes.as_slice() {
        insert_used(set, node, &mut used);
    }
    set.stands_in_order();
    Ok(used)
}

// Puts in the members of the set that a node uses.
fn insert_used(set: &MemberSet, node: &Node, used: &mut MemberSet)
    requires known { IsKnownNode set.now node.now }
    requires sized { IsOfSize set.now used.old }
    ensures sized { IsOfSize set.now used.new }
    ensures part { (test : OneMember → Bool) → IsPartBy set.now test used.old → IsPartBy set.now (λ m. test m || node_uses m node.now) used.new }
{
    match node {
        Node::Split { column, .. } => insert_within(set, Member::Whole(*column), used),
        Node::Leaf(combo) => insert_sources(set, combo.shares.as_slice(), used),
    }
}

// Puts in the members of the set that shares name.
fn insert_sources(set: &MemberSet, shares: &[Share], used: &mut MemberSet)
    requires known { All (λ s. IsKnownSource set.now s.source) shares.now }
    requires sized { IsOfSize set.now used.old }
    ensures sized { IsOfSize set.now used.new }
    ensures part { (test : OneMember → Bool) → IsPartBy set.now test used.old → IsPartBy set.now (λ m. test m || list_any (λ s. is_of m s.source) shares.now) used.new }
{
    for share in shares {
        if let Source::Member(member) = share.source {
            insert_within(set, member, used);
        }
    }
}

// Puts in a member where the set has it.
fn insert_within(set: &MemberSet, member: Member, used: &mut MemberSet)
    requires possible { IsPossibleIn set.now member }
    requires sized { IsOfSize set.now used.old }
    ensures sized { IsOfSize set.now used.new }
    ensures part { (test : OneMember → Bool) → IsPartBy set.now test used.old → IsPartBy set.now (λ m. test m || is_same m member) used.new }
{
    if set.contains(member) {
        used.insert(member);
    }
}
