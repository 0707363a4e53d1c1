//! Shares of elastic systems as shares of members.
ghost use Rattle.std.specs.Prelude.{◌≡◌, ◌<◌, [], IfOk, All, length};
ghost use Rattle.std.specs.List.{position};
ghost use Rattle.rational.specs.Rational.{ℚ, neg_ℚ};
ghost use Rattle.certs.specs.Checks.{IsSetOf};
ghost use Rattle.certs.specs.Named.{IsNamedCombination, IsOfSystem};
ghost use Rattle.certs.specs.Order.{AreSharesInOrder, source_before};
ghost use Rattle.certs.specs.Violation.{rigid_members};
ghost use Rattle.simplex.specs.Duals.{IsNamedDual};
ghost use Rattle.relaxation.specs.declared.systems.Costs.{Costs as OneCosts};
ghost use Rattle.relaxation.specs.declared.systems.Costs.TheVariants.{Weights};
ghost use Rattle.relaxation.specs.Costs.{objective_by, system_by};
ghost use Rattle.relaxation.specs.Laws.{IsElastic, RefutesEnforced, ShowsLeast};
ghost use Rattle.relaxation.specs.Shares.{IsOfRows, inserted, origin_side as side_by, placed as placed_by, source_member as member_of_source, with_share};

use crate::origins::{Origin, numbered_soft, origins};
use certs::{Combo, Share, Shares, Source, stands_before};
use lp_model::{Member, MemberSet, Model, Side};
use std::alloc::{AllocError, Global};

/// The shares of an elastic system, which name sides of its rows and limits of its columns in order, as shares of the
/// program's members in member order. Those of the elastic variables' own limits are left out. A combination of the system
/// is one of the enforced members alone; a dual of it, with the rigid members enforced and the program's weights, is a
/// dual of the least weighted violation, with the bound negated as its total.
///
/// # Errors
///
/// There is no memory for the shares.
pub fn named_shares(
    alloc: Global,
    model: &Model,
    set: &MemberSet,
    enforced: &MemberSet,
    combo: &Combo,
) -> Result<Combo, AllocError>
    requires same { IsSetOf model.now set.now }
    requires enforced { IsSetOf model.now enforced.now }
    requires elastic { IsElastic model.now set.now.members enforced.now.members }
    requires of_system { let system = system_by model.now set.now.members enforced.now.members Weights in
        let of = IsOfSystem (length system.columns) (length system.rows) in
        All (λ s. of s.source) combo.now.shares }
    requires ordered { AreSharesInOrder combo.now.shares }
    ensures refutes { let system = system_by model.now set.now.members enforced.now.members in
        (costs : OneCosts) → IsNamedCombination (system costs) combo.now.shares
        → IfOk result (λ named. RefutesEnforced model.now enforced.now.members named.shares) }
    ensures least { let set = set.now.members in
        let enforced = enforced.now.members in
        let system = system_by model.now set enforced Weights in
        let terms = objective_by model.now set enforced Weights in
        (b : ℚ) → enforced ≡ rigid_members model.now set
        → IsNamedDual system terms combo.now.shares b
        → IfOk result (λ named. ShowsLeast model.now set named.shares (neg_ℚ b)) }
{
    // That the program is well formed is told with the count of its rows.
    let _count = model.row_count();
    let soft = numbered_soft(alloc, model, set, enforced)?;
    let rows = origins(alloc, model, enforced, soft.as_slice())?;
    let columns = model.column_count();
    let shares = placed(alloc, columns, rows.as_slice(), combo.shares.as_slice())?;
    Ok(Combo {
        shares: Shares::new(shares),
    })
}

// The shares of the members that shares of the system are, in member order.
fn placed(
    alloc: Global,
    columns: u32,
    rows: &[Origin],
    shares: &[Share],
) -> Result<Vec<Share>, AllocError>
    requires { All (λ s. IsOfRows (length rows.now) s.source) shares.now }
    ensures { IfOk result (λ list. list.items ≡ placed_by columns rows.now [] shares.now) }
{
    let mut list = Vec::new(alloc);
    for share in shares {
        place(columns, rows, *share, &mut list)?;
    }
    Ok(list)
}

// Puts in the share of the member that one of the system is, where it is any.
fn place(
    columns: u32,
    rows: &[Origin],
    share: Share,
    list: &mut Vec<Share>,
) -> Result<(), AllocError>
    requires { IsOfRows (length rows.now) share.source }
    ensures { let member = member_of_source columns rows.now share.source in
        IfOk result (λ done. list.new.items ≡ with_share share.weight member list.old.items) }
{
    let Some(member) = source_member(columns, rows, share.source) else {
        return Ok(());
    };
    insert(
        Share {
            source: Source::Member(member),
            weight: share.weight,
        },
        list,
    )
}

// The member that a source of the system is, where it is any.
fn source_member(columns: u32, rows: &[Origin], source: Source) -> Option<Member>
    requires { IsOfRows (length rows.now) source }
    ensures { result ≡ member_of_source columns rows.now source }
{
    let Source::Member(member) = source else {
        return None;
    };
    match member {
        Member::RowLo(row) => Some(origin_side(rows[row as usize], Side::Lo)),
        Member::RowUp(row) => Some(origin_side(rows[row as usize], Side::Up)),
        Member::Lower(column) | Member::Upper(column) => {
            if column < columns { Some(member) } else { None }
        }
        Member::Whole(_) => None,
    }
}

// The member that a side of a row of the system is.
fn origin_side(row: Origin, side: Side) -> Member
    ensures { result ≡ side_by row side }
{
    match (row, side) {
        (Origin::Row(row), Side::Lo) => Member::RowLo(row),
        (Origin::Row(row), Side::Up) => Member::RowUp(row),
        (Origin::Soft(_, member), _) => member,
    }
}

// Puts a share before the first that it stands before.
fn insert(share: Share, list: &mut Vec<Share>) -> Result<(), AllocError>
    ensures { IfOk result (λ done. list.new.items ≡ inserted share list.old.items) }
{
    let Some(place) = first_after(list.as_slice(), share.source) else {
        list.push(share)?;
        return Ok(());
    };
    list.insert(place, share)?;
    Ok(())
}

// The place of the first share that a source stands before.
fn first_after(list: &[Share], source: Source) -> Option<usize>
    ensures { result ≡ position (λ t. source_before source t.source) list.now }
{
    list.iter()
        .position(|other| stands_before(source, other.source))
}
