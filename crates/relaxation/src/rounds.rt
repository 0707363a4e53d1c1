//! One round of the elastic filter.
ghost use Rattle.std.specs.Prelude.{◌≡◌, ◌+◌, ◌<◌, ◌^◌, Bool, false, All, IfErr, IfOk, filter, length};
ghost use Rattle.lp_model.specs.declared.members.Member.{Member as OneMember};
ghost use Rattle.lp_model.specs.Members.{is_mark};
ghost use Rattle.lp_model.specs.Satisfaction.{IsPart};
ghost use Rattle.certs.specs.Checks.{IsSetOf};
ghost use Rattle.certs.specs.Elastic.{soft_members};
ghost use Rattle.certs.specs.Named.{IsOfSize};
ghost use Rattle.certs.specs.Tales.{IsStretched};
ghost use Rattle.certs.specs.declared.solving.Stop.TheVariants.{Memory};
ghost use Rattle.certs.specs.declared.evidence.Dual.{Dual as OneDual};
ghost use Rattle.relaxation.specs.declared.systems.Costs.TheVariants.{Ones};
ghost use Rattle.relaxation.specs.Costs.{system_by};
ghost use Rattle.relaxation.specs.Laws.{IsElastic};
ghost use Rattle.relaxation.specs.Runs.{IsBest, IsStopBy};
ghost use Rattle.relaxation.specs.Stretching.{IsTestOf};

use crate::Costs;
use crate::easing::{ease, first_values};
use crate::solving::Solved;
use certs::{MemberSet, Point, Stop, Stretched};
use frac128::Frac;
use lp_model::{Member, Model};
use simplex::is_less;
use std::alloc::{AllocError, Global};

/// One round: at a point that satisfies the enforced members with the least total violation of the set, the members that
/// are violated and not enforced yet; the point, where there are none; or a combination of the enforced members.
///
/// # Errors
///
/// `Wide` or `Pivots` where the run of the elastic system stops so, with its site; or `Memory`, for want of it.
pub(crate) fn round(
    alloc: Global,
    model: &Model,
    set: &MemberSet,
    enforced: &MemberSet,
    pivots: u64,
) -> Result<Stretched, Stop>
    requires same { IsSetOf model.now set.now }
    requires enforced { IsSetOf model.now enforced.now }
    requires linear { All (λ m. is_mark m ≡ false) set.now.members }
    requires part { IsPart enforced.now.members set.now.members }
    requires budget { pivots < 2 ^ 63 }
    ensures answered { let enforced = enforced.now.members in
        IfOk result (IsStretched model.now set.now.members enforced) }
    ensures stop { let enforced = enforced.now.members in
        IfErr result (IsStopBy model.now set.now.members enforced Ones pivots) }
{
    set.stands_in_order();
    enforced.stands_in_order();
    let solved = ease(alloc, model, set, enforced, Costs::Ones, pivots)?;
    match solved {
        Solved::Infeasible(combo) => Ok(Stretched::Cut(combo)),
        Solved::Optimal(values, _) => met_or_further(alloc, model, set, enforced, &values),
    }
}

// The members whose elastic variables are above 0, which are those that are missed; or the point, where there are none.
fn met_or_further(
    alloc: Global,
    model: &Model,
    set: &MemberSet,
    enforced: &MemberSet,
    values: &Point,
) -> Result<Stretched, Stop>
    requires same { IsSetOf model.now set.now }
    requires enforced { IsSetOf model.now enforced.now }
    requires elastic { IsElastic model.now set.now.members enforced.now.members }
    requires each { let soft = soft_members set.now.members enforced.now.members in
        length values.now.values ≡ length model.now.columns + length soft }
    ensures answered { let system = system_by model.now set.now.members enforced.now.members Ones in
        (dual : OneDual) → IsBest system values.now.values dual
        → IfOk result (IsStretched model.now set.now.members enforced.now.members) }
    ensures memory { IfErr result (λ stop. stop ≡ Memory) }
{
    // That the program is well formed is told with the count.
    let _rows = model.row_count();
    let columns = model.column_count();
    let elastic = &values.values.as_slice()[columns as usize..];
    let Ok(further) = missed_members(alloc, set, enforced, elastic) else {
        return Err(Stop::Memory);
    };
    if further.count() > 0 {
        return Ok(Stretched::Stretched(further));
    }
    let Ok(point) = first_values(alloc, columns, values) else {
        return Err(Stop::Memory);
    };
    Ok(Stretched::Met(point))
}

// The soft members whose values, in their order, are above 0.
fn missed_members(
    alloc: Global,
    set: &MemberSet,
    enforced: &MemberSet,
    values: &[Frac],
) -> Result<MemberSet, AllocError>
    requires sized { IsOfSize set.now enforced.now }
    requires each { let soft = soft_members set.now.members enforced.now.members in
        length values.now ≡ length soft }
    ensures { let soft = soft_members set.now.members enforced.now.members in
        (test : OneMember → Bool) → IsTestOf soft values.now test
        → IfOk result (λ found. found ≡ record set.now { members = filter test soft }) }
{
    set.stands_in_order();
    let soft = soft_list(alloc, set, enforced)?;
    let mut found = set.emptied(alloc)?;
    for index in 0..soft.len() {
        if is_less(Frac::whole(0), values[index]) {
            found.insert(soft[index]);
        }
    }
    Ok(found)
}

// The members of a set that are not enforced, in order.
fn soft_list(
    alloc: Global,
    set: &MemberSet,
    enforced: &MemberSet,
) -> Result<Vec<Member>, AllocError>
    requires { IsOfSize set.now enforced.now }
    ensures { let soft = soft_members set.now.members enforced.now.members in
        IfOk result (λ list. list.items ≡ soft) }
{
    set.stands_in_order();
    let mut list = Vec::new(alloc);
    for member in set.iter() {
        if !enforced.contains(member) {
            list.push(member)?;
        }
    }
    Ok(list)
}
