//! The run of the elastic system of a set.
ghost use Rattle.std.specs.Prelude.{◌≡◌, ◌≤◌, ◌<◌, ◌^◌, ℕ, IfErr, IfOk, length, take};
ghost use Rattle.lp_model.specs.Program.{Program};
ghost use Rattle.certs.specs.Checks.{IsSetOf};
ghost use Rattle.relaxation.specs.Costs.{system_by};
ghost use Rattle.relaxation.specs.Laws.{IsElastic};
ghost use Rattle.relaxation.specs.Runs.{IsEased, IsFailure, IsSiteBy, IsStopBy, kind_by};

use crate::solving::{Failure, Solved, solve};
use crate::{
    Costs, elastic_system, elastic_systems_are_few, elastic_systems_are_formed, named_shares,
};
use certs::{MemberSet, Path, Point, Site, SiteKind, Stop, Values};
use lp_model::Model;
use simplex::RunStop;
use std::alloc::{AllocError, Global};

/// What the run of the elastic system of a set with an enforced part shows, with these costs and so many pivots; a
/// combination of the system is told as one of the enforced members.
///
/// # Errors
///
/// `Wide` or `Pivots` where the run stops so, with its site; or `Memory`, for want of it.
pub(crate) fn ease(
    alloc: Global,
    model: &Model,
    set: &MemberSet,
    enforced: &MemberSet,
    costs: Costs,
    pivots: u64,
) -> Result<Solved, Stop>
    requires same { IsSetOf model.now set.now }
    requires enforced { IsSetOf model.now enforced.now }
    requires elastic { IsElastic model.now set.now.members enforced.now.members }
    requires budget { pivots < 2 ^ 63 }
    ensures eased { let enforced = enforced.now.members in
        IfOk result (IsEased model.now set.now.members enforced costs) }
    ensures stop { let enforced = enforced.now.members in
        IfErr result (IsStopBy model.now set.now.members enforced costs pivots) }
{
    // With the counts it is told that the program is well formed, and that it has few rows and columns.
    let _rows = model.row_count();
    let _columns = model.column_count();
    elastic_systems_are_formed();
    elastic_systems_are_few();
    let Ok(system) = elastic_system(alloc, model, set, enforced, costs) else {
        return Err(Stop::Memory);
    };
    let solved = match solve(alloc, &system, pivots) {
        Ok(solved) => solved,
        Err(failure) => return Err(stop_of(alloc, set, enforced, costs, failure)),
    };
    match solved {
        Solved::Infeasible(combo) => {
            let Ok(named) = named_shares(alloc, model, set, enforced, &combo) else {
                return Err(Stop::Memory);
            };
            Ok(Solved::Infeasible(named))
        }
        Solved::Optimal(values, dual) => Ok(Solved::Optimal(values, dual)),
    }
}

// The stop of a run, with its site.
fn stop_of(
    alloc: Global,
    set: &MemberSet,
    enforced: &MemberSet,
    costs: Costs,
    failure: Failure,
) -> Stop
    ensures { let set = set.now in
        let enforced = enforced.now in
        (model : Program) (pivots : ℕ) → IsSetOf model set → IsSetOf model enforced
        → IsFailure (system_by model set.members enforced.members costs) pivots failure
        → IsStopBy model set.members enforced.members costs pivots result }
{
    let Failure::Stopped(stop) = failure else {
        return Stop::Memory;
    };
    let Ok(site) = site_of(alloc, set, enforced, costs) else {
        return Stop::Memory;
    };
    match stop {
        RunStop::Wide(turn, operation) => Stop::Wide(site, turn, operation),
        RunStop::Pivots => Stop::Pivots(site),
        RunStop::Memory => Stop::Memory,
    }
}

// The site of the run, on no path.
fn site_of(
    alloc: Global,
    set: &MemberSet,
    enforced: &MemberSet,
    costs: Costs,
) -> Result<Site, AllocError>
    ensures { let set = set.now in
        let enforced = enforced.now in
        (model : Program) → IsSetOf model set → IsSetOf model enforced
        → IfOk result (IsSiteBy model set.members enforced.members costs) }
{
    let set = set.copy(alloc)?;
    let enforced = enforced.copy(alloc)?;
    Ok(Site {
        kind: kind_of(costs),
        set,
        enforced,
        path: Path::new(Vec::new(alloc)),
    })
}

// Which run it is.
fn kind_of(costs: Costs) -> SiteKind
    ensures { result ≡ kind_by costs }
{
    match costs {
        Costs::Ones => SiteKind::Stretch,
        Costs::Weights => SiteKind::Relax,
    }
}

/// The values of the program's columns, of which there are so many: the first ones.
///
/// # Errors
///
/// There is no memory for them.
pub(crate) fn first_values(alloc: Global, columns: u32, values: &Point) -> Result<Point, AllocError>
    requires { columns ≤ length values.now.values }
    ensures { IfOk result (λ point. point.values ≡ take columns values.now.values) }
{
    let first = &values.values.as_slice()[..columns as usize];
    Ok(Point {
        values: Values::new(Vec::from_slice(alloc, first)?),
    })
}
