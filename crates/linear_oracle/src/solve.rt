//! The run of the plain system of a set on a path.
ghost use Rattle.std.specs.Prelude.{◌<◌, ◌≤◌, ◌^◌, All, length};
ghost use Rattle.certs.specs.Checks.{IsSetOf};
ghost use Rattle.certs.specs.Tales.{IsNodeEnd};

use crate::crossings::first_crossing;
use crate::ends::{crossing_end, cut_end, point_end, stop_end};
use certs::{BranchPath, MemberSet, NodeEnd, Stop, node_system};
use lp_model::Model;
use std::alloc::Global;
use two_widths::End;

/// The end of the run of the set's plain system on a path, with so many pivots. Those that it makes are added to a count.
///
/// # Errors
///
/// The stop of that run, with its site.
pub(crate) fn solve(
    alloc: Global,
    model: &Model,
    set: &MemberSet,
    path: &BranchPath,
    pivots: u64,
    made: &mut u64,
) -> Result<NodeEnd, Stop>
    requires same { IsSetOf model.now set.now }
    requires known { All (λ b. b.column < length model.now.columns) path.now }
    requires budget { pivots < 2 ^ 63 }
    ensures end { IsNodeEnd model.now set.now.members path.now pivots result }
    ensures made { made.old ≤ made.new }
{
    // With the counts it is told that the program is well formed, and that it has few rows and columns.
    let _rows = model.row_count();
    let _columns = model.column_count();
    let Ok(system) = node_system(alloc, model, set, path, false) else {
        return Err(Stop::Memory);
    };
    if let Some(variable) = first_crossing(&system) {
        return crossing_end(alloc, model, set, path, variable);
    }
    let solved = match two_widths::solve(alloc, &system, pivots) {
        Ok(solved) => solved,
        Err(stop) => return Err(stop_end(alloc, set, path.as_slice(), stop)),
    };
    *made = made.saturating_add(solved.made);
    match solved.end {
        End::Feasible => point_end(alloc, &solved.dictionary),
        End::Infeasible(variable) => {
            cut_end(alloc, model, set, path, &solved.dictionary, variable)
        }
        End::Optimal => unreachable!(),
        End::Ray(_) => unreachable!(),
    }
}
