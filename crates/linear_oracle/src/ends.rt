//! Ends of runs, as a node has them.
ghost use Rattle.std.specs.Prelude.{◌≡◌, ◌≤◌, ◌<◌, ℕ, false, true, None, Some, Err, All, IfOk, List, length, map};
ghost use Rattle.frac128.specs.Calculation.{first_wide};
ghost use Rattle.frac128.specs.Limit.{limit};
ghost use Rattle.lp_model.specs.Program.{Program};
ghost use Rattle.lp_model.specs.declared.members.Member.{Member as OneMember};
ghost use Rattle.certs.specs.declared.evidence.Branch.{Branch as OneBranch};
ghost use Rattle.certs.specs.Checks.{IsSetOf};
ghost use Rattle.certs.specs.Named.{named};
ghost use Rattle.certs.specs.Plain.{crossing_shares, first_crossing, plain_system};
ghost use Rattle.certs.specs.Runs.End.{Feasible as IsFeasible, Infeasible as IsInfeasible};
ghost use Rattle.certs.specs.Tableau.{IsTableauOf, IsWellFormedSystem};
ghost use Rattle.certs.specs.Tales.{IsNodeEnd, IsNodeSite};
ghost use Rattle.certs.specs.Turns.{limited, settle_choice, settle_values};
ghost use Rattle.dictionary.specs.Value.{tableau_of};
ghost use Rattle.simplex.specs.Ends.{IsEnd};
ghost use Rattle.simplex.specs.declared.settling.Settled.TheVariants.{Feasible, Infeasible};
ghost use Rattle.two_widths.specs.Ends.{IsStopOf};
ghost use Rattle.linear_oracle.specs.Ended.{HasEnded};

use certs::{
    Branch, BranchPath, Combo, MemberSet, NodeEnd, Path, Shares, Side, Site, SiteKind, Stop,
    node_combo,
};
use dictionary::Dictionary;
use frac128::Frac;
use lp_model::Model;
use simplex::{RunStop, combo_of, limit_share, point_of};
use std::alloc::{AllocError, Global};

/// The end of a run that settles: the values of the columns.
pub(crate) fn point_end(alloc: Global, dictionary: &Dictionary<Frac>) -> Result<NodeEnd, Stop>
    requires usable { dictionary.now.usable ≡ true }
    requires columns { dictionary.now.columns ≤ limited (tableau_of dictionary.now) }
    requires settled { IsEnd Feasible (settle_choice (tableau_of dictionary.now)) }
    requires narrow { first_wide limit (settle_values (tableau_of dictionary.now)) ≡ None }
    ensures { (model : Program) (set : List OneMember) (path : List OneBranch) (pivots : ℕ) → HasEnded (plain_system model set path false) pivots dictionary.now IsFeasible → IsNodeEnd model set path pivots result }
{
    match point_of(alloc, dictionary) {
        Ok(point) => Ok(NodeEnd::Point(point)),
        Err(_) => Err(Stop::Memory),
    }
}

/// The end of a run that is infeasible by a variable: its combination, as one of the set and the path.
pub(crate) fn cut_end(
    alloc: Global,
    model: &Model,
    set: &MemberSet,
    path: &BranchPath,
    dictionary: &Dictionary<Frac>,
    variable: u32,
) -> Result<NodeEnd, Stop>
    requires same { IsSetOf model.now set.now }
    requires known { All (λ b. b.column < length model.now.columns) path.now }
    requires formed { IsWellFormedSystem (plain_system model.now set.now.members path.now false) }
    requires is_of { IsTableauOf (plain_system model.now set.now.members path.now false) (tableau_of dictionary.now) }
    requires count { dictionary.now.columns ≡ length model.now.columns }
    requires usable { dictionary.now.usable ≡ true }
    requires columns { dictionary.now.columns ≤ limited (tableau_of dictionary.now) }
    requires blocked { IsEnd (Infeasible variable) (settle_choice (tableau_of dictionary.now)) }
    requires narrow { first_wide limit (settle_values (tableau_of dictionary.now)) ≡ None }
    ensures { (pivots : ℕ) → HasEnded (plain_system model.now set.now.members path.now false) pivots dictionary.now (IsInfeasible variable) → IsNodeEnd model.now set.now.members path.now pivots result }
{
    let Ok(combo) = combo_of(alloc, dictionary, variable) else {
        return Err(Stop::Memory);
    };
    match node_combo(alloc, model, set, path, &combo) {
        Ok(named) => Ok(NodeEnd::Cut(named)),
        Err(_) => Err(Stop::Memory),
    }
}

/// The end where limits cross: both limits of the least variable whose limits do.
pub(crate) fn crossing_end(
    alloc: Global,
    model: &Model,
    set: &MemberSet,
    path: &BranchPath,
    variable: u32,
) -> Result<NodeEnd, Stop>
    requires same { IsSetOf model.now set.now }
    requires known { All (λ b. b.column < length model.now.columns) path.now }
    requires crosses { first_crossing (plain_system model.now set.now.members path.now false) ≡ Some variable }
    ensures { (pivots : ℕ) → IsNodeEnd model.now set.now.members path.now pivots result }
{
    let Ok(combo) = crossing_combo(alloc, model.column_count(), variable) else {
        return Err(Stop::Memory);
    };
    match node_combo(alloc, model, set, path, &combo) {
        Ok(named) => Ok(NodeEnd::Cut(named)),
        Err(_) => Err(Stop::Memory),
    }
}

// Both limits of a variable, each once.
fn crossing_combo(alloc: Global, columns: u32, variable: u32) -> Result<Combo, AllocError>
    ensures { IfOk result (λ combo. combo.shares ≡ map (named columns) (crossing_shares variable)) }
{
    let one = Frac::whole(1);
    let shares = [
        limit_share(columns, variable, Side::Lo, one),
        limit_share(columns, variable, Side::Up, one),
    ];
    Ok(Combo {
        shares: Shares::new(Vec::from_slice(alloc, &shares)?),
    })
}

/// The stop of the settle run of a set's plain system on a path, with its site; or want of memory, where there is none for
/// the site.
pub fn stop_end(alloc: Global, set: &MemberSet, path: &[Branch], stop: RunStop) -> Stop
    ensures { (model : Program) (pivots : ℕ) → IsSetOf model set.now → IsStopOf (plain_system model set.now.members path.now false) pivots stop → IsNodeEnd model set.now.members path.now pivots (Err result) }
{
    let Ok(site) = settle_site(alloc, set, path) else {
        return Stop::Memory;
    };
    match stop {
        RunStop::Wide(turn, operation) => Stop::Wide(site, turn, operation),
        RunStop::Pivots => Stop::Pivots(site),
        RunStop::Memory => Stop::Memory,
    }
}

/// The site of the settle run of a set's plain system on a path, with no enforced part.
///
/// # Errors
///
/// There is no memory for copies of the set and the path.
pub fn settle_site(alloc: Global, set: &MemberSet, path: &[Branch]) -> Result<Site, AllocError>
    ensures { (model : Program) → IsSetOf model set.now → IfOk result (IsNodeSite model set.now.members path.now) }
{
    let set = set.copy(alloc)?;
    let enforced = set.emptied(alloc)?;
    let path = Path::new(Vec::from_slice(alloc, path)?);
    Ok(Site {
        kind: SiteKind::Settle,
        set,
        enforced,
        path,
    })
}
