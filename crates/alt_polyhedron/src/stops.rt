//! Stops of the run of a system of the alternative.
ghost use Rattle.std.specs.Prelude.{ℕ, IfOk};
ghost use Rattle.lp_model.specs.Program.{Program};
ghost use Rattle.certs.specs.Checks.{IsSetOf};
ghost use Rattle.certs.specs.System.{alternative_system};
ghost use Rattle.two_widths.specs.Ends.{StopsSo};
ghost use Rattle.alt_polyhedron.specs.Pricing.{IsAlternativeSite, IsPricingStop};

use certs::{MemberSet, Path, Site, SiteKind, Stop};
use simplex::RunStop;
use std::alloc::{AllocError, Global};

/// The stop of a run, with its site.
pub(crate) fn stop_of(alloc: Global, set: &MemberSet, stop: RunStop) -> Stop
    ensures { (model : Program) (pivots : ℕ) → IsSetOf model set.now
        → StopsSo (alternative_system model set.now.members) pivots stop
        → IsPricingStop model set.now.members pivots result }
{
    let Ok(site) = site_of(alloc, set) else {
        return Stop::Memory;
    };
    match stop {
        RunStop::Wide(turn, operation) => Stop::Wide(site, turn, operation),
        RunStop::Pivots => Stop::Pivots(site),
        RunStop::Memory => Stop::Memory,
    }
}

// The site of the run, on no path and with no enforced part.
fn site_of(alloc: Global, set: &MemberSet) -> Result<Site, AllocError>
    ensures { (model : Program) → IsSetOf model set.now
        → IfOk result (IsAlternativeSite model set.now.members) }
{
    let set = set.copy(alloc)?;
    let enforced = set.emptied(alloc)?;
    Ok(Site {
        kind: SiteKind::Alternative,
        set,
        enforced,
        path: Path::new(Vec::new(alloc)),
    })
}
