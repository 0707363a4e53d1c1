//! The cheapest irreducible set of a set.
ghost use Rattle.std.specs.Prelude.{◌≡◌, ◌<◌, ◌^◌, IfErr, IfOk, false, All, length};
ghost use Rattle.lp_model.specs.Members.{is_mark};
ghost use Rattle.certs.specs.Checks.{IsSetOf};
ghost use Rattle.certs.specs.System.{alternative_system as system_of, bounding};
ghost use Rattle.relaxation.specs.Runs.{StandsBest};
ghost use Rattle.alt_polyhedron.specs.Pricing.{IsPricing, IsPricingStop};

use crate::reading::{price_of, total_of};
use crate::stops::stop_of;
use crate::supports::{support, used_members};
use crate::{
    alternative_system, alternative_systems_are_bounded, alternative_systems_are_few,
    alternative_systems_are_formed, bounding_members,
};
use certs::{Combo, MemberSet, Point, Stop};
use dictionary::Dictionary;
use evidence_laws::{
    last_table_is_cheapest, last_table_is_irreducible, no_weighting_gives_point, tableau_is_table,
};
use frac128::Frac;
use lp_model::Model;
use relaxation::{Reached, run};
use simplex::point_of;
use std::alloc::{AllocError, Global};

/// Whether a set can be satisfied; and where it cannot, an irreducible set of its members with the weighting that refutes
/// it, in which each member weighs above 0 and the right side is -1; the cost of that weighting, than which none of the
/// set's is cheaper; and a price for that cost, with a value for each column, which shows so.
#[derive(Drop)]
pub enum Priced {
    Feasible,
    Set {
        members: MemberSet,
        combo: Combo,
        total: Frac,
        price: Point,
    },
}

/// The cheapest weighting of a set's members that refutes the set, where there is one. Its cost is the sum of weight times
/// the member's weight in the program, a rigid one counted as 1. The members that it uses are an irreducible set without
/// further filtering, since it is a vertex of the polyhedron of all such weightings (Gleeson and Ryan 1990). The set has no
/// mark.
///
/// The set's system of the alternative is settled and improved, with so many pivots for both together; the weighting are the
/// values there, and the price is read off the objective's row.
///
/// # Errors
///
/// `Wide` or `Pivots` where that run stops so, with its site; or `Memory`, for want of it.
pub fn cheapest(alloc: Global, model: &Model, set: &MemberSet, pivots: u64) -> Result<Priced, Stop>
    requires same { IsSetOf model.now set.now }
    requires linear { All (λ m. is_mark m ≡ false) set.now.members }
    requires budget { pivots < 2 ^ 63 }
    ensures priced { IfOk result (IsPricing model.now set.now.members) }
    ensures stop { IfErr result (IsPricingStop model.now set.now.members pivots) }
{
    // With the counts it is told that the program is well formed, and that it has few rows and columns.
    let _rows = model.row_count();
    let _columns = model.column_count();
    set.stands_in_order();
    alternative_systems_are_formed();
    alternative_systems_are_few();
    alternative_systems_are_bounded();
    no_weighting_gives_point();
    let Ok(system) = alternative_system(alloc, model, set) else {
        return Err(Stop::Memory);
    };
    let ran = match run(alloc, &system, pivots) {
        Ok(ran) => ran,
        Err(stop) => return Err(stop_of(alloc, set, stop)),
    };
    match ran.reached {
        Reached::Blocked(_) => Ok(Priced::Feasible),
        Reached::Best => {
            let Ok(priced) = cheapest_at(alloc, model, set, &ran.dictionary) else {
                return Err(Stop::Memory);
            };
            Ok(priced)
        }
    }
}

// The cheapest irreducible set where the runs end with the least cost.
fn cheapest_at(
    alloc: Global,
    model: &Model,
    set: &MemberSet,
    dictionary: &Dictionary<Frac>,
) -> Result<Priced, AllocError>
    requires same { IsSetOf model.now set.now }
    requires columns { dictionary.now.columns ≡ length (bounding model.now set.now.members) }
    requires stands { let system = system_of model.now set.now.members in
        StandsBest system dictionary.now }
    ensures { IfOk result (IsPricing model.now set.now.members) }
{
    // That the program is well formed is told with the count.
    let _rows = model.row_count();
    set.stands_in_order();
    tableau_is_table();
    last_table_is_irreducible();
    last_table_is_cheapest();
    let members = bounding_members(alloc, model, set)?;
    let values = point_of(alloc, dictionary)?;
    let combo = support(alloc, members.as_slice(), values.values.as_slice())?;
    let used = used_members(alloc, set, &combo)?;
    let total = total_of(dictionary, model.column_count());
    let price = price_of(alloc, dictionary, model.column_count())?;
    Ok(Priced::Set {
        members: used,
        combo,
        total,
        price,
    })
}
