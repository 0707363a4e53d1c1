//! The least weighted violation of a set.
ghost use Rattle.std.specs.Prelude.{◌≡◌, ◌<◌, ◌^◌, IfErr, IfOk, false, All};
ghost use Rattle.lp_model.specs.Members.{is_mark};
ghost use Rattle.certs.specs.Checks.{IsSetOf};
ghost use Rattle.certs.specs.Violation.{rigid_members};
ghost use Rattle.certs.specs.declared.solving.Stop.TheVariants.{Memory};
ghost use Rattle.relaxation.specs.declared.systems.Costs.TheVariants.{Weights};
ghost use Rattle.relaxation.specs.Costs.{system_by};
ghost use Rattle.relaxation.specs.Laws.{IsElastic};
ghost use Rattle.relaxation.specs.Relaxed.{IsRelaxed, IsRelaxStop};
ghost use Rattle.relaxation.specs.Runs.{IsBest};

use crate::easing::{ease, first_values};
use crate::solving::Solved;
use crate::{Costs, named_shares};
use certs::{Combo, Dual, Point, Stop};
use least_checks::rigid_set;
use lp_model::{MemberSet, Model};
use std::alloc::Global;

/// A point of least weighted violation with a dual that shows that none is less, of which the bound is the total; or a
/// combination of the rigid members, which no point satisfies.
#[derive(Drop)]
pub enum Relaxed {
    Least { point: Point, dual: Dual },
    RigidInfeasible(Combo),
}

/// How little of a set's members must give way: the least sum of weight times violation over the soft members, among the
/// points that satisfy the rigid ones (Chinneck 2008). The set has no mark.
///
/// The elastic system of the set, its rigid members enforced, is settled and improved, with so many pivots for both together.
///
/// # Errors
///
/// `Wide` or `Pivots` where that run stops so, with its site; or `Memory`, for want of it.
pub fn relax(alloc: Global, model: &Model, set: &MemberSet, pivots: u64) -> Result<Relaxed, Stop>
    requires same { IsSetOf model.now set.now }
    requires linear { All (λ m. is_mark m ≡ false) set.now.members }
    requires budget { pivots < 2 ^ 63 }
    ensures found { IfOk result (IsRelaxed model.now set.now.members) }
    ensures stop { IfErr result (IsRelaxStop model.now set.now.members pivots) }
{
    set.stands_in_order();
    let Ok(rigid) = rigid_set(alloc, model, set) else {
        return Err(Stop::Memory);
    };
    rigid.stands_in_order();
    let solved = ease(alloc, model, set, &rigid, Costs::Weights, pivots)?;
    match solved {
        Solved::Infeasible(combo) => Ok(Relaxed::RigidInfeasible(combo)),
        Solved::Optimal(values, dual) => least_at(alloc, model, set, &rigid, &values, &dual),
    }
}

// The point and the dual of the best values.
fn least_at(
    alloc: Global,
    model: &Model,
    set: &MemberSet,
    rigid: &MemberSet,
    values: &Point,
    dual: &Dual,
) -> Result<Relaxed, Stop>
    requires same { IsSetOf model.now set.now }
    requires enforced { IsSetOf model.now rigid.now }
    requires rigid { rigid.now.members ≡ rigid_members model.now set.now.members }
    requires elastic { IsElastic model.now set.now.members rigid.now.members }
    requires best { let system = system_by model.now set.now.members rigid.now.members Weights in
        IsBest system values.now.values dual.now }
    ensures found { IfOk result (IsRelaxed model.now set.now.members) }
    ensures memory { IfErr result (λ stop. stop ≡ Memory) }
{
    // That the program is well formed is told with the count.
    let _rows = model.row_count();
    let Ok(combo) = named_shares(alloc, model, set, rigid, &dual.combo) else {
        return Err(Stop::Memory);
    };
    let Ok(point) = first_values(alloc, model.column_count(), values) else {
        return Err(Stop::Memory);
    };
    Ok(Relaxed::Least {
        point,
        dual: Dual {
            combo,
            bound: dual.bound.negate(),
        },
    })
}
