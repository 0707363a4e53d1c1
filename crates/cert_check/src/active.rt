//! The active members of a program, and room for values, kept from answer to answer.
ghost use Rattle.std.specs.Prelude.{◌≡◌, IfOk, OnOk, length};
ghost use Rattle.lp_model.specs.Members.{active_members};
ghost use Rattle.lp_model.specs.Satisfaction.{values_at};
ghost use Rattle.certs.specs.Checks.{outcome, point_steps, ray_steps};
ghost use Rattle.report_text.specs.Grammar.{point_phrases};
ghost use Rattle.cert_check.specs.Sparse.{IsActive, IsActiveFor, IsKept, IsRoom};

use crate::sparse::{Sparse, check_packed, check_packed_ray, sparse_for};
use bound_checks::has_mark;
use certs::{Checked, PackedPoint, PackedRay};
use frac128::Frac;
use lp_model::{MemberSet, Model};
use std::alloc::{AllocError, Global};

/// The active members, whether one is a mark, and what tells of points and rays with few values whether they pass.
#[derive(Drop)]
pub(crate) struct Active {
    pub(crate) set: MemberSet,
    pub(crate) marked: bool,
    sparse: Option<Sparse>,
}

/// What is kept: the active members, once they were asked for, and a 0 for each column.
#[derive(Drop)]
pub(crate) struct Kept {
    pub(crate) active: Option<Active>,
    pub(crate) room: Vec<Frac>,
}

impl Active {
    /// Those that are kept, or else those of a program.
    pub(crate) fn taken(
        alloc: Global,
        model: &Model,
        kept: &mut Option<Active>,
    ) -> Result<Active, AllocError>
        requires { IsActiveFor model.now kept.old }
        ensures { IfOk result (IsActive model.now) }
    {
        match kept.take() {
            Some(active) => Ok(active),
            None => Active::new(alloc, model),
        }
    }

    // Those of a program, for one point.
    fn new(alloc: Global, model: &Model) -> Result<Active, AllocError>
        ensures { IfOk result (IsActive model.now) }
    {
        let set = model.members(alloc)?;
        let marked = has_mark(&set);
        Ok(Active {
            set,
            marked,
            sparse: None,
        })
    }

    // The same, for rays and more points. There is a 0 for each column.
    fn listed(mut self, alloc: Global, model: &Model, zeros: &[Frac]) -> Result<Active, AllocError>
        requires active { IsActive model.now self }
        requires room { IsRoom (length model.now.columns) zeros.now }
        ensures { IfOk result (IsActive model.now) }
    {
        if self.sparse.is_none() {
            self.sparse = sparse_for(alloc, model, &self.set, zeros)?;
        }
        Ok(self)
    }
}

/// What the check of a point says of the active members, and how many lines the point has.
pub(crate) fn check_active(
    alloc: Global,
    model: &Model,
    kept: &mut Kept,
    point: &PackedPoint,
) -> Result<(Checked, u64), AllocError>
    requires kept { IsKept model.now kept.old }
    requires point { length point.now.values ≡ length model.now.columns }
    ensures kept { OnOk result (IsKept model.now kept.new) }
    ensures found { let x = values_at point.now.values in
        IfOk result (λ r. r.0 ≡ outcome (point_steps model.now (active_members model.now) x)) }
    ensures lines { IfOk result (λ r. r.1 ≡ length (point_phrases point.now)) }
{
    let active = match kept.active.take() {
        Some(active) => active.listed(alloc, model, kept.room.as_slice())?,
        None => Active::new(alloc, model)?,
    };
    let room = &mut kept.room;
    let found = check_packed(alloc, model, &active.set, &active.sparse, None, point, room)?;
    kept.active = Some(active);
    Ok(found)
}

/// What the check of a ray says of the active members.
pub(crate) fn check_active_ray(
    alloc: Global,
    model: &Model,
    kept: &mut Kept,
    ray: &PackedRay,
) -> Result<Checked, AllocError>
    requires kept { IsKept model.now kept.old }
    requires ray { length ray.now.values ≡ length model.now.columns }
    ensures kept { OnOk result (IsKept model.now kept.new) }
    ensures found { let x = values_at ray.now.values in
        IfOk result (λ found. found ≡ outcome (ray_steps model.now (active_members model.now) x)) }
{
    let active = Active::taken(alloc, model, &mut kept.active)?;
    let active = active.listed(alloc, model, kept.room.as_slice())?;
    let room = &mut kept.room;
    let found = check_packed_ray(alloc, model, &active.set, &active.sparse, ray, room)?;
    kept.active = Some(active);
    Ok(found)
}
