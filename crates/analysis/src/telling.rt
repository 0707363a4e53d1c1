//! What is told of the sites of runs.
ghost use Rattle.std.specs.Prelude.{◌≡◌, ◌&&◌, IfOk, length, not};
ghost use Rattle.lp_model.specs.Members.{has, is_active as is_in_force};
ghost use Rattle.lp_model.specs.MemberSets.{IsMemberFor};
ghost use Rattle.certs.specs.Checks.{IsSetOf};
ghost use Rattle.report_text.specs.Told.{left_out as members_left, told_site as told};
ghost use Rattle.analysis.specs.Answers.{IsPossibleSite};

use certs::{MemberSet, Site};
use lp_model::{Member, Model};
use report_text::{Members, ToldSite};
use std::alloc::{AllocError, Global};

// Whether a member is active and not in the set.
fn is_left_out(model: &Model, set: &MemberSet, member: Member) -> bool
    requires set { IsSetOf model.now set.now }
    requires member { IsMemberFor (length model.now.rows) (length model.now.columns) member }
    ensures { result ≡ (is_in_force model.now member && not (has set.now.members member)) }
{
    model.is_active(member) && !set.contains(member)
}

// The active members that are not in the set, in order.
fn left_out(alloc: Global, model: &Model, set: &MemberSet) -> Result<Members, AllocError>
    requires { IsSetOf model.now set.now }
    ensures { IfOk result (λ left. left ≡ members_left model.now set.now.members) }
{
    let mut left = Vec::new(alloc);
    for member in model.possible_members() {
        if !is_left_out(model, set, member) {
            continue;
        }
        left.push(member)?;
    }
    Ok(Members::new(left))
}

/// What is told of the site of a run: the active members that are not in its set, those that are enforced, and its path.
pub(crate) fn told_site(alloc: Global, model: &Model, site: Site) -> Result<ToldSite, AllocError>
    requires { IsSetOf model.now site.set }
    ensures told { IfOk result (λ t. t ≡ told model.now site) }
    ensures possible { IsPossibleSite site }
{
    site.set.stands_in_order();
    Ok(ToldSite {
        kind: site.kind,
        left: left_out(alloc, model, &site.set)?,
        enforced: Members::new(site.enforced.iter().collect(alloc)?),
        path: site.path,
    })
}
