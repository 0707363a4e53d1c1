//! Whether totals and prices hold.
ghost use Rattle.std.specs.Prelude.{◌+◌, ◌<◌, ◌∷◌, []};
ghost use Rattle.certs.specs.Checks.{outcome};
ghost use Rattle.price_checks.specs.Costs.{cost_steps};
ghost use Rattle.report_text.specs.Form.{IsCoreFor};
ghost use Rattle.cert_check.specs.Trials.{leaf_shares, on_line, price_trials};
ghost use Rattle.cert_check.specs.Stops.{first_stop, Says};

use crate::outcome::{Stop, settle};
use certs::{Node, Proof};
use frac128::Frac;
use lp_model::Model;
use price_checks::{check_cost, check_price};
use report_text::{Core, TOTAL_LINES};
use std::alloc::Global;

/// Checks the total of an irreducible set on the given line, and its price against the active members, where they are told.
pub(crate) fn check_priced(alloc: Global, model: &Model, core: &Core, line: u32) -> Result<(), Stop>
    requires form { IsCoreFor model.now core.now }
    requires short { line + 1 < 4294967296 }
    ensures { let proof = core.now.proof in
        Says (first_stop (price_trials model.now line proof core.now.price)) result }
{
    let Some((total, price)) = &core.price else {
        return Ok(());
    };
    check_total(model, &core.proof, *total, line)?;
    let Ok(active) = model.members(alloc) else {
        return Err(Stop::Memory);
    };
    let Ok(price) = price.unpacked(alloc) else {
        return Err(Stop::Memory);
    };
    settle(
        line + TOTAL_LINES,
        check_price(model, &active, *total, &price),
    )
}

// Checks a total on the given line: that the proof is one leaf, that its right side is -1, and that its shares cost the total.
fn check_total(model: &Model, proof: &Proof, total: Frac, line: u32) -> Result<(), Stop>
    ensures { let steps = cost_steps model.now (leaf_shares proof.now.nodes) total in
        Says (first_stop (on_line line (outcome steps) ∷ [])) result }
{
    let nodes = proof.nodes.as_slice();
    if nodes.len() != 1 {
        return Err(Stop::Rejected(line));
    }
    let Node::Leaf(combo) = &nodes[0] else {
        return Err(Stop::Rejected(line));
    };
    settle(line, check_cost(model, combo, total))
}
