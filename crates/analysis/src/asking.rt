//! The oracles that are asked: quick runs, and else reductions, and the runs and trees of the budgets.
ghost use Rattle.std.specs.Prelude.{◌≡◌, ◌<◌, ◌^◌};
ghost use Rattle.certs.specs.Tales.{no_tale};
ghost use Rattle.analysis.specs.Answers.{budgets_of, fresh_oracle};

use crate::answering::Budgets;
use branch_oracle::BranchOracle;
use lp_model::Model;
use presolve_oracle::PresolveOracle;
use quick_answers::{Kept, QuickOracle};
use std::alloc::Global;
use std::mem;

/// The oracle of the reference: for sets without marks what comes back from the reduction of their plain systems, or
/// else the runs of those, and for sets with a mark their trees, within the budgets.
pub(crate) type Reference<'a> = BranchOracle<'a, PresolveOracle<'a>>;

/// One of a program, that was asked nothing yet.
pub(crate) fn reference_oracle<'a>(
    alloc: Global,
    model: &'a Model,
    budgets: Budgets,
) -> Reference<'a>
    requires { budgets.pivots < 2 ^ 63 }
    ensures { result ≡ fresh_oracle model.now (budgets_of budgets) }
{
    let inner = PresolveOracle::new(alloc, model, budgets.pivots);
    BranchOracle::new(alloc, model, inner, budgets.nodes)
}

/// A quick oracle over the reference, whose quick trees may take so many nodes. It takes what is kept of the program.
pub(crate) fn quick_oracle<'a>(
    alloc: Global,
    model: &'a Model,
    budgets: Budgets,
    nodes: u64,
    kept: &mut Kept,
) -> QuickOracle<'a, Reference<'a>>
    requires { budgets.pivots < 2 ^ 63 }
    ensures inner { result.inner ≡ fresh_oracle model.now (budgets_of budgets) }
    ensures pivots { result.pivots ≡ budgets.pivots }
    ensures nodes { result.nodes ≡ nodes }
    ensures tale { result.tale ≡ no_tale }
{
    let inner = reference_oracle(alloc, model, budgets);
    let kept = mem::replace(kept, Kept::new());
    QuickOracle::new(alloc, model, kept, inner, budgets.pivots, nodes)
}

/// Keeps what an oracle used of the program, for the next one.
pub(crate) fn keep(kept: &mut Kept, used: Kept) {
    *kept = used;
}
