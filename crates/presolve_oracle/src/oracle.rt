//! The oracle.
ghost use Rattle.std.specs.Prelude.{◌≡◌, ◌≤◌, ◌<◌, ◌^◌, true};
ghost use Rattle.certs.specs.Answers.{is_linear};
ghost use Rattle.certs.specs.Checks.{IsSetOf};
ghost use Rattle.certs.specs.Tales.{asked_after};
ghost use Rattle.certs.proofs.PlainAnswers.{linear_part};
ghost use Rattle.presolve_laws.specs.Answers.{IsPresolvedAnswer, IsPresolvedVerdict};
ghost use Rattle.presolve_oracle.specs.Value.{fresh_value, presolve_state};
ghost use Rattle.presolve_laws.proofs.PresolveAnswers.{presolved_holds, presolved_ordered, presolved_within};

use crate::easing::{Easing, eased};
use certs::{BranchAsk, BranchPath, MemberSet, NodeEnd, Oracle, Stop, Tale, Verdict};
use linear_oracle::LinearOracle;
use lp_model::Model;
use std::alloc::Global;

/// An oracle for sets without marks: the reduction of the set's plain system, then the run of what is left, with its
/// evidence brought back; and where that is stopped, or the way back is too wide, the plain system's own run, with the
/// whole budget anew.
///
/// (Reductions before a simplex run, and the way back from them, are those of Brearley, Mitra and Williams 1975 and of
/// Andersen and Andersen 1995.)
#[derive(Drop)]
pub struct PresolveOracle<'a> {
    model: &'a Model,
    inner: LinearOracle<'a>,
    made: u64,
    tale: Tale,
}

impl<'a> std::marker::Model for PresolveOracle<'a> {
    ghost use Rattle.std.specs.Prelude.{◌≡◌};
    ghost use Rattle.presolve_oracle.specs.Value.{PresolveValue};

    ghost Value = { PresolveValue };

    ghost view = { λ o. record { inner = o.inner; tale = o.tale } };

    ghost invariant = { λ o. o.inner.model ≡ o.model.now };
}

impl<'a> PresolveOracle<'a> {
    /// An oracle for a program, which may spend so many pivots in each run: in that of a reduced system, and anew in that
    /// of the plain system. It was asked nothing yet.
    pub fn new(alloc: Global, model: &'a Model, pivots: u64) -> PresolveOracle<'a>
        requires { pivots < 2 ^ 63 }
        ensures { result ≡ fresh_value model.now pivots }
    {
        PresolveOracle {
            model,
            inner: LinearOracle::new(alloc, model, pivots),
            made: 0,
            tale: Tale::new(alloc),
        }
    }

    /// How many pivots its runs that ended made so far, those of reduced systems and of nodes too, for measurements; it stays at
    /// its greatest value once there.
    pub fn pivots_made(&self) -> u64
        ensures { self.now.inner.made ≤ result }
    {
        self.made.saturating_add(self.inner.pivots_made())
    }

    /// What it tells of its calls.
    pub fn tale(&self) -> &Tale
        ensures { result.now ≡ self.now.tale }
    {
        &self.tale
    }
}

impl Oracle for PresolveOracle<'_> {
    ghost state = { presolve_state };

    ghost answers = { λ model budgets set result. IsPresolvedAnswer model budgets.pivots set result };

    ghost holds = { λ model budgets set verdict h. presolved_holds model budgets.pivots set verdict h };

    ghost ordered = { λ model budgets set proof h. presolved_ordered model budgets.pivots set proof h };

    ghost within = { λ model budgets set stop h. presolved_within model budgets.pivots set stop h };

    ghost parts = { λ oracle set part of h. linear_part set part of h };

    fn ask(&mut self, alloc: Global, set: &MemberSet) -> Result<Verdict, Stop>
        requires same { IsSetOf self.old.inner.model set.now }
        requires served { is_linear set.now.members ≡ true }
        ensures answered { let inner = self.old.inner in
            IsPresolvedAnswer inner.model inner.pivots set.now.members result }
        ensures told { presolve_state self.new
            ≡ asked_after (presolve_state self.old) set.now.members result }
    {
        // That the program is well formed is told with its count of rows.
        let _rows = self.model.row_count();
        set.stands_in_order();
        let answer = answered(alloc, self.model, &mut self.inner, set, &mut self.made);
        self.tale.tell(alloc, set, answer)
    }
}

impl BranchAsk for PresolveOracle<'_> {
    fn ask_with(
        &mut self,
        alloc: Global,
        set: &MemberSet,
        path: &BranchPath,
    ) -> Result<NodeEnd, Stop> {
        self.inner.ask_with(alloc, set, path)
    }
}

// The verdict that comes back from the reduction, or where none does what the inner oracle answers.
fn answered(
    alloc: Global,
    model: &Model,
    inner: &mut LinearOracle<'_>,
    set: &MemberSet,
    made: &mut u64,
) -> Result<Verdict, Stop>
    requires same { IsSetOf model.now set.now }
    requires program { inner.old.model ≡ model.now }
    requires linear { is_linear set.now.members ≡ true }
    ensures answer { IsPresolvedVerdict model.now set.now.members inner.old.pivots result }
    ensures program { inner.new.model ≡ inner.old.model }
    ensures pivots { inner.new.pivots ≡ inner.old.pivots }
{
    let Ok(easing) = eased(alloc, model, set, inner.pivots(), made) else {
        return Err(Stop::Memory);
    };
    match easing {
        Easing::Back(verdict) => Ok(verdict),
        Easing::Stopped(stop) => Err(stop),
        Easing::Uneased => inner.ask(alloc, set),
    }
}
