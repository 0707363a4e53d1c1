//! Solvers as filters and searches see them.
ghost use Rattle.std.specs.Prelude.{◌≡◌, ◌<◌, false, true, All, List, ℕ, Ok, Err, Result as Outcome, length};
ghost use Rattle.lp_model.specs.declared.members.Member.{Member as OneMember};
ghost use Rattle.lp_model.specs.Members.{is_mark};
ghost use Rattle.lp_model.specs.Program.{Program};
ghost use Rattle.lp_model.specs.Satisfaction.{IsPart};
ghost use Rattle.certs.specs.declared.evidence.Proof.{Proof as OneProof};
ghost use Rattle.certs.specs.declared.solving.Stop.{Stop as OneStop};
ghost use Rattle.certs.specs.declared.solving.Stretched.{Stretched as OneStretched};
ghost use Rattle.certs.specs.declared.solving.Verdict.{Verdict as OneVerdict};
ghost use Rattle.certs.specs.declared.solving.Verdict.TheVariants.{Infeasible};
ghost use Rattle.certs.specs.Checks.{IsSetOf};
ghost use Rattle.certs.specs.CostTrees.{IsCostEnd};
ghost use Rattle.certs.specs.Order.{AreLeavesInOrder};
ghost use Rattle.certs.specs.Sites.{Budgets};
ghost use Rattle.certs.specs.Tales.{IsNodeEnd, IsSiteWithin, IsStretchStop, IsStretched, IsVerdict, OracleState, Stopped, asked_after, one_more, stops_after};

use crate::paths::BranchPath;
use crate::solving::{CostEnd, NodeEnd, Stop, Stretched, Verdict};
use lp_model::MemberSet;
use std::alloc::Global;

/// What tells whether sets of a program's members can be satisfied.
pub trait Oracle {
    /// The program, what each solve may spend, which sets it serves, and what it tells of its calls.
    ghost state: { Self → OracleState };

    /// What the answers to an ask are: by the program and what a solve may spend, to a set.
    ghost answers: { Program → Budgets → List OneMember → Outcome OneVerdict OneStop → Type 0 };

    /// Whether the set can be satisfied.
    ///
    /// # Errors
    ///
    /// A stop at a run of a part of the set; all but want of memory are put into the list of stops before they are
    /// answered.
    fn ask(&mut self, alloc: Global, set: &MemberSet) -> Result<Verdict, Stop>
        requires same { IsSetOf (state self.old).model set.now }
        requires served { (state self.old).serves set.now.members ≡ true }
        ensures answered { answers (state self.old).model (state self.old).budgets set.now.members result }
        // It is told: one ask more, the stop at the end of the list, and the first core where there was none.
        ensures told { state self.new ≡ asked_after (state self.old) set.now.members result };

    /// An answered verdict holds.
    ghost holds: { (model : Program) (budgets : Budgets) (set : List OneMember) (verdict : OneVerdict) → answers model budgets set (Ok verdict) → IsVerdict model set verdict };

    /// The shares of each leaf of an answered proof stand in order.
    ghost ordered: { (model : Program) (budgets : Budgets) (set : List OneMember) (proof : OneProof) → answers model budgets set (Ok (Infeasible proof)) → AreLeavesInOrder proof.nodes };

    /// The site of an answered stop lies within the set.
    ghost within: { (model : Program) (budgets : Budgets) (set : List OneMember) (stop : OneStop) → answers model budgets set (Err stop) → IsSiteWithin set stop };

    /// With a set its parts are served.
    ghost parts: { (oracle : Self) (set part : List OneMember) → IsPart part set → (state oracle).serves set ≡ true → (state oracle).serves part ≡ true };
}

/// An oracle that also makes the runs of nodes.
pub trait BranchAsk: Oracle {
    /// The end of the run of the set's plain system on a path; marks do not count. The branches are on columns of the
    /// program.
    ///
    /// # Errors
    ///
    /// The stop of just that run. Nothing is put into the oracle's tale.
    fn ask_with(
        &mut self,
        alloc: Global,
        set: &MemberSet,
        path: &BranchPath,
    ) -> Result<NodeEnd, Stop>
        requires same { IsSetOf (Self.state self.old).model set.now }
        requires known { All (λ b. b.column < length (Self.state self.old).model.columns) path.now }
        ensures end { IsNodeEnd (Self.state self.old).model set.now.members path.now (Self.state self.old).budgets.pivots result }
        ensures untold { Self.state self.new ≡ Self.state self.old };
}

/// What makes the rounds of stretching a set without marks.
pub trait Stretcher {
    /// The program.
    ghost model: { Self → Program };

    /// What each solve may spend.
    ghost budgets: { Self → Budgets };

    /// How many rounds it made.
    ghost rounds: { Self → ℕ };

    /// Its stops, in order.
    ghost stops: { Self → List Stopped };

    /// What the answers to a round are: by the program and what a solve may spend, to a set and its enforced part.
    ghost answers: { Program → Budgets → List OneMember → List OneMember → Outcome OneStretched OneStop → Type 0 };

    /// One round: at a point that satisfies the enforced members with the least total violation of the set, the members
    /// that are violated and not enforced yet.
    ///
    /// # Errors
    ///
    /// The stop of the elastic system's run; all but want of memory are put into the list of stops before they are
    /// answered.
    fn stretch(
        &mut self,
        alloc: Global,
        set: &MemberSet,
        enforced: &MemberSet,
    ) -> Result<Stretched, Stop>
        requires same { IsSetOf (model self.old) set.now }
        requires enforced { IsSetOf (model self.old) enforced.now }
        requires linear { All (λ m. is_mark m ≡ false) set.now.members }
        requires part { IsPart enforced.now.members set.now.members }
        ensures answered { answers (model self.old) (budgets self.old) set.now.members enforced.now.members result }
        ensures rounds { rounds self.new ≡ one_more (rounds self.old) }
        ensures stops { stops self.new ≡ stops_after (stops self.old) set.now.members enforced.now.members result }
        ensures model { model self.new ≡ model self.old }
        ensures budgets { budgets self.new ≡ budgets self.old };

    /// What is answered holds.
    ghost holds: { (model : Program) (budgets : Budgets) (set enforced : List OneMember) (answer : OneStretched) → answers model budgets set enforced (Ok answer) → IsStretched model set enforced answer };

    /// An answered stop is that of the round's run.
    ghost stopped: { (model : Program) (budgets : Budgets) (set enforced : List OneMember) (stop : OneStop) → answers model budgets set enforced (Err stop) → IsStretchStop model budgets set enforced stop };
}

/// What makes the runs of a cost tree's nodes.
pub trait CostAsk {
    /// The program.
    ghost model: { Self → Program };

    /// How many pivots each run may make.
    ghost pivots: { Self → ℕ };

    /// The end of the runs of a node: of the set's elastic system by the program's weights, with the path's limits on the
    /// columns, settled and improved. Marks do not count but by the path. The branches are on columns of the program.
    ///
    /// # Errors
    ///
    /// The stop of just those runs.
    fn cost_with(
        &mut self,
        alloc: Global,
        set: &MemberSet,
        path: &BranchPath,
    ) -> Result<CostEnd, Stop>
        requires same { IsSetOf (model self.old) set.now }
        requires known { All (λ b. b.column < length (model self.old).columns) path.now }
        ensures end { IsCostEnd (model self.old) set.now.members path.now (pivots self.old) result }
        ensures model { model self.new ≡ model self.old }
        ensures pivots { pivots self.new ≡ pivots self.old };
}
