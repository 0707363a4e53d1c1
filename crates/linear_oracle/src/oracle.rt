//! The oracle.
ghost use Rattle.std.specs.Prelude.{◌≡◌, ◌≤◌, ◌<◌, ◌^◌, [], ◌∷◌, true, Ok, IfOk, List, ℕ};
ghost use Rattle.lp_model.specs.declared.members.Member.{Member as OneMember};
ghost use Rattle.lp_model.specs.Program.{Program};
ghost use Rattle.certs.specs.Answers.{IsPlainAnswer, IsPlainVerdict, is_linear};
ghost use Rattle.certs.specs.Checks.{IsSetOf};
ghost use Rattle.certs.specs.Tales.{IsNodeEnd, asked_after, no_tale};
ghost use Rattle.certs.proofs.PlainAnswers.{linear_part, plain_holds, plain_ordered, plain_within};
ghost use Rattle.linear_oracle.specs.Value.{OracleValue, state_of};

use crate::solve::solve;
use certs::{
    BranchAsk, BranchPath, Combo, MemberSet, Node, NodeEnd, Nodes, Oracle, Proof, Stop, Tale,
    Verdict,
};
use lp_model::Model;
use std::alloc::{AllocError, Global};

/// An oracle for sets without marks. Each ask is one run of the set's plain system, with so many pivots.
#[derive(Drop)]
pub struct LinearOracle<'a> {
    model: &'a Model,
    pivots: u64,
    made: u64,
    tale: Tale,
}

impl<'a> std::marker::Model for LinearOracle<'a> {
    ghost use Rattle.std.specs.Prelude.{◌<◌, ◌^◌};
    ghost use Rattle.linear_oracle.specs.Value.{OracleValue};

    ghost Value = { OracleValue };

    ghost view = { λ o. record { model = o.model.now; pivots = o.pivots; made = o.made; tale = o.tale } };

    ghost invariant = { λ o. o.pivots < 2 ^ 63 };
}

impl<'a> LinearOracle<'a> {
    /// An oracle for a program, which may spend so many pivots in each run. It was asked nothing yet.
    pub fn new(alloc: Global, model: &'a Model, pivots: u64) -> LinearOracle<'a>
        requires { pivots < 2 ^ 63 }
        ensures { result ≡ record { model = model.now; pivots = pivots; made = 0; tale = no_tale } }
    {
        LinearOracle {
            model,
            pivots,
            made: 0,
            tale: Tale::new(alloc),
        }
    }

    /// How many pivots each of its runs may spend.
    pub fn pivots(&self) -> u64
        ensures pivots { result ≡ self.now.pivots }
        ensures few { result < 2 ^ 63 }
    {
        self.pivots
    }

    /// How many pivots its runs that ended made so far, for measurements; it stays at its greatest value once there.
    pub fn pivots_made(&self) -> u64
        ensures { result ≡ self.now.made }
    {
        self.made
    }

    /// What it tells of its calls.
    pub fn tale(&self) -> &Tale
        ensures { result.now ≡ self.now.tale }
    {
        &self.tale
    }
}

impl Oracle for LinearOracle<'_> {
    ghost state = { state_of };

    ghost answers = { λ model budgets set result. IsPlainAnswer model budgets.pivots set result };

    ghost holds = { λ model budgets set verdict h. plain_holds model budgets.pivots set verdict h };

    ghost ordered = { λ model budgets set proof h. plain_ordered model budgets.pivots set proof h };

    ghost within = { λ model budgets set stop h. plain_within model budgets.pivots set stop h };

    ghost parts = { λ oracle set part of h. linear_part set part of h };

    fn ask(&mut self, alloc: Global, set: &MemberSet) -> Result<Verdict, Stop>
        requires same { IsSetOf self.old.model set.now }
        requires served { is_linear set.now.members ≡ true }
        ensures answered { IsPlainAnswer self.old.model self.old.pivots set.now.members result }
        ensures told { state_of self.new ≡ asked_after (state_of self.old) set.now.members result }
        ensures made { self.old.made ≤ self.new.made }
    {
        // That the program is well formed is told with its count of rows.
        let _rows = self.model.row_count();
        set.stands_in_order();
        let end = solve(
            alloc,
            self.model,
            set,
            &BranchPath::new(alloc),
            self.pivots,
            &mut self.made,
        );
        let answer = verdict_of(alloc, end);
        self.tale.tell(alloc, set, answer)
    }
}

impl BranchAsk for LinearOracle<'_> {
    fn ask_with(
        &mut self,
        alloc: Global,
        set: &MemberSet,
        path: &BranchPath,
    ) -> Result<NodeEnd, Stop> {
        solve(alloc, self.model, set, path, self.pivots, &mut self.made)
    }
}

// The verdict of the end of a run on no path.
fn verdict_of(alloc: Global, end: Result<NodeEnd, Stop>) -> Result<Verdict, Stop>
    ensures { (model : Program) (set : List OneMember) (pivots : ℕ) → IsNodeEnd model set [] pivots end → IsPlainVerdict model set pivots result }
{
    match end? {
        NodeEnd::Point(point) => Ok(Verdict::Feasible(point)),
        NodeEnd::Cut(combo) => leaf_verdict(alloc, combo),
    }
}

// The infeasible verdict of a combination.
fn leaf_verdict(alloc: Global, combo: Combo) -> Result<Verdict, Stop>
    ensures { (model : Program) (set : List OneMember) (pivots : ℕ) → IsNodeEnd model set [] pivots (Ok (NodeEnd.Cut combo)) → IsPlainVerdict model set pivots result }
{
    match leaf_proof(alloc, combo) {
        Ok(proof) => Ok(Verdict::Infeasible(proof)),
        Err(_) => Err(Stop::Memory),
    }
}

/// The proof whose one node is a leaf, of this combination.
///
/// # Errors
///
/// There is no memory for the node.
pub fn leaf_proof(alloc: Global, combo: Combo) -> Result<Proof, AllocError>
    ensures { IfOk result (λ proof. proof.nodes ≡ Node.Leaf combo ∷ []) }
{
    let mut nodes = Vec::new(alloc);
    nodes.push(Node::Leaf(combo))?;
    Ok(Proof {
        nodes: Nodes::new(nodes),
    })
}
