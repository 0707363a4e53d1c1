//! What solvers are asked and what they answer.

use crate::evidence::{Branch, Combo, Dual, Point, Proof};
use crate::packed::PackedPoint;
use frac128::Wide;
use lp_model::{Items, MemberSet};

/// Which system a run is of, and whether it goes on to improve the objective.
#[derive(Clone, Copy, PartialEq, Eq)]
pub enum SiteKind {
    /// The plain system of the set on the path, settled.
    Settle,
    /// The plain system with the objective, settled and improved.
    Improve,
    /// The elastic system with all weights 1.
    Stretch,
    /// The elastic system with the program's weights.
    Relax,
    /// The alternative system.
    Alternative,
}

/// The branches on the way to a node, as a list.
pub type Path = Items<Branch>;

/// The run at which a solve stopped: the set, its enforced part, and the branches.
#[derive(Drop)]
pub struct Site {
    pub kind: SiteKind,
    pub set: MemberSet,
    pub enforced: MemberSet,
    pub path: Path,
}

/// Why a solve gives no answer.
#[derive(Drop)]
pub enum Stop {
    /// In the turn with this number the operation is the first that is too wide.
    Wide(Site, u64, Wide),
    /// A pivot is due, and the budget of pivots is spent.
    Pivots(Site),
    /// The tree is not closed, and the budget of nodes is spent.
    Nodes(Site),
    /// The system has this size, which passes the limit.
    Large(u64),
    /// There is no memory.
    Memory,
}

/// Whether a set can be satisfied: a point that does, or a proof that none does.
#[derive(Drop)]
pub enum Verdict {
    Feasible(Point),
    Infeasible(Proof),
}

/// How the run of a node ends: a point of the set without its marks, or a combination of the set and the path.
#[derive(Drop)]
pub enum NodeEnd {
    Point(Point),
    Cut(Combo),
}

/// How the run of a node of a cost tree ends: a point that costs least, with the weights that show so and the total; or a
/// combination of the members that must hold and the path.
#[derive(Drop)]
pub enum CostEnd {
    Least(Point, Dual),
    Cut(Combo),
}

/// What a round of stretching gives: a point that satisfies the whole set, the members that are to be enforced, or a
/// combination of those that are.
#[derive(Drop)]
pub enum Stretched {
    Met(Point),
    Stretched(MemberSet),
    Cut(Combo),
}

/// What a filter gives: an irreducible set, with a point for each member in member order that satisfies the others, and
/// a proof that none satisfies them all; or a point that satisfies the whole set.
#[derive(Drop)]
pub enum Irreducible {
    Set {
        members: MemberSet,
        witnesses: Vec<PackedPoint>,
        proof: Proof,
    },
    Feasible(Point),
}

/// An irreducible set among all of them: a point for each member in member order that satisfies the others, and a proof
/// that none satisfies them all.
#[derive(Drop)]
pub struct Listed {
    pub members: MemberSet,
    pub witnesses: Items<PackedPoint>,
    pub proof: Proof,
}
