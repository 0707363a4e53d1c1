//! What evidence is made of: points, rays, and combinations of members.
ghost use Rattle.std.specs.Prelude.{◌≡◌};
ghost use Rattle.certs.specs.Combination.{source_side};

use frac128::{Frac, Wide};
use lp_model::{Items, Member, Side};

/// A value for each column, as a list.
pub type Values = Items<Frac>;

/// A point: column number j has the value number j.
#[derive(Drop)]
pub struct Point {
    pub values: Values,
}

/// A direction: how each column changes along it.
#[derive(Drop)]
pub struct Ray {
    pub values: Values,
}

/// Where a share comes from: a member, or the path's branches on a column that say at most, or at least.
#[derive(Clone, Copy, PartialEq, Eq)]
pub enum Source {
    Member(Member),
    Below(u32),
    Above(u32),
}

impl Source {
    /// The side on which it bounds its form: what is below bounds it above, and what is above, below.
    pub fn side(self) -> Side
        ensures { result ≡ source_side self }
    {
        match self {
            Source::Member(member) => member.side(),
            Source::Below(_) => Side::Up,
            Source::Above(_) => Side::Lo,
        }
    }
}

/// A source, so many times. In a combination the weight is above 0.
#[derive(Clone, Copy)]
pub struct Share {
    pub source: Source,
    pub weight: Frac,
}

/// Shares, as a list.
pub type Shares = Items<Share>;

/// A combination: shares that are to add up to a contradiction.
#[derive(Drop)]
pub struct Combo {
    pub shares: Shares,
}

/// Weights on row sides and bounds of which the columns add up to the objective, and the bound that they show; or weights that
/// show how little must give way, and that total.
#[derive(Drop)]
pub struct Dual {
    pub combo: Combo,
    pub bound: Frac,
}

/// A node of a proof: column number `column` is at most `at` or at least `at + 1`, or the combination of a leaf.
#[derive(Drop)]
pub enum Node {
    Split { column: u32, at: i128 },
    Leaf(Combo),
}

/// The nodes of a proof, as a list: each before its children, the lower child first.
pub type Nodes = Items<Node>;

/// A proof by branches that no point satisfies a set.
#[derive(Drop)]
pub struct Proof {
    pub nodes: Nodes,
}

/// A node of a tree of costs: column number `column` is at most `at` or at least `at + 1`; or at a leaf the weights that show
/// how much the set costs there, or a combination of the members that must hold.
#[derive(Drop)]
pub enum CostNode {
    Split { column: u32, at: i128 },
    Bound(Combo),
    Cut(Combo),
}

/// A bound that a path puts on a column: at most `at` where `upper` is true, and else at least `at`.
#[derive(Clone, Copy)]
pub struct Branch {
    pub column: u32,
    pub upper: bool,
    pub at: i128,
}

/// What a check answers: it holds, it does not, or the first operation that is too wide before that is known.
#[derive(Clone, Copy)]
pub enum Checked {
    Yes,
    No,
    Wide(Wide),
}
