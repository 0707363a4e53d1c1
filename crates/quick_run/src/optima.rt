//! What may be least, cheapest or best. None of it has been checked.
use certs::{Combo, Point, Ray};
use frac128::Frac;

/// What may show how little of a set must give way: a point, and shares of members with which no point gives way by less.
#[derive(Drop)]
pub struct LeastSuggestion {
    pub point: Point,
    pub combo: Combo,
}

/// What it counts to miss a member that is not rigid by one: its own weight in the program, or 1.
#[derive(Clone, Copy, PartialEq, Eq)]
pub enum Costs {
    Weights,
    Ones,
}

/// Which of the variables that can enter is taken: the steepest, or that of the shortest column, by which numbers stay less wide.
#[derive(Clone, Copy, PartialEq, Eq)]
pub enum Pricing {
    Steepest,
    Shortest,
}

/// What may be the cheapest weighting of a set that refutes it: shares with the right side -1, what they cost, and a price for
/// that cost, with a value for each column.
#[derive(Drop)]
pub struct CheapestSuggestion {
    pub combo: Combo,
    pub total: Frac,
    pub price: Point,
}

/// What may show how far the objective can go: a point at which it is best, and shares of members that add up to it; or a
/// point, and a ray along which it has no end.
#[derive(Drop)]
pub enum BestSuggestion {
    Bounded(Point, Combo),
    Unbounded(Point, Ray),
}
