//! The steps of a reduction, with what the ways back need of them.
use frac128::Frac;
use lp_model::{Items, Side, Terms};

/// A row that a step changed, and how many times the step took from it what stands for the removed column.
#[derive(Clone, Copy)]
pub struct Change {
    pub row: u32,
    pub factor: Frac,
}

/// Changes, as a list: rows ascending.
pub type Changes = Items<Change>;

/// A row with one live column was removed. Its sides over the factor became limits of the column where they were strictly
/// tighter: `lower` and `upper` name the side of the row that made the lower and the upper limit, where one was made.
#[derive(Clone, Copy)]
pub struct Singleton {
    pub row: u32,
    pub column: u32,
    pub factor: Frac,
    pub lower: Option<Side>,
    pub upper: Option<Side>,
}

/// A column with equal limits was removed. `changes` are the rows that had it, with its factor there; `objective` is its
/// factor in the objective, or 0.
#[derive(Drop)]
pub struct Fixed {
    pub column: u32,
    pub value: Frac,
    pub changes: Changes,
    pub objective: Frac,
}

/// A row was removed whose greatest or least sum meets a side, so that each of its columns stands at the limit that the sum
/// took: `side` is that side, `terms` are those of the row.
#[derive(Drop)]
pub struct Forcing {
    pub row: u32,
    pub side: Side,
    pub terms: Terms,
}

/// An equation `a x + b y = c` and the column y were removed. `lower` and `upper` name the limit of y that made the lower and
/// the upper limit of x, where one was made. `changes` are the other rows that had y, with how many times the equation was taken
/// from each; `objective` is the same for the objective, or 0.
#[derive(Drop)]
pub struct Doubleton {
    pub row: u32,
    pub x: u32,
    pub y: u32,
    pub a: Frac,
    pub b: Frac,
    pub c: Frac,
    pub lower: Option<Side>,
    pub upper: Option<Side>,
    pub changes: Changes,
    pub objective: Frac,
}

/// A step of a reduction. `Empty` is of a row without columns, `Redundant` of a row that the limits of its columns keep.
#[derive(Drop)]
pub enum Step {
    Empty(u32),
    Singleton(Singleton),
    Fixed(Fixed),
    Redundant(u32),
    Forcing(Forcing),
    Doubleton(Doubleton),
}

/// Steps, as a list, in the order in which they were made.
pub type Steps = Items<Step>;

/// The steps by which a system of so many columns and rows was reduced.
#[derive(Drop)]
pub struct Trace {
    pub columns: u32,
    pub rows: u32,
    pub steps: Steps,
}

/// A step of a reduction, told in short: the numbers of what it removes. A fixed column has its value, a forcing row the side
/// that is met, and a doubleton its row and the column that is removed with it.
#[derive(Clone, Copy)]
pub enum ReduceStep {
    Empty(u32),
    Singleton(u32),
    Fixed(u32, Frac),
    Redundant(u32),
    Forcing(u32, Side),
    Doubleton(u32, u32),
}
