//! Weights of the limits of all variables.
ghost use Rattle.std.specs.Prelude.{◌≡◌, ◌+◌, ◌<◌, ◌^◌, IfOk, []};
ghost use Rattle.reductions.specs.Back as back;
ghost use Rattle.trace_back.specs.Held.{IsHeld, IsNow, of_side, on_side, unmade, weights_in, with_limit, with_sides};

use crate::sides::{by_maker, part_on, unless_made};
use frac128::Frac;
use lp_model::Side;
use std::alloc::{AllocError, Global};

/// How often each limit of a system is taken: the limits of the columns come first, then the sides of the rows.
#[derive(Drop)]
pub struct Weights {
    columns: u32,
    rows: u32,
    lower: Vec<Frac>,
    upper: Vec<Frac>,
}

impl Weights {
    /// No limit of a system of so many columns and rows is taken.
    pub fn zeros(alloc: Global, columns: u32, rows: u32) -> Result<Weights, AllocError>
        requires { columns + rows < 2 ^ 31 }
        ensures { IfOk result (λ weights. (weights.columns ≡ columns) × ((weights.rows ≡ rows)
            × (IsHeld weights × (weights_in weights ≡ back.weights_of [])))) }
    {
        let count = (columns + rows) as usize;
        let lower = vec![in alloc; Frac::whole(0); count]?;
        let upper = vec![in alloc; Frac::whole(0); count]?;
        Ok(Weights {
            columns,
            rows,
            lower,
            upper,
        })
    }

    /// How many columns there are.
    pub fn columns(&self) -> u32
        ensures { result ≡ self.now.columns }
    {
        self.columns
    }

    /// How many rows there are.
    pub(crate) fn rows(&self) -> u32
        ensures { result ≡ self.now.rows }
    {
        self.rows
    }

    /// The variable that a row is.
    pub fn variable(&self, row: u32) -> u32
        requires held { IsHeld self.now }
        requires known { row < self.now.rows }
        ensures { result ≡ self.now.columns + row }
    {
        self.columns + row
    }

    /// The weight of a limit.
    pub fn at(&self, side: Side, variable: u32) -> Frac
        requires held { IsHeld self.now }
        requires known { variable < self.now.columns + self.now.rows }
        ensures { result ≡ weights_in self.now side variable }
    {
        match side {
            Side::Lo => self.lower[variable as usize],
            Side::Up => self.upper[variable as usize],
        }
    }

    /// Gives a limit another weight.
    pub(crate) fn put(&mut self, side: Side, variable: u32, weight: Frac)
        requires held { IsHeld self.old }
        requires known { variable < self.old.columns + self.old.rows }
        ensures { IsNow self.old self.new (with_limit side variable weight (weights_in self.old)) }
    {
        match side {
            Side::Lo => self.lower[variable as usize] = weight,
            Side::Up => self.upper[variable as usize] = weight,
        }
    }

    /// Gives both limits of a variable other weights.
    pub(crate) fn put_sides(&mut self, variable: u32, lower: Frac, upper: Frac)
        requires held { IsHeld self.old }
        requires known { variable < self.old.columns + self.old.rows }
        ensures { IsNow self.old self.new
            (with_sides variable (of_side lower upper) (weights_in self.old)) }
    {
        self.lower[variable as usize] = lower;
        self.upper[variable as usize] = upper;
    }

    /// Gives one limit of a variable a weight, and the other none.
    pub(crate) fn put_one(&mut self, side: Side, variable: u32, weight: Frac)
        requires held { IsHeld self.old }
        requires known { variable < self.old.columns + self.old.rows }
        ensures { IsNow self.old self.new
            (with_sides variable (on_side side weight) (weights_in self.old)) }
    {
        match side {
            Side::Lo => self.put_sides(variable, weight, Frac::whole(0)),
            Side::Up => self.put_sides(variable, Frac::whole(0), weight),
        }
    }

    /// Takes a variable so often: the upper limit where the number is above 0, and the lower one where it is below.
    pub fn put_parts(&mut self, variable: u32, times: Frac)
        requires held { IsHeld self.old }
        requires known { variable < self.old.columns + self.old.rows }
        ensures { IsNow self.old self.new
            (with_sides variable (λ side. back.part_on side times) (weights_in self.old)) }
    {
        self.put_sides(variable, part_on(Side::Lo, times), part_on(Side::Up, times));
    }

    /// Gives the limit that made a lower one the first weight, and that which made an upper one the second.
    pub fn put_made(
        &mut self,
        variable: u32,
        lower: Option<Side>,
        upper: Option<Side>,
        for_lower: Frac,
        for_upper: Frac,
    )
        requires held { IsHeld self.old }
        requires known { variable < self.old.columns + self.old.rows }
        ensures { IsNow self.old self.new (with_sides variable
            (λ side. back.by_maker lower upper side for_lower for_upper) (weights_in self.old)) }
    {
        self.put_sides(
            variable,
            by_maker(lower, upper, Side::Lo, for_lower, for_upper),
            by_maker(lower, upper, Side::Up, for_lower, for_upper),
        );
    }

    /// Takes each limit of a variable that was made no more.
    pub fn unmake(&mut self, variable: u32, lower: Option<Side>, upper: Option<Side>)
        requires held { IsHeld self.old }
        requires known { variable < self.old.columns + self.old.rows }
        ensures { IsNow self.old self.new (unmade variable lower upper (weights_in self.old)) }
    {
        let for_lower = unless_made(lower, self.at(Side::Lo, variable));
        let for_upper = unless_made(upper, self.at(Side::Up, variable));
        self.put_sides(variable, for_lower, for_upper);
    }
}
