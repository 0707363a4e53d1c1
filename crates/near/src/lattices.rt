//! Lattices of whole steps that keep equations.
use crate::equations::Equation;
use crate::rounding::nearest;
use guide::Rounded;
use std::alloc::Global;

// A lattice has at most so many equations and columns.
const MOST_EQUATIONS: usize = 30;

const MOST_COLUMNS: usize = 60;
// How many steps its reduction may take, and how often a vector is reduced in one.
const MOST_STEPS: u32 = 20_000;

const MOST_PASSES: u32 = 20;
// A column closer than 2^-20 to a bound is not moved, and one further than 2^4 away is far enough.
const TOO_CLOSE: i32 = -20;

const FAR: i32 = 4;

/// Vectors, each of a column: a step of 1 of it, and by how much this changes each equation, so many times. They are reduced to
/// short ones that have the same whole combinations (Lenstra, Lenstra and Lovász, *Factoring polynomials with rational
/// coefficients*, 1982).
#[derive(Drop)]
pub(crate) struct Lattice {
    pub columns: Vec<u32>,
    vectors: Vec<Vec<i64>>,
    // Row by row the factors of the vectors on those before, made orthogonal, and the products with these.
    factors: Vec<Vec<Rounded>>,
    products: Vec<Vec<Rounded>>,
}

impl Lattice {
    /// The lattice of equations whose changes count so many times, reduced; none where there are too many of them, or too few
    /// columns have room.
    pub(crate) fn of(
        alloc: Global,
        equations: &[Equation],
        rooms: &[i32],
        times: i64,
    ) -> Option<Lattice> {
        let columns = moved_columns(alloc, equations, rooms)?;
        let mut vectors = Vec::new(alloc);
        for place in 0..columns.len() {
            let vector = vector(alloc, equations, columns.as_slice(), place, times)?;
            vectors.push(vector).ok()?;
        }
        let factors = square(alloc, columns.len())?;
        let products = square(alloc, columns.len())?;
        let mut lattice = Lattice {
            columns,
            vectors,
            factors,
            products,
        };
        lattice.reduce()?;
        Some(lattice)
    }

    // Reduces the vectors.
    fn reduce(&mut self) -> Option<()> {
        let mut place: usize = 1;
        self.put_row(0)?;
        for _ in 0..MOST_STEPS {
            if place >= self.vectors.len() {
                return Some(());
            }
            self.shorten(place)?;
            let before = place.checked_sub(1)?;
            if self.is_long(place, before)? {
                place = place.saturating_add(1);
            } else {
                self.swap(place, before)?;
                if before == 0 {
                    self.put_row(0)?;
                }
                place = before.max(1);
            }
        }
        None
    }

    // Exchanges two vectors.
    fn swap(&mut self, place: usize, other: usize) -> Option<()> {
        if place >= self.vectors.len() || other >= self.vectors.len() {
            return None;
        }
        self.vectors.swap(place, other);
        Some(())
    }

    // Whether what a vector has beside those before it is not much less than what the one before has (Lovász).
    fn is_long(&self, place: usize, before: usize) -> Option<bool> {
        let factor = at(&self.factors, place, before)?;
        let share = Rounded::scaled(3, -2).minus(factor.times(factor));
        let least = share.times(at(&self.products, before, before)?);
        Some(!at(&self.products, place, place)?.minus(least).is_negative())
    }

    // Puts the factors and the products of a vector.
    fn put_row(&mut self, place: usize) -> Option<()> {
        for other in 0..=place {
            let product = self.product(place, other)?;
            put(&mut self.products, place, other, product)?;
            if other < place {
                let own = at(&self.products, other, other)?;
                let factor = product.over(own).unwrap_or(Rounded::zero());
                put(&mut self.factors, place, other, factor)?;
            }
        }
        Some(())
    }

    // The product of a vector with another one that is made orthogonal.
    fn product(&self, place: usize, other: usize) -> Option<Rounded> {
        let (own, that) = (self.vectors.get(place)?, self.vectors.get(other)?);
        let mut sum = Rounded::scaled(dot(own.as_slice(), that.as_slice())?, 0);
        let factors = self.factors.get(other)?.iter().take(other);
        for (factor, product) in factors.zip(self.products.get(place)?.iter()) {
            sum = sum.minus(factor.times(*product));
        }
        Some(sum)
    }

    // Takes whole multiples of those before off a vector, until none is as long as half of theirs.
    fn shorten(&mut self, place: usize) -> Option<()> {
        for _ in 0..MOST_PASSES {
            self.put_row(place)?;
            let mut is_changed = false;
            for other in (0..place).rev() {
                let times = nearest(at(&self.factors, place, other)?, 0)?;
                if times != 0 {
                    is_changed = true;
                    self.take_off(place, other, times)?;
                }
            }
            if !is_changed {
                break;
            }
        }
        Some(())
    }

    // Takes another vector so many times off a vector.
    fn take_off(&mut self, place: usize, other: usize, times: i128) -> Option<()> {
        let (head, tail) = self.vectors.as_mut_slice().split_at_mut_checked(place)?;
        subtract(
            tail.first_mut()?.as_mut_slice(),
            head.get(other)?.as_slice(),
            times,
        )?;
        let times = Rounded::scaled(times, 0);
        let (head, tail) = self.factors.as_mut_slice().split_at_mut_checked(place)?;
        let (own, that) = (tail.first_mut()?, head.get(other)?);
        for (factor, other) in own.iter_mut().zip(that.iter().take(other)) {
            *factor = factor.minus(other.times(times));
        }
        let factor = own.get_mut(other)?;
        *factor = factor.minus(times);
        Some(())
    }

    /// Moves a vector near 0 by the lattice (the nearest plane; Babai, *On Lovász' lattice reduction and the nearest lattice point
    /// problem*, 1986).
    pub(crate) fn come_near(&self, alloc: Global, vector: &mut [i64]) -> Option<()> {
        let mut shares = self.shares(alloc, vector)?;
        for place in (0..self.vectors.len()).rev() {
            let product = at(&self.products, place, place)?;
            let share = shares.get(place)?.over(product).unwrap_or(Rounded::zero());
            let times = nearest(share, 0)?;
            subtract(vector, self.vectors.get(place)?.as_slice(), times)?;
            self.take_share(place, times, shares.as_mut_slice())?;
        }
        Some(())
    }

    // The products of a vector with those of the lattice, made orthogonal.
    fn shares(&self, alloc: Global, vector: &[i64]) -> Option<Vec<Rounded>> {
        let mut shares = Vec::new(alloc);
        for (own, factors) in self.vectors.iter().zip(self.factors.iter()) {
            let mut sum = Rounded::scaled(dot(vector, own.as_slice())?, 0);
            for (factor, share) in factors.iter().zip(shares.iter()) {
                sum = sum.minus(factor.times(*share));
            }
            shares.push(sum).ok()?;
        }
        Some(shares)
    }

    // Takes a vector of the lattice, so many times, off the products with those before it.
    fn take_share(&self, place: usize, times: i128, shares: &mut [Rounded]) -> Option<()> {
        let times = Rounded::scaled(times, 0);
        for (other, factor) in self.factors.get(place)?.iter().take(place).enumerate() {
            let product = factor.times(times).times(at(&self.products, other, other)?);
            let share = shares.get_mut(other)?;
            *share = share.minus(product);
        }
        Some(())
    }
}

// The vector of the column at a place.
fn vector(
    alloc: Global,
    equations: &[Equation],
    columns: &[u32],
    place: usize,
    times: i64,
) -> Option<Vec<i64>> {
    let mut vector = vec![in alloc; 0i64; columns.len()].ok()?;
    *vector.get_mut(place)? = 1;
    let column = *columns.get(place)?;
    for equation in equations {
        let factor = i64::try_from(equation.factor(column)).ok()?;
        vector.push(factor.checked_mul(times)?).ok()?;
    }
    Some(vector)
}

// A matrix of zeros, which has so many rows and columns.
fn square(alloc: Global, count: usize) -> Option<Vec<Vec<Rounded>>> {
    let mut rows = Vec::new(alloc);
    for _ in 0..count {
        let row = vec![in alloc; Rounded::zero(); count].ok()?;
        rows.push(row).ok()?;
    }
    Some(rows)
}

// The columns of equations that have room, those with the most first, and not too many.
fn moved_columns(alloc: Global, equations: &[Equation], rooms: &[i32]) -> Option<Vec<u32>> {
    let mut keys = Vec::new(alloc);
    for (column, room) in (0u32..).zip(rooms.iter()) {
        if *room > TOO_CLOSE && is_in(equations, column) {
            keys.push((FAR.saturating_sub(*room).max(0), column)).ok()?;
        }
    }
    keys.sort_unstable();
    let most = equations
        .len()
        .saturating_mul(3)
        .saturating_add(12)
        .min(MOST_COLUMNS);
    let mut columns = Vec::new(alloc);
    for (_, column) in keys.iter().take(most) {
        columns.push(*column).ok()?;
    }
    if equations.len() > MOST_EQUATIONS || columns.len() < equations.len() {
        return None;
    }
    Some(columns)
}

// Whether some equation has a column.
fn is_in(equations: &[Equation], column: u32) -> bool {
    for equation in equations {
        if equation.factor(column) != 0 {
            return true;
        }
    }
    false
}

// A number of a matrix.
fn at(matrix: &Vec<Vec<Rounded>>, row: usize, column: usize) -> Option<Rounded> {
    matrix.get(row)?.get(column).copied()
}

// Puts a number of a matrix.
fn put(matrix: &mut Vec<Vec<Rounded>>, row: usize, column: usize, number: Rounded) -> Option<()> {
    *matrix.get_mut(row)?.get_mut(column)? = number;
    Some(())
}

// The product of two vectors.
fn dot(first: &[i64], second: &[i64]) -> Option<i128> {
    let mut sum: i128 = 0;
    for (one, other) in first.iter().zip(second.iter()) {
        if *one != 0 && *other != 0 {
            sum = sum.checked_add(i128::from(*one).checked_mul(i128::from(*other))?)?;
        }
    }
    Some(sum)
}

// Takes another vector so many times off one.
fn subtract(vector: &mut [i64], other: &[i64], times: i128) -> Option<()> {
    let times = i64::try_from(times).ok()?;
    if times == 0 {
        return Some(());
    }
    for (number, other) in vector.iter_mut().zip(other.iter()) {
        if *other != 0 {
            *number = number.checked_sub(other.checked_mul(times)?)?;
        }
    }
    Some(())
}
