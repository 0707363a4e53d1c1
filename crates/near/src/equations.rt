//! Equations in whole numbers, and their elimination.
use factors::is_zero;
use frac128::Frac;
use lp_model::Term;
use std::alloc::Global;

// How many columns and entries are looked at to choose all pivots.
const MOST_LOOKS: usize = 1 << 26;
// No column closer than 2^-24 to a bound is solved for, and one closer than 2^-6 seldom.
const TOO_CLOSE: i32 = -24;

const CLOSE: i32 = -6;

/// A column, so many times.
#[derive(Clone, Copy)]
pub(crate) struct Entry {
    pub column: u32,
    pub factor: i128,
}

/// Columns, each so many times, by column, and what they come to: no number above 1 divides all of these.
#[derive(Drop)]
pub(crate) struct Equation {
    pub entries: Vec<Entry>,
    pub right: i128,
}

/// An equation that is solved for a column.
#[derive(Drop)]
pub(crate) struct Solved {
    column: u32,
    equation: Equation,
}

/// Equations as far as they are eliminated: those that are solved for columns, each over what comes later, and the rest.
#[derive(Drop)]
pub(crate) struct Elimination {
    pub solved: Vec<Solved>,
    pub rest: Vec<Equation>,
}

/// The greatest number that divides two numbers.
pub(crate) fn divisor(first: i128, second: i128) -> Option<i128> {
    if second == 0 {
        return first.checked_abs();
    }
    let rest = Frac::new(first, second).ok()?;
    second.checked_abs()?.checked_div(rest.den())
}

// The least multiple of a whole number that makes another number whole.
fn multiple(whole: i128, number: Frac) -> Option<i128> {
    whole.checked_mul(Frac::new(whole, number.den()).ok()?.den())
}

/// The value that a column is fixed at, where it is.
pub(crate) fn fixed_at(fixed: &[Option<Frac>], variable: u32) -> Option<Frac> {
    match fixed.get(variable as usize) {
        Some(value) => *value,
        None => None,
    }
}

impl Equation {
    /// The equation that terms come to a number, without the columns that are fixed.
    pub(crate) fn of(
        alloc: Global,
        terms: &[Term],
        right: Frac,
        fixed: &[Option<Frac>],
    ) -> Option<Equation> {
        let right = right.minus(fixed_part(terms, fixed)?).ok()?;
        let mut times = multiple(1, right)?;
        for term in terms {
            if fixed_at(fixed, term.column).is_none() {
                times = multiple(times, term.factor)?;
            }
        }
        let mut entries = Vec::new(alloc);
        for term in terms {
            if fixed_at(fixed, term.column).is_none() {
                let factor = whole_times(term.factor, times)?;
                let column = term.column;
                entries.push(Entry { column, factor }).ok()?;
            }
        }
        let right = whole_times(right, times)?;
        Equation { entries, right }.reduced()
    }

    // The equation over the greatest number that divides all of it.
    fn reduced(self) -> Option<Equation> {
        let mut equation = self;
        let common = equation.common()?;
        if common > 1 {
            equation.right = equation.right.checked_div(common)?;
            for entry in equation.entries.iter_mut() {
                entry.factor = entry.factor.checked_div(common)?;
            }
        }
        Some(equation)
    }

    // The greatest number that divides all of it.
    fn common(&self) -> Option<i128> {
        let mut common = self.right.checked_abs()?;
        for entry in self.entries.iter() {
            if common == 1 {
                break;
            }
            common = divisor(entry.factor, common)?;
        }
        Some(common)
    }

    /// The factor of a column.
    pub(crate) fn factor(&self, column: u32) -> i128 {
        for entry in self.entries.iter() {
            if entry.column == column {
                return entry.factor;
            }
        }
        0
    }

    // The equation without a column, by another one that has it.
    fn without(&self, alloc: Global, column: u32, other: &Equation) -> Option<Equation> {
        let ratio = Frac::new(self.factor(column), other.factor(column)).ok()?;
        let (times, factor) = (ratio.den(), ratio.num());
        let right = difference(self.right, times, other.right, factor)?;
        let entries = merged(
            alloc,
            self.entries.as_slice(),
            times,
            other.entries.as_slice(),
            factor,
        )?;
        Equation { entries, right }.reduced()
    }
}

// What the fixed columns come to.
fn fixed_part(terms: &[Term], fixed: &[Option<Frac>]) -> Option<Frac> {
    let mut sum = Frac::whole(0);
    for term in terms {
        if let Some(value) = fixed_at(fixed, term.column) {
            sum = sum.plus(term.factor.times(value).ok()?).ok()?;
        }
    }
    Some(sum)
}

// A number so many times, where this is whole.
fn whole_times(number: Frac, times: i128) -> Option<i128> {
    number.num().checked_mul(times.checked_div(number.den())?)
}

// A number so many times, less another one so many times.
fn difference(number: i128, times: i128, other: i128, factor: i128) -> Option<i128> {
    number
        .checked_mul(times)?
        .checked_sub(other.checked_mul(factor)?)
}

// Entries so many times, less others so many times.
fn merged(
    alloc: Global,
    entries: &[Entry],
    times: i128,
    others: &[Entry],
    factor: i128,
) -> Option<Vec<Entry>> {
    let mut list = Vec::new(alloc);
    let mut at: usize = 0;
    let mut other: usize = 0;
    for _ in 0..entries.len().saturating_add(others.len()) {
        let column = column_at(entries, at).min(column_at(others, other));
        let here = factor_at(entries, at, column);
        let there = factor_at(others, other, column);
        at = at.saturating_add(usize::from(here != 0));
        other = other.saturating_add(usize::from(there != 0));
        let factor = difference(here, times, there, factor)?;
        if factor != 0 {
            list.push(Entry { column, factor }).ok()?;
        }
    }
    Some(list)
}

// The column at a place, or the greatest number past the last.
fn column_at(entries: &[Entry], place: usize) -> u32 {
    match entries.get(place) {
        Some(entry) => entry.column,
        None => u32::MAX,
    }
}

// The factor at a place where the column is this one, and else 0.
fn factor_at(entries: &[Entry], place: usize, column: u32) -> i128 {
    match entries.get(place) {
        Some(entry) if entry.column == column => entry.factor,
        _ => 0,
    }
}

/// The equations, solved for columns, or only for those whose factors are powers of 2 and 5; none where they contradict one another,
/// or too much is to do.
///
/// The room of a column is the power of two above its distance to the nearer bound.
pub(crate) fn eliminated(
    alloc: Global,
    equations: Vec<Equation>,
    rooms: &[i32],
    is_easy: bool,
) -> Option<Elimination> {
    let mut equations = equations;
    let mut list = Vec::new(alloc);
    let mut looks: usize = 0;
    for _ in 0..equations.len() {
        looks = looks
            .saturating_add(rooms.len())
            .saturating_add(count_entries(equations.as_slice()));
        if looks > MOST_LOOKS {
            return None;
        }
        let Some((number, column)) = best_pivot(alloc, equations.as_slice(), rooms, is_easy)? else {
            break;
        };
        if number >= equations.len() {
            return None;
        }
        let equation = equations.swap_remove(number);
        for other in equations.iter_mut() {
            if other.factor(column) != 0 {
                *other = other.without(alloc, column, &equation)?;
            }
        }
        list.push(Solved { column, equation }).ok()?;
    }
    equations.retain(|equation| equation.right != 0 || !equation.entries.is_empty());
    for equation in equations.iter() {
        if equation.entries.is_empty() {
            return None;
        }
    }
    Some(Elimination {
        solved: list,
        rest: equations,
    })
}

// How many entries all equations have.
fn count_entries(equations: &[Equation]) -> usize {
    let mut count: usize = 0;
    for equation in equations {
        count = count.saturating_add(equation.entries.len());
    }
    count
}

// The number of an equation and a column as a pivot, where there is one. Of its factor as few bits as can be are beyond powers of 2
// and 5, which keep decimals short, and then it makes few entries.
fn best_pivot(
    alloc: Global,
    equations: &[Equation],
    rooms: &[i32],
    is_easy: bool,
) -> Option<Option<(usize, u32)>> {
    let counts = counts(alloc, equations, rooms.len())?;
    let mut best = None;
    let mut least = (if is_easy { 1 } else { u32::MAX }, i64::MIN);
    for (number, equation) in equations.iter().enumerate() {
        let others = equation.entries.len().saturating_sub(1);
        for entry in equation.entries.iter() {
            let room = *rooms.get(entry.column as usize)?;
            let count = *counts.get(entry.column as usize)?;
            let made = others.saturating_mul(count.saturating_sub(1));
            let cost = (odd_bits(entry.factor), cost(made, room));
            if room > TOO_CLOSE && cost < least {
                least = cost;
                best = Some((number, entry.column));
            }
        }
    }
    Some(best)
}

// How many of the equations have each column.
fn counts(alloc: Global, equations: &[Equation], columns: usize) -> Option<Vec<usize>> {
    let mut counts = vec![in alloc; 0usize; columns].ok()?;
    for equation in equations {
        for entry in equation.entries.iter() {
            let count = counts.get_mut(entry.column as usize)?;
            *count = count.saturating_add(1);
        }
    }
    Some(counts)
}

// What so many entries cost, less where the room is wide.
fn cost(made: usize, room: i32) -> i64 {
    let made = i64::try_from(made).unwrap_or(i64::MAX);
    let close = if room < CLOSE { 10 } else { 0 };
    made.saturating_add(close)
        .saturating_sub(i64::from(room.min(6)))
}

// How many bits a number has beyond the first one, without its powers of 2 and 5.
fn odd_bits(number: i128) -> u32 {
    let mut rest = number.unsigned_abs();
    rest = rest.checked_shr(rest.trailing_zeros()).unwrap_or(0);
    for _ in 0..55 {
        if rest % 5 != 0 || rest == 0 {
            break;
        }
        rest /= 5;
    }
    127u32.saturating_sub(rest.leading_zeros())
}

/// Puts the values of the columns that were solved for.
pub(crate) fn put_solved(list: &[Solved], values: &mut [Frac]) -> Option<()> {
    for one in list.iter().rev() {
        *values.get_mut(one.column as usize)? = one.value(values)?;
    }
    Some(())
}

impl Solved {
    // The value of the column, by those of the others.
    fn value(&self, values: &[Frac]) -> Option<Frac> {
        let mut sum = Frac::new(self.equation.right, 1).ok()?;
        for entry in self.equation.entries.iter() {
            let value = *values.get(entry.column as usize)?;
            if entry.column != self.column && !is_zero(value) {
                sum = sum
                    .minus(Frac::new(entry.factor, 1).ok()?.times(value).ok()?)
                    .ok()?;
            }
        }
        let factor = Frac::new(1, self.equation.factor(self.column)).ok()?;
        sum.times(factor).ok()
    }
}
