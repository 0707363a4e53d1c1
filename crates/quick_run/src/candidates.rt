//! The variables that can enter, and which of them is taken.
use crate::optima::Pricing;
use factors::Columns;
use frac128::Frac;
use std::alloc::Global;

// How many of the variables that can enter are looked at in a turn.
const CANDIDATES: usize = 100;

// The parts of a rate that count, and the most of them.
const PARTS: u128 = 1024;

const MOST: u128 = 1_099_511_627_776;

// At what rate a sum falls by a variable, in parts, or 0; and whether the variable is listed.
#[derive(Clone, Copy)]
struct Candidate {
    rate: u128,
    is_listed: bool,
}

// How steep a variable is: the square of its rate, over the length of its column. Of those that are equally steep the one of
// the least number is taken.
#[derive(Clone, Copy)]
struct Choice {
    variable: u32,
    square: u128,
    length: u128,
    number: u64,
}

/// By variable at what rate a sum falls by it, and a list of those by which it does. Others are taken off the list where they
/// are met in it.
#[derive(Drop)]
pub(crate) struct Candidates {
    known: Vec<Candidate>,
    list: Vec<u32>,
    at: usize,
    turn: u64,
    pricing: Pricing,
}

impl Candidates {
    /// So many variables, by none of which the sum falls.
    pub(crate) fn new(alloc: Global, count: usize, pricing: Pricing) -> Option<Candidates> {
        let none = Candidate {
            rate: 0,
            is_listed: false,
        };
        let known = vec![in alloc; none; count].ok()?;
        Some(Candidates {
            known,
            list: Vec::new(alloc),
            at: 0,
            turn: 0,
            pricing,
        })
    }

    /// Puts down at what rate the sum falls by a variable; at 0 or below it does not.
    pub(crate) fn put(&mut self, variable: u32, rate: Frac) -> Option<()> {
        let rate = parts_of(rate);
        let known = self.known.get_mut(variable as usize)?;
        known.rate = rate;
        if rate > 0 && !known.is_listed {
            known.is_listed = true;
            self.list.push(variable).ok()?;
        }
        Some(())
    }

    /// The steepest of those that are looked at in this turn, which go on from the last one in turn round the list; of all the
    /// least one where the run is stuck. None where the sum falls by none.
    ///
    /// Of the equally steep ones, which are many where all columns are alike, another one is first in each turn: by the least
    /// index a run goes on for long where it began, with many times as many pivots.
    pub(crate) fn best(&mut self, columns: &Columns, is_stuck: bool) -> Option<Option<u32>> {
        self.turn = self.turn.wrapping_add(1);
        let mut best: Option<Choice> = None;
        let mut left = if is_stuck { usize::MAX } else { CANDIDATES };
        for _ in 0..self.list.len() {
            let Some(variable) = self.next_listed()? else {
                continue;
            };
            let choice = self.choice(columns, variable, is_stuck)?;
            if best.is_none_or(|so_far| is_before(&choice, &so_far)) {
                best = Some(choice);
            }
            left = left.saturating_sub(1);
            if left == 0 {
                break;
            }
        }
        Some(best.map(|choice| choice.variable))
    }

    // The next of the list; none in it where the sum falls by it no more, and it is taken off.
    fn next_listed(&mut self) -> Option<Option<u32>> {
        if self.at >= self.list.len() {
            self.at = 0;
        }
        let variable = *self.list.get(self.at)?;
        let known = self.known.get_mut(variable as usize)?;
        if known.rate == 0 {
            known.is_listed = false;
            self.list.swap_remove(self.at);
            return Some(None);
        }
        self.at = self.at.saturating_add(1);
        Some(Some(variable))
    }

    // How steep a variable is; all are the same where the run is stuck.
    fn choice(&self, columns: &Columns, variable: u32, is_stuck: bool) -> Option<Choice> {
        let mut choice = Choice {
            variable,
            square: 0,
            length: 1,
            number: u64::from(variable),
        };
        if !is_stuck {
            let rate = self.known.get(variable as usize)?.rate;
            let entries = columns.column(variable)?.len();
            choice.square = match self.pricing {
                Pricing::Steepest => rate.saturating_mul(rate),
                Pricing::Shortest => 1,
            };
            choice.length = (entries as u128).saturating_add(1);
            // The last 64 bits of products with odd numbers whose bits are mixed well: another order in each turn.
            let place = choice.number.wrapping_mul(0x9E37_79B9_7F4A_7C15);
            let time = self.turn.wrapping_mul(0xD1B5_4A32_D192_ED03);
            choice.number = (place ^ time).wrapping_mul(0x94D0_49BB_1331_11EB);
        }
        Some(choice)
    }
}

// A rate in parts, at most so many and at least one where it is above 0: an order only.
fn parts_of(rate: Frac) -> u128 {
    if rate.num() <= 0 {
        return 0;
    }
    let mut parts = rate.num().unsigned_abs().saturating_mul(PARTS);
    if !rate.is_whole() {
        parts = parts.checked_div(rate.den().unsigned_abs()).unwrap_or(1);
    }
    parts.clamp(1, MOST)
}

// Whether a choice is to be taken before another.
fn is_before(choice: &Choice, other: &Choice) -> bool {
    let own = choice.square.saturating_mul(other.length);
    let its = other.square.saturating_mul(choice.length);
    own > its || (own == its && choice.number < other.number)
}
