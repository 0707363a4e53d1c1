//! What the basis has of a variable.
use crate::numbers::is_narrow;
use certs::{Limits, Side};
use frac128::Frac;

/// Where a variable stands, its limits and whether a branch gives them, the side whose limit it misses, and its slot where it
/// is basic.
///
/// Whether there is a limit stands apart from its number, and behind all numbers, so that a variable takes 112 bytes: an option
/// of a number takes 48 where the number takes 32.
#[derive(Clone, Copy)]
pub struct Variable {
    pub value: Frac,
    lo: Frac,
    up: Frac,
    pub(crate) has_lo: bool,
    pub(crate) has_up: bool,
    pub(crate) is_raised: bool,
    pub(crate) is_lowered: bool,
    pub missed: Option<Side>,
    pub slot: Option<u32>,
}

impl Variable {
    /// A variable at its lower limit, else at its upper one, else at 0, in a slot where it is basic.
    pub(crate) fn at_start(limits: Limits, slot: Option<u32>) -> Variable {
        let value = limits.lo.or(limits.up).unwrap_or(Frac::whole(0));
        let mut variable = Variable {
            value,
            lo: value,
            up: value,
            has_lo: false,
            has_up: false,
            is_raised: false,
            is_lowered: false,
            missed: None,
            slot,
        };
        variable.put_limits(limits);
        variable
    }

    /// Puts it under other limits, none of which a branch gives.
    pub(crate) fn put_limits(&mut self, limits: Limits) {
        self.has_lo = limits.lo.is_some();
        self.has_up = limits.up.is_some();
        if let Some(lo) = limits.lo {
            self.lo = lo;
        }
        if let Some(up) = limits.up {
            self.up = up;
        }
        self.is_raised = false;
        self.is_lowered = false;
        self.put_at(self.value);
    }

    /// Puts it under a branch by which it is at most a number, or at least, where this is tighter than the limit so far.
    pub(crate) fn narrow(&mut self, number: Frac, is_most: bool) {
        if is_most {
            if !self.has_up || number < self.up {
                self.up = number;
                self.has_up = true;
                self.is_lowered = true;
            }
        } else if !self.has_lo || number > self.lo {
            self.lo = number;
            self.has_lo = true;
            self.is_raised = true;
        }
        self.put_at(self.value);
    }

    /// Puts it at a value.
    pub(crate) fn put_at(&mut self, value: Frac) {
        self.value = value;
        self.missed = self.missed_at(value);
    }

    /// Falls by so many times a step, and tells whether it misses a limit then; none where its value must be narrow and is not.
    pub(crate) fn fall(&mut self, factor: Frac, step: Frac, must_be_narrow: bool) -> Option<bool> {
        let value = self.fallen(factor, step)?;
        if must_be_narrow && !is_narrow(value) {
            return None;
        }
        self.put_at(value);
        Some(self.missed.is_some())
    }

    /// Its value after it fell by so many times a step.
    pub(crate) fn fallen(&self, factor: Frac, step: Frac) -> Option<Frac> {
        self.value.minus(factor.times(step).ok()?).ok()
    }

    /// The limit on a side.
    pub fn limit_on(&self, side: Side) -> Option<Frac> {
        match side {
            Side::Lo if self.has_lo => Some(self.lo),
            Side::Up if self.has_up => Some(self.up),
            _ => None,
        }
    }

    /// Whether it stands at its limit on a side.
    pub fn is_at(&self, side: Side) -> bool {
        self.limit_on(side) == Some(self.value)
    }

    /// Whether the lower limit is above the upper one.
    pub fn is_crossed(&self) -> bool {
        self.has_lo && self.has_up && self.lo > self.up
    }

    /// The side whose limit a value misses, where it misses one.
    pub(crate) fn missed_at(&self, value: Frac) -> Option<Side> {
        if self.has_lo && value < self.lo {
            return Some(Side::Lo);
        }
        if self.has_up && value > self.up {
            return Some(Side::Up);
        }
        None
    }
}
