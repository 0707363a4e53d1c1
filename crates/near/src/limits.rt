//! Limits, and what is within them.
use certs::{Limits, Side};
use frac128::Frac;

/// The limit on a side.
pub(crate) fn limit_on(limits: &Limits, side: Side) -> Option<Frac> {
    match side {
        Side::Lo => limits.lo,
        Side::Up => limits.up,
    }
}

/// Whether a value is within limits.
pub(crate) fn is_within(limits: &Limits, value: Frac) -> bool {
    within(limits, value) == value
}

/// The number within limits that is nearest to a value.
pub(crate) fn within(limits: &Limits, value: Frac) -> Frac {
    if let Some(lo) = &limits.lo
        && value < *lo
    {
        return *lo;
    }
    if let Some(up) = &limits.up
        && value > *up
    {
        return *up;
    }
    value
}
