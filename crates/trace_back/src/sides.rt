//! Sides, and what numbers are on them.
ghost use Rattle.std.specs.Prelude.{◌≡◌};
ghost use Rattle.certs.specs.Improves as improves;
ghost use Rattle.reductions.specs.Back as back;
ghost use Rattle.reductions.specs.Limited as limited;

use certs::is_less;
use frac128::Frac;
use lp_model::Side;

/// The magnitude of a number.
pub fn magnitude(a: Frac) -> Frac
    ensures { result ≡ improves.magnitude a }
{
    if is_less(a, Frac::whole(0)) {
        return a.negate();
    }
    a
}

/// The other side.
pub(crate) fn opposite(side: Side) -> Side
    ensures { result ≡ limited.opposite side }
{
    match side {
        Side::Lo => Side::Up,
        Side::Up => Side::Lo,
    }
}

/// The side itself for a factor above 0, and else the other.
pub(crate) fn turned(factor: Frac, side: Side) -> Side
    ensures { result ≡ limited.turned factor side }
{
    if is_less(Frac::whole(0), factor) {
        return side;
    }
    opposite(side)
}

/// What a number is on a side: itself on the upper one where it is above 0, its opposite on the lower one where it
/// is below 0, and else 0.
pub(crate) fn part_on(side: Side, a: Frac) -> Frac
    ensures { result ≡ back.part_on side a }
{
    let zero = Frac::whole(0);
    match side {
        Side::Lo if is_less(a, zero) => a.negate(),
        Side::Up if is_less(zero, a) => a,
        _ => zero,
    }
}

// Whether they are one side.
fn is_side(side: Side, other: Side) -> bool
    ensures { result ≡ limited.is_side side other }
{
    match side {
        Side::Lo => other == Side::Lo,
        Side::Up => other == Side::Up,
    }
}

// Whether it is there and is the side.
fn is_made(made: Option<Side>, side: Side) -> bool
    ensures { result ≡ back.is_made made side }
{
    match made {
        None => false,
        Some(made) => is_side(made, side),
    }
}

/// The first number where the side made the lower limit, the second where it made the upper one, and else 0.
pub(crate) fn by_maker(
    lower: Option<Side>,
    upper: Option<Side>,
    side: Side,
    for_lower: Frac,
    for_upper: Frac,
) -> Frac
    ensures { result ≡ back.by_maker lower upper side for_lower for_upper }
{
    if is_made(lower, side) {
        return for_lower;
    }
    if is_made(upper, side) {
        return for_upper;
    }
    Frac::whole(0)
}

/// 0 where the limit was made, and else the number.
pub(crate) fn unless_made(made: Option<Side>, weight: Frac) -> Frac
    ensures { result ≡ back.unless_made made weight }
{
    match made {
        None => weight,
        Some(_) => Frac::whole(0),
    }
}
