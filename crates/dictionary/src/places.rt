//! Where variables stand, and their limits.
ghost use Rattle.std.specs.Prelude.{◌≡◌};
ghost use Rattle.std.specs.Option.{option_map};
ghost use Rattle.certs.specs.Combination.{number_or_zero as limit_or_zero};
ghost use Rattle.certs.specs.Tableau.{value_at_place};
ghost use Rattle.certs.specs.Turns.{at_limit, other_place};
ghost use Rattle.dictionary.specs.Layouts.{place_of_code, side_of, stands_code};

use frac128::Exact;

/// Where a variable stands: in the basis, at a limit, or at 0 where it has none.
#[derive(Clone, Copy)]
pub(crate) enum Place {
    Basic,
    AtLower,
    AtUpper,
    AtZero,
}

/// The limits of a variable.
#[derive(Clone, Copy)]
pub(crate) struct Bounds<N: Exact> {
    pub(crate) lower: Option<N>,
    pub(crate) upper: Option<N>,
}

/// The number at which a place puts a variable.
pub(crate) fn place_number<N: Exact>(bounds: Bounds<N>, place: Place) -> N
    ensures { N.value result ≡ value_at_place (record { lower = option_map N.value bounds.lower; upper = option_map N.value bounds.upper }) (place_of_code place) }
{
    match place {
        Place::Basic => N::zero(),
        Place::AtLower => number_or_zero(bounds.lower),
        Place::AtUpper => number_or_zero(bounds.upper),
        Place::AtZero => N::zero(),
    }
}

// A limit, or 0 where there is none.
fn number_or_zero<N: Exact>(limit: Option<N>) -> N
    ensures { N.value result ≡ limit_or_zero (option_map N.value limit) }
{
    match limit {
        Some(number) => number,
        None => N::zero(),
    }
}

/// The place at the other limit.
pub(crate) fn other_limit(place: Place) -> Place
    ensures { place_of_code result ≡ other_place (place_of_code place) }
{
    match place {
        Place::AtLower => Place::AtUpper,
        Place::AtUpper => Place::AtLower,
        _ => place,
    }
}

/// The place at a limit.
pub(crate) fn limit_place(upper: bool) -> Place
    ensures { place_of_code result ≡ at_limit (side_of upper) }
{
    if upper {
        Place::AtUpper
    } else {
        Place::AtLower
    }
}

/// Whether a place is in the basis.
pub(crate) fn is_standing(place: Place) -> bool
    ensures { result ≡ stands_code place }
{
    match place {
        Place::Basic => true,
        _ => false,
    }
}
