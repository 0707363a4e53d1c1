//! What a settle turn chooses.
ghost use Rattle.std.specs.Prelude.{◌≡◌, ◌<◌, ◌||◌, MatchResult, MatchOption, Some, None, true, false, find, length};
ghost use Rattle.std.specs.Option.{option_map};
ghost use Rattle.rational.specs.Rational.{lt_q};
ghost use Rattle.frac128.specs.Calculation.{first_wide};
ghost use Rattle.certs.specs.System.{is_basic};
ghost use Rattle.certs.specs.Turns.{can_fall as can_it_fall, can_rise as can_it_rise, entering as entering_one, helps as does_help, is_outside, is_over, is_under, limited, limited_basics, meets as does_meet, missed_by, settle_choice, settle_values, exchange_or_blocked};
ghost use Rattle.dictionary.specs.Layouts.{side_of};
ghost use Rattle.dictionary.specs.Value.{tableau_of};
ghost use Rattle.simplex.specs.Chosen.{IsChosen};

use dictionary::Dictionary;
use frac128::{Exact, Wide};

/// A variable outside its limits, and whether it is above the upper one.
#[derive(Clone, Copy)]
pub(crate) struct Missed {
    pub(crate) variable: u32,
    pub(crate) upper: bool,
}

/// Whether a number is below another.
pub fn is_less<N: Exact>(a: N, b: N) -> bool
    ensures { result ≡ lt_q (N.value a) (N.value b) }
{
    a.cmp(&b).is_lt()
}

/// Whether a value is below a lower limit.
pub(crate) fn falls_short<N: Exact>(limit: Option<N>, value: N) -> bool
    ensures { result ≡ is_under (option_map N.value limit) (N.value value) }
{
    match limit {
        Some(least) => is_less(value, least),
        None => false,
    }
}

/// Whether a value is above an upper limit.
pub(crate) fn passes<N: Exact>(limit: Option<N>, value: N) -> bool
    ensures { result ≡ is_over (option_map N.value limit) (N.value value) }
{
    match limit {
        Some(greatest) => is_less(greatest, value),
        None => false,
    }
}

/// Whether a value is at a limit.
pub(crate) fn meets<N: Exact>(limit: Option<N>, value: N) -> bool
    ensures { result ≡ does_meet (option_map N.value limit) (N.value value) }
{
    match limit {
        Some(number) => number == value,
        None => false,
    }
}

// Whether a nonbasic variable is not at its upper limit.
fn can_rise<N: Exact>(dictionary: &Dictionary<N>, nonbasic: u32) -> bool
    requires known { nonbasic < length dictionary.now.basis }
    requires nonbasic { is_basic dictionary.now.basis nonbasic ≡ false }
    ensures { result ≡ can_it_rise (tableau_of dictionary.now) nonbasic }
{
    !meets(dictionary.upper(nonbasic), dictionary.place(nonbasic))
}

// Whether a nonbasic variable is not at its lower limit.
fn can_fall<N: Exact>(dictionary: &Dictionary<N>, nonbasic: u32) -> bool
    requires known { nonbasic < length dictionary.now.basis }
    requires nonbasic { is_basic dictionary.now.basis nonbasic ≡ false }
    ensures { result ≡ can_it_fall (tableau_of dictionary.now) nonbasic }
{
    !meets(dictionary.lower(nonbasic), dictionary.place(nonbasic))
}

// Whether a change of a nonbasic variable moves a basic one towards its limits.
fn helps<N: Exact>(dictionary: &Dictionary<N>, basic: u32, upper: bool, nonbasic: u32) -> bool
    requires usable { dictionary.now.usable ≡ true }
    requires basic { is_basic dictionary.now.basis basic ≡ true }
    requires known { nonbasic < length dictionary.now.basis }
    requires nonbasic { is_basic dictionary.now.basis nonbasic ≡ false }
    ensures { result ≡ does_help (tableau_of dictionary.now) (side_of upper) basic nonbasic }
{
    let factor = dictionary.entry(basic, nonbasic);
    let positive = is_less(N::zero(), factor);
    let negative = is_less(factor, N::zero());
    let rises = can_rise(dictionary, nonbasic);
    let falls = can_fall(dictionary, nonbasic);
    if upper {
        return (negative && rises) || (positive && falls);
    }
    (positive && rises) || (negative && falls)
}

/// The least nonbasic variable a change of which moves a basic one up, or, where `upper` is true, down: the smallest-index rule
/// (Bland 1977).
pub fn entering<N: Exact>(dictionary: &Dictionary<N>, basic: u32, upper: bool) -> Option<u32>
    requires usable { dictionary.now.usable ≡ true }
    requires basic { is_basic dictionary.now.basis basic ≡ true }
    ensures { result ≡ entering_one (tableau_of dictionary.now) (side_of upper) basic }
{
    for variable in 0..dictionary.variables() {
        if dictionary.is_basic(variable) {
            continue;
        }
        if helps(dictionary, basic, upper, variable) {
            return Some(variable);
        }
    }
    None
}

/// The least basic variable, but the objective, that is outside its limits.
pub(crate) fn first_outside<N: Exact>(
    dictionary: &mut Dictionary<N>,
) -> Result<Option<Missed>, Wide>
    requires usable { dictionary.old.usable ≡ true }
    ensures same { dictionary.new ≡ dictionary.old }
    ensures found { let t = tableau_of dictionary.new in
        MatchResult result
        (λ found. (first_wide N.most (settle_values t) ≡ None)
        × MatchOption found (find (is_outside t) (limited_basics t) ≡ None)
        (λ missed. (find (is_outside t) (limited_basics t) ≡ Some missed.variable) × ((missed_by t missed.variable ≡ Some (side_of missed.upper)) × (is_basic t.basis missed.variable ≡ true))))
        (λ w. first_wide N.most (settle_values t) ≡ Some w) }
{
    for variable in 0..limited_variables(dictionary) {
        if !dictionary.is_basic(variable) {
            continue;
        }
        let value = dictionary.valued(variable)?;
        if falls_short(dictionary.lower(variable), value) {
            return Ok(Some(Missed {
                variable,
                upper: false,
            }));
        }
        if passes(dictionary.upper(variable), value) {
            return Ok(Some(Missed {
                variable,
                upper: true,
            }));
        }
    }
    Ok(None)
}

/// How many variables there are but the objective.
pub fn limited_variables<N: Exact>(dictionary: &Dictionary<N>) -> u32
    ensures { result ≡ limited (tableau_of dictionary.now) }
{
    match dictionary.objective() {
        Some(objective) => objective,
        None => dictionary.variables(),
    }
}

/// What a settle turn chooses.
#[derive(Clone, Copy)]
pub(crate) enum Choice {
    /// No variable is outside its limits.
    Settled,
    /// This one is, and nothing helps it.
    Blocked(u32),
    /// The first leaves, to its upper limit or its lower one, and the last enters.
    Exchange(u32, bool, u32),
}

/// The choice of a settle turn.
pub(crate) fn choose<N: Exact>(dictionary: &mut Dictionary<N>) -> Result<Choice, Wide>
    requires usable { dictionary.old.usable ≡ true }
    ensures same { dictionary.new ≡ dictionary.old }
    ensures choice { let t = tableau_of dictionary.new in
        MatchResult result
        (λ choice. (first_wide N.most (settle_values t) ≡ None) × IsChosen choice (settle_choice t))
        (λ w. first_wide N.most (settle_values t) ≡ Some w) }
{
    let found = first_outside(dictionary)?;
    let Some(missed) = found else {
        return Ok(Choice::Settled);
    };
    Ok(choose_for(dictionary, missed))
}

// The choice where a variable is outside.
fn choose_for<N: Exact>(dictionary: &Dictionary<N>, missed: Missed) -> Choice
    requires usable { dictionary.now.usable ≡ true }
    requires basic { is_basic dictionary.now.basis missed.variable ≡ true }
    ensures { IsChosen result (exchange_or_blocked missed.variable (side_of missed.upper) (entering_one (tableau_of dictionary.now) (side_of missed.upper) missed.variable)) }
{
    let Some(entering) = entering(dictionary, missed.variable, missed.upper) else {
        return Choice::Blocked(missed.variable);
    };
    Choice::Exchange(missed.variable, missed.upper, entering)
}
