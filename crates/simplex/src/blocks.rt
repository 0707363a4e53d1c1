//! What a variable meets that moves.
ghost use Rattle.std.specs.Prelude.{◌≡◌, ◌≢◌, ◌<◌, ◌-◌, ◌++◌, MatchResult, option_to_list, cond, Some, None, true, false, length, flat_map};
ghost use Rattle.std.specs.Option.{option_map};
ghost use Rattle.rational.specs.Rational.{zero_ℚ, neg_ℚ, ◌-ℚ◌, ◌/ℚ◌};
ghost use Rattle.frac128.specs.Calculation.{first_wide};
ghost use Rattle.certs.specs.System.{is_basic, limit_on};
ghost use Rattle.certs.specs.Tableau.{basic_value, limits_at};
ghost use Rattle.certs.specs.Turns.{counted, limited_basics, value_operations};
ghost use Rattle.certs.specs.Improves.{Block as Met, block_on, block_operations, blocks, comes_first as does_come_first, does_rise, greater_end, lesser_end, magnitude as size_of, nearest, own_block as own_blocks, own_operations, rate, reach_operations, towards as side_towards};
ghost use Rattle.dictionary.specs.Layouts.{side_of};
ghost use Rattle.dictionary.specs.Value.{tableau_of};
ghost use Rattle.simplex.specs.ImproveChosen.{nearer as nearer_of};

use crate::{is_less, limited_variables};
use dictionary::{Dictionary, difference, quotient};
use frac128::{Exact, Op, Wide};
use std::marker::Model;

/// A variable that meets its upper limit or its lower one, after the variable that moves has gone so far.
#[derive(Drop)]
pub struct Block<N: Exact> {
    pub variable: u32,
    pub upper: bool,
    pub distance: N,
}

impl<N: Exact> Model for Block<N> {
    ghost Value = { Met };

    ghost view = { λ b. record { variable = b.variable; side = side_of b.upper; distance = N.value b.distance } };
}

/// A nonbasic variable that moves: whether it rises, or else falls.
#[derive(Clone, Copy)]
pub struct Move {
    pub variable: u32,
    pub rises: bool,
}

// Whether a block comes before another: at a lesser distance, or at the same one with a lesser number.
fn comes_first<N: Exact>(block: &Block<N>, other: &Block<N>) -> bool
    ensures { result ≡ does_come_first block.now other.now }
{
    is_less(block.distance, other.distance)
        || (block.distance == other.distance && block.variable < other.variable)
}

// The first of two blocks that may be there.
fn nearer<N: Exact>(block: Option<Block<N>>, other: Option<Block<N>>) -> Option<Block<N>>
    ensures { result ≡ nearer_of block other }
{
    let Some(one) = block else {
        return other;
    };
    let Some(two) = other else {
        return Some(one);
    };
    if comes_first(&one, &two) {
        return Some(one);
    }
    Some(two)
}

// A number without its sign.
fn magnitude<N: Exact>(number: N) -> N
    ensures { N.value result ≡ size_of (N.value number) }
{
    if is_less(number, N::zero()) {
        return number.negate();
    }
    number
}

// Whether a change moves a variable up, or else down, where it moves it.
fn towards<N: Exact>(change: N) -> Option<bool>
    ensures { option_map side_of result ≡ side_towards (N.value change) }
{
    if is_less(N::zero(), change) {
        return Some(true);
    }
    if is_less(change, N::zero()) {
        return Some(false);
    }
    None
}

// The limit of a variable on a side, where it has one.
fn limit_of<N: Exact>(dictionary: &Dictionary<N>, variable: u32, upper: bool) -> Option<N>
    requires known { variable < length dictionary.now.basis }
    ensures { option_map N.value result ≡ limit_on (limits_at (tableau_of dictionary.now) variable) (side_of upper) }
{
    if upper {
        return dictionary.upper(variable);
    }
    dictionary.lower(variable)
}

// What is left between a value and the limit on a side, as its two operands: the greater first.
fn ends<N: Exact>(upper: bool, limit: N, value: N) -> (N, N)
    ensures { (N.value result.0 ≡ greater_end (side_of upper) (N.value limit) (N.value value))
        × (N.value result.1 ≡ lesser_end (side_of upper) (N.value limit) (N.value value)) }
{
    if upper {
        return (limit, value);
    }
    (value, limit)
}

// What is left between two numbers, over the magnitude of a factor.
fn distance<N: Exact>(most: N, least: N, factor: N) -> Result<N, Wide>
    requires { N.value factor ≢ zero_ℚ }
    ensures { let far = (N.value most -ℚ N.value least) /ℚ size_of (N.value factor) in
        let work = counted Op.Minus (N.value most) (N.value least)
        ++ counted Op.Over (N.value most -ℚ N.value least) (size_of (N.value factor)) in
        MatchResult result (λ d. (N.value d ≡ far) × (first_wide N.most work ≡ None)) (λ w. first_wide N.most work ≡ Some w) }
{
    let left = difference(most, least)?;
    quotient(left, magnitude(factor))
}

// How much a variable changes where one moves by 1 by which it counts so often.
fn directed<N: Exact>(rises: bool, factor: N) -> N
    ensures { N.value result ≡ cond rises (N.value factor) (neg_ℚ (N.value factor)) }
{
    if rises {
        return factor;
    }
    factor.negate()
}

/// The value of a basic variable, no operation of which is too wide.
pub(crate) fn narrow_value<N: Exact>(dictionary: &Dictionary<N>, basic: u32) -> N
    requires usable { dictionary.now.usable ≡ true }
    requires known { basic < length dictionary.now.basis }
    requires basic { is_basic dictionary.now.basis basic ≡ true }
    requires narrow { first_wide N.most (value_operations (tableau_of dictionary.now) basic) ≡ None }
    ensures { N.value result ≡ basic_value (tableau_of dictionary.now) basic }
{
    match dictionary.value(basic) {
        Ok(value) => value,
        Err(_) => unreachable!(),
    }
}

// What a basic variable meets on the side to which a nonbasic one moves it.
fn basic_block<N: Exact>(
    dictionary: &Dictionary<N>,
    moving: Move,
    basic: u32,
) -> Result<Option<Block<N>>, Wide>
    requires usable { dictionary.now.usable ≡ true }
    requires rises { moving.rises ≡ does_rise (tableau_of dictionary.now) moving.variable }
    requires moving { moving.variable < length dictionary.now.basis }
    requires nonbasic { is_basic dictionary.now.basis moving.variable ≡ false }
    requires known { basic < length dictionary.now.basis }
    requires basic { is_basic dictionary.now.basis basic ≡ true }
    requires narrow { first_wide N.most (value_operations (tableau_of dictionary.now) basic) ≡ None }
    ensures { let t = tableau_of dictionary.now in
        let side = side_towards (rate t moving.variable basic) in
        MatchResult result
        (λ block. (option_to_list block ≡ block_on t moving.variable basic side) × (first_wide N.most (block_operations t moving.variable basic side) ≡ None))
        (λ w. first_wide N.most (block_operations t moving.variable basic side) ≡ Some w) }
{
    let factor = dictionary.entry(basic, moving.variable);
    let change = directed(moving.rises, factor);
    let Some(upper) = towards(change) else {
        return Ok(None);
    };
    let Some(limit) = limit_of(dictionary, basic, upper) else {
        return Ok(None);
    };
    let value = narrow_value(dictionary, basic);
    let (most, least) = ends(upper, limit, value);
    let distance = distance(most, least, factor)?;
    Ok(Some(Block {
        variable: basic,
        upper,
        distance,
    }))
}

// What the moving variable itself meets, where it has both limits.
fn own_block<N: Exact>(dictionary: &Dictionary<N>, moving: Move) -> Result<Option<Block<N>>, Wide>
    requires moving { moving.variable < length dictionary.now.basis }
    ensures { let limits = limits_at (tableau_of dictionary.now) moving.variable in
        MatchResult result
        (λ block. (option_to_list block ≡ own_blocks moving.variable (side_of moving.rises) limits.lower limits.upper)
        × (first_wide N.most (own_operations limits.lower limits.upper) ≡ None))
        (λ w. first_wide N.most (own_operations limits.lower limits.upper) ≡ Some w) }
{
    let Some(lower) = dictionary.lower(moving.variable) else {
        return Ok(None);
    };
    let Some(upper) = dictionary.upper(moving.variable) else {
        return Ok(None);
    };
    let distance = difference(upper, lower)?;
    Ok(Some(Block {
        variable: moving.variable,
        upper: moving.rises,
        distance,
    }))
}

// The first that the basic variables but the objective meet.
fn nearest_basic<N: Exact>(
    dictionary: &Dictionary<N>,
    moving: Move,
) -> Result<Option<Block<N>>, Wide>
    requires usable { dictionary.now.usable ≡ true }
    requires rises { moving.rises ≡ does_rise (tableau_of dictionary.now) moving.variable }
    requires moving { moving.variable < length dictionary.now.basis }
    requires nonbasic { is_basic dictionary.now.basis moving.variable ≡ false }
    requires narrow { let t = tableau_of dictionary.now in
        first_wide N.most (flat_map (value_operations t) (limited_basics t)) ≡ None }
    ensures { let t = tableau_of dictionary.now in
        let j = moving.variable in
        let work = flat_map (λ i. block_operations t j i (side_towards (rate t j i))) (limited_basics t) in
        MatchResult result
        (λ block. (block ≡ nearest (flat_map (λ i. block_on t j i (side_towards (rate t j i))) (limited_basics t))) × (first_wide N.most work ≡ None))
        (λ w. first_wide N.most work ≡ Some w) }
{
    let mut first = None;
    for basic in 0..limited_variables(dictionary) {
        if !dictionary.is_basic(basic) {
            continue;
        }
        let block = basic_block(dictionary, moving, basic)?;
        first = nearer(first, block);
    }
    Ok(first)
}

// Whether a nonbasic variable raises the objective by rising.
fn rises<N: Exact>(dictionary: &Dictionary<N>, variable: u32) -> bool
    requires usable { dictionary.now.usable ≡ true }
    requires objective { is_basic dictionary.now.basis (length dictionary.now.basis - 1) ≡ true }
    requires moving { variable < length dictionary.now.basis }
    requires nonbasic { is_basic dictionary.now.basis variable ≡ false }
    ensures { result ≡ does_rise (tableau_of dictionary.now) variable }
{
    let objective = dictionary.variables() - 1;
    is_less(N::zero(), dictionary.entry(objective, variable))
}

/// The first that a nonbasic variable meets which moves so that the objective rises, itself counted last.
pub(crate) fn nearest_block<N: Exact>(
    dictionary: &Dictionary<N>,
    variable: u32,
) -> Result<Option<Block<N>>, Wide>
    requires usable { dictionary.now.usable ≡ true }
    requires objective { is_basic dictionary.now.basis (length dictionary.now.basis - 1) ≡ true }
    requires moving { variable < length dictionary.now.basis }
    requires nonbasic { is_basic dictionary.now.basis variable ≡ false }
    requires narrow { let t = tableau_of dictionary.now in
        first_wide N.most (flat_map (value_operations t) (limited_basics t)) ≡ None }
    ensures { let t = tableau_of dictionary.now in
        MatchResult result
        (λ block. (block ≡ nearest (blocks t variable)) × (first_wide N.most (reach_operations t (Some variable)) ≡ None))
        (λ w. first_wide N.most (reach_operations t (Some variable)) ≡ Some w) }
{
    let moving = Move {
        variable,
        rises: rises(dictionary, variable),
    };
    let first = nearest_basic(dictionary, moving)?;
    let own = own_block(dictionary, moving)?;
    Ok(nearer(first, own))
}
