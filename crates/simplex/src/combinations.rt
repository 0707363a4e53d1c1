//! The combination at the end of a settle run that is infeasible.
ghost use Rattle.std.specs.Prelude.{◌≡◌, ◌≤◌, ◌<◌, ◌-◌, ◌++◌, IfOk, None, true, filter, length, map};
ghost use Rattle.std.specs.Option.{option_to_list};
ghost use Rattle.frac128.specs.Limit.{limit};
ghost use Rattle.frac128.specs.Calculation.{first_wide};
ghost use Rattle.lp_model.specs.declared.members.Side.{Side as OneSide};
ghost use Rattle.certs.specs.Combination.{source_side};
ghost use Rattle.certs.specs.Ended.{blocked_multiple, blocked_shares, share_for};
ghost use Rattle.certs.specs.Named.{IsNamedCombination, member_of, named};
ghost use Rattle.certs.specs.System.{LinearSystem, is_basic};
ghost use Rattle.certs.specs.Tableau.{IsTableauOf, IsWellFormedSystem};
ghost use Rattle.certs.specs.Turns.{limited, settle_choice, settle_values};
ghost use Rattle.certs.specs.Turns.Choice.{Blocked};
ghost use Rattle.dictionary.specs.Layouts.{side_of};
ghost use Rattle.dictionary.specs.Value.{tableau_of};
ghost use Rattle.simplex.specs.Ends.{IsEnd};
ghost use Rattle.simplex.specs.declared.settling.Settled.TheVariants.{Infeasible};
ghost use Rattle.simplex.specs.Combined.{column_shares, is_on, row_shares};

use crate::blocks::narrow_value;
use crate::choices::{Missed, falls_short, is_less, limited_variables};
use certs::{Combo, Share, Shares, Source};
use dictionary::Dictionary;
use frac128::Frac;
use lp_model::{Member, Side};
use std::alloc::{AllocError, Global};

/// The combination after a settle run has ended infeasible at this variable: the limit that it misses once, and of each
/// nonbasic variable that counts in it the limit at which it stands, by its factor. Rows of the system come first, then
/// lower bounds of its columns, then upper ones. No operation is too wide, since the last turn has made them all.
pub fn combo_of(alloc: Global, dictionary: &Dictionary<Frac>, row: u32) -> Result<Combo, AllocError>
    requires usable { dictionary.now.usable ≡ true }
    requires columns { dictionary.now.columns ≤ limited (tableau_of dictionary.now) }
    requires blocked { IsEnd (Infeasible row) (settle_choice (tableau_of dictionary.now)) }
    requires narrow { first_wide limit (settle_values (tableau_of dictionary.now)) ≡ None }
    ensures shares { (system : LinearSystem) → length system.columns ≡ dictionary.now.columns → IsTableauOf system (tableau_of dictionary.now) → (side : OneSide) → settle_choice (tableau_of dictionary.now) ≡ Blocked row side → IfOk result (λ combo. combo.shares ≡ map (named dictionary.now.columns) (blocked_shares system (tableau_of dictionary.now) row side)) }
    ensures combination { (system : LinearSystem) → IsWellFormedSystem system → length system.columns ≡ dictionary.now.columns → IsTableauOf system (tableau_of dictionary.now) → IfOk result (λ combo. IsNamedCombination system combo.shares) }
{
    let missed = missed_one(dictionary, row);
    let mut shares = Vec::new(alloc);
    push_rows(dictionary, missed, &mut shares)?;
    push_columns(dictionary, missed, false, &mut shares)?;
    push_columns(dictionary, missed, true, &mut shares)?;
    Ok(Combo {
        shares: Shares::new(shares),
    })
}

// The variable that nothing helps, with the limit that it misses.
fn missed_one(dictionary: &Dictionary<Frac>, row: u32) -> Missed
    requires usable { dictionary.now.usable ≡ true }
    requires blocked { IsEnd (Infeasible row) (settle_choice (tableau_of dictionary.now)) }
    requires narrow { first_wide limit (settle_values (tableau_of dictionary.now)) ≡ None }
    ensures is { settle_choice (tableau_of dictionary.now) ≡ Blocked row (side_of result.upper) }
    ensures row { result.variable ≡ row }
    ensures basic { is_basic dictionary.now.basis result.variable ≡ true }
{
    let value = narrow_value(dictionary, row);
    Missed {
        variable: row,
        upper: !falls_short(dictionary.lower(row), value),
    }
}

// How often a variable counts.
fn multiple(dictionary: &Dictionary<Frac>, missed: Missed, variable: u32) -> Frac
    requires usable { dictionary.now.usable ≡ true }
    requires basic { is_basic dictionary.now.basis missed.variable ≡ true }
    requires known { variable < length dictionary.now.basis }
    ensures { result ≡ blocked_multiple (tableau_of dictionary.now) missed.variable (side_of missed.upper) variable }
{
    let count = if variable == missed.variable {
        Frac::whole(1)
    } else if dictionary.is_basic(variable) {
        Frac::whole(0)
    } else {
        dictionary.entry(missed.variable, variable).negate()
    };
    if missed.upper {
        return count;
    }
    count.negate()
}

// The constraint that a side of a variable is.
fn member(columns: u32, variable: u32, side: Side) -> Member
    ensures { result ≡ member_of columns variable side }
{
    match (side, variable < columns) {
        (Side::Lo, true) => Member::Lower(variable),
        (Side::Up, true) => Member::Upper(variable),
        (Side::Lo, false) => Member::RowLo(variable - columns),
        (Side::Up, false) => Member::RowUp(variable - columns),
    }
}

/// A limit of a variable of a system with so many columns, so many times: a bound of a column, or a side of a row.
pub fn limit_share(columns: u32, variable: u32, side: Side, weight: Frac) -> Share
    ensures { result ≡ named columns (record { variable = variable; side = side; weight = weight }) }
{
    Share {
        source: Source::Member(member(columns, variable, side)),
        weight,
    }
}

// The share of a variable that counts so often.
fn share(columns: u32, variable: u32, count: Frac) -> Option<Share>
    ensures { option_to_list result ≡ map (named columns) (share_for variable count) }
{
    let zero = Frac::whole(0);
    if count == zero {
        return None;
    }
    if is_less(zero, count) {
        return Some(limit_share(columns, variable, Side::Up, count));
    }
    Some(limit_share(columns, variable, Side::Lo, count.negate()))
}

// The share where it is of an upper limit, or where it is of a lower one.
fn on_side(share: Option<Share>, upper: bool) -> Option<Share>
    ensures { option_to_list result ≡ filter (λ s. is_on upper (source_side s.source)) (option_to_list share) }
{
    let share = share?;
    if (share.source.side() == Side::Up) != upper {
        return None;
    }
    Some(share)
}

// Appends a share that may be there.
fn append(shares: &mut Vec<Share>, share: Option<Share>) -> Result<(), AllocError>
    ensures { IfOk result (λ done. shares.new.items ≡ shares.old.items ++ option_to_list share) }
{
    if let Some(share) = share {
        shares.push(share)?;
    }
    Ok(())
}

// Appends the shares of the rows.
fn push_rows(
    dictionary: &Dictionary<Frac>,
    missed: Missed,
    shares: &mut Vec<Share>,
) -> Result<(), AllocError>
    requires usable { dictionary.now.usable ≡ true }
    requires basic { is_basic dictionary.now.basis missed.variable ≡ true }
    requires columns { dictionary.now.columns ≤ limited (tableau_of dictionary.now) }
    ensures { let t = tableau_of dictionary.now in
        IfOk result (λ done. shares.new.items ≡ shares.old.items ++ row_shares dictionary.now.columns (limited t - dictionary.now.columns) (blocked_multiple t missed.variable (side_of missed.upper))) }
{
    let columns = dictionary.columns();
    for variable in columns..limited_variables(dictionary) {
        let count = multiple(dictionary, missed, variable);
        append(shares, share(columns, variable, count))?;
    }
    Ok(())
}

// Appends the shares of the columns' lower limits, or of their upper ones.
fn push_columns(
    dictionary: &Dictionary<Frac>,
    missed: Missed,
    upper: bool,
    shares: &mut Vec<Share>,
) -> Result<(), AllocError>
    requires usable { dictionary.now.usable ≡ true }
    requires basic { is_basic dictionary.now.basis missed.variable ≡ true }
    requires columns { dictionary.now.columns ≤ limited (tableau_of dictionary.now) }
    ensures { let t = tableau_of dictionary.now in
        IfOk result (λ done. shares.new.items ≡ shares.old.items ++ column_shares dictionary.now.columns upper dictionary.now.columns (blocked_multiple t missed.variable (side_of missed.upper))) }
{
    let columns = dictionary.columns();
    for variable in 0..columns {
        let count = multiple(dictionary, missed, variable);
        append(shares, on_side(share(columns, variable, count), upper))?;
    }
    Ok(())
}
