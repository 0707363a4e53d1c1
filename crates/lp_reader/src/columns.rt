//! Columns: their names, their bounds, and how many terms name them.
ghost use Rattle.std.specs.Prelude.{◌≡◌, ℕ, ◌<◌, ◌≤◌, ◌^◌, ◌+◌, nat_eq, false, cond, List, [], ◌++◌, map, Some, None, length, unwrap_or, MatchResult, MatchOption, OnOk, IfOk};
ghost use Rattle.std.specs.List.{All, list_any};
ghost use Rattle.std.specs.Str.{bytes_eq};
ghost use Rattle.std.specs.Map.{lookup};
ghost use Rattle.rational.specs.Rational.{zero_ℚ};
ghost use Rattle.frac128.specs.Limit.{limit};
ghost use Rattle.frac128.specs.Width.{operation, is_wide};
ghost use Rattle.frac128.specs.declared.Op.TheVariants.{Plus};
ghost use Rattle.text_fields.specs.declared.faults.ReadKind.TheVariants.{SumWide as SumWideKind};
ghost use Rattle.name_map.specs.Names.{names_of, StandsAt};
ghost use Rattle.lp_statements.specs.Items.{stop_at as stop_of};
ghost use Rattle.lp_statements.specs.Statements.{Term as TermOf, shown_text, shown_term};
ghost use Rattle.lp_reader.specs.Faults.{is_too_long as is_too_long_by, limit_fault, term_fault};
ghost use Rattle.lp_reader.specs.State.{plain, PutsColumn, TakesColumn, AddsSum, HoldsSums, TakesTerm, TakesForm, terms_fault_in, kept};
ghost use Rattle.lp_model.specs.Shown.{most_columns};
ghost use Rattle.lp_reader.specs.Program.{form_of, with_term};
ghost use Rattle.text_fields.specs.Faults.{IsFaultOf};

use crate::numbers::term_value;
use frac128::Frac;
use indexmap::IndexMap;
use lp_model::{LONGEST_NAME, MOST_COLUMNS, MOST_ENTRIES, Terms};
use lp_statements::{Term, Text};
use name_map::NameMap;
use std::alloc::{AllocError, Global};
use text_fields::{ReadFault, ReadKind};

/// How many terms of a form are kept: those after them are past the limit.
pub(crate) const MOST_TERMS: usize = MOST_ENTRIES + 1;

/// What statements say of a column so far.
#[derive(Clone, Copy)]
pub(crate) struct Bounds {
    pub lo: Option<Frac>,
    pub up: Option<Frac>,
    pub whole: bool,
    pub lower_set: bool,
}

/// The columns so far, and the number of terms.
#[derive(Drop)]
pub(crate) struct Columns {
    pub names: NameMap<()>,
    pub bounds: Vec<Bounds>,
    pub entries: usize,
}

/// The factors of one form by column, as sums.
pub(crate) type Sums = IndexMap<usize, Frac>;

/// A column of which nothing is said: from 0 on.
fn plain_bounds() -> Bounds
    ensures { result ≡ plain }
{
    Bounds {
        lo: Some(Frac::whole(0)),
        up: None,
        whole: false,
        lower_set: false,
    }
}

/// Whether a name has more than 255 bytes.
pub(crate) fn is_too_long(name: &[u8]) -> bool
    ensures { result ≡ is_too_long_by name.now }
{
    name.len() > LONGEST_NAME
}

/// Where a name stands.
pub(crate) fn place_of(names: &NameMap<()>, name: &[u8]) -> Option<usize>
    ensures { MatchOption result
        (list_any (bytes_eq name.now) (names_of names.now) ≡ false)
        (StandsAt (names_of names.now) name.now) }
{
    // That no two names are the same is told with their number.
    let _ = names.len();
    names.place(name)
}

// Puts a new column last.
fn put_column(alloc: Global, columns: &mut Columns, name: &[u8]) -> Result<(), AllocError>
    requires { list_any (bytes_eq name.now) (names_of columns.old.names) ≡ false }
    ensures { OnOk result (PutsColumn columns.old columns.new name.now) }
{
    let plain = plain_bounds();
    // The check wants the type of a bound named here.
    let _lower = plain.lo;
    columns.names.push(alloc, name, ())?;
    columns.bounds.push(plain)?;
    Ok(())
}

// The number of a column that a term names; a new one is put last.
fn column_for(alloc: Global, columns: &mut Columns, name: Text<'_>) -> Result<usize, ReadFault>
    ensures { MatchResult result
        (λ j. (limit_fault (names_of columns.old.names) columns.old.entries (shown_text name.entry) ≡ None) × TakesColumn columns.old columns.new name.entry.bytes.now j)
        (IsFaultOf (limit_fault (names_of columns.old.names) columns.old.entries (shown_text name.entry))) }
{
    if columns.entries >= MOST_ENTRIES {
        return Err(ReadFault::stop_at(name.line, ReadKind::Limit));
    }
    if let Some(column) = place_of(&columns.names, name.bytes) {
        columns.entries += 1;
        return Ok(column);
    }
    if columns.names.len() >= MOST_COLUMNS {
        return Err(ReadFault::stop_at(name.line, ReadKind::Limit));
    }
    if is_too_long(name.bytes) {
        return Err(ReadFault::stop_at(name.line, ReadKind::Limit));
    }
    let column = columns.names.len();
    put_column(alloc, columns, name.bytes)?;
    columns.entries += 1;
    Ok(column)
}

// The sum of a column so far.
fn sum_at(sums: &Sums, column: usize) -> Frac
    ensures { result ≡ unwrap_or (lookup (nat_eq column) sums.now.entries) zero_ℚ }
{
    match sums.get(&column) {
        Some(sum) => *sum,
        None => Frac::whole(0),
    }
}

// Adds a factor to a column's sum.
fn add_sum(sums: &mut Sums, column: usize, value: Frac, line: u32) -> Result<(), ReadFault>
    ensures { MatchResult result
        (λ _. (is_wide limit (operation Plus (unwrap_or (lookup (nat_eq column) sums.old.entries) zero_ℚ) value) ≡ false) × AddsSum sums.old.entries sums.new.entries column value)
        (IsFaultOf (cond (is_wide limit (operation Plus (unwrap_or (lookup (nat_eq column) sums.old.entries) zero_ℚ) value)) (Some (stop_of line SumWideKind)) None)) }
{
    match sum_at(sums, column).plus(value) {
        Ok(sum) => {
            sums.insert(column, sum)?;
            Ok(())
        }
        Err(_) => Err(ReadFault::stop_at(line, ReadKind::SumWide)),
    }
}

// Takes a term in: its column, and its factor in the sums of its form.
fn take_term(
    alloc: Global,
    columns: &mut Columns,
    sums: &mut Sums,
    term: Term<'_>,
) -> Result<(), ReadFault>
    ensures { (before : List TermOf) → HoldsSums (names_of columns.old.names) before sums.old.entries → MatchResult result
        (λ _. (term_fault (names_of columns.old.names) columns.old.entries before (shown_term term.entry) ≡ None) × TakesTerm columns.old columns.new before (shown_term term.entry) sums.new.entries)
        (IsFaultOf (term_fault (names_of columns.old.names) columns.old.entries before (shown_term term.entry))) }
{
    let value = term_value(term)?;
    let column = column_for(alloc, columns, term.name)?;
    add_sum(sums, column, value, term.name.line)?;
    Ok(())
}

// The terms of sums, in their order, without those that are 0.
fn list_terms(alloc: Global, sums: &Sums) -> Result<Terms, AllocError>
    requires { All (λ e. e.0 < 2 ^ 32) sums.now.entries }
    ensures { IfOk result (λ form. form ≡ kept sums.now.entries) }
{
    let mut list = Vec::new(alloc);
    for place in 0..sums.len() {
        let Some((column, sum)) = sums.get_index(place) else {
            return Ok(Terms::new(list));
        };
        put_term(&mut list, *column, *sum)?;
    }
    Ok(Terms::new(list))
}

// The terms of sums, in the order of their columns, without those that are 0.
fn make_terms(alloc: Global, sums: &mut Sums) -> Result<Terms, AllocError>
    requires { All (λ e. e.0 < 2 ^ 32) sums.old.entries }
    ensures { IfOk result (λ form. (names : List (List ℕ)) (terms : List TermOf) → HoldsSums names terms sums.old.entries → form ≡ form_of names terms) }
{
    sums.sort_keys()?;
    list_terms(alloc, sums)
}

// Puts a term last, unless its factor is 0.
fn put_term(list: &mut Vec<lp_model::Term>, column: usize, factor: Frac) -> Result<(), AllocError>
    requires { column < 2 ^ 32 }
    ensures { OnOk result (list.new.items ≡ list.old.items ++ with_term column factor []) }
{
    if factor == Frac::whole(0) {
        return Ok(());
    }
    list.push(lp_model::Term {
        column: column as u32,
        factor,
    })?;
    Ok(())
}

// Takes the terms of a form in, with sums that are empty, and gives the form.
fn sum_terms(
    alloc: Global,
    columns: &mut Columns,
    sums: &mut Sums,
    terms: &[Term<'_>],
) -> Result<Terms, ReadFault>
    requires few { length (names_of columns.old.names) ≤ most_columns }
    requires empty { sums.old.entries ≡ [] }
    ensures { MatchResult result
        (λ form. TakesForm columns.old columns.new (map shown_term terms.now) form)
        (IsFaultOf (terms_fault_in (names_of columns.old.names) columns.old.entries [] (map shown_term terms.now))) }
{
    for term in terms {
        take_term(alloc, columns, sums, *term)?;
    }
    Ok(make_terms(alloc, sums)?)
}

/// Takes the terms of a form in, and gives the form.
pub(crate) fn take_terms(
    alloc: Global,
    columns: &mut Columns,
    terms: &[Term<'_>],
) -> Result<Terms, ReadFault>
    requires { length (names_of columns.old.names) ≤ most_columns }
    ensures { MatchResult result
        (λ form. TakesForm columns.old columns.new (map shown_term terms.now) form)
        (IsFaultOf (terms_fault_in (names_of columns.old.names) columns.old.entries [] (map shown_term terms.now))) }
{
    let mut sums = IndexMap::new(alloc);
    sum_terms(alloc, columns, &mut sums, terms)
}
