//! The dictionary.
ghost use Rattle.std.specs.Prelude.{◌≡◌, ◌+◌, ◌<◌, MatchResult, IfOk, Some, None, IsSome, true, false, cond, ◌-◌, length, [], slice_index_or};
ghost use Rattle.std.specs.Option.{option_map};
ghost use Rattle.frac128.specs.Calculation.{first_wide};
ghost use Rattle.certs.specs.System.{LinearSystem, is_basic};
ghost use Rattle.certs.specs.Tableau.{IsTableauOf, IsWellFormedSystem, basic_value, limits_at, nonbasics, place_value, start_basis, value_of};
ghost use Rattle.certs.specs.Turns.{CanPivot, IsPivoted, flipped, operations_of, pivot_operations, value_operations};
ghost use Rattle.dictionary.specs.Layouts.{side_of};
ghost use Rattle.dictionary.specs.Starts.{FitSystem};
ghost use Rattle.dictionary.specs.Stops.{IsPivotStop};
ghost use Rattle.dictionary.specs.Rows.{terms_of, IsSparse};
ghost use Rattle.dictionary.specs.Value.{nonzero_pairs, tableau_of};

use crate::entries::{Entry, factor_in};
use crate::numbers::{product, sum};
use crate::places::{Bounds, Place, is_standing, limit_place, other_limit, place_number};
use crate::starts::{all_bounds, no_values, start_places, start_rows};
use crate::table::{exchange_rows, forget, make_room};
use crate::widening::{widened_bounds, widened_rows};
use certs::System;
use frac128::{Exact, Frac, Frac64, Wide};
use std::alloc::{AllocError, Global};
use std::marker::Model;

/// A linear system's basis with its table: each basic variable is a form of the nonbasic ones.
///
/// The variables are numbered from 0: the columns of the system, then one for each row, then the objective where there is
/// one. After a pivot that was too wide a dictionary must not be used, and it says so.
#[derive(Drop)]
pub struct Dictionary<N: Exact> {
    columns: u32,
    objective: bool,
    bounds: Vec<Bounds<N>>,
    places: Vec<Place>,
    rows: Vec<Vec<Entry<N>>>,
    quotients: Vec<Entry<N>>,
    spare: Vec<Entry<N>>,
    values: Vec<Option<N>>,
    usable: bool,
}

impl<N: Exact> Model for Dictionary<N> {
    ghost use Rattle.std.specs.Prelude.{◌≡◌, true, map, length};
    ghost use Rattle.std.specs.Option.{option_map};
    ghost use Rattle.dictionary.specs.Value.{DictionaryValue};

    ghost Value = { DictionaryValue };

    ghost use Rattle.dictionary.specs.Layouts.{basis_of};
    ghost use Rattle.dictionary.specs.Rows.{bounds_of, rows_of};
    ghost use Rattle.dictionary.specs.Sound.{AreValues, IsSound};
    ghost use Rattle.dictionary.specs.Value.{table_of};

    ghost view = { λ d. record {
      columns = d.columns;
      objective = d.objective;
      limits = map (λ b. record { lower = option_map N.value b.lower; upper = option_map N.value b.upper }) d.bounds.items;
      basis = basis_of d.places.items;
      rows = rows_of N.value d.rows.items;
      usable = d.usable;
    } };

    ghost invariant = { λ d. IsSound (length d.bounds.items) (basis_of d.places.items) (rows_of N.value d.rows.items) d.objective d.usable
        × (d.usable ≡ true → AreValues N.most N.value (table_of (bounds_of N.value d.bounds.items) d.objective (basis_of d.places.items) (rows_of N.value d.rows.items)) d.values.items) };
}

impl<N: Exact> Dictionary<N> {
    /// The dictionary at the start of a system: the rows and the objective are basic, and each column stands at its lower
    /// limit, else at its upper one, else at 0.
    pub fn start(alloc: Global, system: &System) -> Result<Dictionary<N>, AllocError>
        requires formed { IsWellFormedSystem system.now }
        requires fits { FitSystem N.most system.now }
        ensures { IfOk result (λ d. IsTableauOf system.now (tableau_of d) × ((d.basis ≡ start_basis system.now) × ((d.columns ≡ length system.now.columns) × (d.usable ≡ true)))) }
    {
        let columns = system.columns.len();
        let bounds = all_bounds(
            alloc,
            &system.columns,
            &system.rows,
            system.objective.is_some(),
        )?;
        let places = start_places(alloc, &bounds, columns)?;
        let rows = start_rows(alloc, columns, &system.rows, &system.objective)?;
        let values = no_values(alloc, places.len())?;
        Ok(Dictionary {
            columns: columns as u32,
            objective: system.objective.is_some(),
            bounds,
            places,
            rows,
            quotients: Vec::new(alloc),
            spare: Vec::new(alloc),
            values,
            usable: true,
        })
    }

    /// How many variables there are, the objective counted.
    pub fn variables(&self) -> u32
        ensures { result ≡ length self.now.basis }
    {
        self.places.len() as u32
    }

    /// How many of the variables are columns of the system.
    pub fn columns(&self) -> u32
        ensures { result ≡ self.now.columns }
    {
        self.columns
    }

    /// The objective's number, where there is one.
    pub fn objective(&self) -> Option<u32>
        ensures { result ≡ cond self.now.objective (Some (length self.now.basis - 1)) None }
    {
        if !self.objective {
            return None;
        }
        Some(self.places.len() as u32 - 1)
    }

    /// Whether a variable is in the basis.
    pub fn is_basic(&self, variable: u32) -> bool
        requires known { variable < length self.now.basis }
        ensures { result ≡ is_basic self.now.basis variable }
    {
        is_standing(self.places[variable as usize])
    }

    /// The lower limit of a variable, where it has one.
    pub fn lower(&self, variable: u32) -> Option<N>
        requires known { variable < length self.now.basis }
        ensures { option_map N.value result ≡ (limits_at (tableau_of self.now) variable).lower }
    {
        self.bounds[variable as usize].lower
    }

    /// The upper limit of a variable, where it has one.
    pub fn upper(&self, variable: u32) -> Option<N>
        requires known { variable < length self.now.basis }
        ensures { option_map N.value result ≡ (limits_at (tableau_of self.now) variable).upper }
    {
        self.bounds[variable as usize].upper
    }

    /// The value at which a nonbasic variable stands.
    pub fn place(&self, nonbasic: u32) -> N
        requires known { nonbasic < length self.now.basis }
        requires nonbasic { is_basic self.now.basis nonbasic ≡ false }
        ensures { N.value result ≡ place_value (tableau_of self.now) nonbasic }
    {
        place_number(
            self.bounds[nonbasic as usize],
            self.places[nonbasic as usize],
        )
    }

    /// How often a nonbasic variable counts in a basic one.
    pub fn entry(&self, basic: u32, nonbasic: u32) -> N
        requires usable { self.now.usable ≡ true }
        requires basic { is_basic self.now.basis basic ≡ true }
        requires known { nonbasic < length self.now.basis }
        requires nonbasic { is_basic self.now.basis nonbasic ≡ false }
        ensures { N.value result ≡ (tableau_of self.now).factor basic nonbasic }
    {
        factor_in(self.row(basic), nonbasic)
    }

    /// Puts a nonbasic variable with both limits at the other one; all else stays.
    pub fn flip(&mut self, nonbasic: u32)
        requires usable { self.old.usable ≡ true }
        requires known { nonbasic < length self.old.basis }
        requires nonbasic { is_basic self.old.basis nonbasic ≡ false }
        requires lower { IsSome (limits_at (tableau_of self.old) nonbasic).lower }
        requires upper { IsSome (limits_at (tableau_of self.old) nonbasic).upper }
        ensures turned { tableau_of self.new ≡ flipped (tableau_of self.old) nonbasic }
        ensures columns { self.new.columns ≡ self.old.columns }
        ensures usable { self.new.usable ≡ true }
        ensures system { (system : LinearSystem) → IsTableauOf system (tableau_of self.old) → IsTableauOf system (tableau_of self.new) }
    {
        forget(&self.rows, &mut self.values, nonbasic);
        self.places[nonbasic as usize] = other_limit(self.places[nonbasic as usize]);
    }

    /// The value of a variable: where a nonbasic one stands, and of a basic one the sum of its factors times the values of
    /// the nonbasic ones, in order. `Wide` comes exactly where an operation of that sum is too wide, with the first.
    pub fn value(&self, variable: u32) -> Result<N, Wide>
        requires usable { self.now.usable ≡ true }
        requires known { variable < length self.now.basis }
        ensures { MatchResult result
            (λ r. (N.value r ≡ value_of (tableau_of self.now) variable) × (first_wide N.most (operations_of (tableau_of self.now) variable) ≡ None))
            (λ w. first_wide N.most (operations_of (tableau_of self.now) variable) ≡ Some w) }
    {
        if !self.is_basic(variable) {
            return Ok(self.place(variable));
        }
        if let Some(value) = self.values[variable as usize] {
            return Ok(value);
        }
        self.basic_value(variable)
    }

    /// The value of a variable, as `value` has it; that of a basic one is kept until a pivot or a flip changes it.
    pub fn valued(&mut self, variable: u32) -> Result<N, Wide>
        requires usable { self.old.usable ≡ true }
        requires known { variable < length self.old.basis }
        ensures same { self.new ≡ self.old }
        ensures value { MatchResult result
            (λ r. (N.value r ≡ value_of (tableau_of self.old) variable) × (first_wide N.most (operations_of (tableau_of self.old) variable) ≡ None))
            (λ w. first_wide N.most (operations_of (tableau_of self.old) variable) ≡ Some w) }
    {
        let value = self.value(variable)?;
        if self.is_basic(variable) {
            self.values[variable as usize] = Some(value);
        }
        Ok(value)
    }

    // The value of a basic variable.
    fn basic_value(&self, variable: u32) -> Result<N, Wide>
        requires usable { self.now.usable ≡ true }
        requires basic { is_basic self.now.basis variable ≡ true }
        ensures { MatchResult result
            (λ r. (N.value r ≡ basic_value (tableau_of self.now) variable) × (first_wide N.most (value_operations (tableau_of self.now) variable) ≡ None))
            (λ w. first_wide N.most (value_operations (tableau_of self.now) variable) ≡ Some w) }
    {
        let mut total = N::zero();
        for entry in self.row(variable) {
            let part = product(entry.factor, self.place(entry.variable))?;
            total = sum(total, part)?;
        }
        Ok(total)
    }

    // The entries of a basic variable.
    fn row(&self, basic: u32) -> &[Entry<N>]
        requires usable { self.now.usable ≡ true }
        requires basic { is_basic self.now.basis basic ≡ true }
        ensures row { terms_of N.value result.now ≡ slice_index_or self.now.rows basic [] }
        ensures sparse { IsSparse self.now.basis (terms_of N.value result.now) }
    {
        self.rows[basic as usize].as_slice()
    }

    /// How many entries are kept: as many as there are pairs of a basic and a nonbasic variable whose factor is not 0.
    pub fn stored(&self) -> u64
        requires usable { self.now.usable ≡ true }
        ensures { result ≡ nonzero_pairs (tableau_of self.now) }
    {
        let mut count = 0;
        for row in &self.rows {
            count += row.len() as u64;
        }
        count
    }
}

/// Why a pivot stops.
#[derive(Clone, Copy)]
pub enum PivotStop {
    /// This operation is too wide, and it is the first of the pivot's that is.
    Wide(Wide),
    /// Memory was refused.
    Memory,
}

impl<N: Exact> Dictionary<N> {
    /// Makes a pivot: a basic variable leaves to its upper or its lower limit, and a nonbasic one enters.
    ///
    /// `Wide` comes exactly where an operation of the pivot is too wide, with the first; the dictionary must then not be
    /// used. `Memory` comes where there is no room for the rows that change; the dictionary is then as it was.
    pub fn pivot(&mut self, leaving: u32, upper: bool, entering: u32) -> Result<(), PivotStop>
        requires usable { self.old.usable ≡ true }
        requires can { CanPivot (tableau_of self.old) leaving (side_of upper) entering }
        ensures done { MatchResult result
            (λ done. (first_wide N.most (pivot_operations (tableau_of self.old) leaving entering) ≡ None)
            × (IsPivoted (tableau_of self.old) (tableau_of self.new) leaving (side_of upper) entering × (self.new.usable ≡ true)))
            (IsPivotStop N.most self.old self.new leaving entering) }
        ensures columns { self.new.columns ≡ self.old.columns }
        ensures system { (system : LinearSystem) → IsTableauOf system (tableau_of self.old) → IfOk result (λ done. IsTableauOf system (tableau_of self.new)) }
    {
        let count = self.rows[leaving as usize].len();
        let room = make_room(&mut self.rows, &mut self.spare, entering, count);
        if room.is_err() {
            return Err(PivotStop::Memory);
        }
        forget(&self.rows, &mut self.values, entering);
        self.usable = false;
        let changed = exchange_rows(
            &mut self.rows,
            &mut self.quotients,
            &mut self.spare,
            leaving,
            entering,
        );
        if let Err(wide) = changed {
            return Err(PivotStop::Wide(wide));
        }
        self.places[leaving as usize] = limit_place(upper);
        self.places[entering as usize] = Place::Basic;
        self.usable = true;
        Ok(())
    }
}

impl Dictionary<Frac64> {
    /// The same with fractions of 128 bits.
    pub fn widened(&self, alloc: Global) -> Result<Dictionary<Frac>, AllocError>
        ensures { IfOk result (λ d. d ≡ self.now) }
    {
        let bounds = widened_bounds(alloc, &self.bounds)?;
        let places = Vec::from_slice(alloc, &self.places)?;
        let rows = widened_rows(alloc, &self.rows)?;
        let values = no_values(alloc, places.len())?;
        Ok(Dictionary {
            columns: self.columns,
            objective: self.objective,
            bounds,
            places,
            rows,
            quotients: Vec::new(alloc),
            spare: Vec::new(alloc),
            values,
            usable: self.usable,
        })
    }
}
