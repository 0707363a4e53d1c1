//! A program, made part by part.
ghost use Rattle.std.specs.Prelude.{◌≡◌, ◌<◌, ◌≤◌, ◌↔◌, ◌++◌, ◌∷◌, [], Some, None, IsTrue, length, position, MatchResult, IfOk, OnOk, OnErr};
ghost use Rattle.std.specs.Option.{ok_or};
ghost use Rattle.std.specs.Str.{bytes_eq};
ghost use Rattle.frac128.specs.Limit.{limit};
ghost use Rattle.frac128.specs.Calculation.{first_wide};
ghost use Rattle.rational.specs.Linear.{form_value};
ghost use Rattle.lp_model.specs.Program.{row_at, column_at, noted_column, IsForm, IsWellFormedRow, IsWellFormedColumn, IsWellFormed};
ghost use Rattle.lp_model.specs.Edits.{with_column, with_row, with_sides};
ghost use Rattle.lp_model.specs.Members.{exists as is_there, is_active as is_in_force};
ghost use Rattle.lp_model.specs.Satisfaction.{Holds, values_at};
ghost use Rattle.lp_model.specs.Shown.{named_row, named_column, empty_program, row_names, column_names, with_more_row, with_more_column, most_rows, most_columns, CanAdd};
ghost use Rattle.lp_model.specs.Refusals.{IsAddRefusal};
ghost use Rattle.lp_model.specs.Evaluation.{value_operations, member_operations, IsInRange};

use crate::additions::{add_named, copied};
use crate::edits::Part;
use crate::evaluation::{is_at_least, is_at_most, value_of};
use crate::limits::{MOST_COLUMNS, MOST_ROWS};
use crate::members::Member;
use crate::parts::{Column, Note, Row, Term, Terms};
use frac128::{Frac, Wide};
use name_map::NameMap;
use std::alloc::{AllocError, Global};

/// Why a part was not added or not found.
#[derive(Clone, Copy, PartialEq, Eq)]
pub enum ModelStop {
    UnknownName,
    DuplicateName,
    Limit,
    Memory,
}

/// A linear or mixed integer program. Contracts see its named rows and columns, objective, sense and notes.
#[derive(Drop)]
pub struct Model {
    rows: NameMap<Row>,
    columns: NameMap<Column>,
    objective: Terms,
    maximise: bool,
    notes: Vec<Note>,
}

impl std::marker::Model for Model {
    ghost use Rattle.std.specs.Prelude.{map};
    ghost use Rattle.lp_model.specs.Program.{Program};
    ghost use Rattle.lp_model.specs.Shown.{named_row, named_column, IsKept};

    ghost Value = { Program };

    ghost view = { λ m. record {
      rows = map (λ e. named_row e.0 e.1) m.rows;
      columns = map (λ e. named_column e.0 e.1) m.columns;
      objective = m.objective;
      maximise = m.maximise;
      notes = m.notes.items;
    } };

    ghost invariant = { λ m. IsKept (record {
      rows = map (λ e. named_row e.0 e.1) m.rows;
      columns = map (λ e. named_column e.0 e.1) m.columns;
      objective = m.objective;
      maximise = m.maximise;
      notes = m.notes.items;
    }) };
}

impl Model {
    /// A program without rows and columns, with the objective 0. It takes no memory.
    pub fn new(alloc: Global, maximise: bool) -> Model
        ensures { result ≡ empty_program maximise }
    {
        Model {
            rows: NameMap::new(alloc),
            columns: NameMap::new(alloc),
            objective: Terms::new(Vec::new(alloc)),
            maximise,
            notes: Vec::new(alloc),
        }
    }

    /// The same program once more.
    pub fn copy(&self, alloc: Global) -> Result<Model, AllocError>
        ensures { IfOk result (λ copy. copy ≡ self.now) }
    {
        let rows = copied(&self.rows, alloc)?;
        let columns = copied(&self.columns, alloc)?;
        let objective = self.objective.clone()?;
        let notes = Vec::from_slice(alloc, self.notes())?;
        Ok(Model {
            rows,
            columns,
            objective,
            maximise: self.maximise,
            notes,
        })
    }

    /// Puts a row last, and gives its number.
    ///
    /// `DuplicateName` comes where a row has the name, before `Limit`, which comes where `MOST_ROWS` are there or the
    /// name has more than 255 bytes. A refused row is dropped, and the program stays as it was.
    pub fn add_row(&mut self, alloc: Global, name: &[u8], row: Row) -> Result<u32, ModelStop>
        requires { IsWellFormedRow (length self.old.columns) (named_row name.now row) }
        ensures answer { MatchResult result
            (λ i. CanAdd (row_names self.old) most_rows name.now × (i ≡ length self.old.rows) × (self.new ≡ with_more_row self.old (named_row name.now row)))
            (λ stop. IsAddRefusal (row_names self.old) most_rows name.now stop) }
        ensures unchanged { OnErr result (self.new ≡ self.old) }
    {
        add_named(&mut self.rows, alloc, name, row, MOST_ROWS as u32)
    }

    /// Puts a column last, and gives its number.
    ///
    /// `DuplicateName` comes where a column has the name, before `Limit`, which comes where `MOST_COLUMNS` are there or
    /// the name has more than 255 bytes. After a refusal the program is as it was.
    pub fn add_column(
        &mut self,
        alloc: Global,
        name: &[u8],
        column: Column,
    ) -> Result<u32, ModelStop>
        requires { IsWellFormedColumn (named_column name.now column) }
        ensures answer { MatchResult result
            (λ j. CanAdd (column_names self.old) most_columns name.now × (j ≡ length self.old.columns) × (self.new ≡ with_more_column self.old (named_column name.now column)))
            (λ stop. IsAddRefusal (column_names self.old) most_columns name.now stop) }
        ensures unchanged { OnErr result (self.new ≡ self.old) }
    {
        // The check wants the types of the column's parts named here.
        let _lower = column.lo;
        let _weight = column.lower_weight;
        add_named(&mut self.columns, alloc, name, column, MOST_COLUMNS as u32)
    }

    /// Sets the objective and its sense.
    pub fn set_objective(&mut self, terms: Terms, maximise: bool)
        requires { IsForm (length self.old.columns) terms }
        ensures { self.new ≡ record self.old { objective = terms; maximise = maximise } }
    {
        self.objective = terms;
        self.maximise = maximise;
    }

    /// Puts a note last. Where memory is refused, the program stays as it was.
    pub fn add_note(&mut self, note: Note) -> Result<(), AllocError>
        requires { noted_column note < length self.old.columns }
        ensures ok { OnOk result (self.new ≡ record self.old { notes = self.old.notes ++ note ∷ [] }) }
        ensures err { OnErr result (self.new ≡ self.old) }
    {
        self.notes.push(note)?;
        Ok(())
    }

    /// Puts these sides in the place of those of a row. It takes no memory.
    pub(crate) fn put_sides(&mut self, index: u32, lower: Part, upper: Part)
        requires within { index < length self.old.rows }
        requires fitting { IsWellFormedRow (length self.old.columns) (with_sides (row_at self.old index) lower upper) }
        ensures { self.new ≡ with_row self.old index (with_sides (row_at self.old index) lower upper) }
    {
        let no_terms = Terms::new(Vec::new(*self.notes.allocator()));
        let former = self
            .rows
            .replace(index as usize, Row::new(no_terms, None, None));
        let row = Row {
            terms: former.terms,
            lo: lower.number,
            up: upper.number,
            lo_active: lower.active,
            up_active: upper.active,
            lo_weight: lower.weight,
            up_weight: upper.weight,
        };
        self.rows.replace(index as usize, row);
    }

    /// Puts a column in the place of the one with the number, under its name. It takes no memory.
    pub(crate) fn put_column(&mut self, index: u32, column: Column)
        requires within { index < length self.old.columns }
        requires fitting { IsWellFormedColumn (named_column (column_at self.old index).name column) }
        ensures { self.new ≡ with_column self.old index (named_column (column_at self.old index).name column) }
    {
        // The check wants the types of the column's parts named here.
        let _lower = column.lo;
        let _weight = column.lower_weight;
        self.columns.replace(index as usize, column);
    }

    /// The number of the row that has the name, in no time that grows with the program and with no memory.
    /// `UnknownName` comes exactly where no row has it.
    pub fn row_named(&self, name: &[u8]) -> Result<u32, ModelStop>
        ensures place { result ≡ ok_or (position (bytes_eq name.now) (row_names self.now)) ModelStop.UnknownName }
        ensures within { IfOk result (λ i. i < length self.now.rows) }
    {
        match self.rows.place(name) {
            Some(index) => Ok(index as u32),
            None => Err(ModelStop::UnknownName),
        }
    }

    /// The number of the column that has the name, as `row_named` finds a row's.
    pub fn column_named(&self, name: &[u8]) -> Result<u32, ModelStop>
        ensures place { result ≡ ok_or (position (bytes_eq name.now) (column_names self.now)) ModelStop.UnknownName }
        ensures within { IfOk result (λ j. j < length self.now.columns) }
    {
        match self.columns.place(name) {
            Some(index) => Ok(index as u32),
            None => Err(ModelStop::UnknownName),
        }
    }

    /// A row.
    pub fn row(&self, index: u32) -> &Row
        requires { index < length self.now.rows }
        ensures { row_at self.now index ≡ named_row (row_at self.now index).name result.now }
    {
        self.rows.value(index as usize)
    }

    /// A column.
    pub fn column(&self, index: u32) -> &Column
        requires { index < length self.now.columns }
        ensures { column_at self.now index ≡ named_column (column_at self.now index).name result.now }
    {
        self.columns.value(index as usize)
    }

    /// The name of a row.
    pub fn row_name(&self, index: u32) -> &[u8]
        requires { index < length self.now.rows }
        ensures { result.now ≡ (row_at self.now index).name }
    {
        self.rows.name(index as usize)
    }

    /// The name of a column.
    pub fn column_name(&self, index: u32) -> &[u8]
        requires { index < length self.now.columns }
        ensures { result.now ≡ (column_at self.now index).name }
    {
        self.columns.name(index as usize)
    }

    /// How many rows there are, at most `MOST_ROWS`. The program is well formed.
    pub fn row_count(&self) -> u32
        ensures count { result ≡ length self.now.rows }
        ensures few { result ≤ most_rows }
        ensures well_formed { IsWellFormed self.now }
    {
        self.rows.len() as u32
    }

    /// How many columns there are, at most `MOST_COLUMNS`.
    pub fn column_count(&self) -> u32
        ensures count { result ≡ length self.now.columns }
        ensures few { result ≤ most_columns }
    {
        self.columns.len() as u32
    }

    /// The terms of the objective.
    pub fn objective(&self) -> &[Term]
        ensures { result.now ≡ self.now.objective }
    {
        self.objective.as_slice()
    }

    /// Whether the objective is to be made greatest.
    pub fn maximise(&self) -> bool
        ensures { result ≡ self.now.maximise }
    {
        self.maximise
    }

    /// What a reader noted of bounds.
    pub fn notes(&self) -> &[Note]
        ensures { result.now ≡ self.now.notes }
    {
        self.notes.as_slice()
    }

    /// Whether the program has the member: a side where its row has it, a bound or a mark where its column has it.
    pub fn exists(&self, member: Member) -> bool
        requires { IsInRange self.now member }
        ensures { result ≡ is_there self.now member }
    {
        match member {
            Member::RowLo(index) => self.row(index).lo.is_some(),
            Member::RowUp(index) => self.row(index).up.is_some(),
            Member::Lower(index) => self.column(index).lo.is_some(),
            Member::Upper(index) => self.column(index).up.is_some(),
            Member::Whole(index) => self.column(index).whole,
        }
    }

    /// Whether the member is there and its flag is on.
    pub fn is_active(&self, member: Member) -> bool
        requires { IsInRange self.now member }
        ensures { result ≡ is_in_force self.now member }
    {
        match member {
            Member::RowLo(index) => {
                let row = self.row(index);
                row.lo.is_some() && row.lo_active
            }
            Member::RowUp(index) => {
                let row = self.row(index);
                row.up.is_some() && row.up_active
            }
            Member::Lower(index) => {
                let column = self.column(index);
                column.lo.is_some() && column.lower_active
            }
            Member::Upper(index) => {
                let column = self.column(index);
                column.up.is_some() && column.upper_active
            }
            Member::Whole(index) => {
                let column = self.column(index);
                column.whole && column.whole_active
            }
        }
    }

    /// Whether the member holds where each column has its value.
    ///
    /// It refuses exactly where a product or a partial sum of a row's terms, taken in order from 0, is too wide, with
    /// the first such operation.
    pub fn holds(&self, member: Member, values: &[Frac]) -> Result<bool, Wide>
        requires counted { length values.now ≡ length self.now.columns }
        requires in_range { IsInRange self.now member }
        requires there { IsTrue (is_there self.now member) }
        ensures { MatchResult result
            (λ b. (IsTrue b ↔ Holds self.now (values_at values.now) member) × (first_wide limit (member_operations self.now member (values_at values.now)) ≡ None))
            (λ w. first_wide limit (member_operations self.now member (values_at values.now)) ≡ Some w) }
    {
        match member {
            Member::RowLo(index) => {
                let sum = self.row_sum(index, values)?;
                Ok(is_at_least(self.row(index).lo, sum))
            }
            Member::RowUp(index) => {
                let sum = self.row_sum(index, values)?;
                Ok(is_at_most(self.row(index).up, sum))
            }
            Member::Lower(index) => {
                let value = values[index as usize];
                Ok(is_at_least(self.column(index).lo, value))
            }
            Member::Upper(index) => {
                let value = values[index as usize];
                Ok(is_at_most(self.column(index).up, value))
            }
            Member::Whole(index) => Ok(values[index as usize].is_whole()),
        }
    }

    // The sum of a row.
    fn row_sum(&self, index: u32, values: &[Frac]) -> Result<Frac, Wide>
        requires counted { length values.now ≡ length self.now.columns }
        requires in_range { index < length self.now.rows }
        ensures { MatchResult result
            (λ v. (v ≡ form_value (row_at self.now index).terms (values_at values.now)) × (first_wide limit (value_operations (row_at self.now index).terms (values_at values.now)) ≡ None))
            (λ w. first_wide limit (value_operations (row_at self.now index).terms (values_at values.now)) ≡ Some w) }
    {
        // What the type keeps of its terms is used here.
        let _ = &self.rows;
        value_of(self.row(index).terms.as_slice(), values)
    }
}
