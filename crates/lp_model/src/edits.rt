//! Edits of a program.
ghost use Rattle.std.specs.Prelude.{◌≡◌, ◌≢◌, ◌<◌, ℕ, List, length, true, false};
ghost use Rattle.lp_model.specs.Edits.{IsFitting, IsFittingChange, IsKnownEdit, IsKnownFormer, IsKnownTarget, IsOwn, changed as changed_part, changed_bound, changed_bounds, changed_mark, changed_side, changed_sides, done, edited, former_bounds, former_member, former_of, former_sides, former_target, lower_part, marked, on_target, put_back, upper_part, where_there, with_column, with_row};
ghost use Rattle.lp_model.specs.Evaluation.{IsInRange};
ghost use Rattle.lp_model.specs.Program.{IsWellFormed, IsWellFormedColumn, column_at, row_at};
ghost use Rattle.lp_model.specs.Shown.{named_column, named_row};

use crate::members::{Member, Side};
use crate::models::Model;
use crate::parts::{Column, Row, Weight};
use frac128::Frac;

/// What an edit acts on: one constraint, or those sides that a row has.
#[derive(Clone, Copy)]
pub enum Target {
    OneMember(Member),
    BothSides(u32),
}

/// A change of one part of a program. `SetSide` names a row, and `SetBound` and `SetMark` a column.
///
/// A side or a bound that is set is kept, and keeps its weight; one that is taken away weighs 1 again. What is not there is
/// neither dropped nor kept nor weighed, and a mark has no weight.
#[derive(Clone, Copy)]
pub enum Edit {
    Drop(Target),
    Keep(Target),
    SetSide(u32, Side, Option<Frac>),
    SetBound(u32, Side, Option<Frac>),
    SetMark(u32, bool),
    Weigh(Target, Weight),
}

/// A side of a row or a bound of a column: its number where it is there, whether it is kept, and its weight.
#[derive(Clone, Copy, PartialEq, Eq)]
pub struct Part {
    pub number: Option<Frac>,
    pub active: bool,
    pub weight: Weight,
}

/// What an edit changes, as it stands before: the sides of a row, the lower one first, or a column.
#[derive(Clone, Copy)]
pub enum Former {
    Sides(u32, Part, Part),
    Bounds(u32, Column),
}

/// What is done to such a part.
#[derive(Clone, Copy)]
pub(crate) enum Change {
    Nothing,
    Flag(bool),
    Weigh(Weight),
    Set(Option<Frac>),
}

impl Part {
    /// The part after a change.
    pub(crate) fn after(self, change: Change) -> Part
        ensures { result ≡ changed_part self change }
    {
        match (change, self.number) {
            (Change::Flag(active), Some(_)) => Part { active, ..self },
            (Change::Weigh(weight), Some(_)) => Part { weight, ..self },
            (Change::Nothing, _) | (Change::Flag(_) | Change::Weigh(_), None) => self,
            (Change::Set(number), _) => Part {
                number,
                active: true,
                weight: if number.is_some() {
                    self.weight
                } else {
                    Weight::Soft(Frac::whole(1))
                },
            },
        }
    }
}

// The lower side of a row.
fn lower_side(row: &Row) -> Part
    ensures { (name : List ℕ) → result ≡ lower_part (named_row name row.now) }
{
    Part {
        number: row.lo,
        active: row.lo_active,
        weight: row.lo_weight,
    }
}

// The upper side of a row.
fn upper_side(row: &Row) -> Part
    ensures { (name : List ℕ) → result ≡ upper_part (named_row name row.now) }
{
    Part {
        number: row.up,
        active: row.up_active,
        weight: row.up_weight,
    }
}

// The column after changes of its bounds.
fn with_bounds(column: Column, lower: Change, upper: Change) -> Column
    ensures { (name : List ℕ) → named_column name result ≡ changed_bounds (named_column name column) lower upper }
{
    let lower_bound = Part {
        number: column.lo,
        active: column.lower_active,
        weight: column.lower_weight,
    };
    let upper_bound = Part {
        number: column.up,
        active: column.upper_active,
        weight: column.upper_weight,
    };
    let lower = lower_bound.after(lower);
    let upper = upper_bound.after(upper);
    Column {
        lo: lower.number,
        up: upper.number,
        lower_active: lower.active,
        upper_active: upper.active,
        lower_weight: lower.weight,
        upper_weight: upper.weight,
        ..column
    }
}

// The column with a mark or without one; a mark that it has keeps its flag.
fn with_mark(column: Column, whole: bool) -> Column
    ensures { (name : List ℕ) → named_column name result ≡ marked (named_column name column) whole }
{
    Column {
        whole,
        whole_active: !whole || column.whole_active,
        ..column
    }
}

// The column after a change of its mark, where it has one.
fn with_mark_changed(column: Column, change: Change) -> Column
    ensures { (name : List ℕ) → named_column name result ≡ changed_mark (named_column name column) change }
{
    match change {
        Change::Flag(whole_active) if column.whole => Column {
            whole_active,
            ..column
        },
        _ => column,
    }
}

impl Model {
    /// Makes an edit, which takes no memory. True exactly where the program is another one then.
    pub fn apply(&mut self, edit: Edit) -> bool
        requires known { IsKnownEdit self.old edit }
        requires fitting { IsFitting edit }
        ensures made { self.new ≡ edited self.old edit }
        ensures changed { result ≡ true → self.new ≢ self.old }
        ensures same { result ≡ false → self.new ≡ self.old }
    {
        // That the program is well formed is told with its count of rows.
        let _rows = self.row_count();
        match edit {
            Edit::Drop(target) => self.change(target, Change::Flag(false)),
            Edit::Keep(target) => self.change(target, Change::Flag(true)),
            Edit::Weigh(target, weight) => self.change(target, Change::Weigh(weight)),
            Edit::SetSide(row, side, number) => self.change_side(row, side, Change::Set(number)),
            Edit::SetBound(column, side, number) => {
                self.change_bound(column, side, Change::Set(number))
            }
            Edit::SetMark(column, whole) => {
                let marked = with_mark(*self.column(column), whole);
                self.change_column(column, marked)
            }
        }
    }
}

impl Model {
    /// What an edit changes, as it stands: `restore` puts it back after the edit.
    pub fn former(&self, edit: Edit) -> Former
        requires { IsKnownEdit self.now edit }
        ensures { result ≡ former_of self.now edit }
    {
        match edit {
            Edit::Drop(target) => self.former_target(target),
            Edit::Keep(target) => self.former_target(target),
            Edit::Weigh(target, _) => self.former_target(target),
            Edit::SetSide(row, _, _) => self.former_sides(row),
            Edit::SetBound(column, _, _) => self.former_bounds(column),
            Edit::SetMark(column, _) => self.former_bounds(column),
        }
    }

    /// Puts back what an edit changed, which takes no memory.
    pub fn restore(&mut self, former: Former)
        requires known { IsKnownFormer self.old former }
        requires fitting { IsWellFormed (put_back self.old former) }
        ensures { self.new ≡ put_back self.old former }
    {
        match former {
            Former::Sides(row, lower, upper) => self.put_sides(row, lower, upper),
            Former::Bounds(index, column) => self.put_column(index, column),
        }
    }

    // What a target names, as it stands.
    fn former_target(&self, target: Target) -> Former
        requires { IsKnownTarget self.now target }
        ensures { result ≡ former_target self.now target }
    {
        match target {
            Target::BothSides(row) => self.former_sides(row),
            Target::OneMember(member) => self.former_member(member),
        }
    }

    // The row or the column of a member, as it stands.
    fn former_member(&self, member: Member) -> Former
        requires { IsInRange self.now member }
        ensures { result ≡ former_member self.now member }
    {
        match member {
            Member::RowLo(row) => self.former_sides(row),
            Member::RowUp(row) => self.former_sides(row),
            Member::Lower(column) => self.former_bounds(column),
            Member::Upper(column) => self.former_bounds(column),
            Member::Whole(column) => self.former_bounds(column),
        }
    }

    // The sides of a row, as they stand.
    fn former_sides(&self, row: u32) -> Former
        requires { row < length self.now.rows }
        ensures { result ≡ former_sides self.now row }
    {
        let held = self.row(row);
        Former::Sides(row, lower_side(held), upper_side(held))
    }

    // A column, as it stands.
    fn former_bounds(&self, column: u32) -> Former
        requires { column < length self.now.columns }
        ensures { result ≡ former_bounds self.now column }
    {
        Former::Bounds(column, *self.column(column))
    }

    // Changes what a target names, as far as it is there.
    fn change(&mut self, target: Target, change: Change) -> bool
        requires known { IsKnownTarget self.old target }
        requires fitting { IsFittingChange change }
        requires own { IsOwn change }
        ensures made { self.new ≡ on_target (done change) self.old target }
        ensures changed { result ≡ true → self.new ≢ self.old }
        ensures same { result ≡ false → self.new ≡ self.old }
    {
        match target {
            Target::OneMember(member) => self.change_member(member, change),
            Target::BothSides(row) => self.change_both(row, change),
        }
    }

    // Changes a member, where it is there.
    fn change_member(&mut self, member: Member, change: Change) -> bool
        requires known { IsInRange self.old member }
        requires fitting { IsFittingChange change }
        requires own { IsOwn change }
        ensures made { self.new ≡ where_there (done change) self.old member }
        ensures changed { result ≡ true → self.new ≢ self.old }
        ensures same { result ≡ false → self.new ≡ self.old }
    {
        // That the program is well formed is told with its count of rows.
        let _rows = self.row_count();
        match member {
            Member::RowLo(row) => self.change_side(row, Side::Lo, change),
            Member::RowUp(row) => self.change_side(row, Side::Up, change),
            Member::Lower(column) => self.change_bound(column, Side::Lo, change),
            Member::Upper(column) => self.change_bound(column, Side::Up, change),
            Member::Whole(column) => {
                let changed = with_mark_changed(*self.column(column), change);
                self.change_column(column, changed)
            }
        }
    }

    // Changes both sides of a row.
    fn change_both(&mut self, row: u32, change: Change) -> bool
        requires within { row < length self.old.rows }
        requires fitting { IsFittingChange change }
        ensures made { self.new ≡ with_row self.old row (changed_sides (row_at self.old row) change change) }
        ensures changed { result ≡ true → self.new ≢ self.old }
        ensures same { result ≡ false → self.new ≡ self.old }
    {
        let lower = change;
        let upper = change;
        self.change_sides(row, lower, upper)
    }

    // Changes a side of a row.
    fn change_side(&mut self, row: u32, side: Side, change: Change) -> bool
        requires within { row < length self.old.rows }
        requires fitting { IsFittingChange change }
        ensures made { self.new ≡ with_row self.old row (changed_side (row_at self.old row) side change) }
        ensures changed { result ≡ true → self.new ≢ self.old }
        ensures same { result ≡ false → self.new ≡ self.old }
    {
        match side {
            Side::Lo => self.change_sides(row, change, Change::Nothing),
            Side::Up => self.change_sides(row, Change::Nothing, change),
        }
    }

    // Changes the sides of a row.
    fn change_sides(&mut self, row: u32, lower: Change, upper: Change) -> bool
        requires within { row < length self.old.rows }
        requires lower { IsFittingChange lower }
        requires upper { IsFittingChange upper }
        ensures made { self.new ≡ with_row self.old row (changed_sides (row_at self.old row) lower upper) }
        ensures changed { result ≡ true → self.new ≢ self.old }
        ensures same { result ≡ false → self.new ≡ self.old }
    {
        // That the program is well formed is told with its count of rows.
        let _rows = self.row_count();
        let former = self.row(row);
        let lower_before = lower_side(former);
        let upper_before = upper_side(former);
        let lower_after = lower_before.after(lower);
        let upper_after = upper_before.after(upper);
        if lower_after == lower_before && upper_after == upper_before {
            return false;
        }
        self.put_sides(row, lower_after, upper_after);
        true
    }

    // Changes a bound of a column.
    fn change_bound(&mut self, column: u32, side: Side, change: Change) -> bool
        requires within { column < length self.old.columns }
        requires fitting { IsFittingChange change }
        ensures made { self.new ≡ with_column self.old column (changed_bound (column_at self.old column) side change) }
        ensures changed { result ≡ true → self.new ≢ self.old }
        ensures same { result ≡ false → self.new ≡ self.old }
    {
        // That the program is well formed is told with its count of rows.
        let _rows = self.row_count();
        let former = *self.column(column);
        let changed = match side {
            Side::Lo => with_bounds(former, change, Change::Nothing),
            Side::Up => with_bounds(former, Change::Nothing, change),
        };
        self.change_column(column, changed)
    }

    // Puts a column in the place of the one that stands there, where it is another.
    fn change_column(&mut self, index: u32, column: Column) -> bool
        requires within { index < length self.old.columns }
        requires fitting { IsWellFormedColumn (named_column (column_at self.old index).name column) }
        ensures made { self.new ≡ with_column self.old index (named_column (column_at self.old index).name column) }
        ensures changed { result ≡ true → self.new ≢ self.old }
        ensures same { result ≡ false → self.new ≡ self.old }
    {
        if column == *self.column(index) {
            return false;
        }
        self.put_column(index, column);
        true
    }
}
