//! Edits by name, and undos.
ghost use Rattle.std.specs.Prelude.{◌≡◌, ◌<◌, ◌≤◌, [], IsOk, IfOk, IfSome, OnOk};
ghost use Rattle.report_text.specs.History.{history_of, room_of};
ghost use Rattle.report_text.specs.Edits.{edit_at as edit_of, is_of_row as is_row_target, names_row as of_row, place_of as place_in, target_at as target_of};
ghost use Rattle.report_text.specs.Form.{IsNamedEdit};
ghost use Rattle.report_text.specs.Session.{EditsBy, IsPlaceIn, NamesStandLaw, UndoesBy};

use crate::{EditKind, History, NamedEdit, TargetKind};
use lp_model::{Edit, Member, Model, Target};
use std::alloc::{AllocError, Global};

/// Why an edit is refused: the program has no row or column of the name, or it would stay as it is. The first that holds, in
/// this order.
#[derive(Clone, Copy, PartialEq, Eq)]
pub enum EditStop {
    UnknownName,
    NoChange,
}

/// Why an undo is refused: no edit stands.
#[derive(Clone, Copy, PartialEq, Eq)]
pub enum UndoStop {
    NothingToUndo,
}

// What is edited of the row or the column with this number.
fn target_at(index: u32, kind: TargetKind) -> Target
    ensures { result ≡ target_of index kind }
{
    match kind {
        TargetKind::Row => Target::BothSides(index),
        TargetKind::RowLo => Target::OneMember(Member::RowLo(index)),
        TargetKind::RowUp => Target::OneMember(Member::RowUp(index)),
        TargetKind::Lower => Target::OneMember(Member::Lower(index)),
        TargetKind::Upper => Target::OneMember(Member::Upper(index)),
        TargetKind::Whole => Target::OneMember(Member::Whole(index)),
    }
}

// The edit of the row or the column with this number.
fn edit_at(index: u32, kind: EditKind) -> Edit
    ensures { result ≡ edit_of kind index }
{
    match kind {
        EditKind::Drop(target) => Edit::Drop(target_at(index, target)),
        EditKind::Keep(target) => Edit::Keep(target_at(index, target)),
        EditKind::Weigh(target, weight) => Edit::Weigh(target_at(index, target), weight),
        EditKind::SetSide(side, number) => Edit::SetSide(index, side, number),
        EditKind::SetBound(side, number) => Edit::SetBound(index, side, number),
        EditKind::SetMark(whole) => Edit::SetMark(index, whole),
    }
}

// Whether a row is edited, rather than a column.
fn is_of_row(kind: TargetKind) -> bool
    ensures { result ≡ is_row_target kind }
{
    match kind {
        TargetKind::Row | TargetKind::RowLo | TargetKind::RowUp => true,
        TargetKind::Lower | TargetKind::Upper | TargetKind::Whole => false,
    }
}

// Whether an edit names a row, rather than a column.
fn names_row(kind: EditKind) -> bool
    ensures { result ≡ of_row kind }
{
    match kind {
        EditKind::Drop(target) | EditKind::Keep(target) | EditKind::Weigh(target, _) => {
            is_of_row(target)
        }
        EditKind::SetSide(_, _) => true,
        EditKind::SetBound(_, _) | EditKind::SetMark(_) => false,
    }
}

/// A program that is edited by names, and what its edits changed, so that they can be taken back. Contracts see both, and for
/// how many edits more there is room.
#[derive(Drop)]
pub struct Session {
    history: History,
}

impl std::marker::Model for Session {
    ghost use Rattle.report_text.specs.History.{RoomyHistory};

    ghost Value = { RoomyHistory };

    ghost view = { λ s. s.history };
}

impl Session {
    /// A program of which nothing was edited yet, with room for so many edits.
    ///
    /// # Errors
    ///
    /// There is no memory for that room; none is wanted where it is to be for no edit.
    pub fn new(alloc: Global, model: Model, spare: u32) -> Result<Session, AllocError>
        ensures made { IfOk result (λ s. s ≡ record { held = history_of model []; spare = spare }) }
        ensures succeeds { spare ≡ 0 → IsOk result }
    {
        Ok(Session {
            history: History::new(alloc, model, spare)?,
        })
    }

    /// The program, as it was edited.
    pub fn model(&self) -> &Model
        ensures { result.now ≡ self.now.held.model }
    {
        self.history.model()
    }

    /// The program, as it was edited, by itself.
    pub fn into_model(self) -> Model
        ensures { result ≡ self.held.model }
    {
        self.history.into_model()
    }

    /// Makes room for so many edits more than were made so far.
    ///
    /// # Errors
    ///
    /// There is no memory for that room; all stays as it was.
    pub fn reserve(&mut self, more: u32) -> Result<(), AllocError>
        ensures held { self.new.held ≡ self.old.held }
        ensures room { OnOk result (more ≤ self.new.spare) }
        ensures spare { self.old.spare ≤ self.new.spare }
    {
        self.history.reserve(more)
    }

    /// Makes an edit, for which there is room, without memory.
    ///
    /// # Errors
    ///
    /// `UnknownName` exactly where the program has no row or column of the name; `NoChange` exactly where it has, and
    /// the edit makes no other program of it. A refused edit changes nothing.
    pub fn edit(&mut self, edit: &NamedEdit) -> Result<(), EditStop>
        requires form { IsNamedEdit edit.now }
        requires spare { 0 < self.old.spare }
        ensures edited { EditsBy self.old.held edit.now result self.new.held }
        ensures room { room_of self.new ≡ room_of self.old }
    {
        let Some(index) = self.place_of(edit) else {
            return Err(EditStop::UnknownName);
        };
        if self.history.edit(edit_at(index, edit.kind)) {
            return Ok(());
        }
        Err(EditStop::NoChange)
    }

    /// Takes back the last edit that stands, without memory, and gives its room back. The program is the one before it, in
    /// every part.
    ///
    /// # Errors
    ///
    /// `NothingToUndo` exactly where no edit stands; then all stays as it was.
    pub fn undo(&mut self) -> Result<(), UndoStop>
        ensures undone { UndoesBy self.old.held result self.new.held }
        ensures room { room_of self.new ≡ room_of self.old }
    {
        if self.history.undo() {
            return Ok(());
        }
        Err(UndoStop::NothingToUndo)
    }

    // The number of the row or the column that an edit names.
    fn place_of(&self, edit: &NamedEdit) -> Option<u32>
        ensures place { result ≡ place_in self.now.held.model (of_row edit.now.kind) edit.now.name }
        ensures within { IfSome result (IsPlaceIn self.now.held.model (of_row edit.now.kind)) }
    {
        let model = self.history.model();
        let name = edit.name.bytes();
        let place = if names_row(edit.kind) {
            model.row_named(name)
        } else {
            model.column_named(name)
        };
        place.ok()
    }
}

/// No edit changes the names of rows and columns, the forms, the objective or the notes, so that the lines of what is said
/// are those by the first program. It does nothing when it runs.
pub fn names_stand()
    ensures { NamesStandLaw }
{}
