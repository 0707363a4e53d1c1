//! The history of a program.
ghost use Rattle.std.specs.Prelude.{◌≡◌, ◌<◌, ◌≤◌, ◌∷◌, ◌++◌, [], IsOk, IfOk, OnOk, vec_len, vec_capacity};
ghost use Rattle.lp_model.specs.Edits.{IsFitting, IsKnownEdit, former_of};
ghost use Rattle.report_text.specs.History.{ChangesLaw, HistoryLaw, IsEdited, IsUndone, history_of, room_of};

use frac128::Frac;
use lp_model::{Column, Edit, Former, Model, Part, Weight, edit_goes_back};
use std::alloc::{AllocError, Global};

/// A program, and what its edits changed. Contracts see both, the last edit first, and for how many edits more there is
/// room.
#[derive(Drop)]
pub struct History {
    model: Model,
    formers: Vec<Former>,
}

impl std::marker::Model for History {
    ghost use Rattle.std.specs.Prelude.{◌-◌, reverse, vec_len, vec_capacity};
    ghost use Rattle.report_text.specs.History.{RoomyHistory, GoesBack};

    ghost Value = { RoomyHistory };

    ghost view = { λ h. record {
      held = record { model = h.model; formers = reverse h.formers.items };
      spare = vec_capacity h.formers - vec_len h.formers;
    } };

    ghost invariant = { λ h. GoesBack h.model (reverse h.formers.items) };
}

impl History {
    /// A program of which nothing was edited yet, with room for so many edits.
    ///
    /// # Errors
    ///
    /// There is no memory for that room; none is wanted where it is to be for no edit.
    pub fn new(alloc: Global, model: Model, spare: u32) -> Result<History, AllocError>
        ensures made { IfOk result (λ h. h ≡ record { held = history_of model []; spare = spare }) }
        ensures succeeds { spare ≡ 0 → IsOk result }
    {
        let formers = Vec::with_capacity(alloc, spare as usize)?;
        Ok(History { model, formers })
    }

    /// The program, as it was edited.
    pub fn model(&self) -> &Model
        ensures { result.now ≡ self.now.held.model }
    {
        &self.model
    }

    /// The program, as it was edited, by itself.
    pub fn into_model(self) -> Model
        ensures { result ≡ self.held.model }
    {
        self.model
    }

    /// Makes room for so many edits more than were made so far.
    ///
    /// # Errors
    ///
    /// There is no memory for that room; all stays as it was.
    pub fn reserve(&mut self, more: u32) -> Result<(), AllocError>
        ensures held { self.new.held ≡ self.old.held }
        ensures room { OnOk result (more ≤ self.new.spare) }
        ensures spare { self.old.spare ≤ self.new.spare }
    {
        self.formers.reserve(more as usize)
    }

    /// Makes an edit, for which there is room, without memory. True where the program is another one then; else the edit is
    /// refused, and all stays as it was.
    pub fn edit(&mut self, edit: Edit) -> bool
        requires known { IsKnownEdit self.old.held.model edit }
        requires fitting { IsFitting edit }
        requires spare { 0 < self.old.spare }
        ensures edited { IsEdited self.old.held edit result self.new.held }
        ensures room { room_of self.new ≡ room_of self.old }
    {
        // That the program is well formed is told with its count of rows.
        let _rows = self.model.row_count();
        edit_goes_back();
        let asked = edit;
        keep(&mut self.formers, &self.model, asked);
        let made = self.model.apply(edit);
        if !made {
            self.formers.pop();
        }
        made
    }

    /// Takes back the last edit that was made and not taken back yet, without memory, and gives its room back. False exactly
    /// where there is none; then all stays as it was.
    pub fn undo(&mut self) -> bool
        ensures undone { IsUndone self.old.held result self.new.held }
        ensures room { room_of self.new ≡ room_of self.old }
    {
        let Some(former) = self.formers.pop() else {
            return false;
        };
        self.model.restore(former);
        true
    }
}

// Keeps what an edit is to change.
fn keep(formers: &mut Vec<Former>, model: &Model, edit: Edit)
    requires known { IsKnownEdit model.now edit }
    requires spare { vec_len formers.old < vec_capacity formers.old }
    ensures kept { formers.new.items ≡ formers.old.items ++ former_of model.now edit ∷ [] }
    ensures room { vec_capacity formers.new ≡ vec_capacity formers.old }
{
    // The check wants the types of what is kept named here.
    let _numbers: (Option<Frac>, Weight) = (None, Weight::Rigid);
    let _parts: (Option<Part>, Option<Column>) = (None, None);
    let former = model.former(edit);
    formers.push_reserved(former);
}

/// After any edits and undos of a program, the program is what the edits make of it that were accepted and not taken back.
/// It does nothing when it runs.
pub fn history_law()
    ensures { HistoryLaw }
{
    edit_goes_back();
}

/// The test of an edit tells whether it makes another program. It does nothing when it runs.
pub fn changes_law()
    ensures { ChangesLaw }
{
    edit_goes_back();
}
