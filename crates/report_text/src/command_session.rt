//! Commands, one after another.
ghost use Rattle.std.specs.Prelude.{◌≡◌, [], IfOk, OnErr, Some};
ghost use Rattle.report_text.specs.History.{history_of};
ghost use Rattle.report_text.specs.Form.{IsCommand, IsNamedEdit};
ghost use Rattle.report_text.specs.declared.report.Command.TheVariants.{Edit as EditOf, Undo};
ghost use Rattle.report_text.specs.Session.{IsReply, Rewinds, Takes};

use crate::{Answer, Command, EditStop, NamedEdit, Refusal, Session, UndoStop};
use lp_model::Model;
use std::alloc::{AllocError, Global};

/// A program that commands edit, and what their edits changed. Contracts see both, and no room: it is made as edits come.
#[derive(Drop)]
pub struct CommandSession {
    session: Session,
}

impl std::marker::Model for CommandSession {
    ghost use Rattle.report_text.specs.History.{HistoryValue};

    ghost Value = { HistoryValue };

    ghost view = { λ s. s.session.held };
}

impl CommandSession {
    /// A program of which nothing was edited yet. It takes no memory.
    pub fn new(alloc: Global, model: Model) -> CommandSession
        ensures { result ≡ history_of model [] }
    {
        CommandSession {
            session: Session::new(alloc, model, 0).unwrap(),
        }
    }

    /// The program, as it was edited.
    pub fn model(&self) -> &Model
        ensures { result.now ≡ self.now.model }
    {
        self.session.model()
    }

    /// The program, as it was edited, by itself.
    pub fn into_model(self) -> Model
        ensures { result ≡ self.model }
    {
        self.session.into_model()
    }

    /// Makes an edit, and gives the answer to it: that it is done, or why it is refused.
    ///
    /// # Errors
    ///
    /// There is no memory to keep what the edit changes; all stays as it was.
    pub fn take_edit(&mut self, edit: &NamedEdit) -> Result<Answer, AllocError>
        requires { IsNamedEdit edit.now }
        ensures taken { IfOk result (λ answer. Takes self.old (EditOf edit.now) (Some answer) self.new) }
        ensures reply { IfOk result IsReply }
        ensures unchanged { OnErr result (self.new ≡ self.old) }
    {
        self.session.reserve(1)?;
        match self.session.edit(edit) {
            Ok(()) => Ok(Answer::Done),
            Err(EditStop::UnknownName) => Ok(Answer::Refused(Refusal::UnknownName)),
            Err(EditStop::NoChange) => Ok(Answer::Refused(Refusal::NoChange)),
        }
    }

    /// Takes the last edit that stands back, and gives the answer to that: that it is done, or that there is none.
    pub fn take_undo(&mut self) -> Answer
        ensures taken { Takes self.old Undo (Some result) self.new }
        ensures reply { IsReply result }
    {
        match self.session.undo() {
            Ok(()) => Answer::Done,
            Err(UndoStop::NothingToUndo) => Answer::Refused(Refusal::NothingToUndo),
        }
    }

    /// Does what a command does to the program, and gives the answer to it where it is an edit or an undo. Other commands
    /// change nothing, and have answers of their own.
    ///
    /// After any commands so taken of a program that was not edited before, the program is what those of their edits make
    /// of it that were accepted and not taken back, and the answers are those that are right.
    ///
    /// # Errors
    ///
    /// There is no memory to keep what an edit changes; all stays as it was.
    pub fn take(&mut self, command: &Command) -> Result<Option<Answer>, AllocError>
        requires { IsCommand command.now }
        ensures taken { IfOk result (λ answer. Takes self.old command.now answer self.new) }
        ensures unchanged { OnErr result (self.new ≡ self.old) }
    {
        match command {
            Command::Edit(edit) => Ok(Some(self.take_edit(edit)?)),
            Command::Undo => Ok(Some(self.take_undo())),
            _ => Ok(None),
        }
    }

    /// Takes all edits back, without memory.
    pub fn rewind(&mut self)
        ensures { Rewinds self.old self.new }
    {
        while self.session.undo().is_ok() {}
    }
}
