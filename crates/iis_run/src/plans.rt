//! What is to be done once the files are read.

use crate::endings::Ending;
use lp_model::Model;
use report_text::Script;

/// An ending to be said, a script whose commands are to be answered of a model, or a production plan of so many periods that
/// is to be made and summarised.
#[derive(Drop)]
pub enum Plan {
    Say(Ending),
    Answer(Model, Script),
    Make(u32),
}
