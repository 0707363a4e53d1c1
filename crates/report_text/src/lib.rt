//! Scripts and reports: their commands, answers and entries, and the grammar of a report's text.
#![tactic(auto)]

mod command_session;
mod history;
mod layout;
mod listed;
mod phrases;
mod report;
mod session;
mod table;

pub use command_session::CommandSession;
pub use history::{History, changes_law, history_law};
pub use layout::{
    BOUND_LINES, HEAD_LINES, LEAST_LINES, MEMBER_LINES, OPENING_LINES, PROOF_LINES, TOTAL_LINES,
    places_law, point_length,
};
pub use listed::{ListedMembers, MemberList};
pub use phrases::{Keyword, Phrase, StopPhrase};
pub use report::{
    Answer, Asks, Bounded, Command, Core, EditKind, Entries, Entry, Members, Method, NamedEdit,
    Notes, ReduceSteps, Reduced, Refusal, Report, Script, TargetKind, ToldSite, ToldStop,
    Witnesses,
};
pub use session::{EditStop, Session, UndoStop, names_stand};
pub use table::{
    Given, KEYWORDS, Kind, Word, fixed_word, kinds, nothing, phrase_with, row_of, spelling,
};
