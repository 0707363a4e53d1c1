//! The scripts of commands that a session follows.
#![tactic(auto)]

mod scripts;

pub use scripts::{ScriptStop, read_script, script_law};
