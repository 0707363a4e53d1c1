//! Analyses a model by a script, checks a report against a model, or summarises a production plan: `run` over the words, the
//! files and the standard output of the host.
#![tactic(auto)]

use iis_edge::{HostShelf, HostSink, list_words};
use std::process::ExitCode;

/// The status of want of memory.
const WANT_OF_MEMORY: u8 = 7;

fn main(rt: HostRuntime) -> ExitCode {
    let Ok(words) = list_words(&rt) else {
        return ExitCode::from(WANT_OF_MEMORY);
    };
    let mut shelf = HostShelf::new(&rt);
    let mut out = HostSink::new(&rt);
    ExitCode::from(iis_run::run(rt.alloc(), words.as_slice(), &mut shelf, &mut out))
}
