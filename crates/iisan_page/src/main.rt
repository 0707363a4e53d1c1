//! Writes a page for a report on a model: `run` over the words, the files and the standard output of the host.
#![tactic(auto)]

mod checking;
mod running;

use iis_edge::{HostShelf, HostSink, list_words};
use std::process::ExitCode;

/// The status of want of memory.
const WANT_OF_MEMORY: u8 = 7;

fn main(rt: HostRuntime) -> ExitCode {
    let Ok(words) = list_words(&rt) else {
        return ExitCode::from(WANT_OF_MEMORY);
    };
    let mut shelf = HostShelf::new(&rt);
    let mut out = HostSink::new(&rt);
    ExitCode::from(running::run(rt.alloc(), words.as_slice(), &mut shelf, &mut out))
}
