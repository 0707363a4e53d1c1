//! Runs the top call over files and output in memory, row by row, and tells of each row whose run is not as expected.
//!
//! The file that the first word names has the rows (`data/rows.txt`, whose first lines say how one is written), in each of which
//! a call is made to fail. Besides, a shelf and a sink that tell nothing are run.
#![tactic(auto)]

mod rows;
mod steady;

use crate::rows::{is_as_expected, read_row};
use crate::steady::is_steady_refused;
use iis_edge::{HostShelf, Shelf, list_words};
use std::alloc::AllocError;
use std::io;

// The most bytes that are read of the file of rows.
const MOST: usize = 1_048_576;

// The text of the file that the first word names; none where it is not read.
fn fetch_rows(rt: &HostRuntime) -> Result<String, AllocError> {
    let mut bytes = Vec::new(rt.alloc());
    if let Some(word) = list_words(rt)?.first()
        && HostShelf::new(rt)
            .fetch(word.as_str(), MOST, &mut bytes)
            .is_err()
    {
        bytes.clear();
    }
    match String::from_utf8(bytes) {
        Ok(text) => Ok(text),
        Err(_) => Ok(String::new(rt.alloc())),
    }
}

fn main(rt: HostRuntime) -> io::Result<()> {
    let alloc = rt.alloc();
    let text = fetch_rows(&rt)?;
    let mut count: u32 = 0;
    let mut differ: u32 = 0;
    for part in text.as_str().split("\n== ").skip(1) {
        if part == "end\n" {
            break;
        }
        count = count.wrapping_add(1);
        if !is_as_expected(alloc, read_row(alloc, part)?)? {
            differ = differ.wrapping_add(1);
            println!(rt; "row {count} differs")?;
        }
    }
    println!(rt;
        "rows {count} differ {differ}, steady {}",
        is_steady_refused(alloc)?
    )
}
