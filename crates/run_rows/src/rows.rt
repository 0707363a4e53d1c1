//! Rows: a run, the files that it finds, the calls that fail, and what is expected of it.
use iis_edge::{Cut, File, MemShelf, MemSink};
use iis_run::run;
use std::alloc::{AllocError, Global};

// The most bytes that a run may write.
const ROOM: usize = 1_000;

/// A run: its words, the files on its shelf, the numbers of the fetches that fail, the puts that fail, and its status and
/// what it writes.
#[derive(Drop)]
pub struct Row {
    words: Vec<String>,
    files: Vec<File>,
    failing: Vec<u32>,
    cuts: Vec<Cut>,
    status: u8,
    written: Vec<u8>,
}

/// The words of a line.
///
/// # Errors
///
/// Where there is no memory for them.
pub fn read_words(alloc: Global, line: &str) -> Result<Vec<String>, AllocError> {
    let mut words = Vec::new(alloc);
    for word in line.split(' ') {
        words.push(String::from_str(alloc, word)?)?;
    }
    Ok(words)
}

/// A file of this name with these bytes.
///
/// # Errors
///
/// Where there is no memory for it.
pub fn file(alloc: Global, name: &[u8], bytes: &[u8]) -> Result<File, AllocError> {
    Ok(File {
        name: name.to_vec(alloc)?,
        bytes: bytes.to_vec(alloc)?,
    })
}

// A number; 0 where the word is none.
fn number(word: &str) -> u32 {
    word.parse::<u32>().unwrap_or(0)
}

// The lines under a head: each ends with a line feed, the last of all perhaps not.
fn text_of(alloc: Global, lines: Option<&str>, is_ended: bool) -> Result<Vec<u8>, AllocError> {
    let mut text = Vec::new(alloc);
    if let Some(lines) = lines {
        text.extend_from_slice(lines.as_bytes())?;
        if is_ended {
            text.push(b'\n')?;
        }
    }
    Ok(text)
}

// Takes in one part of a row: a file, a call that fails, or what is expected.
fn take_part(alloc: Global, row: &mut Row, part: &str) -> Result<(), AllocError> {
    let (head, lines) = match part.split_once('\n') {
        Some((head, lines)) => (head, Some(lines)),
        None => (part, None),
    };
    let words: Vec<&str> = head.split(' ').collect(alloc)?;
    let is_ended = words.last().is_none_or(|word| *word != "unended");
    let text = text_of(alloc, lines, is_ended)?;
    match words.as_slice() {
        ["fails", call] => row.failing.push(number(call))?,
        ["cut", call, taken] => row.cuts.push(Cut {
            call: number(call),
            taken: number(taken) as usize,
        })?,
        ["status", status, ..] => {
            row.status = number(status).min(255) as u8;
            row.written = text;
        }
        [name, ..] => row.files.push(File {
            name: name.as_bytes().to_vec(alloc)?,
            bytes: text,
        })?,
        [] => {}
    }
    Ok(())
}

/// Reads the row whose text stands behind `== `.
///
/// # Errors
///
/// Where there is no memory for it.
pub fn read_row(alloc: Global, text: &str) -> Result<Row, AllocError> {
    let mut parts = text.split("\n-- ");
    let words = read_words(alloc, parts.next().unwrap_or(""))?;
    let mut row = Row {
        words,
        files: Vec::new(alloc),
        failing: Vec::new(alloc),
        cuts: Vec::new(alloc),
        status: 255,
        written: Vec::new(alloc),
    };
    for part in parts {
        take_part(alloc, &mut row, part)?;
    }
    Ok(row)
}

/// Whether the run of a row over its files, with the calls that fail, is as the row has it.
///
/// # Errors
///
/// Where there is no memory for the sink.
pub fn is_as_expected(alloc: Global, row: Row) -> Result<bool, AllocError> {
    let mut shelf = MemShelf::new(alloc, row.files, row.failing);
    let mut out = MemSink::new(alloc, ROOM, row.cuts)?;
    let status = run(alloc, row.words.as_slice(), &mut shelf, &mut out);
    Ok(status == row.status && out.bytes() == row.written.as_slice())
}
