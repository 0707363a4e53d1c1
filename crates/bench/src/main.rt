//! What the scripts of `bench/` measure, each by a first word: `fractions COUNT`, `settle ROWS COLUMNS TIMES`, `mps FILE TURNS`,
//! `lp FILE TURNS`, `scan FILE TURNS`, and `ask FILE QUESTION`, perhaps with `reference` or `presolved` behind it where no quick runs
//! are to be made. What is left out has a usual value, and a sample stands for the file. Without words each is done once.
#![tactic(auto)]

mod asking;
mod fractions;
mod reading;
mod settling;

use crate::reading::Task;
use crate::settling::Network;
use iis_edge::{HostShelf, Shelf, list_words};
use std::io;

// The most bytes that are read of a file.
const MOST: usize = 67_108_864;

// The word at a place, or none.
fn word(words: &[String], place: usize) -> &str {
    match words.get(place) {
        Some(word) => word.as_str(),
        None => "",
    }
}

// The number that the word at a place says, else another.
fn number(words: &[String], place: usize, other: u32) -> u32 {
    word(words, place).parse::<u32>().unwrap_or(other)
}

// The bytes of the file that the second word names: a sample where there is no such word, and none where it is not read.
fn read_file(rt: &HostRuntime, words: &[String], sample: &[u8]) -> io::Result<Vec<u8>> {
    if words.len() < 2 {
        return Ok(sample.to_vec(rt.alloc())?);
    }
    let mut bytes = Vec::new(rt.alloc());
    if HostShelf::new(rt)
        .fetch(word(words, 1), MOST, &mut bytes)
        .is_err()
    {
        bytes.clear();
    }
    Ok(bytes)
}

// Does a task of readers in turns, and tells what was found last.
fn tell_reading(rt: &HostRuntime, words: &[String], task: Task) -> io::Result<()> {
    let bytes = read_file(rt, words, task.sample())?;
    let mut found = (0, 0);
    for _ in 0..number(words, 2, 1) {
        found = task.run(rt.alloc(), bytes.as_slice());
    }
    let (first, second) = task.labels();
    println!(rt; "{first} {} {second} {}", found.0, found.1)
}

// Tells of the runs over a network.
fn tell_settling(rt: &HostRuntime, words: &[String]) -> io::Result<()> {
    let (rows, columns) = (number(words, 1, 20), number(words, 2, 40));
    let network = Network {
        sources: rows / 2,
        sinks: rows - rows / 2,
        routes: columns,
    };
    if network.sources == 0 {
        return println!(rt; "there are too few rows");
    }
    let told = settling::run_network(rt.alloc(), network, number(words, 3, 1))?;
    println!(rt;
        "rows {rows} columns {columns} pivots {} turns {} stored {} end {}",
        told.pivots, told.turns, told.stored, told.end
    )
}

// Tells what a question comes to.
fn tell_asking(rt: &HostRuntime, words: &[String]) -> io::Result<()> {
    let bytes = read_file(rt, words, asking::SAMPLE)?;
    let (name, question, oracle) = (word(words, 1), word(words, 2), word(words, 3));
    let Some(told) = asking::answer(rt.alloc(), name, bytes.as_slice(), question, oracle) else {
        return println!(rt; "the model is not read");
    };
    println!(rt;
        "asks {} reference {} pivots {} end {} size {} nodes {}",
        told.asks,
        told.reference,
        told.pivots,
        told.end.word(),
        told.end.size(),
        told.nodes
    )
}

// Tells of the benchmark that a word names.
fn tell(rt: &HostRuntime, name: &str, words: &[String]) -> io::Result<()> {
    if let Some(task) = Task::named(name) {
        return tell_reading(rt, words, task);
    }
    match name {
        "fractions" => { println!(rt; "{}", fractions::run(u64::from(number(words, 1, 1_000)))) }
        "settle" => tell_settling(rt, words),
        _ => tell_asking(rt, words),
    }
}

fn main(rt: HostRuntime) -> io::Result<()> {
    let words = list_words(&rt)?;
    if !words.is_empty() {
        return tell(&rt, word(words.as_slice(), 0), words.as_slice());
    }
    for name in ["fractions", "settle", "mps", "lp", "scan", "ask"] {
        tell(&rt, name, words.as_slice())?;
    }
    Ok(())
}
