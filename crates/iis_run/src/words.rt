//! The words of the command line.
ghost use Rattle.std.specs.Prelude.{◌≡◌, IfSome, option_map};
ghost use Rattle.iis_run.specs.Words.{names_file, files_request, periods_in, plan_request, request_of};
ghost use Rattle.model_maker.specs.PlanText.{IsPlanSize};
ghost use Rattle.iis_run.specs.Asked.{IsAskedSize, IsVerb, request_asked};

use itoa::Buffer;
use model_maker::{LEAST_PERIODS, MOST_PERIODS};

/// What is done with the two files.
#[derive(Clone, Copy, PartialEq, Eq)]
pub enum Verb {
    Verify,
    Analyse,
}

/// What is asked for: what is done with two files, or a production plan of so many periods.
#[derive(Clone, Copy)]
pub enum Asked<'a> {
    Files {
        verb: Verb,
        model: &'a str,
        second: &'a str,
    },
    Plan {
        periods: u32,
    },
}

/// Whether a word names a file: it is not empty and does not begin with '-'.
pub fn names_a_file(word: &str) -> bool
    ensures { result ≡ names_file word.now }
{
    match word.as_bytes() {
        [first, ..] => *first != b'-',
        [] => false,
    }
}

// The verb that a word is.
fn verb_of(word: &str) -> Option<Verb>
    ensures { IsVerb word.now result }
{
    match word {
        "verify" => Some(Verb::Verify),
        "analyse" => Some(Verb::Analyse),
        _ => None,
    }
}

// What is asked for with two files, where the words are such.
fn parse_files<'a>(verb: &str, model: &'a str, second: &'a str) -> Option<Asked<'a>>
    ensures asked { option_map request_asked result
        ≡ files_request verb.now model.now second.now }
    ensures size { IfSome result IsAskedSize }
{
    if !names_a_file(model) || !names_a_file(second) {
        return None;
    }
    let verb = verb_of(verb)?;
    Some(Asked::Files {
        verb,
        model,
        second,
    })
}

// The number of periods that a word is.
fn periods_of(word: &str) -> Option<u32>
    ensures is { result ≡ periods_in word.now }
    ensures size { IfSome result IsPlanSize }
{
    for periods in LEAST_PERIODS..=MOST_PERIODS {
        let mut buffer = Buffer::new();
        if buffer.format(periods) == word {
            return Some(periods);
        }
    }
    None
}

// What is asked for with a number, where the words are such.
fn parse_plan<'a>(verb: &str, number: &str) -> Option<Asked<'a>>
    ensures asked { option_map request_asked result ≡ plan_request verb.now number.now }
    ensures size { IfSome result IsAskedSize }
{
    if verb != "make" {
        return None;
    }
    let periods = periods_of(number)?;
    Some(Asked::Plan { periods })
}

/// What is asked for, where the words are one of the forms.
pub fn parse<'a>(words: &'a [String]) -> Option<Asked<'a>>
    ensures asked { option_map request_asked result ≡ request_of words.now }
    ensures size { IfSome result IsAskedSize }
{
    match words {
        [verb, number] => parse_plan(verb.as_str(), number.as_str()),
        [verb, model, second] => parse_files(verb.as_str(), model.as_str(), second.as_str()),
        _ => None,
    }
}
