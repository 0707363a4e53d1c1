//! The parts and the words of a line.
ghost use Rattle.std.specs.Prelude.{◌≡◌, ◌<◌, ◌==◌, [], ◌∷◌, MatchOption, IfOk, IfSome, length, map, position};
ghost use Rattle.phrase_reader.specs.Parts.{parts, words_left};

use std::alloc::{AllocError, Global};

fn first_place(bytes: &[u8], mark: u8) -> Option<usize>
    ensures { result ≡ position (λ b. b == mark) bytes.now }
{
    bytes.iter().position(|b| *b == mark)
}

// What stands before the first mark, and what stands after it.
fn cut(bytes: &[u8], mark: u8) -> Option<(&[u8], &[u8])>
    ensures parts { MatchOption result
        (parts mark bytes.now ≡ bytes.now ∷ [])
        (λ r. parts mark bytes.now ≡ r.0.now ∷ parts mark r.1.now) }
    ensures shorter { IfSome result (λ r. length r.1.now < length bytes.now) }
{
    let Some(place) = first_place(bytes, mark) else {
        return None;
    };
    Some((&bytes[..place], &bytes[place + 1..]))
}

/// The first word of a line, and what is left behind it.
pub(crate) fn first_word(line: &[u8]) -> (&[u8], Option<&[u8]>)
    ensures { parts 32 line.now ≡ result.0.now ∷ words_left result.1 }
{
    match cut(line, b' ') {
        Some((word, rest)) => (word, Some(rest)),
        None => (line, None),
    }
}

/// The words that are left of a line.
pub(crate) fn all_words<'a>(
    alloc: Global,
    rest: Option<&'a [u8]>,
) -> Result<Vec<&'a [u8]>, AllocError>
    ensures { IfOk result (λ words. map (λ w. w.now) words.items ≡ words_left rest.entry) }
{
    let mut words = Vec::new(alloc);
    let mut left = rest;
    while let Some(text) = left {
        let (word, behind) = first_word(text);
        words.push(word)?;
        left = behind;
    }
    Ok(words)
}
