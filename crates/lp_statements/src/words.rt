//! The words that are more than names.
ghost use Rattle.std.specs.Prelude.{◌≡◌};
ghost use Rattle.lp_statements.specs.Words.{is_word, is_infinity as is_infinity_of, is_free as is_free_of, is_minimise as is_minimise_of, is_maximise as is_maximise_of, is_subject_to as is_subject_to_of, is_bounds as is_bounds_of, is_general as is_general_of, is_binary as is_binary_of, is_unsupported as is_unsupported_of, is_subject_to_pair as is_subject_to_pair_of, is_unsupported_pair as is_unsupported_pair_of, heading_of as heading_by, pair_of as pair_by};

use crate::parts::{Heading, Keyword};

// Whether a text is a word, in any case of letters.
fn says(text: &[u8], word: &[u8]) -> bool
    ensures { result ≡ is_word word.now text.now }
{
    text.eq_ignore_ascii_case(word)
}

/// Whether a word is the infinite constant.
#[tactic(auto, unfolding(crate::specs::Words::is_infinity))]
pub(crate) fn is_infinity(text: &[u8]) -> bool
    ensures { result ≡ is_infinity_of text.now }
{
    says(text, b"inf") || says(text, b"infinity")
}

/// Whether a word takes both bounds of a column away.
#[tactic(auto, unfolding(crate::specs::Words::is_free))]
pub(crate) fn is_free(text: &[u8]) -> bool
    ensures { result ≡ is_free_of text.now }
{
    says(text, b"free")
}

#[tactic(auto, unfolding(crate::specs::Words::is_minimise))]
fn is_minimise(text: &[u8]) -> bool
    ensures { result ≡ is_minimise_of text.now }
{
    says(text, b"min") || says(text, b"minimize") || says(text, b"minimum")
}

#[tactic(auto, unfolding(crate::specs::Words::is_maximise))]
fn is_maximise(text: &[u8]) -> bool
    ensures { result ≡ is_maximise_of text.now }
{
    says(text, b"max") || says(text, b"maximize") || says(text, b"maximum")
}

#[tactic(auto, unfolding(crate::specs::Words::is_subject_to))]
fn is_subject_to(text: &[u8]) -> bool
    ensures { result ≡ is_subject_to_of text.now }
{
    says(text, b"st") || says(text, b"st.") || says(text, b"s.t.")
}

#[tactic(auto, unfolding(crate::specs::Words::is_bounds))]
fn is_bounds(text: &[u8]) -> bool
    ensures { result ≡ is_bounds_of text.now }
{
    says(text, b"bounds") || says(text, b"bound")
}

#[tactic(auto, unfolding(crate::specs::Words::is_general))]
fn is_general(text: &[u8]) -> bool
    ensures { result ≡ is_general_of text.now }
{
    says(text, b"general")
        || says(text, b"generals")
        || says(text, b"gen")
        || says(text, b"integer")
        || says(text, b"integers")
        || says(text, b"int")
}

#[tactic(auto, unfolding(crate::specs::Words::is_binary))]
fn is_binary(text: &[u8]) -> bool
    ensures { result ≡ is_binary_of text.now }
{
    says(text, b"binary") || says(text, b"binaries") || says(text, b"bin")
}

#[tactic(auto, unfolding(crate::specs::Words::is_unsupported))]
fn is_unsupported(text: &[u8]) -> bool
    ensures { result ≡ is_unsupported_of text.now }
{
    (says(text, b"semi") || says(text, b"semis"))
        || ((says(text, b"sos") || says(text, b"sos1") || says(text, b"sos2"))
            || (says(text, b"pwl") || says(text, b"pwlobj")))
}

/// What the first word of a line says by itself, if it is no name.
#[tactic(auto, unfolding(crate::specs::Words::heading_of))]
pub(crate) fn heading_of(text: &[u8]) -> Option<Heading>
    ensures { result ≡ heading_by text.now }
{
    if is_minimise(text) {
        return Some(Heading::Keyword(Keyword::Minimise));
    }
    if is_maximise(text) {
        return Some(Heading::Keyword(Keyword::Maximise));
    }
    if is_subject_to(text) {
        return Some(Heading::Keyword(Keyword::SubjectTo));
    }
    if is_bounds(text) {
        return Some(Heading::Keyword(Keyword::Bounds));
    }
    if is_general(text) {
        return Some(Heading::Keyword(Keyword::General));
    }
    if is_binary(text) {
        return Some(Heading::Keyword(Keyword::Binary));
    }
    if says(text, b"end") {
        return Some(Heading::Keyword(Keyword::End));
    }
    if is_unsupported(text) {
        return Some(Heading::Unsupported);
    }
    None
}

#[tactic(auto, unfolding(crate::specs::Words::is_subject_to_pair))]
fn is_subject_to_pair(text: &[u8], next: &[u8]) -> bool
    ensures { result ≡ is_subject_to_pair_of text.now next.now }
{
    if says(text, b"subject") {
        return says(next, b"to");
    }
    if says(text, b"such") {
        return says(next, b"that");
    }
    false
}

#[tactic(auto, unfolding(crate::specs::Words::is_unsupported_pair))]
fn is_unsupported_pair(text: &[u8], next: &[u8]) -> bool
    ensures { result ≡ is_unsupported_pair_of text.now next.now }
{
    if says(text, b"lazy") || says(text, b"general") {
        return says(next, b"constraints");
    }
    if says(text, b"user") {
        return says(next, b"cuts");
    }
    false
}

/// What the first two words of a line say together.
#[tactic(auto, unfolding(crate::specs::Words::pair_of))]
pub(crate) fn pair_of(text: &[u8], next: &[u8]) -> Option<Heading>
    ensures { result ≡ pair_by text.now next.now }
{
    if is_subject_to_pair(text, next) {
        return Some(Heading::Keyword(Keyword::SubjectTo));
    }
    if is_unsupported_pair(text, next) {
        return Some(Heading::Unsupported);
    }
    None
}
