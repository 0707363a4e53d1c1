//! The edits that words of a script ask for.
ghost use Rattle.std.specs.Prelude.{◌≡◌, option_map};
ghost use Rattle.report_text.specs.declared.report.EditKind.{EditKind};
ghost use Rattle.phrase_reader.specs.Commands.{mark_in, moving, set_of, setting, side_in, target_in, weighed_target, weighing};

use crate::numerals::{read_limit, read_weight};
use frac128::Frac;
use lp_model::Side;
use report_text::{EditKind, TargetKind};
use text_fields::is_word;

// What has a weight.
fn read_weighed(word: &[u8]) -> Option<TargetKind>
    ensures { result ≡ weighed_target word.now }
{
    match word {
        _ if is_word(word, b"row") => Some(TargetKind::Row),
        _ if is_word(word, b"rowlo") => Some(TargetKind::RowLo),
        _ if is_word(word, b"rowup") => Some(TargetKind::RowUp),
        _ if is_word(word, b"lower") => Some(TargetKind::Lower),
        _ if is_word(word, b"upper") => Some(TargetKind::Upper),
        _ => None,
    }
}

// What may be dropped, or kept.
fn read_target(word: &[u8]) -> Option<TargetKind>
    ensures { result ≡ target_in word.now }
{
    match word {
        _ if is_word(word, b"row") => Some(TargetKind::Row),
        _ if is_word(word, b"rowlo") => Some(TargetKind::RowLo),
        _ if is_word(word, b"rowup") => Some(TargetKind::RowUp),
        _ if is_word(word, b"lower") => Some(TargetKind::Lower),
        _ if is_word(word, b"upper") => Some(TargetKind::Upper),
        _ if is_word(word, b"whole") => Some(TargetKind::Whole),
        _ => None,
    }
}

// The lower or the upper side or bound.
fn read_side(word: &[u8]) -> Option<Side>
    ensures { result ≡ side_in word.now }
{
    match word {
        _ if is_word(word, b"lower") => Some(Side::Lo),
        _ if is_word(word, b"upper") => Some(Side::Up),
        _ => None,
    }
}

// Whether a column is to be whole.
fn read_mark(word: &[u8]) -> Option<bool>
    ensures { result ≡ mark_in word.now }
{
    match word {
        _ if is_word(word, b"whole") => Some(true),
        _ if is_word(word, b"plain") => Some(false),
        _ => None,
    }
}

/// The mark that a word gives.
pub(crate) fn read_marking(word: &[u8]) -> Option<EditKind>
    ensures { result ≡ option_map EditKind.SetMark (mark_in word.now) }
{
    Some(EditKind::SetMark(read_mark(word)?))
}

/// `drop` or `keep`, and of what.
pub(crate) fn read_moving(first: &[u8], second: &[u8]) -> Option<EditKind>
    ensures { result ≡ moving first.now second.now }
{
    if is_word(first, b"drop") {
        return Some(EditKind::Drop(read_target(second)?));
    }
    if is_word(first, b"keep") {
        return Some(EditKind::Keep(read_target(second)?));
    }
    None
}

/// `weight`, of what, and how much.
pub(crate) fn read_weighing(first: &[u8], second: &[u8], last: &[u8]) -> Option<EditKind>
    ensures { result ≡ weighing first.now second.now last.now }
{
    if first != b"weight".as_slice() {
        return None;
    }
    let target = read_weighed(second)?;
    let weight = read_weight(last)?;
    Some(EditKind::Weigh(target, weight))
}

// The side of a row or the bound of a column that is set.
fn set_in(word: &[u8], side: Side, limit: Option<Frac>) -> Option<EditKind>
    ensures { result ≡ set_of word.now side limit }
{
    if is_word(word, b"row") {
        return Some(EditKind::SetSide(side, limit));
    }
    if is_word(word, b"column") {
        return Some(EditKind::SetBound(side, limit));
    }
    None
}

/// `set`, of what, which side or bound, and to what.
pub(crate) fn read_setting(
    first: &[u8],
    second: &[u8],
    side: &[u8],
    last: &[u8],
) -> Option<EditKind>
    ensures { result ≡ setting first.now second.now side.now last.now }
{
    if first != b"set".as_slice() {
        return None;
    }
    let side = read_side(side)?;
    let limit = read_limit(last)?;
    set_in(second, side, limit)
}
