//! What single words name: rows, columns, numbers, and kinds.
ghost use Rattle.std.specs.Prelude.{◌≡◌, ◌<◌, ◌^◌, ◌<ℤ◌, ℕ, pos, Some, decimal};
ghost use Rattle.std.specs.List.{list_all};
ghost use Rattle.std.specs.Option.{option_and_then};
ghost use Rattle.frac128.specs.Limit.{limit};
ghost use Rattle.report_text.specs.Names.{is_shown};
ghost use Rattle.report_text.specs.Form.{is_word};
ghost use Rattle.phrase_reader.specs.Numerals.{fraction_in};
ghost use Rattle.phrase_reader.specs.Words.{Finds, IsCountSaid, IsFractionSaid, IsWholeSaid, row_in, column_in, member_in, source_in, met_in, site_in, op_in, noted_in, nonzero, positive, whole_in, below_limit, count_in};

use certs::{SiteKind, Source};
use frac128::{Exact, Frac, Op, read_fraction};
use itoa::Buffer;
use lp_model::{Member, Model, Side};
use text_fields::is_word;

// Whether each byte may stand in a name.
fn all_shown(word: &[u8]) -> bool
    ensures { result ≡ list_all is_shown word.now }
{
    word.iter().all(|b| *b >= 33 && *b <= 126)
}

/// Whether a name is a word.
pub(crate) fn is_plain(name: &[u8]) -> bool
    ensures { result ≡ is_word name.now }
{
    !name.is_empty() && all_shown(name)
}

/// The column with the name, where the name is a word.
pub(crate) fn column_of(model: &Model, name: &[u8]) -> Option<u32>
    ensures { result ≡ column_in model.now name.now }
{
    if !is_plain(name) {
        return None;
    }
    model.column_named(name).ok()
}

/// The row with the name, where the name is a word.
pub(crate) fn row_of(model: &Model, name: &[u8]) -> Option<u32>
    ensures { result ≡ row_in model.now name.now }
{
    if !is_plain(name) {
        return None;
    }
    model.row_named(name).ok()
}

/// The member of that kind with the name, where the name is a word.
pub(crate) fn member_of(model: &Model, kind: &[u8], name: &[u8]) -> Option<Member>
    ensures { result ≡ member_in model.now kind.now name.now }
{
    match kind {
        _ if is_word(kind, b"rowlo") => Some(Member::RowLo(row_of(model, name)?)),
        _ if is_word(kind, b"rowup") => Some(Member::RowUp(row_of(model, name)?)),
        _ if is_word(kind, b"lower") => Some(Member::Lower(column_of(model, name)?)),
        _ if is_word(kind, b"upper") => Some(Member::Upper(column_of(model, name)?)),
        _ if is_word(kind, b"whole") => Some(Member::Whole(column_of(model, name)?)),
        _ => None,
    }
}

/// Where a share comes from: the branches on the column, or the member, with the name, where the name is a word.
pub(crate) fn source_of(model: &Model, word: &[u8], name: &[u8]) -> Option<Source>
    ensures { result ≡ source_in model.now word.now name.now }
{
    match word {
        _ if is_word(word, b"below") => Some(Source::Below(column_of(model, name)?)),
        _ if is_word(word, b"above") => Some(Source::Above(column_of(model, name)?)),
        _ => Some(Source::Member(member_of(model, word, name)?)),
    }
}

/// The side of a row that is met.
pub(crate) fn met_of(word: &[u8]) -> Option<Side>
    ensures { result ≡ met_in word.now }
{
    match word {
        _ if is_word(word, b"lo") => Some(Side::Lo),
        _ if is_word(word, b"up") => Some(Side::Up),
        _ => None,
    }
}

/// The kind of a site.
pub(crate) fn site_of(word: &[u8]) -> Option<SiteKind>
    ensures { result ≡ site_in word.now }
{
    match word {
        _ if is_word(word, b"settle") => Some(SiteKind::Settle),
        _ if is_word(word, b"improve") => Some(SiteKind::Improve),
        _ if is_word(word, b"stretch") => Some(SiteKind::Stretch),
        _ if is_word(word, b"relax") => Some(SiteKind::Relax),
        _ if is_word(word, b"alternative") => Some(SiteKind::Alternative),
        _ => None,
    }
}

/// The kind of an operation.
pub(crate) fn op_of(word: &[u8]) -> Option<Op>
    ensures { result ≡ op_in word.now }
{
    match word {
        _ if is_word(word, b"plus") => Some(Op::Plus),
        _ if is_word(word, b"minus") => Some(Op::Minus),
        _ if is_word(word, b"times") => Some(Op::Times),
        _ if is_word(word, b"over") => Some(Op::Over),
        _ => None,
    }
}

/// Whether a bound that a note is on was kept.
pub(crate) fn noted_of(word: &[u8]) -> Option<bool>
    ensures { result ≡ noted_in word.now }
{
    match word {
        _ if is_word(word, b"kept") => Some(true),
        _ if is_word(word, b"removed") => Some(false),
        _ => None,
    }
}

/// The fraction that is printed so.
pub(crate) fn fraction_of(text: &[u8]) -> Option<Frac>
    ensures { Finds (IsFractionSaid text.now) result }
{
    let value = read_fraction(text)?;
    // That the fraction fits is told with its widening.
    let value = value.widen();
    Some(value)
}

/// The same, as the word that it writes.
pub(crate) fn printed_fraction(word: &[u8]) -> Option<Frac>
    ensures { result ≡ fraction_in word.now }
{
    fraction_of(word)
}

/// One that is not 0.
pub(crate) fn nonzero_of(word: &[u8]) -> Option<Frac>
    ensures { result ≡ option_and_then nonzero (fraction_in word.now) }
{
    let value = printed_fraction(word)?;
    if value == Frac::whole(0) {
        return None;
    }
    Some(value)
}

/// One above 0.
pub(crate) fn positive_of(word: &[u8]) -> Option<Frac>
    ensures { result ≡ option_and_then positive (fraction_in word.now) }
{
    let value = printed_fraction(word)?;
    if Frac::whole(0) < value {
        return Some(value);
    }
    None
}

// The whole number that is printed so.
fn read_whole(text: &[u8]) -> Option<i128>
    ensures { Finds (IsWholeSaid text.now) result }
{
    let value = fraction_of(text)?;
    if !value.is_whole() {
        return None;
    }
    Some(value.num())
}

/// The whole number that is printed so.
pub(crate) fn whole_of(word: &[u8]) -> Option<i128>
    ensures { result ≡ whole_in word.now }
{
    read_whole(word)
}

// The number of a split: the upper child's, which is one more, fits too.
fn read_split(text: &[u8]) -> Option<i128>
    ensures { Finds (λ k. IsWholeSaid text.now k × (k <ℤ pos limit)) result }
{
    let at = read_whole(text)?;
    if at == i128::MAX {
        return None;
    }
    Some(at)
}

/// The number of a split.
pub(crate) fn split_of(word: &[u8]) -> Option<i128>
    ensures { result ≡ option_and_then below_limit (whole_in word.now) }
{
    read_split(word)
}

// The count that the text may be the printed form of: the only one, where it is that of any.
fn parsed_count(text: &[u8]) -> Option<u64>
    ensures { (n : ℕ) → n < 2 ^ 64 → text.now ≡ decimal n → result ≡ Some n }
{
    let Ok(digits) = str::from_utf8(text) else {
        return None;
    };
    let Ok(count) = digits.parse::<u64>() else {
        return None;
    };
    Some(count)
}

// The count that is printed so.
fn read_count(text: &[u8]) -> Option<u64>
    ensures { Finds (IsCountSaid text.now) result }
{
    let count = parsed_count(text)?;
    let mut buffer = Buffer::new();
    if text != buffer.format(count).as_bytes() {
        return None;
    }
    Some(count)
}

/// The count that is printed so.
pub(crate) fn count_of(word: &[u8]) -> Option<u64>
    ensures { result ≡ count_in word.now }
{
    read_count(word)
}
