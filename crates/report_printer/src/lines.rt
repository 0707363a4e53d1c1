//! The line of a phrase, by the row of the table that it has.

ghost use Rattle.std.specs.Prelude.{◌≡◌, ◌++◌, ◌∷◌, [], OnOk, decimal, flat_map};
ghost use Rattle.std.specs.Fmt.{signed_decimal};
ghost use Rattle.frac128.specs.Printed.{printed};
ghost use Rattle.report_text.specs.Grammar.{kind_word, name_of, source_word, source_name, met_word, site_word, op_word, noted_word, keyword_of, given_of, words_at};
ghost use Rattle.report_printer.specs.Evidence.{ended, IsKnownMember, IsKnownSource};
ghost use Rattle.report_printer.specs.Rows.{behind, row_line, IsThere, AreThere, IsKnownPhrase, IsGivenWithin};

use certs::{SiteKind, Source};
use frac128::{Exact, Frac, Op};
use itoa::Buffer;
use lp_model::{Member, Model, Side};
use report_text::{Given, Keyword, Kind, Phrase, fixed_word, kinds, row_of, spelling};
use std::alloc::AllocError;

// The word for the kind of a member.
fn kind_name(member: Member) -> &'static str
    ensures { result.now ≡ kind_word member }
{
    match member {
        Member::RowLo(_) => "rowlo",
        Member::RowUp(_) => "rowup",
        Member::Lower(_) => "lower",
        Member::Upper(_) => "upper",
        Member::Whole(_) => "whole",
    }
}

// The name that a member goes by.
fn member_name(model: &Model, member: Member) -> &[u8]
    requires { IsKnownMember model.now member }
    ensures { result.now ≡ name_of model.now member }
{
    match member {
        Member::RowLo(index) => model.row_name(index),
        Member::RowUp(index) => model.row_name(index),
        Member::Lower(index) => model.column_name(index),
        Member::Upper(index) => model.column_name(index),
        Member::Whole(index) => model.column_name(index),
    }
}

// The word for where a share comes from.
fn source_kind(source: Source) -> &'static str
    ensures { result.now ≡ source_word source }
{
    match source {
        Source::Member(member) => kind_name(member),
        Source::Below(_) => "below",
        Source::Above(_) => "above",
    }
}

// The name that it goes by.
fn named_source(model: &Model, source: Source) -> &[u8]
    requires { IsKnownSource model.now source }
    ensures { result.now ≡ source_name model.now source }
{
    match source {
        Source::Member(member) => member_name(model, member),
        Source::Below(column) => model.column_name(column),
        Source::Above(column) => model.column_name(column),
    }
}

// The word for the side of a row that is met.
fn met_side(side: Side) -> &'static str
    ensures { result.now ≡ met_word side }
{
    match side {
        Side::Lo => "lo",
        Side::Up => "up",
    }
}

// The word for the kind of a site.
fn site_name(kind: SiteKind) -> &'static str
    ensures { result.now ≡ site_word kind }
{
    match kind {
        SiteKind::Settle => "settle",
        SiteKind::Improve => "improve",
        SiteKind::Stretch => "stretch",
        SiteKind::Relax => "relax",
        SiteKind::Alternative => "alternative",
    }
}

// The word for the kind of an operation.
fn op_name(op: Op) -> &'static str
    ensures { result.now ≡ op_word op }
{
    match op {
        Op::Plus => "plus",
        Op::Minus => "minus",
        Op::Times => "times",
        Op::Over => "over",
    }
}

// The word for what became of a bound that a note is on.
fn noted_name(kept: bool) -> &'static str
    ensures { result.now ≡ noted_word kept }
{
    if kept { "kept" } else { "removed" }
}

// Appends a blank and a word.
fn push_behind(word: &[u8], into: &mut Vec<u8>) -> Result<(), AllocError>
    ensures { OnOk result (into.new.items ≡ into.old.items ++ behind (word.now ∷ [])) }
{
    into.push(b' ')?;
    into.extend_from_slice(word)
}

// Appends a word and a name, each behind a blank.
fn push_named(word: &[u8], name: &[u8], into: &mut Vec<u8>) -> Result<(), AllocError>
    ensures { OnOk result (into.new.items ≡ into.old.items ++ behind (word.now ∷ name.now ∷ [])) }
{
    push_behind(word, into)?;
    push_behind(name, into)
}

// Appends a blank and a fraction.
fn push_number(value: Frac, into: &mut Vec<u8>) -> Result<(), AllocError>
    ensures { OnOk result (into.new.items ≡ into.old.items ++ behind (printed value ∷ [])) }
{
    into.push(b' ')?;
    value.print(into)
}

// Appends a blank and a count.
fn push_count(count: u64, into: &mut Vec<u8>) -> Result<(), AllocError>
    ensures { OnOk result (into.new.items ≡ into.old.items ++ behind (decimal count ∷ [])) }
{
    let mut buffer = Buffer::new();
    push_behind(buffer.format(count).as_bytes(), into)
}

// Appends a blank and a whole number.
fn push_whole(number: i128, into: &mut Vec<u8>) -> Result<(), AllocError>
    ensures { OnOk result (into.new.items ≡ into.old.items ++ behind (signed_decimal number ∷ [])) }
{
    let mut buffer = Buffer::new();
    push_behind(buffer.format(number).as_bytes(), into)
}

// Appends the words for what is given, by its kind.
fn push_kind(model: &Model, kind: Kind, given: &Given, into: &mut Vec<u8>) -> Result<(), AllocError>
    requires { IsThere model.now given.now kind }
    ensures { OnOk result (into.new.items ≡ into.old.items ++ behind (words_at model.now given.now kind)) }
{
    match kind {
        Kind::Word(word) => push_behind(fixed_word(word).as_bytes(), into),
        Kind::Row => push_behind(model.row_name(given.row), into),
        Kind::Column => push_behind(model.column_name(given.column), into),
        Kind::Member => push_named(
            kind_name(given.member).as_bytes(),
            member_name(model, given.member),
            into,
        ),
        Kind::Source => push_named(
            source_kind(given.source).as_bytes(),
            named_source(model, given.source),
            into,
        ),
        Kind::Side => push_behind(met_side(given.side).as_bytes(), into),
        Kind::Site => push_behind(site_name(given.site).as_bytes(), into),
        Kind::Op => push_behind(op_name(given.op).as_bytes(), into),
        Kind::Noted => push_behind(noted_name(given.kept).as_bytes(), into),
        Kind::Fraction => push_number(given.value, into),
        Kind::Nonzero => push_number(given.value, into),
        Kind::Positive => push_number(given.value, into),
        Kind::Right => push_number(given.right, into),
        Kind::Whole => push_whole(given.at, into),
        Kind::Split => push_whole(given.at, into),
        Kind::Count => push_count(given.count, into),
        Kind::Second => push_count(given.second, into),
    }
}

// Appends the words behind a keyword.
fn push_kinds(
    model: &Model,
    kinds: &[Kind],
    given: &Given,
    into: &mut Vec<u8>,
) -> Result<(), AllocError>
    requires { AreThere model.now given.now kinds.now }
    ensures { OnOk result (into.new.items ≡ into.old.items ++ flat_map (λ k. behind (words_at model.now given.now k)) kinds.now) }
{
    for kind in kinds {
        push_kind(model, *kind, given, into)?;
    }
    Ok(())
}

// The row of a phrase.
fn row(phrase: Phrase) -> (Keyword, Given)
    ensures { result ≡ (keyword_of phrase, given_of phrase) }
{
    row_of(&phrase)
}

/// Appends the line of a phrase that is no command.
pub(crate) fn print_phrase(
    model: &Model,
    phrase: Phrase,
    into: &mut Vec<u8>,
) -> Result<(), AllocError>
    requires { IsKnownPhrase model.now phrase }
    ensures text { OnOk result (into.new.items ≡ into.old.items ++ ended (row_line model.now phrase)) }
    ensures within { IsGivenWithin (given_of phrase) }
{
    let (keyword, given) = row(phrase);
    // That the numbers are within the limit is told with their widening.
    let _value = given.value.widen();
    let _right = given.right.widen();
    into.extend_from_slice(spelling(keyword).as_bytes())?;
    push_kinds(model, kinds(keyword), &given, into)?;
    into.push(b'\n')?;
    Ok(())
}
