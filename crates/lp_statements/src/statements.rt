//! Statements, by the sections that they stand in.
ghost use Rattle.std.specs.Prelude.{◌≡◌, List, ◌≤◌, Some, None, cond, length, MatchOption, MatchResult};
ghost use Rattle.std.specs.Option.{option_map};
ghost use Rattle.lp_statements.specs.Items.{Piece};
ghost use Rattle.lp_statements.specs.Statements.{shown, shown_text, shown_constant};
ghost use Rattle.lp_statements.specs.Grammar.{sense_of as sense_by, keyword_in as keyword_by, form as form_at, objective as objective_at, begin as begin_at, subject_to as subject_to_at, closing as closing_at, row_after as row_after_at, row as row_at, free_in, text_first, is_name as is_name_by, bound_after as bound_after_at, bound_end as bound_end_at, bound_from_constant as bound_from_constant_at, bound as bound_at, listed as listed_at, later_heading as later_heading_by, keyword_first as keyword_first_of, body as body_at, heading_or_body as heading_or_body_at, statement_of};
ghost use Rattle.lp_statements.specs.Cursor.{Gives, GivesStatement, IsRefusal, after_first};
ghost use Rattle.lp_statements.specs.Shapes.{AddsTerms};

use crate::cursor::Cursor;
use crate::grammar::{
    agreeing, constant, is_part_first, is_relation_first, label, more_terms, name, parts, put_term,
    relation, take_name, take_opening,
};
use crate::parts::{Constant, Item, Keyword, Relation, Section, Statement, Term, Text};
use crate::words::is_free;
use std::alloc::Global;
use text_fields::{ReadFault, ReadKind};

// The sense that a keyword gives the objective: whether it is to be made greatest.
fn sense_of(item: Item) -> Option<bool>
    ensures { result ≡ sense_by item }
{
    match item {
        Item::Keyword(Keyword::Minimise) => Some(false),
        Item::Keyword(Keyword::Maximise) => Some(true),
        _ => None,
    }
}

fn keyword_in(item: Item) -> Option<Keyword>
    ensures { result ≡ keyword_by item }
{
    match item {
        Item::Keyword(keyword) => Some(keyword),
        _ => None,
    }
}

// The form of an objective: parts, or nothing.
#[tactic(auto, unfolding(crate::specs::Grammar::form))]
fn form<'a>(
    cursor: &mut Cursor<'a>,
    most: usize,
    terms: &mut Vec<Term<'a>>,
) -> Result<(), ReadFault>
    requires { length terms.old.items ≤ most }
    ensures { MatchResult result
        (λ _. AddsTerms most (form_at cursor.old) cursor.new terms.old.items terms.new.items)
        (IsRefusal (form_at cursor.old)) }
{
    if !is_part_first(cursor) {
        return Ok(());
    }
    parts(cursor, most, terms)
}

// The objective after its keyword.
#[tactic(auto, unfolding(crate::specs::Grammar::objective))]
fn objective<'a>(
    alloc: Global,
    cursor: &mut Cursor<'a>,
    most: usize,
    maximise: bool,
) -> Result<Statement<'a>, ReadFault>
    ensures { GivesStatement most (objective_at maximise cursor.old) cursor.new result }
{
    let label = label(cursor);
    let mut terms = Vec::new(alloc);
    form(cursor, most, &mut terms)?;
    Ok(Statement::Objective {
        maximise,
        label,
        terms,
    })
}

// The keyword of the objective, and the objective.
#[tactic(auto, unfolding(crate::specs::Grammar::begin))]
fn begin<'a>(
    alloc: Global,
    cursor: &mut Cursor<'a>,
    most: usize,
) -> Result<Statement<'a>, ReadFault>
    ensures { GivesStatement most (begin_at cursor.old) cursor.new result }
{
    let (item, text) = cursor.take()?;
    let Some(maximise) = sense_of(item) else {
        return Err(ReadFault::stop_at(text.line, ReadKind::Order));
    };
    objective(alloc, cursor, most, maximise)
}

// The keyword of the rows.
#[tactic(auto, unfolding(crate::specs::Grammar::subject_to))]
fn subject_to<'a>(cursor: &mut Cursor<'a>) -> Result<Statement<'a>, ReadFault>
    ensures { Gives shown (subject_to_at cursor.old) cursor.new result }
{
    let (item, text) = cursor.take()?;
    let Some(keyword) = keyword_in(item) else {
        return Err(ReadFault::stop_at(text.line, ReadKind::BadField));
    };
    match keyword {
        Keyword::SubjectTo => Ok(Statement::Heading(Keyword::SubjectTo)),
        _ => Err(ReadFault::stop_at(text.line, ReadKind::Order)),
    }
}

// The end of a row: a relation and a constant.
#[tactic(auto, unfolding(crate::specs::Grammar::closing))]
fn closing<'a>(
    cursor: &mut Cursor<'a>,
    before: Option<Relation>,
) -> Result<(Relation, Constant<'a>), ReadFault>
    ensures { Gives (λ end. (end.0, shown_constant end.1))
        (closing_at before cursor.old) cursor.new result }
{
    let relation = agreeing(cursor, before)?;
    let right = constant(cursor)?;
    Ok((relation, right))
}

// A row after its label.
#[tactic(auto, unfolding(crate::specs::Grammar::row_after))]
fn row_after<'a>(
    alloc: Global,
    cursor: &mut Cursor<'a>,
    most: usize,
    label: Option<Text<'a>>,
) -> Result<Statement<'a>, ReadFault>
    ensures { GivesStatement most
        (row_after_at (option_map shown_text label.entry) cursor.old) cursor.new result }
{
    let start = take_opening(cursor)?;
    let mut terms = Vec::new(alloc);
    put_term(&mut terms, most, start.first)?;
    more_terms(cursor, most, &mut terms)?;
    let (relation, right) = closing(cursor, start.before)?;
    Ok(Statement::Row {
        label,
        left: start.left,
        terms,
        relation,
        right,
    })
}

// A row.
#[tactic(auto, unfolding(crate::specs::Grammar::row))]
fn row<'a>(alloc: Global, cursor: &mut Cursor<'a>, most: usize) -> Result<Statement<'a>, ReadFault>
    ensures { GivesStatement most (row_at cursor.old) cursor.new result }
{
    let label = label(cursor);
    row_after(alloc, cursor, most, label)
}

// Whether the word `free` stands first.
fn is_free_first(cursor: &Cursor<'_>) -> bool
    ensures { free_in (text_first is_name_by cursor.now)
        ≡ cond result (Some (after_first cursor.now)) None }
{
    match cursor.peek() {
        Ok((Item::Name, text)) => is_free(text.bytes),
        _ => false,
    }
}

// A bound after its name.
#[tactic(auto, unfolding(crate::specs::Grammar::bound_after))]
fn bound_after<'a>(cursor: &mut Cursor<'a>, column: Text<'a>) -> Result<Statement<'a>, ReadFault>
    ensures { Gives shown
        (bound_after_at (shown_text column.entry) (free_in (text_first is_name_by cursor.old)) cursor.old)
        cursor.new result }
{
    if is_free_first(cursor) {
        cursor.advance();
        return Ok(Statement::Free(column));
    }
    let relation = relation(cursor)?;
    let right = constant(cursor)?;
    Ok(Statement::Bound {
        left: None,
        name: column,
        relation,
        right: Some(right),
    })
}

// A bound after a constant, a relation and a name.
#[tactic(auto, unfolding(crate::specs::Grammar::bound_end))]
fn bound_end<'a>(
    cursor: &mut Cursor<'a>,
    left: Constant<'a>,
    before: Relation,
    column: Text<'a>,
) -> Result<Statement<'a>, ReadFault>
    ensures { Gives shown
        (bound_end_at (shown_constant left.entry) before (shown_text column.entry) cursor.old)
        cursor.new result }
{
    if !is_relation_first(cursor) {
        return Ok(Statement::Bound {
            left: Some(left),
            name: column,
            relation: before,
            right: None,
        });
    }
    let relation = agreeing(cursor, Some(before))?;
    let right = constant(cursor)?;
    Ok(Statement::Bound {
        left: Some(left),
        name: column,
        relation,
        right: Some(right),
    })
}

// A bound that begins with a constant.
#[tactic(auto, unfolding(crate::specs::Grammar::bound_from_constant))]
fn bound_from_constant<'a>(cursor: &mut Cursor<'a>) -> Result<Statement<'a>, ReadFault>
    ensures { Gives shown (bound_from_constant_at cursor.old) cursor.new result }
{
    let left = constant(cursor)?;
    let before = relation(cursor)?;
    let column = name(cursor)?;
    bound_end(cursor, left, before, column)
}

// A bound.
#[tactic(auto, unfolding(crate::specs::Grammar::bound))]
fn bound<'a>(cursor: &mut Cursor<'a>) -> Result<Statement<'a>, ReadFault>
    ensures { Gives shown (bound_at cursor.old) cursor.new result }
{
    let Some(column) = take_name(cursor) else {
        return bound_from_constant(cursor);
    };
    bound_after(cursor, column)
}

// A listed name.
#[tactic(auto, unfolding(crate::specs::Grammar::listed))]
fn listed<'a>(cursor: &mut Cursor<'a>, binary: bool) -> Result<Statement<'a>, ReadFault>
    ensures { Gives shown (listed_at binary cursor.old) cursor.new result }
{
    let name = name(cursor)?;
    Ok(Statement::Listed { binary, name })
}

// Takes the keyword that stands first, if there is one.
fn take_keyword<'a>(cursor: &mut Cursor<'a>) -> Option<(Keyword, Text<'a>)>
    ensures { MatchOption result
        ((keyword_first_of cursor.old ≡ None) × (cursor.new ≡ cursor.old))
        (λ found. keyword_first_of cursor.old ≡ Some (found.0, shown_text found.1, cursor.new)) }
{
    let Ok((item, text)) = cursor.peek() else {
        return None;
    };
    let Some(keyword) = keyword_in(item) else {
        return None;
    };
    cursor.advance();
    Some((keyword, text))
}

// A keyword that comes after the rows.
fn later_heading<'a>(keyword: Keyword, text: Text<'_>) -> Result<Statement<'a>, ReadFault>
    ensures { (rest : List Piece)
        → Gives shown (later_heading_by (shown_text text.entry) keyword rest) rest result }
{
    match keyword {
        Keyword::Bounds | Keyword::General | Keyword::Binary | Keyword::End => {
            Ok(Statement::Heading(keyword))
        }
        _ => Err(ReadFault::stop_at(text.line, ReadKind::Order)),
    }
}

// What a section is made of.
fn body<'a>(
    alloc: Global,
    cursor: &mut Cursor<'a>,
    section: Section,
    most: usize,
) -> Result<Statement<'a>, ReadFault>
    ensures { GivesStatement most (body_at section cursor.old) cursor.new result }
{
    match section {
        Section::Begin => begin(alloc, cursor, most),
        Section::Objective => subject_to(cursor),
        Section::Rows => row(alloc, cursor, most),
        Section::Bounds => bound(cursor),
        Section::General => listed(cursor, false),
        Section::Binary => listed(cursor, true),
    }
}

// A keyword, or what the section is made of.
fn heading_or_body<'a>(
    alloc: Global,
    cursor: &mut Cursor<'a>,
    section: Section,
    most: usize,
) -> Result<Statement<'a>, ReadFault>
    ensures { GivesStatement most
        (heading_or_body_at section (keyword_first_of cursor.old) cursor.old) cursor.new result }
{
    if let Some((keyword, text)) = take_keyword(cursor) {
        return later_heading(keyword, text);
    }
    body(alloc, cursor, section, most)
}

/// Takes the next statement of a section.
///
/// A fault is the first with which no statement of the section goes on: `Unsupported`, `BadNumber`, `LongLine`, `ForeignByte`
/// and `Truncated` where what stands there is one, `Order` at a keyword where another has to come, before the objective at any
/// token, and `BadField` elsewhere. Where the cursor stands after a fault is not said. What comes after a whole statement is not
/// looked at, but for a relation after a bound that begins with a constant, and a sign or a name where a term may go on. Of the
/// terms of a form the first `most` are kept, so that a long form takes no more memory than these.
#[tactic(auto, unfolding(crate::specs::Grammar::statement_of))]
pub fn next_statement<'a>(
    alloc: Global,
    cursor: &mut Cursor<'a>,
    section: Section,
    most: usize,
) -> Result<Statement<'a>, ReadFault>
    ensures { GivesStatement most (statement_of section cursor.old) cursor.new result }
{
    match section {
        Section::Begin => begin(alloc, cursor, most),
        Section::Objective => subject_to(cursor),
        _ => heading_or_body(alloc, cursor, section, most),
    }
}
