//! Statements, taken in one after another.
ghost use Rattle.std.specs.Prelude.{◌≡◌, ◌<◌, ◌^◌, true, false, [], map, Some, None, length, MatchResult};
ghost use Rattle.std.specs.Option.{option_map};
ghost use Rattle.lp_statements.specs.Statements.{Objective as ObjectiveOf, Heading as HeadingOf, Row as RowOf, Free as FreeOf, Bound as BoundOf, Listed as ListedOf, shown, shown_text, shown_constant, shown_term};
ghost use Rattle.lp_statements.specs.Script.{section_after as section_after_by};
ghost use Rattle.lp_reader.specs.Held.{Holds, HasRoom, IsEven, TakesStatement, HasRead};
ghost use Rattle.lp_reader.specs.Meaning.{IsLpStop};

use crate::bounds::{Said, known_column, lower_said, set_bounds, upper_said};
use crate::columns::{Columns, MOST_TERMS, take_terms};
use crate::rows::{Rows, check_label, check_objective_label, end_row, said_if};
use frac128::Frac;
use lp_model::Terms;
use lp_statements::{
    Constant, Cursor, Keyword, Relation, Section, Statement, Term, Text, next_statement,
};
use name_map::NameMap;
use std::alloc::Global;
use text_fields::ReadFault;

/// What the statements so far say.
#[derive(Drop)]
pub(crate) struct Reader {
    pub rows: Rows,
    pub columns: Columns,
    pub objective: Terms,
    pub maximise: bool,
}

/// A reader that has read nothing.
pub(crate) fn new_reader(alloc: Global) -> Reader
    ensures { Holds result [] }
{
    Reader {
        rows: Rows {
            names: NameMap::new(alloc),
            items: Vec::new(alloc),
        },
        columns: Columns {
            names: NameMap::new(alloc),
            bounds: Vec::new(alloc),
            entries: 0,
        },
        objective: Terms::new(Vec::new(alloc)),
        maximise: false,
    }
}

// Takes the objective in.
fn take_objective(
    alloc: Global,
    reader: &mut Reader,
    maximise: bool,
    label: Option<Text<'_>>,
    terms: &[Term<'_>],
) -> Result<(), ReadFault>
    requires { HasRoom reader.old }
    ensures { TakesStatement reader.old reader.new (ObjectiveOf maximise (option_map shown_text label.entry) (map shown_term terms.now)) result }
{
    check_objective_label(label)?;
    let form = take_terms(alloc, &mut reader.columns, terms)?;
    reader.objective = form;
    reader.maximise = maximise;
    Ok(())
}

// Takes a row in.
fn take_row(
    alloc: Global,
    reader: &mut Reader,
    label: Option<Text<'_>>,
    left: Option<Constant<'_>>,
    terms: &[Term<'_>],
    relation: Relation,
    right: Constant<'_>,
) -> Result<(), ReadFault>
    requires { HasRoom reader.old }
    ensures { TakesStatement reader.old reader.new (RowOf (option_map shown_text label.entry) (option_map shown_constant left.entry) (map shown_term terms.now) relation (shown_constant right.entry)) result }
{
    check_label(&reader.rows, label)?;
    let left_said = said_if(left)?;
    let form = take_terms(alloc, &mut reader.columns, terms)?;
    end_row(
        alloc,
        &mut reader.rows,
        label,
        form,
        relation,
        &left_said,
        right,
    )?;
    Ok(())
}

// Takes a bound in.
fn take_bound(
    reader: &mut Reader,
    left: Option<Constant<'_>>,
    name: Text<'_>,
    relation: Relation,
    right: Option<Constant<'_>>,
) -> Result<(), ReadFault>
    requires { IsEven reader.old }
    ensures { TakesStatement reader.old reader.new (BoundOf (option_map shown_constant left.entry) (shown_text name.entry) relation (option_map shown_constant right.entry)) result }
{
    let left_said = said_if(left)?;
    let column = known_column(&reader.columns, name)?;
    let right_said = said_if(right)?;
    let lower = lower_said(&left_said, relation, &right_said);
    let upper = upper_said(&left_said, relation, &right_said);
    set_bounds(&mut reader.columns, column, lower, upper, false);
    Ok(())
}

// Takes the bounds of a column away.
fn take_free(reader: &mut Reader, name: Text<'_>) -> Result<(), ReadFault>
    requires { IsEven reader.old }
    ensures { TakesStatement reader.old reader.new (FreeOf (shown_text name.entry)) result }
{
    let column = known_column(&reader.columns, name)?;
    let lower = Said::Unbounded;
    let upper = Said::Unbounded;
    set_bounds(&mut reader.columns, column, lower, upper, false);
    Ok(())
}

// Makes a column whole, with the bounds 0 and 1.
fn take_binary(reader: &mut Reader, name: Text<'_>) -> Result<(), ReadFault>
    requires { IsEven reader.old }
    ensures { TakesStatement reader.old reader.new (ListedOf true (shown_text name.entry)) result }
{
    let column = known_column(&reader.columns, name)?;
    let lower = Said::At(Frac::whole(0));
    let upper = Said::At(Frac::whole(1));
    set_bounds(&mut reader.columns, column, lower, upper, true);
    Ok(())
}

// Makes a column whole.
fn take_general(reader: &mut Reader, name: Text<'_>) -> Result<(), ReadFault>
    requires { IsEven reader.old }
    ensures { TakesStatement reader.old reader.new (ListedOf false (shown_text name.entry)) result }
{
    let column = known_column(&reader.columns, name)?;
    let lower = Said::Nothing;
    let upper = Said::Nothing;
    set_bounds(&mut reader.columns, column, lower, upper, true);
    Ok(())
}

// Takes a listed name in.
fn take_listed(reader: &mut Reader, binary: bool, name: Text<'_>) -> Result<(), ReadFault>
    requires { IsEven reader.old }
    ensures { TakesStatement reader.old reader.new (ListedOf binary (shown_text name.entry)) result }
{
    if binary {
        return take_binary(reader, name);
    }
    take_general(reader, name)
}

// Takes a statement in.
fn take_statement(
    alloc: Global,
    reader: &mut Reader,
    statement: &Statement<'_>,
) -> Result<(), ReadFault>
    requires room { HasRoom reader.old }
    requires even { IsEven reader.old }
    ensures { TakesStatement reader.old reader.new (shown statement.now) result }
{
    match statement {
        Statement::Objective {
            maximise,
            label,
            terms,
        } => take_objective(alloc, reader, *maximise, *label, terms.as_slice()),
        // A keyword changes nothing.
        Statement::Heading(_) => Ok(()),
        Statement::Row {
            label,
            left,
            terms,
            relation,
            right,
        } => take_row(
            alloc,
            reader,
            *label,
            *left,
            terms.as_slice(),
            *relation,
            *right,
        ),
        Statement::Free(name) => take_free(reader, *name),
        Statement::Bound {
            left,
            name,
            relation,
            right,
        } => take_bound(reader, *left, *name, *relation, *right),
        Statement::Listed { binary, name } => take_listed(reader, *binary, *name),
    }
}

// The section that a statement of a section leads to; `end` leads nowhere.
fn section_after(section: Section, statement: &Statement<'_>) -> Option<Section>
    ensures { result ≡ section_after_by section (shown statement.now) }
{
    match statement {
        Statement::Objective { .. } => Some(Section::Objective),
        Statement::Heading(keyword) => heading_section(section, *keyword),
        _ => Some(section),
    }
}

// The section that a keyword begins.
fn heading_section(section: Section, keyword: Keyword) -> Option<Section>
    ensures { result ≡ section_after_by section (HeadingOf keyword) }
{
    match keyword {
        Keyword::SubjectTo => Some(Section::Rows),
        Keyword::Bounds => Some(Section::Bounds),
        Keyword::General => Some(Section::General),
        Keyword::Binary => Some(Section::Binary),
        Keyword::End => None,
        Keyword::Minimise | Keyword::Maximise => Some(section),
    }
}

/// Reads the statements of a text into a reader that has read nothing.
#[tactic(auto, using(crate::proofs::Scripted::fewer_left))]
pub(crate) fn read_statements(
    alloc: Global,
    reader: &mut Reader,
    bytes: &[u8],
) -> Result<(), ReadFault>
    requires short { length bytes.now < 2 ^ 31 }
    requires new { Holds reader.old [] }
    ensures { MatchResult result (λ _. HasRead bytes.now reader.new) (IsLpStop bytes.now) }
{
    let mut cursor = Cursor::new(bytes);
    let mut section = Some(Section::Begin);
    while let Some(here) = section {
        let statement = next_statement(alloc, &mut cursor, here, MOST_TERMS)?;
        take_statement(alloc, reader, &statement)?;
        section = section_after(here, &statement);
    }
    Ok(())
}
