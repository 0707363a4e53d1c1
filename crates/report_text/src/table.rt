//! The lines of a report as rows of a table: how each keyword is spelled, what stands behind it, and which phrase it is.
ghost use Rattle.std.specs.Prelude.{◌≡◌};
ghost use Rattle.report_text.specs.Grammar.{keyword_text, keyword_of, word_text, kinds_of, no_given, stop_keyword, stop_given, step_keyword, step_given, given_of, note_given, note_by, phrase_by, branch_keyword, refusal_keyword};

use crate::phrases::{Keyword, Phrase, StopPhrase};
use crate::report::Refusal;
use certs::{Branch, Share, SiteKind, Source};
use frac128::{Frac, Op, Wide};
use lp_model::{Member, Note, Side};
use reductions::ReduceStep;

/// A word that stands in lines as it is.
#[derive(Clone, Copy)]
pub enum Word {
    Report,
    Two,
    Lower,
    Infeasible,
    Name,
    Change,
    To,
    Undo,
    Linear,
    Wide,
    Large,
    Spent,
    Rows,
    Columns,
    End,
}

/// What stands behind a keyword: a word each, but that a member and a source have two.
#[derive(Clone, Copy)]
pub enum Kind {
    Word(Word),
    Row,
    Column,
    Member,
    Source,
    Side,
    Site,
    Op,
    Noted,
    Fraction,
    Nonzero,
    Positive,
    Right,
    Whole,
    Split,
    Count,
    Second,
}

/// What is given behind a keyword. A line has the parts that its kinds speak of, and no use of the others.
#[derive(Clone, Copy)]
pub struct Given {
    pub row: u32,
    pub column: u32,
    pub member: Member,
    pub source: Source,
    pub side: Side,
    pub site: SiteKind,
    pub op: Op,
    pub kept: bool,
    pub value: Frac,
    pub right: Frac,
    pub at: i128,
    pub count: u64,
    pub second: u64,
}

/// All keywords but that of commands. Those of most lines come first.
pub const KEYWORDS: [Keyword; 49] = [
    Keyword::Value,
    Keyword::Use,
    Keyword::Member,
    Keyword::Point,
    Keyword::Leaf,
    Keyword::Split,
    Keyword::Without,
    Keyword::Iisan,
    Keyword::Note,
    Keyword::Feasible,
    Keyword::Infeasible,
    Keyword::Irreducible,
    Keyword::Unbounded,
    Keyword::Bounded,
    Keyword::Least,
    Keyword::Rigid,
    Keyword::Reduced,
    Keyword::Done,
    Keyword::Unknown,
    Keyword::No,
    Keyword::Nothing,
    Keyword::Not,
    Keyword::Ray,
    Keyword::Objective,
    Keyword::Bound,
    Keyword::Dual,
    Keyword::Total,
    Keyword::Rounds,
    Keyword::Price,
    Keyword::Proof,
    Keyword::Empty,
    Keyword::Singleton,
    Keyword::Fixed,
    Keyword::Redundant,
    Keyword::Forcing,
    Keyword::Doubleton,
    Keyword::Left,
    Keyword::Wide,
    Keyword::Large,
    Keyword::Pivots,
    Keyword::Nodes,
    Keyword::Site,
    Keyword::Enforced,
    Keyword::BranchBelow,
    Keyword::BranchAbove,
    Keyword::Step,
    Keyword::Operation,
    Keyword::End,
    Keyword::Report,
];

/// How a keyword is spelled.
pub fn spelling(keyword: Keyword) -> &'static str
    ensures { result.now ≡ keyword_text keyword }
{
    match keyword {
        Keyword::Iisan => "iisan",
        Keyword::Note => "note",
        Keyword::Command => "command",
        Keyword::Feasible => "feasible",
        Keyword::Infeasible => "infeasible",
        Keyword::Irreducible => "irreducible",
        Keyword::Unbounded => "unbounded",
        Keyword::Bounded => "bounded",
        Keyword::Least => "least",
        Keyword::Rigid => "rigid",
        Keyword::Reduced => "reduced",
        Keyword::Done => "done",
        Keyword::Unknown => "unknown",
        Keyword::No => "no",
        Keyword::Nothing => "nothing",
        Keyword::Not => "not",
        Keyword::Point => "point",
        Keyword::Value => "value",
        Keyword::Ray => "ray",
        Keyword::Objective => "objective",
        Keyword::Bound => "bound",
        Keyword::Dual => "dual",
        Keyword::Total => "total",
        Keyword::Rounds => "rounds",
        Keyword::Price => "price",
        Keyword::Member => "member",
        Keyword::Proof => "proof",
        Keyword::Split => "split",
        Keyword::Leaf => "leaf",
        Keyword::Use => "use",
        Keyword::Empty => "empty",
        Keyword::Singleton => "singleton",
        Keyword::Fixed => "fixed",
        Keyword::Redundant => "redundant",
        Keyword::Forcing => "forcing",
        Keyword::Doubleton => "doubleton",
        Keyword::Left => "left",
        Keyword::Wide => "too",
        Keyword::Large => "too",
        Keyword::Pivots => "pivots",
        Keyword::Nodes => "nodes",
        Keyword::Site => "site",
        Keyword::Without => "without",
        Keyword::Enforced => "enforced",
        Keyword::BranchBelow => "below",
        Keyword::BranchAbove => "above",
        Keyword::Step => "step",
        Keyword::Operation => "operation",
        Keyword::End => "end",
        Keyword::Report => "report",
    }
}

/// What stands behind a keyword other than that of commands.
pub fn kinds(keyword: Keyword) -> &'static [Kind]
    ensures { result.now ≡ kinds_of keyword }
{
    match keyword {
        Keyword::Iisan => &[Kind::Word(Word::Report), Kind::Word(Word::Two)],
        Keyword::Note => &[Kind::Column, Kind::Word(Word::Lower), Kind::Noted],
        Keyword::Rigid => &[Kind::Word(Word::Infeasible)],
        Keyword::Unknown => &[Kind::Word(Word::Name)],
        Keyword::No => &[Kind::Word(Word::Change)],
        Keyword::Nothing => &[Kind::Word(Word::To), Kind::Word(Word::Undo)],
        Keyword::Not => &[Kind::Word(Word::Linear), Kind::Column],
        Keyword::Value => &[Kind::Column, Kind::Nonzero],
        Keyword::Objective => &[Kind::Fraction],
        Keyword::Bound => &[Kind::Fraction],
        Keyword::Total => &[Kind::Fraction],
        Keyword::Rounds => &[Kind::Count],
        Keyword::Member => &[Kind::Member],
        Keyword::Split => &[Kind::Column, Kind::Split],
        Keyword::Use => &[Kind::Source, Kind::Positive],
        Keyword::Empty => &[Kind::Row],
        Keyword::Singleton => &[Kind::Row],
        Keyword::Fixed => &[Kind::Column, Kind::Fraction],
        Keyword::Redundant => &[Kind::Row],
        Keyword::Forcing => &[Kind::Row, Kind::Side],
        Keyword::Doubleton => &[Kind::Row, Kind::Column],
        Keyword::Left => &[
            Kind::Word(Word::Rows),
            Kind::Count,
            Kind::Word(Word::Columns),
            Kind::Second,
        ],
        Keyword::Wide => &[Kind::Word(Word::Wide)],
        Keyword::Large => &[Kind::Word(Word::Large), Kind::Count],
        Keyword::Pivots => &[Kind::Word(Word::Spent)],
        Keyword::Nodes => &[Kind::Word(Word::Spent)],
        Keyword::Site => &[Kind::Site],
        Keyword::Without => &[Kind::Member],
        Keyword::Enforced => &[Kind::Member],
        Keyword::BranchBelow => &[Kind::Column, Kind::Whole],
        Keyword::BranchAbove => &[Kind::Column, Kind::Whole],
        Keyword::Step => &[Kind::Count],
        Keyword::Operation => &[Kind::Op, Kind::Fraction, Kind::Right],
        Keyword::Report => &[Kind::Word(Word::End)],
        _ => &[],
    }
}

/// A word that stands in lines as it is.
pub fn fixed_word(word: Word) -> &'static str
    ensures { result.now ≡ word_text word }
{
    match word {
        Word::Report => "report",
        Word::Two => "2",
        Word::Lower => "lower",
        Word::Infeasible => "infeasible",
        Word::Name => "name",
        Word::Change => "change",
        Word::To => "to",
        Word::Undo => "undo",
        Word::Linear => "linear",
        Word::Wide => "wide",
        Word::Large => "large",
        Word::Spent => "spent",
        Word::Rows => "rows",
        Word::Columns => "columns",
        Word::End => "end",
    }
}

/// What stands for a part that a line does not give.
pub fn nothing() -> Given
    ensures { result ≡ no_given }
{
    let zero = Frac::whole(0);
    Given {
        row: 0,
        column: 0,
        member: Member::RowLo(0),
        source: Source::Below(0),
        side: Side::Lo,
        site: SiteKind::Settle,
        op: Op::Plus,
        kept: false,
        value: zero,
        right: zero,
        at: 0,
        count: 0,
        second: 0,
    }
}

// A note on a column.
fn note(kept: bool, column: u32) -> Note
    ensures { result ≡ note_by kept column }
{
    if kept {
        Note::LowerKept(column)
    } else {
        Note::LowerRemoved(column)
    }
}

// A branch.
fn branch(upper: bool, given: &Given) -> Option<Phrase>
    ensures { result ≡ phrase_by (branch_keyword upper) given.now }
{
    Some(Phrase::Stop(StopPhrase::Branch(Branch {
        column: given.column,
        upper,
        at: given.at,
    })))
}

/// The phrase of a keyword and what is given. A command is none.
pub fn phrase_with(keyword: Keyword, given: &Given) -> Option<Phrase>
    ensures { result ≡ phrase_by keyword given.now }
{
    match keyword {
        Keyword::Iisan => Some(Phrase::Head),
        Keyword::Note => Some(Phrase::Note(note(given.kept, given.column))),
        Keyword::Command => None,
        Keyword::Feasible => Some(Phrase::Feasible),
        Keyword::Infeasible => Some(Phrase::Infeasible),
        Keyword::Irreducible => Some(Phrase::Irreducible),
        Keyword::Unbounded => Some(Phrase::Unbounded),
        Keyword::Bounded => Some(Phrase::Bounded),
        Keyword::Least => Some(Phrase::Least),
        Keyword::Rigid => Some(Phrase::RigidInfeasible),
        Keyword::Reduced => Some(Phrase::Reduced),
        Keyword::Done => Some(Phrase::Done),
        Keyword::Unknown => Some(Phrase::Refused(Refusal::UnknownName)),
        Keyword::No => Some(Phrase::Refused(Refusal::NoChange)),
        Keyword::Nothing => Some(Phrase::Refused(Refusal::NothingToUndo)),
        Keyword::Not => Some(Phrase::NotLinear(given.column)),
        Keyword::Point => Some(Phrase::Point),
        Keyword::Value => Some(Phrase::Value(given.column, given.value)),
        Keyword::Ray => Some(Phrase::Ray),
        Keyword::Objective => Some(Phrase::Objective(given.value)),
        Keyword::Bound => Some(Phrase::Bound(given.value)),
        Keyword::Dual => Some(Phrase::Dual),
        Keyword::Total => Some(Phrase::Total(given.value)),
        Keyword::Rounds => Some(Phrase::Rounds(given.count)),
        Keyword::Price => Some(Phrase::Price),
        Keyword::Member => Some(Phrase::Member(given.member)),
        Keyword::Proof => Some(Phrase::Proof),
        Keyword::Split => Some(Phrase::Split(given.column, given.at)),
        Keyword::Leaf => Some(Phrase::Leaf),
        Keyword::Use => Some(Phrase::Use(Share {
            source: given.source,
            weight: given.value,
        })),
        Keyword::Empty => Some(Phrase::Reduction(ReduceStep::Empty(given.row))),
        Keyword::Singleton => Some(Phrase::Reduction(ReduceStep::Singleton(given.row))),
        Keyword::Fixed => Some(Phrase::Reduction(ReduceStep::Fixed(given.column, given.value))),
        Keyword::Redundant => Some(Phrase::Reduction(ReduceStep::Redundant(given.row))),
        Keyword::Forcing => Some(Phrase::Reduction(ReduceStep::Forcing(given.row, given.side))),
        Keyword::Doubleton => Some(Phrase::Reduction(ReduceStep::Doubleton(
            given.row,
            given.column,
        ))),
        Keyword::Left => Some(Phrase::Left(given.count, given.second)),
        Keyword::Wide => Some(Phrase::Stop(StopPhrase::Wide)),
        Keyword::Large => Some(Phrase::Stop(StopPhrase::Large(given.count))),
        Keyword::Pivots => Some(Phrase::Stop(StopPhrase::Spent)),
        Keyword::Nodes => Some(Phrase::Stop(StopPhrase::Nodes)),
        Keyword::Site => Some(Phrase::Stop(StopPhrase::Site(given.site))),
        Keyword::Without => Some(Phrase::Stop(StopPhrase::Without(given.member))),
        Keyword::Enforced => Some(Phrase::Stop(StopPhrase::Enforced(given.member))),
        Keyword::BranchBelow => branch(true, given),
        Keyword::BranchAbove => branch(false, given),
        Keyword::Step => Some(Phrase::Stop(StopPhrase::Step(given.count))),
        Keyword::Operation => Some(Phrase::Stop(StopPhrase::Operation(Wide {
            op: given.op,
            left: given.value,
            right: given.right,
        }))),
        Keyword::End => Some(Phrase::End),
        Keyword::Report => Some(Phrase::Foot),
    }
}

// What is given of a note.
fn noted(note: Note) -> Given
    ensures { result ≡ note_given note }
{
    let none = nothing();
    match note {
        Note::LowerRemoved(column) => Given { column, ..none },
        Note::LowerKept(column) => Given {
            column,
            kept: true,
            ..none
        },
    }
}

// The keyword of a step of a reduction, and what is given of it.
fn step_row(step: ReduceStep) -> (Keyword, Given)
    ensures { result ≡ (step_keyword step, step_given step) }
{
    let none = nothing();
    match step {
        ReduceStep::Empty(row) => (Keyword::Empty, Given { row, ..none }),
        ReduceStep::Singleton(row) => (Keyword::Singleton, Given { row, ..none }),
        ReduceStep::Fixed(column, value) => (
            Keyword::Fixed,
            Given {
                column,
                value,
                ..none
            },
        ),
        ReduceStep::Redundant(row) => (Keyword::Redundant, Given { row, ..none }),
        ReduceStep::Forcing(row, side) => (Keyword::Forcing, Given { row, side, ..none }),
        ReduceStep::Doubleton(row, column) => (
            Keyword::Doubleton,
            Given {
                row,
                column,
                ..none
            },
        ),
    }
}

// The keyword of a branch.
fn side_keyword(upper: bool) -> Keyword
    ensures { result ≡ branch_keyword upper }
{
    if upper {
        Keyword::BranchBelow
    } else {
        Keyword::BranchAbove
    }
}

// That of a refusal.
fn refused(refusal: Refusal) -> Keyword
    ensures { result ≡ refusal_keyword refusal }
{
    match refusal {
        Refusal::UnknownName => Keyword::Unknown,
        Refusal::NoChange => Keyword::No,
        Refusal::NothingToUndo => Keyword::Nothing,
    }
}

// The keyword of what is said of a stop, and what is given of it.
fn stop_row(stop: StopPhrase) -> (Keyword, Given)
    ensures { result ≡ (stop_keyword stop, stop_given stop) }
{
    let none = nothing();
    match stop {
        StopPhrase::Wide => (Keyword::Wide, none),
        StopPhrase::Spent => (Keyword::Pivots, none),
        StopPhrase::Nodes => (Keyword::Nodes, none),
        StopPhrase::Large(count) => (Keyword::Large, Given { count, ..none }),
        StopPhrase::Site(site) => (Keyword::Site, Given { site, ..none }),
        StopPhrase::Without(member) => (Keyword::Without, Given { member, ..none }),
        StopPhrase::Enforced(member) => (Keyword::Enforced, Given { member, ..none }),
        StopPhrase::Branch(branch) => (
            side_keyword(branch.upper),
            Given {
                column: branch.column,
                at: branch.at,
                ..none
            },
        ),
        StopPhrase::Step(count) => (Keyword::Step, Given { count, ..none }),
        StopPhrase::Operation(wide) => (
            Keyword::Operation,
            Given {
                op: wide.op,
                value: wide.left,
                right: wide.right,
                ..none
            },
        ),
    }
}

/// The keyword of a phrase, and what is given of it.
pub fn row_of(phrase: &Phrase) -> (Keyword, Given)
    ensures { result ≡ (keyword_of phrase.now, given_of phrase.now) }
{
    let none = nothing();
    match phrase {
        Phrase::Head => (Keyword::Iisan, none),
        Phrase::Note(note) => (Keyword::Note, noted(*note)),
        Phrase::Command(_) => (Keyword::Command, none),
        Phrase::Feasible => (Keyword::Feasible, none),
        Phrase::Infeasible => (Keyword::Infeasible, none),
        Phrase::Irreducible => (Keyword::Irreducible, none),
        Phrase::Unbounded => (Keyword::Unbounded, none),
        Phrase::Bounded => (Keyword::Bounded, none),
        Phrase::Least => (Keyword::Least, none),
        Phrase::RigidInfeasible => (Keyword::Rigid, none),
        Phrase::Reduced => (Keyword::Reduced, none),
        Phrase::Done => (Keyword::Done, none),
        Phrase::Refused(refusal) => (refused(*refusal), none),
        Phrase::NotLinear(column) => (
            Keyword::Not,
            Given {
                column: *column,
                ..none
            },
        ),
        Phrase::Stop(stop) => stop_row(*stop),
        Phrase::Point => (Keyword::Point, none),
        Phrase::Value(column, value) => {
            (
                Keyword::Value,
                Given {
                    column: *column,
                    value: *value,
                    ..none
                },
            )
        }
        Phrase::Ray => (Keyword::Ray, none),
        Phrase::Objective(value) => (
            Keyword::Objective,
            Given {
                value: *value,
                ..none
            },
        ),
        Phrase::Bound(value) => (
            Keyword::Bound,
            Given {
                value: *value,
                ..none
            },
        ),
        Phrase::Dual => (Keyword::Dual, none),
        Phrase::Total(value) => (
            Keyword::Total,
            Given {
                value: *value,
                ..none
            },
        ),
        Phrase::Rounds(count) => (
            Keyword::Rounds,
            Given {
                count: *count,
                ..none
            },
        ),
        Phrase::Price => (Keyword::Price, none),
        Phrase::Member(member) => (
            Keyword::Member,
            Given {
                member: *member,
                ..none
            },
        ),
        Phrase::Proof => (Keyword::Proof, none),
        Phrase::Split(column, at) => (
            Keyword::Split,
            Given {
                column: *column,
                at: *at,
                ..none
            },
        ),
        Phrase::Leaf => (Keyword::Leaf, none),
        Phrase::Use(share) => (
            Keyword::Use,
            Given {
                source: share.source,
                value: share.weight,
                ..none
            },
        ),
        Phrase::Reduction(step) => step_row(*step),
        Phrase::Left(rows, columns) => {
            (
                Keyword::Left,
                Given {
                    count: *rows,
                    second: *columns,
                    ..none
                },
            )
        }
        Phrase::End => (Keyword::End, none),
        Phrase::Foot => (Keyword::Report, none),
    }
}
