//! What a statement of the LP format says.
use text_fields::ReadKind;

/// A token as it is written: its bytes, and the number of its line.
#[derive(Clone, Copy)]
pub struct Text<'a> {
    pub bytes: &'a [u8],
    pub line: u32,
}

/// How a form is compared with a constant.
#[derive(Clone, Copy, PartialEq, Eq)]
pub enum Relation {
    AtMost,
    AtLeast,
    Equal,
}

/// A keyword of the format, in any of its spellings.
#[derive(Clone, Copy, PartialEq, Eq)]
pub enum Keyword {
    Minimise,
    Maximise,
    SubjectTo,
    Bounds,
    General,
    Binary,
    End,
}

/// What the first word of a line may be: a keyword, or the begin of a part that is not read.
#[derive(Clone, Copy)]
pub enum Heading {
    Keyword(Keyword),
    Unsupported,
}

/// What a token is to a statement.
#[derive(Clone, Copy)]
pub enum Item {
    Keyword(Keyword),
    Name,
    Number,
    /// `inf` or `infinity`, in any case of letters.
    Infinite,
    /// `-`, or else `+`.
    Sign { minus: bool },
    Relation(Relation),
    Colon,
    /// What no statement has: it comes with its kind of fault.
    Refused(ReadKind),
}

/// The part of a text that the next statement belongs to.
#[derive(Clone, Copy, PartialEq, Eq)]
pub enum Section {
    /// Before the objective.
    Begin,
    /// After it.
    Objective,
    Rows,
    Bounds,
    General,
    Binary,
}

/// A number with its sign, or the infinite constant.
#[derive(Clone, Copy)]
pub struct Constant<'a> {
    pub negative: bool,
    pub infinite: bool,
    pub text: Text<'a>,
}

/// A column's name with its factor, which is 1 where none is written, and the factor's sign.
#[derive(Clone, Copy)]
pub struct Term<'a> {
    pub negative: bool,
    pub factor: Option<Text<'a>>,
    pub name: Text<'a>,
}

/// A statement, as it is written. What stands left and right of a relation is kept as such: `left <= form` and
/// `left <= form <= right` have the relation `AtMost`.
#[derive(Drop)]
pub enum Statement<'a> {
    /// The objective with its keyword. Its constants are left out.
    Objective {
        maximise: bool,
        label: Option<Text<'a>>,
        terms: Vec<Term<'a>>,
    },
    /// Any other keyword.
    Heading(Keyword),
    Row {
        label: Option<Text<'a>>,
        left: Option<Constant<'a>>,
        terms: Vec<Term<'a>>,
        relation: Relation,
        right: Constant<'a>,
    },
    /// A column without bounds.
    Free(Text<'a>),
    Bound {
        left: Option<Constant<'a>>,
        name: Text<'a>,
        relation: Relation,
        right: Option<Constant<'a>>,
    },
    /// A name under General, or under Binary.
    Listed {
        binary: bool,
        name: Text<'a>,
    },
}
