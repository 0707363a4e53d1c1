//! What a script asks, and what a report says: notes, and for each command its answer.
ghost use Rattle.std.specs.Prelude.{◌≡◌};
ghost use Rattle.report_text.specs.Form.{asks_of, is_linear as is_linear_by};

use crate::listed::MemberList;
use certs::{Dual, PackedPoint, PackedRay, Path, Proof, SiteKind};
use frac128::{Frac, Wide};
use lp_model::{Items, Member, Name, Note, Side, Weight};
use reductions::ReduceStep;
use std::marker::Model;

/// How an irreducible set of members is looked for.
#[derive(Clone, Copy, PartialEq, Eq)]
pub enum Method {
    Deletion,
    Additive,
    Sensitivity,
    Elastic,
    Alternative,
}

/// What an edit is of: a row with those sides that it has, one side of a row, a bound of a column, or its mark.
#[derive(Clone, Copy, PartialEq, Eq)]
pub enum TargetKind {
    Row,
    RowLo,
    RowUp,
    Lower,
    Upper,
    Whole,
}

/// What an edit asks for: members are dropped, kept, or weighed; a side of a row or a bound of a column is set to a number,
/// or taken away; or a column is marked as whole, or not.
#[derive(Clone, Copy)]
pub enum EditKind {
    Drop(TargetKind),
    Keep(TargetKind),
    Weigh(TargetKind, Weight),
    SetSide(Side, Option<Frac>),
    SetBound(Side, Option<Frac>),
    SetMark(bool),
}

/// An edit with the name of the row or the column that it is of. The program may have none of that name.
#[derive(Drop)]
pub struct NamedEdit {
    pub name: Name,
    pub kind: EditKind,
}

/// What is asked of a program: whether some point satisfies its active members, or which of them no point satisfies
/// though each part of them has one; whether its objective runs away, or how far it can go; how little of its members must
/// give way; how far its linear relaxation is reduced before any run; an edit of it, or that the last edit that stands is
/// taken back. Or how many pivots each later run may make, or how many nodes each later tree may have, up to 1,000,000.
#[derive(Drop)]
pub enum Command {
    Check,
    Iis(Method),
    Unbounded,
    Relax,
    Reduce,
    Edit(NamedEdit),
    Undo,
    Pivots(u64),
    Nodes(u64),
}

/// Of which kinds the answers to a command may be.
#[derive(Clone, Copy)]
pub struct Asks {
    /// A point of the active members.
    pub point: bool,
    /// Members that no point satisfies.
    pub infeasible: bool,
    /// A proof with splits.
    pub splits: bool,
    /// An irreducible set, as it is looked for so.
    pub search: Option<Method>,
    /// Whether the objective runs away, or how far it can go.
    pub objective: bool,
    /// How little must give way, or rigid members that no point satisfies.
    pub least: bool,
    /// How far the program is reduced.
    pub reduced: bool,
    /// That a column is to be whole where it may not be: the command is for linear constraints alone.
    pub linear: bool,
    /// Why a solve stopped.
    pub stops: bool,
    /// That the command is done.
    pub done: bool,
    /// Why an edit is refused.
    pub edits: bool,
    /// Why an undo is refused.
    pub undoes: bool,
}

/// A command with no answer.
const NOTHING: Asks = Asks {
    point: false,
    infeasible: false,
    splits: false,
    search: None,
    objective: false,
    least: false,
    reduced: false,
    linear: false,
    stops: false,
    done: false,
    edits: false,
    undoes: false,
};

impl Command {
    /// Of which kinds its answers may be.
    pub fn asks(&self) -> Asks
        ensures { result ≡ asks_of self.now }
    {
        match self {
            Command::Check => Asks {
                point: true,
                infeasible: true,
                splits: true,
                stops: true,
                ..NOTHING
            },
            Command::Iis(method) => Asks {
                point: true,
                search: Some(*method),
                linear: is_linear(*method),
                stops: true,
                ..NOTHING
            },
            Command::Unbounded => Asks {
                infeasible: true,
                splits: true,
                objective: true,
                stops: true,
                ..NOTHING
            },
            Command::Relax => Asks {
                least: true,
                linear: true,
                stops: true,
                ..NOTHING
            },
            Command::Reduce => Asks {
                infeasible: true,
                reduced: true,
                ..NOTHING
            },
            Command::Edit(_) => Asks {
                done: true,
                edits: true,
                ..NOTHING
            },
            Command::Undo => Asks {
                done: true,
                undoes: true,
                ..NOTHING
            },
            Command::Pivots(_) | Command::Nodes(_) => Asks {
                done: true,
                ..NOTHING
            },
        }
    }
}

// Whether a method is for linear constraints alone.
fn is_linear(method: Method) -> bool
    ensures { result ≡ is_linear_by method }
{
    matches!(method, Method::Elastic | Method::Alternative)
}

/// The commands of a script in order, as a list.
#[derive(Drop)]
pub struct Script {
    pub commands: Vec<Command>,
}

impl Model for Script {
    ghost use Rattle.std.specs.Prelude.{List};
    ghost use Rattle.report_text.specs.declared.report.Command.{Command};

    ghost Value = { List Command };

    ghost view = { λ s. s.commands.items };
}

/// Points, each kept by its values that are not 0, as a list.
pub type Witnesses = Items<PackedPoint>;

/// An irreducible set: its members, for each of them in member order a point that is to satisfy all the others, and a
/// proof that no point satisfies them all. How many rounds it took is told by the elastic method alone, and by the method of
/// the alternative the weighted sum of the proof's weights with a price that shows that no weighting costs less.
#[derive(Drop)]
pub struct Core {
    pub members: MemberList,
    pub witnesses: Witnesses,
    pub proof: Proof,
    pub rounds: Option<u64>,
    pub price: Option<(Frac, PackedPoint)>,
}

/// How far the objective of a program can go: a point; the objective's value there, which is left out where a column is to
/// be whole and the sum is too wide; and a dual, whose bound no point passes.
#[derive(Drop)]
pub struct Bounded {
    pub point: PackedPoint,
    pub objective: Option<Frac>,
    pub dual: Dual,
}

/// Steps of a reduction, as a list.
pub type ReduceSteps = Items<ReduceStep>;

/// How far a program is reduced: the steps in order, by the numbers of its rows and columns, and how many rows and columns
/// are left.
#[derive(Drop)]
pub struct Reduced {
    pub steps: ReduceSteps,
    pub rows: u64,
    pub columns: u64,
}

/// Why an edit is refused, or an undo: the program has no row or column of the name; the program would stay as it is; or no
/// edit stands.
#[derive(Clone, Copy, PartialEq, Eq)]
pub enum Refusal {
    UnknownName,
    NoChange,
    NothingToUndo,
}

/// Members, as a list.
pub type Members = Items<Member>;

/// What a run was of: its kind, the active members that are left out, those that are enforced, each in member order, and the
/// branches on the way to its node.
#[derive(Drop)]
pub struct ToldSite {
    pub kind: SiteKind,
    pub left: Members,
    pub enforced: Members,
    pub path: Path,
}

/// Why a solve stopped, as a report tells it: in the turn with this number the operation is the first that is too wide; the
/// budget of pivots, or that of nodes, is spent; or the system has this size, which passes the limit. Want of memory is never
/// told.
#[derive(Drop)]
pub enum ToldStop {
    Wide(ToldSite, u64, Wide),
    Pivots(ToldSite),
    Nodes(ToldSite),
    Large(u64),
}

/// What a report answers to a command: a point, members with a proof that no point satisfies them, or an irreducible
/// set; a point with a ray along which the objective runs away, or how far it can go; a point of least weighted violation
/// with a dual whose bound is the total, or rigid members with a proof of one leaf that no point satisfies them; how far the
/// program is reduced; that a command is done, or refused, or that a column is to be whole where it may not be; or why a solve
/// stopped. Members are the printed ones.
#[derive(Drop)]
pub enum Answer {
    Feasible(PackedPoint),
    Infeasible(MemberList, Proof),
    Irreducible(Core),
    Unbounded(PackedPoint, PackedRay),
    Bounded(Bounded),
    Least(PackedPoint, Dual),
    RigidInfeasible(MemberList, Proof),
    Reduced(Reduced),
    Done,
    Refused(Refusal),
    NotLinear(u32),
    Stopped(ToldStop),
}

/// A command with its answer, and the number of the line on which the command stands. The first line has number 1.
#[derive(Drop)]
pub struct Entry {
    pub command: Command,
    pub answer: Answer,
    pub line: u32,
}

/// Entries, as a list.
pub type Entries = Items<Entry>;

/// Notes of a reader of programs, as a list.
pub type Notes = Items<Note>;

/// A report: the notes of the program's reader, and then the entries in the order of the commands.
#[derive(Drop)]
pub struct Report {
    pub notes: Notes,
    pub entries: Entries,
}
