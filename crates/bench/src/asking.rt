//! Asks whether a point satisfies a model, or looks for an irreducible set of it by a filter, with quick runs and trees of them,
//! or by the reference runs and trees alone, with reductions before the runs or without: what `bench/iis.sh`, `bench/alone.sh`,
//! `bench/memory.sh`, `bench/marks.sh` and `bench/presolve.sh` measure.
ghost use Rattle.std.specs.Prelude.{◌≡◌, true, None, IfOk};
ghost use Rattle.certs.specs.Checks.{IsSetOf};
ghost use Rattle.certs.specs.Tales.{no_tale};

use branch_oracle::BranchOracle;
use certs::{Irreducible, MemberSet, Oracle, Stop, Verdict};
use linear_oracle::LinearOracle;
use lp_model::Model;
use model_files::read_model;
use presolve_oracle::PresolveOracle;
use quick_answers::{Kept, QuickOracle};
use std::alloc::{AllocError, Global};

/// The model that is asked where no file is named: A and B contradict one another, and so do B and C.
pub(crate) const SAMPLE: &[u8] =
    b"ROWS\n L A\n G B\n L C\nCOLUMNS\n x A 1\n x B 1\n x C 1\nRHS\n B 1\nENDATA\n";

// What a run may spend.
const PIVOTS: u64 = 100_000;

// What a tree may take.
const NODES: u64 = 10_000;

// What makes the reference runs and trees.
type Reference<'a> = BranchOracle<'a, LinearOracle<'a>>;

// What is asked: nothing, whether there is a point, or for a set by a filter.
#[derive(Clone, Copy)]
enum Question {
    Nothing,
    Check,
    Deletion,
    Additive,
    Sensitivity,
}

// Which oracle is asked: the quick one, or the reference, with reductions before its runs or without.
#[derive(Clone, Copy)]
enum Runs {
    Quick,
    Presolved,
    Reference,
}

/// What a question came to: nothing was asked, a verdict, a set of so many members, or a stop.
#[derive(Clone, Copy)]
pub(crate) enum End {
    Nothing,
    Feasible,
    Infeasible,
    Set(u64),
    Wide,
    Spent,
    Nodes,
    Large,
    Memory,
}

impl End {
    /// The word for it.
    pub(crate) fn word(self) -> &'static str {
        match self {
            End::Nothing => "nothing",
            End::Feasible => "feasible",
            End::Infeasible => "infeasible",
            End::Set(_) => "set",
            End::Wide => "wide",
            End::Spent => "spent",
            End::Nodes => "nodes",
            End::Large => "large",
            End::Memory => "memory",
        }
    }

    /// How many members were found.
    pub(crate) fn size(self) -> u64 {
        match self {
            End::Set(size) => size,
            _ => 0,
        }
    }
}

/// What a question came to, and what it took: the asks, those of them that the reference was asked for, the pivots of its runs,
/// and the nodes of its trees.
#[derive(Clone, Copy)]
pub(crate) struct Told {
    pub(crate) asks: u64,
    pub(crate) reference: u64,
    pub(crate) pivots: u64,
    pub(crate) nodes: u64,
    pub(crate) end: End,
}

// What a question comes to by one oracle.
fn asked<O: Oracle>(alloc: Global, question: Question, oracle: &mut O, set: &MemberSet) -> End
    requires same { IsSetOf (O.state oracle.old).model set.now }
    requires served { (O.state oracle.old).serves set.now.members ≡ true }
    requires fresh { (O.state oracle.old).tale.first_core ≡ None }
{
    match question {
        Question::Nothing => End::Nothing,
        Question::Check => verdict_end(&oracle.ask(alloc, set)),
        Question::Deletion => set_end(&deletion_filter::isolate(alloc, oracle, set)),
        Question::Additive => set_end(&additive_filter::isolate(alloc, oracle, set)),
        Question::Sensitivity => set_end(&sensitivity_filter::isolate(alloc, oracle, set)),
    }
}

// What a verdict comes to.
fn verdict_end(given: &Result<Verdict, Stop>) -> End {
    match given {
        Ok(Verdict::Feasible(_)) => End::Feasible,
        Ok(Verdict::Infeasible(_)) => End::Infeasible,
        Err(stop) => stop_end(stop),
    }
}

// What a search comes to.
fn set_end(given: &Result<Irreducible, Stop>) -> End {
    match given {
        Ok(Irreducible::Set { members, .. }) => End::Set(members.count()),
        Ok(Irreducible::Feasible(_)) => End::Feasible,
        Err(stop) => stop_end(stop),
    }
}

// What a stop is.
fn stop_end(stop: &Stop) -> End {
    match stop {
        Stop::Wide(_, _, _) => End::Wide,
        Stop::Pivots(_) => End::Spent,
        Stop::Nodes(_) => End::Nodes,
        Stop::Large(_) => End::Large,
        Stop::Memory => End::Memory,
    }
}

// All active members of a model.
fn active(alloc: Global, model: &Model) -> Result<MemberSet, AllocError>
    ensures { IfOk result (IsSetOf model.now) }
{
    model.members(alloc)
}

// The reference of a model, which was asked nothing yet.
fn reference_of<'a>(alloc: Global, model: &'a Model) -> Reference<'a>
    ensures program { result.inner.model ≡ model.now }
    ensures fresh { result.tale ≡ no_tale }
{
    let inner = LinearOracle::new(alloc, model, PIVOTS);
    BranchOracle::new(alloc, model, inner, NODES)
}

// A question of the active members, by the reference alone.
fn ask_alone(alloc: Global, model: &Model, question: Question) -> Result<Told, AllocError> {
    let set = active(alloc, model)?;
    let mut oracle = reference_of(alloc, model);
    let end = asked(alloc, question, &mut oracle, &set);
    Ok(Told {
        asks: oracle.tale().asks(),
        reference: oracle.tale().asks(),
        pivots: oracle.inner().pivots_made(),
        nodes: oracle.nodes_taken(),
        end,
    })
}

// The same with reductions before its runs.
fn ask_presolved(alloc: Global, model: &Model, question: Question) -> Result<Told, AllocError> {
    let set = active(alloc, model)?;
    let inner = PresolveOracle::new(alloc, model, PIVOTS);
    let mut oracle = BranchOracle::new(alloc, model, inner, NODES);
    let end = asked(alloc, question, &mut oracle, &set);
    Ok(Told {
        asks: oracle.tale().asks(),
        reference: oracle.tale().asks(),
        pivots: oracle.inner().pivots_made(),
        nodes: oracle.nodes_taken(),
        end,
    })
}

// A question of the active members, with quick runs.
fn ask_quick(alloc: Global, model: &Model, question: Question) -> Result<Told, AllocError> {
    let set = active(alloc, model)?;
    let inner = reference_of(alloc, model);
    let mut quick = QuickOracle::new(alloc, model, Kept::new(), inner, PIVOTS, NODES);
    let mut first = reference_of(alloc, model);
    let end = match question {
        Question::Sensitivity => {
            let given = sensitivity_filter::isolate_with(alloc, &mut first, &mut quick, &set);
            set_end(&given)
        }
        _ => asked(alloc, question, &mut quick, &set),
    };
    let reference = quick.inner();
    Ok(Told {
        asks: first.tale().asks().saturating_add(quick.tale().asks()),
        reference: first.tale().asks().saturating_add(reference.tale().asks()),
        pivots: first
            .inner()
            .pivots_made()
            .saturating_add(reference.inner().pivots_made()),
        nodes: first.nodes_taken().saturating_add(reference.nodes_taken()),
        end,
    })
}

// The question that a word stands for.
fn named(word: &str) -> Question {
    match word {
        "nothing" => Question::Nothing,
        "check" => Question::Check,
        "additive" => Question::Additive,
        "sensitivity" => Question::Sensitivity,
        _ => Question::Deletion,
    }
}

// The oracle that a word stands for.
fn oracle_named(word: &str) -> Runs {
    match word {
        "reference" => Runs::Reference,
        "presolved" => Runs::Presolved,
        _ => Runs::Quick,
    }
}

/// What a question of the model in a text comes to by some oracle, both by their words, or none where the model is not read.
pub(crate) fn answer(
    alloc: Global,
    name: &str,
    bytes: &[u8],
    question: &str,
    oracle: &str,
) -> Option<Told> {
    if bytes.len() >= 2_147_483_648 {
        return None;
    }
    let Ok(model) = read_model(alloc, name.as_bytes(), bytes) else {
        return None;
    };
    let question = named(question);
    let told = match oracle_named(oracle) {
        Runs::Quick => ask_quick(alloc, &model, question),
        Runs::Presolved => ask_presolved(alloc, &model, question),
        Runs::Reference => ask_alone(alloc, &model, question),
    };
    told.ok()
}
