//! Answers to commands.
ghost use Rattle.std.specs.Prelude.{◌≡◌, [], length, zip, true, Ok};
ghost use Rattle.lp_model.specs.MemberSets.{empty_set};
ghost use Rattle.report_text.specs.declared.phrases.Phrase.{Phrase as OnePhrase};
ghost use Rattle.report_reader.specs.Kinds.{IsCursor, IsRead, next_in};
ghost use Rattle.report_reader.specs.Things.{found, point_at, site_kind, site_of, site as one_site, site_read, price as one_price, tail as one_tail, dual as one_dual, feasible, refuted, irreducible, unbounded, bounded, least, reduced, too_wide, spent, ended, answer as one_answer, stop_opening, opening, opening_phrase, begins_by, may_begin};

use crate::cursor::{Cursor, Word};
use crate::evidence::{read_point, read_proof, read_witnessed};
use crate::lists::{Listing, read_branches, read_members, read_shares, read_steps, read_values};
use crate::numbers::{
    Number, read_left, read_number, read_objective, read_operation, read_rounds, read_turn,
};
use crate::reader::ReportStop;
use certs::{Combo, Dual, PackedPoint, PackedRay, Proof, SiteKind};
use frac128::{Frac, Wide};
use lp_model::Model;
use report_text::{
    Answer, Asks, Bounded, Command, Core, MemberList, Members, Method, Phrase, Reduced, Refusal,
    StopPhrase, ToldSite, ToldStop,
};
use std::alloc::Global;

/// What an answer begins with.
#[derive(Clone, Copy)]
pub(crate) enum Opening {
    Feasible,
    Infeasible,
    Irreducible,
    Unbounded,
    Bounded,
    Least,
    RigidInfeasible,
    Reduced,
    Wide,
    Spent,
    Nodes,
    Large(u64),
    Done,
    Refused(Refusal),
    NotLinear(u32),
}

// A point that is an answer.
fn read_feasible(alloc: Global, model: &Model, cursor: &mut Cursor<'_>) -> PackedPoint
    requires { IsCursor model.now cursor.old }
    ensures read { IsRead model.now (feasible model.now) cursor.old cursor.new (tt, ((tt, result), tt)) }
    ensures stands { IsCursor model.now cursor.new }
{
    cursor.pass_word(alloc, model, Word::Feasible);
    let point = read_point(alloc, model, cursor);
    cursor.pass_word(alloc, model, Word::End);
    point
}

// Members of which no point satisfies all, and a proof, behind a word.
fn read_refuted(
    alloc: Global,
    model: &Model,
    cursor: &mut Cursor<'_>,
    word: Word,
    splits: bool,
) -> (MemberList, Proof)
    requires { IsCursor model.now cursor.old }
    ensures read { IsRead model.now (refuted model.now word splits) cursor.old cursor.new
        (tt, (result.0.members, ((tt, result.1.nodes), tt))) }
    ensures set { result.0 ≡ record (empty_set model.now) { members = result.0.members } }
    ensures stands { IsCursor model.now cursor.new }
{
    cursor.pass_word(alloc, model, word);
    let members = read_members(alloc, model, cursor, Listing::Listed);
    let proof = read_proof(alloc, model, cursor, splits);
    cursor.pass_word(alloc, model, Word::End);
    (MemberList::new(model, members), proof)
}

// A total, and a price.
fn read_price(alloc: Global, model: &Model, cursor: &mut Cursor<'_>) -> (Frac, PackedPoint)
    requires { IsCursor model.now cursor.old }
    ensures read { IsRead model.now (one_price model.now) cursor.old cursor.new (result.0, (tt, result.1)) }
    ensures stands { IsCursor model.now cursor.new }
{
    let total = read_number(alloc, model, cursor, Number::Total);
    cursor.pass_word(alloc, model, Word::Price);
    let values = read_values(alloc, model, cursor);
    (total, PackedPoint { values })
}

// How many rounds were made, or a total and a price, where the method has them.
fn read_tail(
    alloc: Global,
    model: &Model,
    cursor: &mut Cursor<'_>,
    method: Method,
) -> (Option<u64>, Option<(Frac, PackedPoint)>)
    requires { IsCursor model.now cursor.old }
    ensures read { IsRead model.now (one_tail model.now method) cursor.old cursor.new result }
    ensures stands { IsCursor model.now cursor.new }
{
    match method {
        Method::Elastic => (Some(read_rounds(alloc, model, cursor)), None),
        Method::Alternative => (None, Some(read_price(alloc, model, cursor))),
        Method::Deletion | Method::Additive | Method::Sensitivity => (None, None),
    }
}

// An irreducible set.
fn read_irreducible(alloc: Global, model: &Model, cursor: &mut Cursor<'_>, method: Method) -> Core
    requires { IsCursor model.now cursor.old }
    ensures read { IsRead model.now (irreducible model.now method) cursor.old cursor.new (
      tt,
      (
        zip result.members.members result.witnesses,
        ((tt, result.proof.nodes), ((result.rounds, result.price), tt)),
      ),
    ) }
    ensures set { result.members ≡ record (empty_set model.now) { members = result.members.members } }
    ensures each { (q : OnePhrase) → cursor.new.ahead ≡ Ok q → length result.witnesses ≡ length result.members.members }
    ensures stands { IsCursor model.now cursor.new }
{
    cursor.pass_word(alloc, model, Word::Irreducible);
    let (members, witnesses) = read_witnessed(alloc, model, cursor);
    let proof = read_proof(alloc, model, cursor, true);
    let (rounds, price) = read_tail(alloc, model, cursor, method);
    cursor.pass_word(alloc, model, Word::End);
    Core {
        members: MemberList::new(model, members),
        witnesses,
        proof,
        rounds,
        price,
    }
}

// A point and a ray.
fn read_unbounded(alloc: Global, model: &Model, cursor: &mut Cursor<'_>) -> (PackedPoint, PackedRay)
    requires { IsCursor model.now cursor.old }
    ensures read { IsRead model.now (unbounded model.now) cursor.old cursor.new
        (tt, ((tt, result.0), (tt, (point_at result.1.values, tt)))) }
    ensures stands { IsCursor model.now cursor.new }
{
    cursor.pass_word(alloc, model, Word::Unbounded);
    let point = read_point(alloc, model, cursor);
    cursor.pass_word(alloc, model, Word::Ray);
    let values = read_values(alloc, model, cursor);
    cursor.pass_word(alloc, model, Word::End);
    (point, PackedRay { values })
}

// The shares of a dual that is an answer's last part.
fn read_combo(alloc: Global, model: &Model, cursor: &mut Cursor<'_>) -> Combo
    requires { IsCursor model.now cursor.old }
    ensures read { IsRead model.now (one_dual model.now) cursor.old cursor.new (tt, (result.shares, tt)) }
    ensures stands { IsCursor model.now cursor.new }
{
    cursor.pass_word(alloc, model, Word::Dual);
    let shares = read_shares(alloc, model, cursor);
    cursor.pass_word(alloc, model, Word::End);
    Combo { shares }
}

// A point and a bound, with the objective's value where it is told.
fn read_bounded(alloc: Global, model: &Model, cursor: &mut Cursor<'_>) -> Bounded
    requires { IsCursor model.now cursor.old }
    ensures read { IsRead model.now (bounded model.now) cursor.old cursor.new
        (tt, ((tt, result.point), (result.objective, (result.dual.bound, (tt, (result.dual.combo.shares, tt)))))) }
    ensures stands { IsCursor model.now cursor.new }
{
    cursor.pass_word(alloc, model, Word::Bounded);
    let point = read_point(alloc, model, cursor);
    let objective = read_objective(alloc, model, cursor);
    let bound = read_number(alloc, model, cursor, Number::Bound);
    let combo = read_combo(alloc, model, cursor);
    Bounded {
        point,
        objective,
        dual: Dual { combo, bound },
    }
}

// A least weighted violation.
fn read_least(alloc: Global, model: &Model, cursor: &mut Cursor<'_>) -> (PackedPoint, Dual)
    requires { IsCursor model.now cursor.old }
    ensures read { IsRead model.now (least model.now) cursor.old cursor.new
        (tt, (result.1.bound, ((tt, result.0), (tt, (result.1.combo.shares, tt))))) }
    ensures stands { IsCursor model.now cursor.new }
{
    cursor.pass_word(alloc, model, Word::Least);
    let bound = read_number(alloc, model, cursor, Number::Total);
    let point = read_point(alloc, model, cursor);
    let combo = read_combo(alloc, model, cursor);
    (point, Dual { combo, bound })
}

// How far a program is reduced.
fn read_reduced(alloc: Global, model: &Model, cursor: &mut Cursor<'_>) -> Reduced
    requires { IsCursor model.now cursor.old }
    ensures read { IsRead model.now (reduced model.now) cursor.old cursor.new
        (tt, (result.steps, ((result.rows, result.columns), tt))) }
    ensures stands { IsCursor model.now cursor.new }
{
    cursor.pass_word(alloc, model, Word::Reduced);
    let steps = read_steps(alloc, model, cursor);
    let (rows, columns) = read_left(alloc, model, cursor);
    cursor.pass_word(alloc, model, Word::End);
    Reduced {
        steps,
        rows,
        columns,
    }
}

// The kind of a site, which is to stand next.
fn read_kind(alloc: Global, model: &Model, cursor: &mut Cursor<'_>) -> SiteKind
    requires { IsCursor model.now cursor.old }
    ensures read { IsRead model.now site_kind cursor.old cursor.new result }
    ensures stands { IsCursor model.now cursor.new }
{
    let kind = kind_in(&cursor.ahead);
    cursor.take(alloc, model, kind, SiteKind::Settle)
}

// The kind of a site that the next line tells.
fn kind_in(ahead: &Result<Phrase, ReportStop>) -> Option<SiteKind>
    ensures { result ≡ found site_of ahead.now }
{
    match ahead {
        Ok(Phrase::Stop(StopPhrase::Site(kind))) => Some(*kind),
        _ => None,
    }
}

// A site.
fn read_site(alloc: Global, model: &Model, cursor: &mut Cursor<'_>) -> ToldSite
    requires { IsCursor model.now cursor.old }
    ensures read { IsRead model.now (one_site model.now) cursor.old cursor.new
        (result.kind, (result.left, (result.enforced, result.path))) }
    ensures stands { IsCursor model.now cursor.new }
{
    let kind = read_kind(alloc, model, cursor);
    let left = read_members(alloc, model, cursor, Listing::LeftOut);
    let enforced = read_members(alloc, model, cursor, Listing::Enforced);
    let path = read_branches(alloc, model, cursor);
    ToldSite {
        kind,
        left: Members::new(left),
        enforced: Members::new(enforced),
        path,
    }
}

// A stop at an operation that is too wide.
fn read_wide(alloc: Global, model: &Model, cursor: &mut Cursor<'_>) -> (ToldSite, u64, Wide)
    requires { IsCursor model.now cursor.old }
    ensures read { IsRead model.now (too_wide model.now) cursor.old cursor.new
        (tt, (site_read result.0, (result.1, (result.2, tt)))) }
    ensures stands { IsCursor model.now cursor.new }
{
    cursor.pass_word(alloc, model, Word::Wide);
    let site = read_site(alloc, model, cursor);
    let turn = read_turn(alloc, model, cursor);
    let wide = read_operation(alloc, model, cursor);
    cursor.pass_word(alloc, model, Word::End);
    (site, turn, wide)
}

// A stop that ends with its site, behind a word.
fn read_spent(alloc: Global, model: &Model, cursor: &mut Cursor<'_>, word: Word) -> ToldSite
    requires { IsCursor model.now cursor.old }
    ensures read { IsRead model.now (spent model.now word) cursor.old cursor.new
        (tt, (site_read result, tt)) }
    ensures stands { IsCursor model.now cursor.new }
{
    cursor.pass_word(alloc, model, word);
    let site = read_site(alloc, model, cursor);
    cursor.pass_word(alloc, model, Word::End);
    site
}

// A stop for a size, whose line stands next.
fn read_large(alloc: Global, model: &Model, cursor: &mut Cursor<'_>)
    requires { IsCursor model.now cursor.old }
    ensures read { (p : OnePhrase) → cursor.old.ahead ≡ Ok p →
        IsRead model.now (ended p) cursor.old cursor.new (tt, tt) }
    ensures stands { IsCursor model.now cursor.new }
{
    cursor.pass(alloc, model, true);
    cursor.pass_word(alloc, model, Word::End);
}

// Whether an answer of these kinds may begin so.
fn begins(asks: Asks, opening: Opening) -> bool
    ensures { result ≡ begins_by asks opening }
{
    match opening {
        Opening::Feasible => asks.point,
        Opening::Infeasible => asks.infeasible,
        Opening::Irreducible => asks.search.is_some(),
        Opening::Unbounded | Opening::Bounded => asks.objective,
        Opening::Least | Opening::RigidInfeasible => asks.least,
        Opening::Reduced => asks.reduced,
        Opening::Wide | Opening::Spent | Opening::Nodes | Opening::Large(_) => asks.stops,
        Opening::Done => asks.done,
        Opening::Refused(Refusal::NothingToUndo) => asks.undoes,
        Opening::Refused(_) => asks.edits,
        Opening::NotLinear(_) => asks.linear,
    }
}

// What a stop begins with.
fn opening_of_stop(phrase: &StopPhrase) -> Option<Opening>
    ensures { result ≡ stop_opening phrase.now }
{
    match phrase {
        StopPhrase::Wide => Some(Opening::Wide),
        StopPhrase::Spent => Some(Opening::Spent),
        StopPhrase::Nodes => Some(Opening::Nodes),
        StopPhrase::Large(size) => Some(Opening::Large(*size)),
        _ => None,
    }
}

// What an answer begins with.
fn opening_of(phrase: &Phrase) -> Option<Opening>
    ensures { result ≡ opening phrase.now }
{
    match phrase {
        Phrase::Feasible => Some(Opening::Feasible),
        Phrase::Infeasible => Some(Opening::Infeasible),
        Phrase::Irreducible => Some(Opening::Irreducible),
        Phrase::Unbounded => Some(Opening::Unbounded),
        Phrase::Bounded => Some(Opening::Bounded),
        Phrase::Least => Some(Opening::Least),
        Phrase::RigidInfeasible => Some(Opening::RigidInfeasible),
        Phrase::Reduced => Some(Opening::Reduced),
        Phrase::Done => Some(Opening::Done),
        Phrase::Refused(refusal) => Some(Opening::Refused(*refusal)),
        Phrase::NotLinear(column) => Some(Opening::NotLinear(*column)),
        Phrase::Stop(stop) => opening_of_stop(stop),
        _ => None,
    }
}

// What the next line begins, if it may begin an answer to the command.
fn next_opening(command: &Command, ahead: &Result<Phrase, ReportStop>) -> Option<Opening>
    ensures { result ≡ next_in (λ none o. may_begin command.now o) [] (found opening ahead.now) }
{
    let Ok(phrase) = ahead else {
        return None;
    };
    let opening = opening_of(phrase)?;
    if !begins(command.asks(), opening) {
        return None;
    }
    Some(opening)
}

// The answer that begins so, where it may.
fn read_begun(
    alloc: Global,
    model: &Model,
    command: &Command,
    cursor: &mut Cursor<'_>,
    opening: Opening,
) -> Answer
    requires stands { IsCursor model.now cursor.old }
    requires said { cursor.old.ahead ≡ Ok (opening_phrase opening) }
    requires begins { may_begin command.now opening ≡ true }
    ensures read { IsRead model.now (one_answer model.now command.now) cursor.old cursor.new result }
    ensures stands { IsCursor model.now cursor.new }
{
    let asks = command.asks();
    match opening {
        Opening::Feasible => Answer::Feasible(read_feasible(alloc, model, cursor)),
        Opening::Infeasible => {
            let (set, proof) = read_refuted(alloc, model, cursor, Word::Infeasible, asks.splits);
            Answer::Infeasible(set, proof)
        }
        Opening::Irreducible => {
            let method = asks.search.unwrap_or(Method::Deletion);
            Answer::Irreducible(read_irreducible(alloc, model, cursor, method))
        }
        Opening::Unbounded => {
            let (point, ray) = read_unbounded(alloc, model, cursor);
            Answer::Unbounded(point, ray)
        }
        Opening::Bounded => Answer::Bounded(read_bounded(alloc, model, cursor)),
        Opening::Least => {
            let (point, dual) = read_least(alloc, model, cursor);
            Answer::Least(point, dual)
        }
        Opening::RigidInfeasible => {
            let word = Word::RigidInfeasible;
            let (set, proof) = read_refuted(alloc, model, cursor, word, asks.splits);
            Answer::RigidInfeasible(set, proof)
        }
        Opening::Reduced => Answer::Reduced(read_reduced(alloc, model, cursor)),
        Opening::Wide => {
            let (site, turn, wide) = read_wide(alloc, model, cursor);
            Answer::Stopped(ToldStop::Wide(site, turn, wide))
        }
        Opening::Spent => {
            let site = read_spent(alloc, model, cursor, Word::Spent);
            Answer::Stopped(ToldStop::Pivots(site))
        }
        Opening::Nodes => {
            let site = read_spent(alloc, model, cursor, Word::Nodes);
            Answer::Stopped(ToldStop::Nodes(site))
        }
        Opening::Large(size) => {
            read_large(alloc, model, cursor);
            Answer::Stopped(ToldStop::Large(size))
        }
        Opening::Done => {
            cursor.pass(alloc, model, true);
            Answer::Done
        }
        Opening::Refused(refusal) => {
            cursor.pass(alloc, model, true);
            Answer::Refused(refusal)
        }
        Opening::NotLinear(column) => {
            cursor.pass(alloc, model, true);
            Answer::NotLinear(column)
        }
    }
}

/// An answer to the command, for the program on which it was asked.
pub(crate) fn read_answer(
    alloc: Global,
    model: &Model,
    command: &Command,
    cursor: &mut Cursor<'_>,
) -> Answer
    requires { IsCursor model.now cursor.old }
    ensures read { IsRead model.now (one_answer model.now command.now) cursor.old cursor.new result }
    ensures stands { IsCursor model.now cursor.new }
{
    let Some(opening) = next_opening(command, &cursor.ahead) else {
        cursor.pass(alloc, model, false);
        return Answer::Done;
    };
    read_begun(alloc, model, command, cursor, opening)
}
