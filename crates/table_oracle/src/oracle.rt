//! The oracle.
ghost use Rattle.std.specs.Prelude.{◌≡◌, ◌++◌, ◌∷◌, ◌⊎◌, true, IfOk, List, drop};
ghost use Rattle.std.specs.Option.{option_to_list};
ghost use Rattle.certs.specs.Checks.{IsSetOf};
ghost use Rattle.certs.specs.Tales.{asked_after, no_tale};
ghost use Rattle.certs.specs.declared.solving.Stop.TheVariants.{Memory, Pivots};
ghost use Rattle.table_oracle.specs.Judged.{IsJudged, judged_holds, judged_within};
ghost use Rattle.table_oracle.specs.Value.{TableValue, IsNext, own_site, state_of};

use crate::answers::{TableAnswer, is_leaf, is_point, leaf_proof};
use certs::{Combo, MemberSet, Oracle, Path, Point, Site, SiteKind, Stop, Tale, Verdict};
use lp_model::Model;
use std::alloc::{AllocError, Global};

/// An oracle that answers from a list. Each ask takes the next answer, and checks it against the set.
#[derive(Drop)]
pub struct TableOracle<'a> {
    model: &'a Model,
    answers: Vec<TableAnswer>,
    tale: Tale,
}

impl<'a> std::marker::Model for TableOracle<'a> {
    ghost use Rattle.table_oracle.specs.Value.{TableValue};

    ghost Value = { TableValue };

    ghost view = { λ o. record { model = o.model.now; answers = o.answers.items; tale = o.tale } };
}

impl<'a> TableOracle<'a> {
    /// An oracle for a program, with these answers in their order. It was asked nothing yet.
    pub fn new(alloc: Global, model: &'a Model, answers: Vec<TableAnswer>) -> TableOracle<'a>
        ensures { result ≡ record { model = model.now; answers = answers.items; tale = no_tale } }
    {
        TableOracle {
            model,
            answers,
            tale: Tale::new(alloc),
        }
    }

    /// What it tells of its calls.
    pub fn tale(&self) -> &Tale
        ensures { result.now ≡ self.now.tale }
    {
        &self.tale
    }
}

impl Oracle for TableOracle<'_> {
    ghost state = { state_of };

    ghost answers = { λ model budgets set result. IsJudged model set result };

    ghost holds = { λ model budgets set verdict h. judged_holds model set verdict h };

    ghost ordered = { λ model budgets set proof h. h.1 };

    ghost within = { λ model budgets set stop h. judged_within model set stop h };

    ghost parts = { λ oracle set part of h. h };

    /// The verdict of the next answer, where it is right for the set.
    ///
    /// # Errors
    ///
    /// No pivot is left, at a site of just the set: where the next answer says so or is not right, and at the end of the
    /// list.
    fn ask(&mut self, alloc: Global, set: &MemberSet) -> Result<Verdict, Stop>
        requires same { IsSetOf self.old.model set.now }
        requires served { true ≡ true }
        ensures answered { IsJudged self.old.model set.now.members result }
        ensures told { state_of self.new ≡ asked_after (state_of self.old) set.now.members result }
        // The next answer, which the list then has no more.
        ensures next { IsNext self.old.model set.now self.old.answers result }
        ensures answers { self.new.answers ≡ drop 1 self.old.answers }
    {
        set.stands_in_order();
        let answer = judged(alloc, self.model, &mut self.answers, set);
        self.tale.tell(alloc, set, answer)
    }
}

// The verdict of the first of the answers, where it is right for the set. It is taken out.
fn judged(
    alloc: Global,
    model: &Model,
    answers: &mut Vec<TableAnswer>,
    set: &MemberSet,
) -> Result<Verdict, Stop>
    requires same { IsSetOf model.now set.now }
    ensures answered { IsJudged model.now set.now.members result }
    ensures next { IsNext model.now set.now answers.old.items result }
    ensures rest { answers.new.items ≡ drop 1 answers.old.items }
{
    let Some(answer) = take_first(answers) else {
        return Err(spent(alloc, set));
    };
    match answer {
        TableAnswer::Point(point) => found(alloc, model, set, point),
        TableAnswer::Leaf(combo) => refuted(alloc, model, set, combo),
        TableAnswer::Spent => Err(spent(alloc, set)),
    }
}

// Takes the first of the answers, where there is one.
fn take_first(answers: &mut Vec<TableAnswer>) -> Option<TableAnswer>
    ensures first { answers.old.items ≡ option_to_list result ++ answers.new.items }
    ensures rest { answers.new.items ≡ drop 1 answers.old.items }
{
    if answers.is_empty() {
        return None;
    }
    Some(answers.remove(0))
}

// The stop of just the set; or want of memory.
fn spent(alloc: Global, set: &MemberSet) -> Stop
    ensures { (result ≡ Pivots (own_site set.now)) ⊎ (result ≡ Memory) }
{
    match site_of(alloc, set) {
        Ok(site) => Stop::Pivots(site),
        Err(_) => Stop::Memory,
    }
}

// The site of just the set.
fn site_of(alloc: Global, set: &MemberSet) -> Result<Site, AllocError>
    ensures { IfOk result (λ site. site ≡ own_site set.now) }
{
    Ok(Site {
        kind: SiteKind::Settle,
        set: set.copy(alloc)?,
        enforced: set.emptied(alloc)?,
        path: Path::new(Vec::new(alloc)),
    })
}

// The verdict of a point, where it is right.
fn found(alloc: Global, model: &Model, set: &MemberSet, point: Point) -> Result<Verdict, Stop>
    ensures answered { IsJudged model.now set.now.members result }
    ensures next { (answers : List TableAnswer) → IsNext model.now set.now (TableAnswer.Point point ∷ answers) result }
{
    if is_point(model, set, &point) {
        return Ok(Verdict::Feasible(point));
    }
    Err(spent(alloc, set))
}

// The verdict of a combination, where it is right.
fn refuted(alloc: Global, model: &Model, set: &MemberSet, combo: Combo) -> Result<Verdict, Stop>
    requires same { IsSetOf model.now set.now }
    ensures answered { IsJudged model.now set.now.members result }
    ensures next { (answers : List TableAnswer) → IsNext model.now set.now (TableAnswer.Leaf combo ∷ answers) result }
{
    let Ok(right) = is_leaf(alloc, model, set, &combo) else {
        return Err(Stop::Memory);
    };
    if !right {
        return Err(spent(alloc, set));
    }
    let Ok(proof) = leaf_proof(alloc, combo) else {
        return Err(Stop::Memory);
    };
    // That the program is well formed is told with the count.
    let _rows = model.row_count();
    Ok(Verdict::Infeasible(proof))
}
