//! Paths that have the tightest branches on each column at hand.
ghost use Rattle.std.specs.Prelude.{◌≡◌, ◌≤◌, ◌<◌, ◌∷◌, ◌++◌, [], None, ℕ, is_ok, if◌then◌else◌, IfOk, IfSome, option_to_list, unsigned_abs, get_or, length, List};
ghost use Rattle.frac128.specs.Limit.{limit};
ghost use Rattle.certs.specs.Combination.{lesser as lesser_of, greater as greater_of, IsFitting};
ghost use Rattle.certs.specs.declared.evidence.Branch.{Branch as OneBranch};
ghost use Rattle.certs.specs.Paths.{unbranched as no_branches, tightest_on};

use crate::evidence::Branch;
use std::alloc::{AllocError, Global};
use std::marker::Model;

/// The least number that upper branches on a column give, and the greatest one that lower branches give.
#[derive(Clone, Copy)]
pub(crate) struct Tightest {
    pub(crate) upper: Option<i128>,
    pub(crate) lower: Option<i128>,
}

/// A path of branches, each of which fits. One branch more, the last one taken back, and what the path says of a column
/// each take the same time, however long the path is.
#[derive(Drop)]
pub struct BranchPath {
    branches: Vec<Branch>,
    columns: Vec<Tightest>,
    before: Vec<Tightest>,
}

impl Model for BranchPath {
    ghost use Rattle.std.specs.Prelude.{List};
    ghost use Rattle.certs.specs.declared.evidence.Branch.{Branch};
    ghost use Rattle.certs.specs.Paths.{HasTightest};

    ghost Value = { List Branch };

    ghost view = { λ p. p.branches.items };

    ghost invariant = { λ p. HasTightest p.branches.items p.columns.items p.before.items };
}

impl BranchPath {
    /// The path of no branch.
    pub fn new(alloc: Global) -> BranchPath
        ensures { result ≡ [] }
    {
        BranchPath {
            branches: Vec::new(alloc),
            columns: Vec::new(alloc),
            before: Vec::new(alloc),
        }
    }

    /// The branches, from the first on.
    pub fn as_slice(&self) -> &[Branch]
        ensures { result.now ≡ self.now }
    {
        self.branches.as_slice()
    }

    /// Goes one branch further.
    ///
    /// # Errors
    ///
    /// There is no memory for the branch, or for what is kept of a column. The path is as it was.
    pub fn push(&mut self, branch: Branch) -> Result<(), AllocError>
        requires { IsFitting branch }
        ensures { self.new ≡ (if is_ok result then self.old ++ branch ∷ [] else self.old) }
    {
        make_room(&mut self.columns, branch.column)?;
        let column = branch.column as usize;
        let tightest = self.columns[column];
        self.before.push(tightest)?;
        if self.branches.push(branch).is_err() {
            self.before.pop();
            return Err(AllocError);
        }
        self.columns[column] = with_branch(tightest, branch);
        Ok(())
    }

    /// Takes the last branch back, where there is one.
    pub fn pop(&mut self) -> Option<Branch>
        ensures popped { self.old ≡ self.new ++ option_to_list result }
        ensures none { result ≡ None → self.old ≡ [] }
    {
        let branch = self.branches.pop()?;
        if let Some(tightest) = self.before.pop() {
            self.columns[branch.column as usize] = tightest;
        }
        Some(branch)
    }

    /// The tightest branches on a column.
    pub(crate) fn tightest(&self, column: u32) -> Tightest
        ensures value { result ≡ tightest_on self.now column }
        ensures upper { IfSome result.upper (λ n. unsigned_abs n ≤ limit) }
        ensures lower { IfSome result.lower (λ n. unsigned_abs n ≤ limit) }
    {
        let column = column as usize;
        if column < self.columns.len() {
            self.columns[column]
        } else {
            unbranched()
        }
    }
}

// Of a column without a branch.
fn unbranched() -> Tightest
    ensures { result ≡ no_branches }
{
    Tightest {
        upper: None,
        lower: None,
    }
}

// Makes room for what is kept of a column.
fn make_room(columns: &mut Vec<Tightest>, column: u32) -> Result<(), AllocError>
    ensures room { IfOk result (λ _. column < length columns.new.items) }
    ensures longer { length columns.old.items ≤ length columns.new.items }
    ensures same { (j : ℕ) → get_or columns.new.items j no_branches ≡ get_or columns.old.items j no_branches }
{
    let column = column as usize;
    if column >= columns.len() {
        columns.resize(column + 1, unbranched())?;
    }
    Ok(())
}

// What a path says of the branch's column with the branch more, from what it said without.
fn with_branch(tightest: Tightest, branch: Branch) -> Tightest
    ensures { (path : List OneBranch) → tightest ≡ tightest_on path branch.column
        → result ≡ tightest_on (path ++ branch ∷ []) branch.column }
{
    if branch.upper {
        Tightest {
            upper: Some(lesser(branch.at, tightest.upper)),
            lower: tightest.lower,
        }
    } else {
        Tightest {
            upper: tightest.upper,
            lower: Some(greater(branch.at, tightest.lower)),
        }
    }
}

// The lesser of a number and one that may be absent.
fn lesser(at: i128, other: Option<i128>) -> i128
    ensures { result ≡ lesser_of at other }
{
    match other {
        Some(least) => if least < at { least } else { at },
        None => at,
    }
}

// The greater of a number and one that may be absent.
fn greater(at: i128, other: Option<i128>) -> i128
    ensures { result ≡ greater_of at other }
{
    match other {
        Some(greatest) => if at < greatest { greatest } else { at },
        None => at,
    }
}
