//! Whether points and rays with few values pass, in a time that follows their values.
ghost use Rattle.std.specs.Prelude.{◌≡◌, ◌<◌, ◌⊎◌, IfOk, IfSome, OnOk, List, All, true, false, ℕ, length};
ghost use Rattle.lp_model.specs.declared.members.Member.{Member as OneMember};
ghost use Rattle.lp_model.specs.Members.{has};
ghost use Rattle.lp_model.specs.MemberSets.{IsPossibleIn};
ghost use Rattle.lp_model.specs.Satisfaction.{values_at};
ghost use Rattle.certs.specs.Checks.{IsSetOf, outcome, point_steps, ray_steps};
ghost use Rattle.report_text.specs.Grammar.{point_phrases};
ghost use Rattle.cert_check.specs.Sparse.{AreSpread, Lacks, Passes, HasFailing, HasReached, IsListed, IsRoom, IsSparse, IsSparseFor, ListsRows, Reaches};

use crate::room::{give_back, spread};
use bound_checks::check_ray;
use certs::{Checked, PackedPoint, PackedRay, Point, Ray, check_point, is_present};
use frac128::Frac;
use lp_model::{Member, MemberSet, Model, Term};
use std::alloc::{AllocError, Global};

/// From how many members on it pays to list the rows of columns.
const MANY_MEMBERS: u64 = 256;

/// How many members a set has at least for each value of a point or a ray with few values.
const MEMBERS_A_VALUE: u64 = 16;

/// What tells of points and rays with few values whether they pass.
#[derive(Drop)]
pub(crate) struct Sparse {
    /// How many members the set has.
    members: u64,
    /// For each column the rows in which it stands.
    rows: Vec<Vec<u32>>,
    /// The members of the set that fail where every column is 0.
    failing: MemberSet,
}

/// That of a set with many members. There is a 0 for each column.
pub(crate) fn sparse_for(
    alloc: Global,
    model: &Model,
    set: &MemberSet,
    zeros: &[Frac],
) -> Result<Option<Sparse>, AllocError>
    requires same { IsSetOf model.now set.now }
    requires room { IsRoom (length model.now.columns) zeros.now }
    ensures { IfOk result (IsSparseFor model.now set.now.members) }
{
    if set.count() < MANY_MEMBERS {
        return Ok(None);
    }
    Ok(Some(Sparse {
        members: set.count(),
        rows: list_rows(alloc, model)?,
        failing: list_failing(alloc, model, set, zeros)?,
    }))
}

/// What the check of a point says of a set, or of what is left of it without a member, and how many lines the point has.
pub(crate) fn check_packed(
    alloc: Global,
    model: &Model,
    left: &MemberSet,
    sparse: &Option<Sparse>,
    without: Option<Member>,
    packed: &PackedPoint,
    room: &mut Vec<Frac>,
) -> Result<(Checked, u64), AllocError>
    requires sparse { IsSparseFor model.now left.now.members sparse.now }
    requires same { IsSetOf model.now left.now }
    requires possible { IfSome without (IsPossibleIn left.now) }
    requires lacks { Lacks left.now.members without }
    requires point { length packed.now.values ≡ length model.now.columns }
    requires room { IsRoom (length model.now.columns) room.old.items }
    ensures found { let x = values_at packed.now.values in
        IfOk result (λ r. r.0 ≡ outcome (point_steps model.now left.now.members x)) }
    ensures lines { IfOk result (λ r. r.1 ≡ length (point_phrases packed.now)) }
    ensures room { OnOk result (IsRoom (length model.now.columns) room.new.items) }
{
    let (values, columns) = spread(alloc, &packed.values, room)?;
    let point = Point { values };
    let found = if passes(
        alloc,
        model,
        left,
        sparse,
        without,
        &point,
        columns.as_slice(),
    )? {
        Checked::Yes
    } else {
        check_point(model, left, &point)
    };
    let count = give_back(point.values, columns.as_slice(), room);
    Ok((found, 1 + count))
}

/// What the check of a ray says of a set.
pub(crate) fn check_packed_ray(
    alloc: Global,
    model: &Model,
    set: &MemberSet,
    sparse: &Option<Sparse>,
    packed: &PackedRay,
    room: &mut Vec<Frac>,
) -> Result<Checked, AllocError>
    requires sparse { IsSparseFor model.now set.now.members sparse.now }
    requires same { IsSetOf model.now set.now }
    requires ray { length packed.now.values ≡ length model.now.columns }
    requires room { IsRoom (length model.now.columns) room.old.items }
    ensures found { let x = values_at packed.now.values in
        IfOk result (λ found. found ≡ outcome (ray_steps model.now set.now.members x)) }
    ensures room { OnOk result (IsRoom (length model.now.columns) room.new.items) }
{
    let (values, columns) = spread(alloc, &packed.values, room)?;
    let ray = Ray { values };
    let found = if is_kept_by(alloc, model, set, sparse, &ray, columns.as_slice())? {
        Checked::Yes
    } else {
        check_ray(model, set, &ray)
    };
    give_back(ray.values, columns.as_slice(), room);
    Ok(found)
}

// Whether a point with few values passes the check against a set, or what is left of it without a member. No members are
// looked at but those that its columns reach.
fn passes(
    alloc: Global,
    model: &Model,
    left: &MemberSet,
    sparse: &Option<Sparse>,
    without: Option<Member>,
    point: &Point,
    columns: &[u32],
) -> Result<bool, AllocError>
    requires sparse { IsSparseFor model.now left.now.members sparse.now }
    requires same { IsSetOf model.now left.now }
    requires possible { IfSome without (IsPossibleIn left.now) }
    requires lacks { Lacks left.now.members without }
    requires point { length point.now.values ≡ length model.now.columns }
    requires spread { AreSpread point.now.values columns.now }
    ensures { let steps = point_steps model.now left.now.members (values_at point.now.values) in
        IfOk result (λ yes. yes ≡ true → outcome steps ≡ Checked.Yes) }
{
    let Some(sparse) = sparse else {
        return Ok(false);
    };
    if !sparse.are_few(columns) {
        return Ok(false);
    }
    left.stands_in_order();
    let mut reached = reached(alloc, sparse.rows.as_slice(), left, columns)?;
    let hold = hold(model, &reached, point.values.as_slice());
    if let Some(member) = without {
        reached.insert(member);
    }
    Ok(hold && sparse.failing.within(&reached))
}

// Whether a ray with few values passes the check against a set. No members are looked at but those that its columns reach.
fn is_kept_by(
    alloc: Global,
    model: &Model,
    set: &MemberSet,
    sparse: &Option<Sparse>,
    ray: &Ray,
    columns: &[u32],
) -> Result<bool, AllocError>
    requires sparse { IsSparseFor model.now set.now.members sparse.now }
    requires same { IsSetOf model.now set.now }
    requires ray { length ray.now.values ≡ length model.now.columns }
    requires spread { AreSpread ray.now.values columns.now }
    ensures { let steps = ray_steps model.now set.now.members (values_at ray.now.values) in
        IfOk result (λ yes. yes ≡ true → outcome steps ≡ Checked.Yes) }
{
    let Some(sparse) = sparse else {
        return Ok(false);
    };
    if !sparse.are_few(columns) {
        return Ok(false);
    }
    set.stands_in_order();
    let reached = reached(alloc, sparse.rows.as_slice(), set, columns)?;
    Ok(matches!(check_ray(model, &reached, ray), Checked::Yes))
}

impl Sparse {
    // Whether values that are not 0 in these columns alone are few.
    fn are_few(&self, columns: &[u32]) -> bool {
        (columns.len() as u64).saturating_mul(MEMBERS_A_VALUE) < self.members
    }
}

// For each column the rows in which it stands.
fn list_rows(alloc: Global, model: &Model) -> Result<Vec<Vec<u32>>, AllocError>
    ensures { IfOk result (λ rows. ListsRows model.now rows.items) }
{
    let mut rows = Vec::new(alloc);
    for _ in 0..model.column_count() {
        rows.push(Vec::new(alloc))?;
    }
    for index in 0..model.row_count() {
        list_row(index, model.row(index).terms.as_slice(), &mut rows)?;
    }
    Ok(rows)
}

// Lists a row for each column of its terms.
fn list_row(index: u32, terms: &[Term], rows: &mut Vec<Vec<u32>>) -> Result<(), AllocError>
    requires { All (λ t. t.column < length rows.old.items) terms.now }
    ensures each { OnOk result (length rows.new.items ≡ length rows.old.items) }
    ensures keeps { OnOk result ((j i : ℕ) → IsListed rows.old.items j i → IsListed rows.new.items j i) }
    ensures listed { OnOk result (All (λ t. IsListed rows.new.items t.column index) terms.now) }
    ensures known { OnOk result ((j i : ℕ) → IsListed rows.new.items j i → (i ≡ index) ⊎ IsListed rows.old.items j i) }
{
    for term in terms {
        rows[term.column as usize].push(index)?;
    }
    Ok(())
}

// The members of a set that fail where every column is 0, and those whose sum is too wide there.
fn list_failing(
    alloc: Global,
    model: &Model,
    set: &MemberSet,
    zeros: &[Frac],
) -> Result<MemberSet, AllocError>
    requires same { IsSetOf model.now set.now }
    requires room { IsRoom (length model.now.columns) zeros.now }
    ensures same { IfOk result (IsSetOf model.now) }
    ensures failing { IfOk result (λ failing. HasFailing model.now set.now.members failing.members) }
{
    set.stands_in_order();
    let mut failing = set.copy(alloc)?;
    for member in set.iter() {
        if holds(model, member, zeros) {
            failing.remove(member);
        }
    }
    Ok(failing)
}

// The members of a set that the columns reach.
fn reached(
    alloc: Global,
    rows: &[Vec<u32>],
    set: &MemberSet,
    columns: &[u32],
) -> Result<MemberSet, AllocError>
    requires each { length rows.now ≡ set.now.columns }
    requires known { (j i : ℕ) → IsListed rows.now j i → i < set.now.rows }
    requires columns { All (λ j. j < length rows.now) columns.now }
    ensures rows { IfOk result (λ part. part.rows ≡ set.now.rows) }
    ensures columns { IfOk result (λ part. part.columns ≡ set.now.columns) }
    ensures reached { IfOk result (λ part. HasReached rows.now set.now.members columns.now part.members) }
{
    let mut part = set.emptied(alloc)?;
    for column in columns {
        reach(set, *column, rows[*column as usize].as_slice(), &mut part);
    }
    Ok(part)
}

// Puts the members of a set that a column reaches into a part of the set.
fn reach(set: &MemberSet, column: u32, rows: &[u32], part: &mut MemberSet)
    requires rows { part.old.rows ≡ set.now.rows }
    requires columns { part.old.columns ≡ set.now.columns }
    requires known { All (λ i. i < set.now.rows) rows.now }
    requires column { column < set.now.columns }
    ensures rows { part.new.rows ≡ set.now.rows }
    ensures columns { part.new.columns ≡ set.now.columns }
    ensures keeps { (m : OneMember) → has part.old.members m ≡ true → has part.new.members m ≡ true }
    ensures reached { (m : OneMember) → has set.now.members m ≡ true → Reaches column rows.now m → has part.new.members m ≡ true }
{
    put(set, Member::Lower(column), part);
    put(set, Member::Upper(column), part);
    put(set, Member::Whole(column), part);
    for row in rows {
        put(set, Member::RowLo(*row), part);
        put(set, Member::RowUp(*row), part);
    }
}

// Puts a member into a part of a set where it is one of the set.
fn put(set: &MemberSet, member: Member, part: &mut MemberSet)
    requires rows { part.old.rows ≡ set.now.rows }
    requires columns { part.old.columns ≡ set.now.columns }
    requires possible { IsPossibleIn set.now member }
    ensures rows { part.new.rows ≡ set.now.rows }
    ensures columns { part.new.columns ≡ set.now.columns }
    ensures keeps { (m : OneMember) → has part.old.members m ≡ true → has part.new.members m ≡ true }
    ensures puts { has set.now.members member ≡ true → has part.new.members member ≡ true }
{
    part.stands_in_order();
    if set.contains(member) {
        part.insert(member);
    }
}

// Whether each member of a set holds, and no sum is too wide.
fn hold(model: &Model, set: &MemberSet, values: &[Frac]) -> bool
    requires counted { length values.now ≡ length model.now.columns }
    ensures { result ≡ true → All (Passes model.now (values_at values.now)) set.now.members }
{
    for member in set.iter() {
        if !holds(model, member, values) {
            return false;
        }
    }
    true
}

// Whether a member holds, and its sum is not too wide. One that the program does not have holds.
fn holds(model: &Model, member: Member, values: &[Frac]) -> bool
    requires counted { length values.now ≡ length model.now.columns }
    ensures { result ≡ true → Passes model.now (values_at values.now) member }
{
    !is_present(model, member) || matches!(model.holds(member, values), Ok(true))
}
