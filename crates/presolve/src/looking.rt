//! What comes next in a reduction: what the first rule finds that finds something, at the least place.
ghost use Rattle.std.specs.Prelude.{◌≡◌, ◌+◌, ◌<◌, ◌^◌, IfOk, length};
ghost use Rattle.reductions.specs.Laws.{IsFormed};
ghost use Rattle.reductions.specs.Reduction.{first_found, found_at, found_in_row, next_found as what_comes_next, places};
ghost use Rattle.reductions.specs.Reduction.Rule.{CrossingLimits, FixedColumn, ForcingRow, ImpossibleRow, RedundantRow};
ghost use Rattle.presolve.specs.Looked.{rule_of};
ghost use Rattle.presolve.specs.Next.{IsNext};
ghost use Rattle.presolve.specs.Quiet.{IsQuiet};

use crate::plans::Next;
use crate::quiet::Quiet;
use crate::row_rules::{crossing_at, empty_at, singleton_at};
use crate::stages::Stage;
use crate::substitution::{doubleton_at, fixed_at};
use crate::sum_rules::{forcing_at, impossible_at, redundant_at};
use certs::System;
use std::alloc::{AllocError, Global};

/// The rules that look at rows, in their order.
#[derive(Clone, Copy)]
pub(crate) enum RowRule {
    Empty,
    Singleton,
    Impossible,
    Redundant,
    Forcing,
    Doubleton,
}

/// What comes next: the rules in their order, each over its places from the least. A rule that takes sums passes over the
/// rows at which it is known to find nothing.
///
/// # Errors
///
/// There is no memory for the step or the shares.
pub(crate) fn next_found(
    alloc: Global,
    stage: &Stage,
    quiet: &mut Quiet,
) -> Result<Option<Next>, AllocError>
    requires formed { IsFormed stage.now.system }
    requires small { length stage.now.system.columns + length stage.now.system.rows < 2 ^ 31 }
    requires lives { length stage.now.live ≡ length stage.now.system.rows }
    requires impossible { IsQuiet ImpossibleRow stage.now quiet.old.impossible.items }
    requires redundant { IsQuiet RedundantRow stage.now quiet.old.redundant.items }
    requires forcing { IsQuiet ForcingRow stage.now quiet.old.forcing.items }
    ensures next { IfOk result (IsNext stage.now.system (what_comes_next stage.now)) }
    ensures impossible { IsQuiet ImpossibleRow stage.now quiet.new.impossible.items }
    ensures redundant { IsQuiet RedundantRow stage.now quiet.new.redundant.items }
    ensures forcing { IsQuiet ForcingRow stage.now quiet.new.forcing.items }
{
    if let Some(next) = first_crossing(alloc, stage)? {
        return Ok(Some(next));
    }
    if let Some(next) = first_in_rows(alloc, stage, RowRule::Empty)? {
        return Ok(Some(next));
    }
    if let Some(next) = first_in_rows(alloc, stage, RowRule::Singleton)? {
        return Ok(Some(next));
    }
    if let Some(next) = first_fixed(alloc, stage)? {
        return Ok(Some(next));
    }
    if let Some(next) = first_awake(alloc, stage, RowRule::Impossible, &mut quiet.impossible)? {
        return Ok(Some(next));
    }
    if let Some(next) = first_awake(alloc, stage, RowRule::Redundant, &mut quiet.redundant)? {
        return Ok(Some(next));
    }
    if let Some(next) = first_awake(alloc, stage, RowRule::Forcing, &mut quiet.forcing)? {
        return Ok(Some(next));
    }
    first_in_rows(alloc, stage, RowRule::Doubleton)
}

// The least variable whose limits cross.
fn first_crossing(alloc: Global, stage: &Stage) -> Result<Option<Next>, AllocError>
    requires { length stage.now.system.columns + length stage.now.system.rows < 2 ^ 31 }
    ensures { let all = places CrossingLimits stage.now.system in
        let found = first_found (found_at CrossingLimits stage.now) all in
        IfOk result (IsNext stage.now.system found) }
{
    let system = &stage.system;
    let variables = (system.columns.len() + system.rows.len()) as u32;
    for variable in 0..variables {
        if let Some(next) = crossing_at(alloc, system, variable)? {
            return Ok(Some(next));
        }
    }
    Ok(None)
}

// The least column that is fixed.
fn first_fixed(alloc: Global, stage: &Stage) -> Result<Option<Next>, AllocError>
    requires formed { IsFormed stage.now.system }
    requires small { length stage.now.system.columns + length stage.now.system.rows < 2 ^ 31 }
    ensures { let all = places FixedColumn stage.now.system in
        let found = first_found (found_at FixedColumn stage.now) all in
        IfOk result (IsNext stage.now.system found) }
{
    let system = &stage.system;
    for column in 0..system.columns.len() as u32 {
        if let Some(next) = fixed_at(alloc, system, column)? {
            return Ok(Some(next));
        }
    }
    Ok(None)
}

// What a rule finds at the least row.
fn first_in_rows(alloc: Global, stage: &Stage, rule: RowRule) -> Result<Option<Next>, AllocError>
    requires formed { IsFormed stage.now.system }
    requires small { length stage.now.system.columns + length stage.now.system.rows < 2 ^ 31 }
    requires lives { length stage.now.live ≡ length stage.now.system.rows }
    ensures { let all = places (rule_of rule) stage.now.system in
        let found = first_found (found_at (rule_of rule) stage.now) all in
        IfOk result (IsNext stage.now.system found) }
{
    let system = &stage.system;
    for index in 0..system.rows.len() as u32 {
        if let Some(next) = found_in_live(alloc, stage, rule, index)? {
            return Ok(Some(next));
        }
    }
    Ok(None)
}

// The same, where rows are passed over that are marked, since the rule finds nothing there; others at which it finds nothing
// are marked.
fn first_awake(
    alloc: Global,
    stage: &Stage,
    rule: RowRule,
    quiet: &mut Vec<bool>,
) -> Result<Option<Next>, AllocError>
    requires formed { IsFormed stage.now.system }
    requires small { length stage.now.system.columns + length stage.now.system.rows < 2 ^ 31 }
    requires lives { length stage.now.live ≡ length stage.now.system.rows }
    requires quiet { IsQuiet (rule_of rule) stage.now quiet.old.items }
    ensures next { let all = places (rule_of rule) stage.now.system in
        let found = first_found (found_at (rule_of rule) stage.now) all in
        IfOk result (IsNext stage.now.system found) }
    ensures quiet { IsQuiet (rule_of rule) stage.now quiet.new.items }
{
    let system = &stage.system;
    for index in 0..system.rows.len() as u32 {
        if quiet[index as usize] {
            continue;
        }
        if let Some(next) = found_in_live(alloc, stage, rule, index)? {
            return Ok(Some(next));
        }
        quiet[index as usize] = true;
    }
    Ok(None)
}

// What a rule finds at a row, where it is not removed yet.
fn found_in_live(
    alloc: Global,
    stage: &Stage,
    rule: RowRule,
    index: u32,
) -> Result<Option<Next>, AllocError>
    requires formed { IsFormed stage.now.system }
    requires small { length stage.now.system.columns + length stage.now.system.rows < 2 ^ 31 }
    requires lives { length stage.now.live ≡ length stage.now.system.rows }
    requires known { index < length stage.now.system.rows }
    ensures { IfOk result (IsNext stage.now.system (found_at (rule_of rule) stage.now index)) }
{
    if !stage.live[index as usize] {
        return Ok(None);
    }
    found_at_row(alloc, &stage.system, rule, index)
}

// What a rule finds at a row.
fn found_at_row(
    alloc: Global,
    system: &System,
    rule: RowRule,
    index: u32,
) -> Result<Option<Next>, AllocError>
    requires formed { IsFormed system.now }
    requires small { length system.now.columns + length system.now.rows < 2 ^ 31 }
    requires known { index < length system.now.rows }
    ensures { IfOk result (IsNext system.now (found_in_row (rule_of rule) system.now index)) }
{
    match rule {
        RowRule::Empty => empty_at(alloc, system, index),
        RowRule::Singleton => singleton_at(alloc, system, index),
        RowRule::Impossible => impossible_at(alloc, system, index),
        RowRule::Redundant => redundant_at(alloc, system, index),
        RowRule::Forcing => forcing_at(alloc, system, index),
        RowRule::Doubleton => doubleton_at(alloc, system, index),
    }
}
