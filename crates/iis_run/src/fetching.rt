//! The fetch of a file.
ghost use Rattle.std.specs.Prelude.{◌≡◌, ◌≤◌, ℕ, List, length, vec_len, IfOk, IfErr, IfSome, OnOk};
ghost use Rattle.iis_edge.specs.Causes.{KeepsCounts};
ghost use Rattle.iis_run.specs.Limits.{limit_of};
ghost use Rattle.iis_run.specs.Fetches.{IsFetchStop};
ghost use Rattle.iis_run.specs.Steps.{IsQuietEnd};

use crate::endings::{Ending, Which};
use iis_edge::{FetchStop, Shelf};
use std::alloc::Global;

const MODEL_LIMIT: usize = 16_777_216;

const REPORT_LIMIT: usize = 67_108_864;

const SCRIPT_LIMIT: usize = 16_777_216;

fn limit(which: Which) -> usize
    ensures { result ≡ limit_of which }
{
    match which {
        Which::Model => MODEL_LIMIT,
        Which::Report => REPORT_LIMIT,
        Which::Script => SCRIPT_LIMIT,
    }
}

/// The bytes of a file, within its limit.
///
/// # Errors
///
/// The ending of a run that does not get them: `ReadFault` where the shelf's count of faults of the name rose, `TooLong`
/// where the file is longer than its limit, or `Memory`.
pub fn fetch_file<S: Shelf>(
    alloc: Global,
    shelf: &mut S,
    name: &str,
    which: Which,
) -> Result<Vec<u8>, Ending>
    ensures bytes { IfOk result (λ v. IfSome (S.file shelf.old name.now) (λ b. (v.items ≡ b) × (length b ≤ limit_of which))) }
    ensures within { IfOk result (λ v. vec_len v ≤ limit_of which) }
    ensures quiet { OnOk result (KeepsCounts (S.faults shelf.old) (S.faults shelf.new)) }
    ensures quiet_stop { IfErr result (IsQuietEnd (S.faults shelf.old) (S.faults shelf.new)) }
    ensures stop { IfErr result (IsFetchStop (S.file shelf.old name.now) (S.faults shelf.old name.now) (S.faults shelf.new name.now) which) }
    ensures counts { (n : List ℕ) → S.faults shelf.old n ≤ S.faults shelf.new n }
    ensures files { (n : List ℕ) → S.file shelf.new n ≡ S.file shelf.old n }
{
    let mut bytes = Vec::new(alloc);
    match shelf.fetch(name, limit(which), &mut bytes) {
        Ok(()) => Ok(bytes),
        Err(FetchStop::Failed) => Err(Ending::ReadFault(which)),
        Err(FetchStop::TooLong) => Err(Ending::TooLong(which)),
        Err(FetchStop::Memory) => Err(Ending::Memory),
    }
}
