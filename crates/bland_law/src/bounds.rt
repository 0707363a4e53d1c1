//! A budget that is never spent.
ghost use Rattle.std.specs.Prelude.{◌<◌, ◌^◌, SomeIff};
ghost use Rattle.bland_law.specs.Ends.{limited_count};

use certs::System;

/// How many pivots a settle run over a system surely does with: 3 to the number of its columns and rows, or none where that
/// is not below 2^64.
///
/// It takes no memory.
pub fn basis_bound(system: &System) -> Option<u64>
    ensures { SomeIff result (3 ^ limited_count system.now < 2 ^ 64) (3 ^ limited_count system.now) }
{
    let Some(count) = system.columns.len().checked_add(system.rows.len()) else {
        return None;
    };
    let Ok(exponent) = u32::try_from(count) else {
        return None;
    };
    3u64.checked_pow(exponent)
}
