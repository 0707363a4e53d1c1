//! Room for the values of a point or a ray, which is kept from one to the next.
ghost use Rattle.std.specs.Prelude.{◌≡◌, ◌<◌, All, IfOk, length, replicate};
ghost use Rattle.rational.specs.Rational.{zero_ℚ};
ghost use Rattle.certs.specs.Packed.{HasNonzeros};
ghost use Rattle.cert_check.specs.Sparse.{AreSpread, IsRoom, nonzero_count};

use certs::{PackedValues, Values};
use frac128::Frac;
use std::alloc::{AllocError, Global};
use std::mem;

/// Takes the room for values, and gives them with the columns of those that are not 0.
pub(crate) fn spread(
    alloc: Global,
    packed: &PackedValues,
    room: &mut Vec<Frac>,
) -> Result<(Values, Vec<u32>), AllocError>
    requires { IsRoom (length packed.now) room.old.items }
    ensures values { IfOk result (λ r. r.0 ≡ packed.now) }
    ensures spread { IfOk result (λ r. AreSpread r.0 r.1.items) }
{
    let columns = packed.spread(alloc, room.as_mut_slice())?;
    let values = mem::replace(room, Vec::new(alloc));
    Ok((Values::new(values), columns))
}

/// Gives the room back, and tells how many of the values were not 0.
pub(crate) fn give_back(values: Values, columns: &[u32], room: &mut Vec<Frac>) -> u64
    requires { AreSpread values columns.now }
    ensures room { IsRoom (length values) room.new.items }
    ensures count { result ≡ nonzero_count values }
{
    *room = values.into_vec();
    clear(room.as_mut_slice(), columns)
}

// Puts zeros in the place of values, and tells how many of them were not 0.
fn clear(values: &mut [Frac], columns: &[u32]) -> u64
    requires within { All (λ j. j < length values.old) columns.now }
    requires nonzeros { HasNonzeros values.old columns.now }
    ensures zeros { values.new ≡ replicate (length values.old) zero_ℚ }
    ensures count { result ≡ nonzero_count values.old }
{
    let zero = Frac::whole(0);
    let mut count: u64 = 0;
    for column in columns {
        let at = *column as usize;
        count += u64::from(values[at] != zero);
        values[at] = zero;
    }
    count
}
