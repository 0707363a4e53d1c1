//! Limits that cross.
ghost use Rattle.std.specs.Prelude.{◌≡◌, ◌+◌, ◌<◌, ◌^◌, length};
ghost use Rattle.certs.specs.Plain.{are_crossed, crosses, first_crossing as least_crossing};
ghost use Rattle.certs.specs.System.{variable_limits};

use certs::{Limits, System};
use frac128::Frac;

/// The least variable whose lower limit passes its upper one: a column, or a row, numbered after the columns.
pub fn first_crossing(system: &System) -> Option<u32>
    requires few { length system.now.columns + length system.now.rows < 2 ^ 31 }
    ensures { result ≡ least_crossing system.now }
{
    let variables = (system.columns.len() + system.rows.len()) as u32;
    for variable in 0..variables {
        if is_crossing(system, variable) {
            return Some(variable);
        }
    }
    None
}

// The limits of a column or of a row.
fn limits_of(system: &System, variable: u32) -> Limits
    requires { variable < length system.now.columns + length system.now.rows }
    ensures { result ≡ variable_limits system.now variable }
{
    let columns = system.columns.len();
    let index = variable as usize;
    if index < columns {
        return system.columns[index];
    }
    let row = &system.rows[index - columns];
    Limits {
        lo: row.lo,
        up: row.up,
    }
}

// Whether the lower limit of a column or of a row passes its upper one.
fn is_crossing(system: &System, variable: u32) -> bool
    requires { variable < length system.now.columns + length system.now.rows }
    ensures { result ≡ crosses system.now variable }
{
    let limits = limits_of(system, variable);
    is_above(limits.lo, limits.up)
}

// Whether there are two numbers, and the first is above the second.
fn is_above(lower: Option<Frac>, upper: Option<Frac>) -> bool
    ensures { result ≡ are_crossed lower upper }
{
    let Some(least) = lower else {
        return false;
    };
    let Some(greatest) = upper else {
        return false;
    };
    greatest.cmp(&least).is_lt()
}
