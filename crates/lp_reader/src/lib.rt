//! The reader of the LP format: the program that a text declares, or its first fault.
#![tactic(auto)]

ghost use Rattle.std.specs.Prelude.{◌<◌, ◌^◌, [], length, MatchResult};
ghost use Rattle.lp_reader.specs.Held.{Holds};
ghost use Rattle.lp_reader.specs.Meaning.{DeclaresLp, IsLpStop};

mod bounds;
mod building;
mod columns;
mod numbers;
mod reader;
mod rows;

use crate::building::make_model;
use crate::reader::{Reader, new_reader, read_statements};
use lp_model::Model;
use std::alloc::Global;
use text_fields::ReadFault;

/// Reads a text in the LP format: the model that it declares, or its first fault with its line.
///
/// The model has the rows in order, the columns in the order in which terms first name them, sums of the factors that a form
/// gives a column, the bounds and marks that the last statement sets, and a note for each column with a negative upper bound
/// whose lower bound no statement sets. `Memory` comes only for want of memory.
pub fn read_lp(alloc: Global, bytes: &[u8]) -> Result<Model, ReadFault>
    requires { length bytes.now < 2 ^ 31 }
    ensures { MatchResult result (DeclaresLp bytes.now) (IsLpStop bytes.now) }
{
    let mut reader = new_reader(alloc);
    read_into(alloc, &mut reader, bytes)
}

// Reads a text into a reader that has read nothing, and gives the model that it declares.
fn read_into(alloc: Global, reader: &mut Reader, bytes: &[u8]) -> Result<Model, ReadFault>
    requires short { length bytes.now < 2 ^ 31 }
    requires new { Holds reader.old [] }
    ensures { MatchResult result (DeclaresLp bytes.now) (IsLpStop bytes.now) }
{
    read_statements(alloc, reader, bytes)?;
    let model = make_model(alloc, reader)?;
    Ok(model)
}
