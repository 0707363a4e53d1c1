//! Models in the MPS format: what the steps of a text say together, the tables that they fill, and the program.
#![tactic(auto)]

ghost use Rattle.std.specs.Prelude.{◌≡◌, ◌<◌, ◌^◌, [], None, length, MatchResult};
ghost use Rattle.text_fields.specs.Faults.{IsFaultOf};
ghost use Rattle.mps_reader.specs.Faults.{mps_fault};
ghost use Rattle.mps_reader.specs.Held.{Holds};
ghost use Rattle.mps_reader.specs.Meaning.{mps_program};

mod bounds;
mod columns;
mod numbers;
mod program;
mod reading;
mod rows;
mod sides;
mod tables;
mod terms;

use crate::program::make_program;
use crate::reading::read_lines;
use crate::tables::{Reader, start};
use lp_model::Model;
use std::alloc::Global;
use text_fields::ReadFault;

/// The model that a text in the MPS format declares.
///
/// # Errors
///
/// The first fault of the text, with its line, or want of memory.
pub fn read_mps(alloc: Global, bytes: &[u8]) -> Result<Model, ReadFault>
    requires { length bytes.now < 2 ^ 31 }
    ensures { MatchResult result
        (λ model. (mps_fault bytes.now ≡ None) × (model ≡ mps_program bytes.now))
        (IsFaultOf (mps_fault bytes.now)) }
{
    let mut reader = start(alloc);
    read_into(alloc, &mut reader, bytes)
}

// Reads a text into a reader that has read nothing, and gives the model that it declares.
fn read_into(alloc: Global, reader: &mut Reader, bytes: &[u8]) -> Result<Model, ReadFault>
    requires short { length bytes.now < 2 ^ 31 }
    requires new { Holds reader.old [] }
    ensures { MatchResult result
        (λ model. (mps_fault bytes.now ≡ None) × (model ≡ mps_program bytes.now))
        (IsFaultOf (mps_fault bytes.now)) }
{
    read_lines(alloc, reader, bytes)?;
    let model = make_program(alloc, reader)?;
    Ok(model)
}
