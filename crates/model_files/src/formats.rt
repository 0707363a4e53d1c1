//! The two formats, and the reading of a model.
ghost use Rattle.std.specs.Str.{str_eq_ignore_ascii_case};
ghost use Rattle.std.specs.Prelude.{◌≡◌, ◌<◌, ◌^◌, None, codes, length, IfErr, IfOk, MatchResult};
ghost use Rattle.model_files.specs.Formats.{Declares, IsRefusal, format_of, format_program, model_fault};
ghost use Rattle.text_fields.specs.Faults.{IsFaultOf};

use lp_model::Model;
use lp_reader::read_lp;
use mps_reader::read_mps;
use std::alloc::Global;
use text_fields::ReadFault;

/// A format of models.
#[derive(Clone, Copy, PartialEq, Eq)]
pub enum Format {
    Mps,
    Lp,
}

// Whether the end of a name is `.lp`.
fn is_lp_end(end: &[u8]) -> bool
    ensures { result ≡ str_eq_ignore_ascii_case end.now (codes ".lp") }
{
    end.eq_ignore_ascii_case(b".lp")
}

// The format of a file, by its name.
fn format_named(name: &[u8]) -> Format
    ensures { result ≡ format_of name.now }
{
    if is_lp_end(&name[name.len().saturating_sub(3)..]) {
        return Format::Lp;
    }
    Format::Mps
}

// The model that the bytes declare in a format.
fn read_format(alloc: Global, format: Format, bytes: &[u8]) -> Result<Model, ReadFault>
    requires { length bytes.now < 2 ^ 31 }
    ensures { MatchResult result
        (λ model. (model_fault format bytes.now ≡ None) × (model ≡ format_program format bytes.now))
        (IsFaultOf (model_fault format bytes.now)) }
{
    match format {
        Format::Mps => read_mps(alloc, bytes),
        Format::Lp => read_lp(alloc, bytes),
    }
}

/// The model that a file declares: one whose name ends with `.lp`, in any case of letters, in the LP format, and any
/// other in the MPS format.
///
/// # Errors
///
/// The first fault of the text, with its line; or want of memory.
pub fn read_model(alloc: Global, name: &[u8], bytes: &[u8]) -> Result<Model, ReadFault>
    requires { length bytes.now < 2 ^ 31 }
    ensures declared { IfOk result (Declares name.now bytes.now) }
    ensures refused { IfErr result (IsRefusal name.now bytes.now) }
{
    read_format(alloc, format_named(name), bytes)
}
