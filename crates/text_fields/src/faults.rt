//! The faults of a text.
ghost use Rattle.text_fields.specs.Faults.{fault_of_text, fault_of_fields};
ghost use Rattle.std.specs.Prelude.{◌≡◌};
ghost use Rattle.text_fields.specs.declared.faults.FieldStop.TheVariants.{Memory as FieldMemory};
ghost use Rattle.text_fields.specs.declared.faults.ReadFault.TheVariants.{Memory as ReadMemory};

use std::alloc::{AllocError, AllocFailed};
use thiserror::Error;

/// A fault that a text has whatever it is to say.
#[derive(Clone, Copy, PartialEq, Eq, Debug, Error)]
pub enum TextKind {
    /// A byte that is none of 9, 10, 13 and 32 to 126.
    #[error("foreign byte")]
    ForeignByte,
    /// A line of more than 65,536 bytes, its end not counted.
    #[error("long line")]
    LongLine,
    /// What stands for a number is no decimal literal.
    #[error("bad number")]
    BadNumber,
    /// A literal whose value takes more than 128 bits.
    #[error("number wide")]
    NumberWide,
}

/// A fault and the number of its line, from 1.
#[derive(Clone, Copy, Debug, Error)]
#[error("line {line}: {kind}")]
pub struct TextFault {
    pub line: u32,
    pub kind: TextKind,
}

/// Why the fields of a line are not there.
#[derive(Clone, Copy, Debug, Error)]
pub enum FieldStop {
    #[error("{0}")]
    Text(TextFault),
    #[error("want of memory")]
    Memory,
}

/// A fault of a text that is to declare a model.
#[derive(Clone, Copy, Debug, Error)]
pub enum ReadKind {
    #[error("{0}")]
    Text(TextKind),
    /// A part stands where none of its kind may stand.
    #[error("order")]
    Order,
    /// A name that was to be declared before and was not.
    #[error("unknown name")]
    UnknownName,
    /// A name that is declared twice.
    #[error("duplicate name")]
    DuplicateName,
    /// An entry, a side or a bound that is given twice.
    #[error("duplicate entry")]
    DuplicateEntry,
    /// A part of the format that is not read.
    #[error("unsupported")]
    Unsupported,
    /// A field or a token that fits no form.
    #[error("bad field")]
    BadField,
    /// The text ends before the model does.
    #[error("truncated")]
    Truncated,
    /// A name is too long, or there are too many rows, columns or entries.
    #[error("limit")]
    Limit,
    /// A sum that the text asks for is too wide.
    #[error("sum wide")]
    SumWide,
}

/// A reader's fault and the number of its line, from 1.
#[derive(Clone, Copy, Debug, Error)]
#[error("line {line}: {kind}")]
pub struct ReadStop {
    pub line: u32,
    pub kind: ReadKind,
}

/// Why a text was not read: its first fault, or want of memory.
#[derive(Clone, Copy, Debug, Error)]
pub enum ReadFault {
    #[error("{0}")]
    Stop(ReadStop),
    #[error("want of memory")]
    Memory,
}

impl ReadFault {
    /// The fault of a kind at a line.
    pub fn stop_at(line: u32, kind: ReadKind) -> ReadFault
        ensures { result ≡ ReadFault.Stop (record { line = line; kind = kind }) }
    {
        ReadFault::Stop(ReadStop { line, kind })
    }
}

impl<T: Drop> From<AllocFailed<T>> for FieldStop {
    ghost from_gives = { λ _ stop. stop ≡ FieldMemory };

    fn from(_refused: AllocFailed<T>) -> FieldStop {
        FieldStop::Memory
    }
}

impl From<AllocError> for ReadFault {
    ghost from_gives = { λ _ fault. fault ≡ ReadMemory };

    fn from(_refused: AllocError) -> ReadFault {
        ReadFault::Memory
    }
}

impl<T: Drop> From<AllocFailed<T>> for ReadFault {
    ghost from_gives = { λ _ fault. fault ≡ ReadMemory };

    fn from(_refused: AllocFailed<T>) -> ReadFault {
        ReadFault::Memory
    }
}

impl From<TextFault> for ReadFault {
    ghost from_gives = { λ fault read. read ≡ fault_of_text fault };

    fn from(fault: TextFault) -> ReadFault {
        ReadFault::stop_at(fault.line, ReadKind::Text(fault.kind))
    }
}

impl From<FieldStop> for ReadFault {
    ghost from_gives = { λ stop read. read ≡ fault_of_fields stop };

    fn from(stop: FieldStop) -> ReadFault {
        match stop {
            FieldStop::Text(fault) => ReadFault::from(fault),
            FieldStop::Memory => ReadFault::from(AllocError),
        }
    }
}
