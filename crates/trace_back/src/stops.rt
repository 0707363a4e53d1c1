//! Why evidence does not come back.
ghost use Rattle.std.specs.Prelude.{◌≡◌};
ghost use Rattle.trace_back.specs.declared.stops.BackStop.TheVariants.{Wide as StopWide, Memory as StopMemory};

use frac128::Wide;
use std::alloc::{AllocError, AllocFailed};

/// Why evidence does not come back: the first operation that is too wide, or want of memory.
#[derive(Clone, Copy)]
pub enum BackStop {
    Wide(Wide),
    Memory,
}

impl From<Wide> for BackStop {
    ghost from_gives = { λ wide stop. stop ≡ StopWide wide };

    fn from(wide: Wide) -> BackStop {
        BackStop::Wide(wide)
    }
}

impl From<AllocError> for BackStop {
    ghost from_gives = { λ _ stop. stop ≡ StopMemory };

    fn from(_refused: AllocError) -> BackStop {
        BackStop::Memory
    }
}

impl<T: Drop> From<AllocFailed<T>> for BackStop {
    ghost from_gives = { λ _ stop. stop ≡ StopMemory };

    fn from(_refused: AllocFailed<T>) -> BackStop {
        BackStop::Memory
    }
}
