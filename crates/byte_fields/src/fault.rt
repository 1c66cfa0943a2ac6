//! What is wrong with bytes that are no text of a format.

ghost use Rattle.std.specs.Prelude.{◌≡◌};
ghost use Rattle.byte_fields.specs.declared.fault.FileFault.TheVariants.{Memory};

use std::alloc::{AllocError, AllocFailed};

/// Why bytes are no text of a format.
#[derive(Clone, Copy, Debug, PartialEq, Eq)]
pub enum FileFault {
    /// The first byte, counted from 0, at which no text of the format goes on so; the first digit of a number that is out of range.
    Bad(usize),

    /// No memory was left for what the text says.
    Memory,
}

impl From<AllocError> for FileFault {
    ghost from_gives = { λ _ e. e ≡ Memory };

    fn from(_: AllocError) -> FileFault {
        FileFault::Memory
    }
}

impl<T: Drop> From<AllocFailed<T>> for FileFault {
    ghost from_gives = { λ _ e. e ≡ Memory };

    fn from(_: AllocFailed<T>) -> FileFault {
        FileFault::Memory
    }
}
