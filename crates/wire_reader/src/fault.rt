//! What is wrong with bytes that spell no message.

ghost use Rattle.std.specs.Prelude.{◌≡◌};
ghost use Rattle.wire_reader.specs.declared.fault.WireFault.TheVariants.{Memory};

use std::alloc::{AllocError, AllocFailed};
use thiserror::Error;

/// Why bytes spell no message: the first fault from left to right, at its place, counted from 0.
#[derive(Clone, Copy, Debug, PartialEq, Eq, Error)]
pub enum WireFault {
    /// The bytes of a field do not all stand. The place is the length of the bytes.
    #[error("the bytes end at {0}")]
    Short(usize),

    /// A kind of message, of term or of feature that there is not.
    #[error("unknown kind at {0}")]
    Kind(usize),

    /// A site or a count outside its range.
    #[error("number out of range at {0}")]
    Range(usize),

    /// A feature or a name of a bundle that is not above the one before. The place is its first byte.
    #[error("out of order at {0}")]
    Order(usize),

    /// A text that is not UTF-8. The place is its first byte, after its length.
    #[error("not UTF-8 at {0}")]
    Utf8(usize),

    /// Bytes after the message. The place is the first of them.
    #[error("bytes left over at {0}")]
    Rest(usize),

    /// No memory was left for the message.
    #[error("out of memory")]
    Memory,
}

impl From<AllocError> for WireFault {
    ghost from_gives = { λ _ e. e ≡ Memory };

    fn from(_: AllocError) -> WireFault {
        WireFault::Memory
    }
}

impl<T: Drop> From<AllocFailed<T>> for WireFault {
    ghost from_gives = { λ _ e. e ≡ Memory };

    fn from(_: AllocFailed<T>) -> WireFault {
        WireFault::Memory
    }
}
