// The whole text of a source.
ghost use Rattle.std.specs.Prelude.{◌≡◌};
ghost use Rattle.oz_base.specs.Reading.{ReadsText, RisesAtFault};
ghost use Rattle.oz_base.specs.declared.read.ReadError.TheVariants.{Memory};

use crate::Source;
use std::alloc::{AllocError, Global};
use thiserror::Error;

// How many bytes one read asks for.
const CHUNK: usize = 4096;

/// Why a text was not read to its end.
#[derive(Clone, Copy, Debug, PartialEq, Eq, Error)]
pub enum ReadError {
    /// The source failed.
    #[error("read fault")]
    Fault,

    /// The source gave more bytes than the limit, before any fault.
    #[error("text too long")]
    TooLong,

    /// No memory was left for the text.
    #[error("out of memory")]
    Memory,
}

impl From<AllocError> for ReadError {
    ghost from_gives = { λ _ e. e ≡ Memory };

    fn from(_: AllocError) -> Self {
        ReadError::Memory
    }
}

/// Reads a source to its end: a text of at most `limit` bytes. It stops at the first fault, and
/// past the limit. At every error the source has lost the bytes that were read.
pub fn read_text<S: Source>(alloc: Global, source: &mut S, limit: u64) -> Result<Vec<u8>, ReadError>
    ensures text { ReadsText limit (S.left source.old) (S.left source.new) result }
    ensures cause { RisesAtFault (S.faults source.old) (S.faults source.new) result }
{
    let mut text = Vec::new(alloc);
    let mut chunk = [0u8; CHUNK];
    'chunks: loop {
        let Ok(count) = source.read(&mut chunk) else {
            return Err(ReadError::Fault);
        };
        if count == 0 {
            return Ok(text);
        }
        if count as u64 > limit - text.len() as u64 {
            return Err(ReadError::TooLong);
        }
        text.extend_from_slice(&chunk[..count])?;
    }
}
