// A source and a sink of bytes.
ghost use Rattle.std.specs.Prelude.{◌<◌, List, None, ℕ, length, IfOk};
ghost use Rattle.std.specs.declared.option.Option.{Option};
ghost use Rattle.std.specs.Io.{ReadsAtMost, WritesAtMost};
ghost use Rattle.std.specs.Io.KnownBytes.{ReadConsumes, WriteAppends};
ghost use Rattle.oz_base.specs.Streams.{HasCause, HandsIn};

use thiserror::Error;

/// A call of a source or a sink has failed; the cause is not told, and the count of faults has
/// risen.
#[derive(Clone, Copy, Debug, PartialEq, Eq, Error)]
#[error("failed")]
pub struct Failed;

/// What gives the bytes of a program's text, in order: standard input, or bytes in memory.
pub trait Source {
    /// The bytes that it has left, where it tells them.
    ghost left: { Self → Option (List ℕ) };

    /// How often it has failed.
    ghost faults: { Self → ℕ };

    /// Reads at least one byte into the front of the buffer and says how many, or 0 at the end of
    /// input. A call that fails gives no bytes; the source may be read again.
    fn read(&mut self, buf: &mut [u8]) -> Result<usize, Failed>
        requires { 0 < length buf.old }
        ensures bound { ReadsAtMost result buf.new }
        ensures bytes { ReadConsumes (left self.old) (left self.new) result buf.new }
        ensures cause { HasCause (faults self.old) (faults self.new) result };
}

/// What takes a program's output, in order: standard output, or memory.
pub trait Sink {
    /// The bytes that it has taken, where it tells them.
    ghost taken: { Self → Option (List ℕ) };

    /// How often it has failed.
    ghost faults: { Self → ℕ };

    /// The pieces that its calls were handed, where it tells them.
    ghost pieces: { Self → Option (List (List ℕ)) } = { λ _. None };

    /// Takes at least one byte of the piece's front and says how many; `write_piece` writes all of
    /// it. A call that fails takes no bytes; the sink may be written again.
    fn write(&mut self, piece: &[u8]) -> Result<usize, Failed>
        requires { 0 < length piece.now }
        ensures bound { WritesAtMost result piece.now }
        ensures some { IfOk result (λ n. 0 < n) }
        ensures bytes { WriteAppends (taken self.old) (taken self.new) result piece.now }
        ensures pieces { HandsIn (pieces self.old) (pieces self.new) piece.now }
        ensures cause { HasCause (faults self.old) (faults self.new) result };
}
