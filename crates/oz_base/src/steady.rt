// A source over memory and a sink that never fail: their count of faults is the constant 0.
ghost use Rattle.std.specs.Prelude.{◌≡◌, ◌<◌, Some, None, IfOk, length};
ghost use Rattle.std.specs.Io.{WritesAtMost};
ghost use Rattle.std.specs.Io.KnownBytes.{WriteAppends};
ghost use Rattle.oz_base.specs.Streams.{HasCause};

use crate::{Failed, Sink, Source};

/// A source of bytes in memory that never fails. Each read fills the buffer, as far as there are
/// bytes.
#[derive(Drop)]
pub struct SteadySource<'a> {
    rest: &'a [u8],
}

impl<'a> SteadySource<'a> {
    ghost use Rattle.std.specs.Prelude.{◌≡◌};
    ghost use Rattle.oz_base.specs.Steady.{steady_left};

    /// A source of these bytes.
    pub fn new(bytes: &'a [u8]) -> Self
        ensures { steady_left result ≡ bytes.entry.now }
    {
        SteadySource { rest: bytes }
    }
}

impl Source for SteadySource<'_> {
    ghost use Rattle.std.specs.Prelude.{◌≡◌, min, length, Some, IsOk, IfOk};
    ghost use Rattle.std.specs.Io.{ReadsAtMost};
    ghost use Rattle.std.specs.Io.KnownBytes.{ReadConsumes};
    ghost use Rattle.oz_base.specs.Streams.{HasCause};
    ghost use Rattle.oz_base.specs.Steady.{steady_left};

    ghost left = { λ s. Some s.rest.now };

    ghost faults = { λ _. 0 };

    fn read(&mut self, buf: &mut [u8]) -> Result<usize, Failed>
        ensures bound { ReadsAtMost result buf.new }
        ensures bytes { ReadConsumes
            (Some (steady_left self.old)) (Some (steady_left self.new)) result buf.new }
        ensures cause { HasCause 0 0 result }
        ensures ok { IsOk result }
        ensures count { IfOk result
            (λ n. n ≡ min (length (steady_left self.old)) (length buf.old)) }
    {
        let count = self.rest.len().min(buf.len());
        let (front, rest) = self.rest.split_at(count);
        buf[..count].copy_from_slice(front);
        self.rest = rest;
        Ok(count)
    }
}

/// A sink that takes every piece whole, never fails, and tells no bytes: to tell them it would have
/// to keep them, and what keeps bytes without end may find no memory. Where the bytes are wanted,
/// `MemSink` keeps them, in a room of a known size.
#[derive(Drop)]
pub struct SteadySink;

impl Sink for SteadySink {
    ghost taken = { λ _. None };

    ghost faults = { λ _. 0 };

    fn write(&mut self, piece: &[u8]) -> Result<usize, Failed>
        requires { 0 < length piece.now }
        ensures bound { WritesAtMost result piece.now }
        ensures some { IfOk result (λ n. 0 < n) }
        ensures bytes { WriteAppends None None result piece.now }
        ensures cause { HasCause 0 0 result }
        ensures whole { IfOk result (λ n. n ≡ length piece.now) }
    {
        Ok(piece.len())
    }
}
