// The readers and writers of std, with a count of their faults.
use crate::counts::count_fault;
use crate::{Failed, Sink, Source};
use std::io::{Read, Write};

/// A reader of std as a source, such as standard input. Each of its errors is a fault, an
/// interrupted call among them. It tells its bytes where the reader does; files and streams of the
/// system do not.
#[derive(Drop)]
pub struct StdSource<R> {
    inner: R,
    faults: u64,
}

impl<R> StdSource<R> {
    ghost use Rattle.std.specs.Prelude.{◌≡◌};
    ghost use Rattle.oz_base.specs.System.{std_reader, std_source_faults};

    /// A source over this reader, which has had no fault yet.
    pub fn new(inner: R) -> Self
        ensures reader { std_reader result ≡ inner }
        ensures faults { std_source_faults result ≡ 0 }
    {
        StdSource { inner, faults: 0 }
    }
}

impl<R: Read> Source for StdSource<R> {
    ghost left = { λ s. R.remaining s.inner };

    ghost faults = { λ s. s.faults };

    fn read(&mut self, buf: &mut [u8]) -> Result<usize, Failed> {
        match self.inner.read(buf) {
            Ok(count) => Ok(count),
            Err(_) => Err(count_fault(&mut self.faults)),
        }
    }
}

/// A writer of std as a sink, such as standard output. Each of its errors is a fault, an
/// interrupted call among them, and so is a write that takes nothing. It tells its bytes where the
/// writer does; files and streams of the system do not.
#[derive(Drop)]
pub struct StdSink<W> {
    inner: W,
    faults: u64,
}

impl<W> StdSink<W> {
    ghost use Rattle.std.specs.Prelude.{◌≡◌};
    ghost use Rattle.oz_base.specs.System.{std_writer, std_sink_faults};

    /// A sink over this writer, which has had no fault yet.
    pub fn new(inner: W) -> Self
        ensures writer { std_writer result ≡ inner }
        ensures faults { std_sink_faults result ≡ 0 }
    {
        StdSink { inner, faults: 0 }
    }
}

impl<W: Write> Sink for StdSink<W> {
    ghost taken = { λ s. W.contents s.inner };

    ghost faults = { λ s. s.faults };

    fn write(&mut self, piece: &[u8]) -> Result<usize, Failed> {
        match self.inner.write(piece) {
            Ok(count) if count > 0 => Ok(count),
            _ => Err(count_fault(&mut self.faults)),
        }
    }
}
