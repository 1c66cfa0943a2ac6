// A source and a sink over memory whose calls fail by a list of their numbers, for tests.
ghost use Rattle.std.specs.Prelude.{◌≤◌, Some, vec_len, vec_capacity};

use crate::counts::{count_call, count_fault};
use crate::{Failed, Sink, Source, SteadySource};
use std::alloc::{AllocError, Global};

/// A source of bytes in memory whose reads fail where their number is in the list, counted from 1.
/// A read that does not fail fills the buffer, as far as there are bytes.
#[derive(Drop)]
pub struct MemSource<'a> {
    bytes: SteadySource<'a>,
    failing: &'a [u64],
    calls: u64,
    faults: u64,
}

impl<'a> MemSource<'a> {
    ghost use Rattle.std.specs.Prelude.{◌≡◌};
    ghost use Rattle.oz_base.specs.Memory.{source_left, source_calls, source_failing, source_faults};

    /// A source that has made no call yet. The numbers may stand in any order, and more than once.
    pub fn new(bytes: &'a [u8], failing: &'a [u64]) -> Self
        ensures left { source_left result ≡ bytes.entry.now }
        ensures failing { source_failing result ≡ failing.entry.now }
        ensures calls { source_calls result ≡ 0 }
        ensures faults { source_faults result ≡ 0 }
    {
        MemSource {
            bytes: SteadySource::new(bytes),
            failing,
            calls: 0,
            faults: 0,
        }
    }

    /// How many reads there were, those that failed among them; it stays at `u64::MAX`.
    pub fn calls(&self) -> u64
        ensures { result ≡ source_calls self.now }
    {
        self.calls
    }
}

impl Source for MemSource<'_> {
    ghost use Rattle.std.specs.Prelude.{◌≡◌, ◌↔◌, min, length, Some, IsErr, IfOk, OnErr};
    ghost use Rattle.std.specs.Io.{ReadsAtMost};
    ghost use Rattle.std.specs.Io.KnownBytes.{ReadConsumes};
    ghost use Rattle.oz_base.specs.Streams.{HasCause};
    ghost use Rattle.oz_base.specs.Counts.{NextIsListed, one_more};
    ghost use Rattle.oz_base.specs.Memory.{source_left, source_calls, source_failing, source_faults};

    ghost left = { λ s. Some (source_left s) };

    ghost faults = { λ s. source_faults s };

    fn read(&mut self, buf: &mut [u8]) -> Result<usize, Failed>
        ensures bound { ReadsAtMost result buf.new }
        ensures bytes { ReadConsumes
            (Some (source_left self.old)) (Some (source_left self.new)) result buf.new }
        ensures cause { HasCause (source_faults self.old) (source_faults self.new) result }

        // Which calls fail, how much the others read, and the two counts.
        ensures fails { IsErr result
            ↔ NextIsListed (source_failing self.old) (source_calls self.old) }
        ensures count { IfOk result
            (λ n. n ≡ min (length (source_left self.old)) (length buf.old)) }
        ensures faults { OnErr result (source_faults self.new ≡ one_more (source_faults self.old)) }
        ensures calls { source_calls self.new ≡ one_more (source_calls self.old) }
        ensures failing { source_failing self.new ≡ source_failing self.old }
    {
        if count_call(&mut self.calls, self.failing) {
            return Err(count_fault(&mut self.faults));
        }
        self.bytes.read(buf)
    }
}

/// A sink in memory whose writes fail where their number is in the list, counted from 1. It takes
/// whole pieces, into a room whose size it is given. A piece that does not fit in what is left of
/// the room is a fault too.
#[derive(Drop)]
pub struct MemSink<'a> {
    taken: Vec<u8>,
    room: usize,
    failing: &'a [u64],
    calls: u64,
    faults: u64,
    ghost within: { vec_len taken ≤ room },
    ghost reserved: { room ≤ vec_capacity taken },
}

impl<'a> MemSink<'a> {
    ghost use Rattle.std.specs.Prelude.{◌≡◌, [], IfOk};
    ghost use Rattle.oz_base.specs.Memory.{sink_taken, sink_room, sink_calls, sink_failing, sink_faults};

    /// A sink that has made no call yet. `room` is in bytes, and all of it is reserved here: a
    /// write takes no memory.
    pub fn new(alloc: Global, failing: &'a [u64], room: usize) -> Result<Self, AllocError>
        ensures taken { IfOk result (λ s. sink_taken s ≡ []) }
        ensures room { IfOk result (λ s. sink_room s ≡ room) }
        ensures failing { IfOk result (λ s. sink_failing s ≡ failing.entry.now) }
        ensures calls { IfOk result (λ s. sink_calls s ≡ 0) }
        ensures faults { IfOk result (λ s. sink_faults s ≡ 0) }
    {
        Ok(MemSink {
            taken: Vec::with_capacity(alloc, room)?,
            room,
            failing,
            calls: 0,
            faults: 0,
        })
    }

    /// The bytes that it has taken.
    pub fn bytes(&self) -> &[u8]
        ensures { result.now ≡ sink_taken self.now }
    {
        &self.taken
    }

    /// How many writes there were, those that failed among them; it stays at `u64::MAX`.
    pub fn calls(&self) -> u64
        ensures { result ≡ sink_calls self.now }
    {
        self.calls
    }
}

impl Sink for MemSink<'_> {
    ghost use Rattle.std.specs.Prelude.{◌≡◌, ◌↔◌, ◌<◌, ◌+◌, ◌⊎◌, length, Some, IsErr, IfOk, OnErr};
    ghost use Rattle.std.specs.Io.{WritesAtMost};
    ghost use Rattle.std.specs.Io.KnownBytes.{WriteAppends};
    ghost use Rattle.oz_base.specs.Streams.{HasCause};
    ghost use Rattle.oz_base.specs.Counts.{NextIsListed, one_more};
    ghost use Rattle.oz_base.specs.Memory.{sink_taken, sink_room, sink_calls, sink_failing, sink_faults};

    ghost taken = { λ s. Some (sink_taken s) };

    ghost faults = { λ s. sink_faults s };

    fn write(&mut self, piece: &[u8]) -> Result<usize, Failed>
        requires { 0 < length piece.now }
        ensures bound { WritesAtMost result piece.now }
        ensures some { IfOk result (λ n. 0 < n) }
        ensures bytes { WriteAppends
            (Some (sink_taken self.old)) (Some (sink_taken self.new)) result piece.now }
        ensures cause { HasCause (sink_faults self.old) (sink_faults self.new) result }

        // Which calls fail, that the others take the whole piece, and the two counts.
        ensures fails { IsErr result
            ↔ (NextIsListed (sink_failing self.old) (sink_calls self.old)
            ⊎ (sink_room self.old < length (sink_taken self.old) + length piece.now)) }
        ensures whole { IfOk result (λ n. n ≡ length piece.now) }
        ensures faults { OnErr result (sink_faults self.new ≡ one_more (sink_faults self.old)) }
        ensures calls { sink_calls self.new ≡ one_more (sink_calls self.old) }
        ensures failing { sink_failing self.new ≡ sink_failing self.old }
        ensures room { sink_room self.new ≡ sink_room self.old }
    {
        let is_listed = count_call(&mut self.calls, self.failing);
        if is_listed || piece.len() > self.room - self.taken.len() {
            return Err(count_fault(&mut self.faults));
        }
        self.taken.extend_from_slice(piece).unwrap();
        Ok(piece.len())
    }
}
