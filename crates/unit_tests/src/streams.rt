// What no clause says: that each call succeeds where there is memory, how often a text is read, and
// what stands over a reader and a writer of std.
ghost use Rattle.std.specs.Prelude.{Some};
ghost use Rattle.oz_base.specs.Memory.{source_left, source_faults};

use oz_base::{
    Failed, MemSink, MemSource, ReadError, Source, StdSink, StdSource, SteadySink, SteadySource,
    read_text, write_piece,
};
use std::io;
use std::io::Read;
use std::test::Fail;

// The bytes, the calls that fail, the limit; what is read, and in how many calls.
type Reading = (
    &'static [u8],
    &'static [u64],
    u64,
    Result<&'static [u8], ReadError>,
    u64,
);

static READINGS: [Reading; 8] = [
    (b"", &[], 0, Ok(b""), 1),
    (b"abc", &[], 3, Ok(b"abc"), 2),
    (b"abc", &[3], 3, Ok(b"abc"), 2),
    (b"abc", &[], 2, Err(ReadError::TooLong), 1),
    (b"abc", &[2], 2, Err(ReadError::TooLong), 1),
    (b"abc", &[2], 3, Err(ReadError::Fault), 2),
    (b"abc", &[1], 0, Err(ReadError::Fault), 1),
    (b"", &[1], 0, Err(ReadError::Fault), 1),
];

#[test]
fn a_text_is_read_to_its_end_or_to_its_first_error(rt: HostRuntime) {
    for row in READINGS.as_slice() {
        let (bytes, failing, limit, expected, calls) = *row;
        let mut source = MemSource::new(bytes, failing);
        let text = read_text(rt.alloc(), &mut source, limit);
        assert_eq!(rt;
            text.as_deref(),
            expected.as_deref(),
            "{bytes:?} {failing:?} {limit}"
        );
        assert_eq!(rt; source.calls(), calls, "{bytes:?} {failing:?} {limit}");
        assert!(rt; calls <= bytes.len() as u64 + 1);
    }
}

// A source that gives one byte a call.
#[derive(Drop)]
struct ByteByByte<'a> {
    source: MemSource<'a>,
}

impl Source for ByteByByte<'_> {
    ghost left = { λ s. Some (source_left s.source) };

    ghost faults = { λ s. source_faults s.source };

    fn read(&mut self, buf: &mut [u8]) -> Result<usize, Failed> {
        self.source.read(&mut buf[..1])
    }
}

#[test]
fn a_text_is_read_in_one_call_a_byte_and_one_more(rt: HostRuntime) -> Result<(), Fail> {
    let mut source = ByteByByte {
        source: MemSource::new(b"abc", &[]),
    };
    let text = read_text(rt.alloc(), &mut source, 3)?;
    assert_eq!(rt; text.as_slice(), b"abc".as_slice());
    assert_eq!(rt; source.source.calls(), 4);
    Ok(())
}

// A reader that fills each buffer as far as it has bytes, and counts its calls.
#[derive(Drop)]
struct Filling {
    left: usize,
    calls: u64,
}

impl Read for &mut Filling {
    fn read(&mut self, buf: &mut [u8]) -> io::Result<usize> {
        let count = buf.len().min(self.left);
        buf[..count].fill(b'x');
        self.left -= count;
        self.calls = self.calls.saturating_add(1);
        Ok(count)
    }
}

// Standard input costs a call of the system for each read: it is asked for as much as the buffer holds.
#[test]
fn a_reader_is_asked_for_whole_chunks(rt: HostRuntime) -> Result<(), Fail> {
    let mut reader = Filling {
        left: 10_000,
        calls: 0,
    };
    let text = read_text(rt.alloc(), &mut StdSource::new(&mut reader), 10_000)?;
    assert_eq!(rt; text.as_slice(), [b'x'; 10_000].as_slice());
    assert_eq!(rt; reader.calls, 4, "4096, 4096, 1808 and the end");
    Ok(())
}

// The calls that fail and the room; what the writes of `ab` and `cd` answer, and the bytes that are
// taken.
type Writing = (
    &'static [u64],
    usize,
    Result<(), Failed>,
    Result<(), Failed>,
    &'static [u8],
);

static WRITINGS: [Writing; 5] = [
    (&[], 4, Ok(()), Ok(()), b"abcd"),
    (&[3], 4, Ok(()), Ok(()), b"abcd"),
    (&[1], 4, Err(Failed), Ok(()), b"cd"),
    (&[2], 4, Ok(()), Err(Failed), b"ab"),
    (&[], 3, Ok(()), Err(Failed), b"ab"),
];

#[test]
fn a_piece_is_taken_whole_where_its_call_is_not_listed_and_it_fits(
    rt: HostRuntime,
) -> Result<(), Fail> {
    for row in WRITINGS.as_slice() {
        let (failing, room, first, second, taken) = *row;
        let mut sink = MemSink::new(rt.alloc(), failing, room)?;
        assert_eq!(rt; write_piece(&mut sink, b"ab"), first, "{failing:?} {room}");
        assert_eq!(rt; write_piece(&mut sink, b"cd"), second, "{failing:?} {room}");
        assert_eq!(rt; sink.bytes(), taken, "{failing:?} {room}");
        assert_eq!(rt; sink.calls(), 2, "{failing:?} {room}");
    }
    Ok(())
}

#[test]
fn a_steady_source_and_sink_do_not_fail(rt: HostRuntime) -> Result<(), Fail> {
    let text = read_text(rt.alloc(), &mut SteadySource::new(b"abc"), 3)?;
    assert_eq!(rt; text.as_slice(), b"abc".as_slice());
    assert_eq!(rt; write_piece(&mut SteadySink, b"abc"), Ok(()));
    Ok(())
}

// A reader whose every read fails.
#[derive(Drop)]
struct Broken;

impl Read for Broken {
    fn read(&mut self, _buf: &mut [u8]) -> io::Result<usize> {
        Err(io::ErrorKind::Other.into())
    }
}

#[test]
fn an_error_of_a_reader_is_a_fault(rt: HostRuntime) -> Result<(), Fail> {
    let bytes: &[u8] = b"abc";
    let text = read_text(rt.alloc(), &mut StdSource::new(bytes), 3)?;
    assert_eq!(rt; text.as_slice(), bytes);
    let broken = read_text(rt.alloc(), &mut StdSource::new(bytes.chain(Broken)), 3);
    assert!(rt; matches!(&broken, Err(ReadError::Fault)));
    Ok(())
}

#[test]
fn a_write_that_takes_nothing_is_a_fault(rt: HostRuntime) -> Result<(), Fail> {
    let mut bytes = Vec::new(rt.alloc());
    write_piece(&mut StdSink::new(&mut bytes), b"abc")?;
    assert_eq!(rt; bytes.as_slice(), b"abc".as_slice());
    let mut room = [0; 2];
    let full = write_piece(&mut StdSink::new(room.as_mut_slice()), b"abc");
    assert_eq!(rt; full, Err(Failed));
    assert_eq!(rt; room.as_slice(), b"ab".as_slice());
    Ok(())
}
