//! Each line with its newline is one piece.
ghost use Rattle.std.specs.Prelude.{None, Some};

use oz_base::{Failed, MemSource, Sink};
use oz_runner::{StoredWords, start};
use std::process::{Abort, ExitCode};
use std::test::Fail;
use tree_node::Line;

// The lines of a text that shows 5 and a record, and its end line.
static PIECES: [&[u8]; 3] = [b"5\n", b"a(6)\n", b"quiescent ended=1 waiting=0\n"];

// A sink that takes each piece whole, and keeps it.
#[derive(Drop)]
struct PieceSink<'a, R> {
    rt: &'a R,
    pieces: Vec<Line>,
}

impl<R: Abort + AllocGlobal> Sink for PieceSink<'_, R> {
    ghost taken = { λ _. None };

    ghost faults = { λ _. 0 };

    ghost pieces = { λ s. Some s.pieces.items };

    fn write(&mut self, piece: &[u8]) -> Result<usize, Failed> {
        let bytes = Vec::from_slice(self.rt.alloc(), piece).expect(self.rt, "memory");
        let kept = Line::from_vec(bytes).expect(self.rt, "memory");
        self.pieces.push(kept).expect(self.rt, "memory");
        Ok(piece.len())
    }
}

#[test]
fn a_sink_is_handed_one_line_after_the_other(rt: HostRuntime) -> Result<(), Fail> {
    let alloc = rt.alloc();
    let words = vec![in alloc;
        String::from_str(alloc, "oz")?,
        String::from_str(alloc, "central")?,
    ]?;
    let mut source = MemSource::new(b"{Browse 5} {Browse a(6)}", &[]);
    let mut sink = PieceSink {
        rt: &rt,
        pieces: Vec::new(alloc),
    };
    let code = start(&rt, StoredWords::new(words), &mut source, &mut sink);
    assert!(rt; code == ExitCode::SUCCESS);
    assert_eq!(rt; sink.pieces.len(), PIECES.len());
    for (kept, piece) in sink.pieces.iter().zip(PIECES.as_slice()) {
        assert_eq!(rt; kept.as_slice(), *piece);
    }
    Ok(())
}
