//! The program with words in memory, and without words.

use oz_base::{MemSink, MemSource};
use oz_runner::{NoWords, StoredWords, Words, start};
use std::alloc::{AllocError, Global};
use std::process::{Abort, ExitCode};
use std::sync::Wait;
use std::test::Fail;
use std::thread::Threads;

// No words, for this reason.
#[derive(Drop)]
struct Wordless {
    why: NoWords,
}

impl Words for Wordless {
    ghost use Rattle.std.specs.Prelude.{None};

    ghost told = { λ w. None };

    fn into_words(self, _alloc: Global) -> Result<Vec<String>, NoWords> {
        Err(self.why)
    }
}

// The name of the program, and this word after it.
fn stored(alloc: Global, word: &str) -> Result<StoredWords, AllocError> {
    let words = vec![in alloc;
        String::from_str(alloc, "oz")?,
        String::from_str(alloc, word)?,
    ]?;
    Ok(StoredWords::new(words))
}

// With these words, a text that shows 5 has this output and is read by so many calls, and the program ends so.
fn expect_end<R: Abort + AllocGlobal + Threads + Wait + Sync, W: Words + Drop>(
    rt: &R,
    alloc: Global,
    words: W,
    bytes: &[u8],
    end: ExitCode,
    reads: u64,
) -> Result<(), AllocError> {
    let mut source = MemSource::new(b"local X in X = 5 {Browse X} end", &[]);
    let mut sink = MemSink::new(alloc, &[], 100)?;
    let code = start(rt, words, &mut source, &mut sink);
    assert_eq!(rt; sink.bytes(), bytes);
    assert!(rt; code == end);
    assert_eq!(rt; source.calls(), reads);
    Ok(())
}

// Why there are no words, the output, and the number that the program ends with.
static WORDLESS: [(NoWords, &[u8], u8); 2] = [
    (NoWords::NotText, b"usage\n", 2),
    (NoWords::Memory, b"out of memory\n", 8),
];

#[test]
fn the_words_that_are_given_are_those_of_the_call(rt: HostRuntime) -> Result<(), Fail> {
    let alloc = rt.alloc();
    expect_end(
        &rt,
        alloc,
        stored(alloc, "central")?,
        b"5\nquiescent ended=1 waiting=0\n",
        ExitCode::SUCCESS,
        2,
    )?;
    expect_end(
        &rt,
        alloc,
        stored(alloc, "walk")?,
        b"usage\n",
        ExitCode::from(2),
        0,
    )?;
    Ok(())
}

#[test]
fn without_words_nothing_is_read(rt: HostRuntime) -> Result<(), Fail> {
    let alloc = rt.alloc();
    for row in WORDLESS.as_slice() {
        let (why, bytes, number) = *row;
        expect_end(
            &rt,
            alloc,
            Wordless { why },
            bytes,
            ExitCode::from(number),
            0,
        )?;
    }
    Ok(())
}
