//! Texts, and what the whole call makes of them.

use crate::endless::ROUNDS;
use crate::examples::EXAMPLES;
use crate::more_examples::MORE_EXAMPLES;
use crate::rows::{FAILING, LIST, LISTED, Listed, REFUSED, RUNS, USAGE, WIDE, WORDED};
use oz_base::{MemSink, MemSource};
use oz_runner::{Gate, OpenGate, Report, Status, oz};
use std::alloc::{AllocError, Global};
use std::process::Abort;
use std::sync::Wait;
use std::test::Fail;
use std::thread::Threads;

fn words_of(alloc: Global, words: &[&str]) -> Result<Vec<String>, AllocError> {
    let mut list = Vec::new(alloc);
    list.push(String::from_str(alloc, "oz")?)?;
    for word in words {
        list.push(String::from_str(alloc, word)?)?;
    }
    Ok(list)
}

/// These words, and so many workers.
pub fn with_workers(
    alloc: Global,
    words: &[&'static str],
    workers: &'static str,
) -> Result<Vec<&'static str>, AllocError> {
    let mut all = Vec::new(alloc);
    for word in words {
        all.push(*word)?;
    }
    all.push("--workers")?;
    all.push(workers)?;
    Ok(all)
}

/// What `oz` tells of these words. It is the one caller: what a call of `oz` promises is long.
pub fn report_of<R: Abort + Threads + Wait + Sync, G: Gate + Sync>(
    rt: &R,
    alloc: Global,
    words: &[&str],
    source: &mut MemSource<'_>,
    sink: &mut MemSink<'_>,
    gate: &G,
) -> Result<Report, AllocError> {
    let list = words_of(alloc, words)?;
    assert!(rt; !list.is_empty());
    Ok(oz(rt, alloc, &list, source, sink, gate))
}

/// Gives the turns of a report up. Its status, and how many picks its schedule has.
pub fn give_up(report: Report) -> (Status, usize) {
    let Report {
        status,
        schedule,
        journal,
    } = report;
    journal.forget();
    (status, schedule.len())
}

// These bytes, the status' number and the length of the schedule.
fn answer_of<R: Abort>(
    rt: &R,
    alloc: Global,
    bytes: &[u8],
    report: Report,
) -> Result<(Vec<u8>, u8, usize), AllocError> {
    let Report {
        status,
        schedule,
        journal,
    } = report;
    journal.forget();
    let count = schedule.len();
    let picks = schedule.into_vec(alloc)?;
    assert_eq!(rt; picks.len(), count);
    Ok((Vec::from_slice(alloc, bytes)?, status.number(), count))
}

/// The bytes taken, the status' number and the length of the schedule, with room for two thousand bytes.
pub fn answer<R: Abort + Threads + Wait + Sync>(
    rt: &R,
    alloc: Global,
    words: &[&str],
    text: &[u8],
    reads: &[u64],
    writes: &[u64],
) -> Result<(Vec<u8>, u8, usize), AllocError> {
    let mut source = MemSource::new(text, reads);
    let mut sink = MemSink::new(alloc, writes, 2000)?;
    let report = report_of(rt, alloc, words, &mut source, &mut sink, &OpenGate)?;
    answer_of(rt, alloc, sink.bytes(), report)
}

// A text is refused with this line.
fn expect_refusal<R: Abort + Threads + Wait + Sync>(
    rt: &R,
    alloc: Global,
    text: &[u8],
    line: &str,
) -> Result<(), AllocError> {
    let told = answer(rt, alloc, &[], text, &[], &[])?;
    let bytes = format!(in alloc; "{line}\n")?;
    assert_eq!(rt; told.0.as_slice(), bytes.as_bytes());
    assert_eq!(rt; told.1, 3, "{line}");
    Ok(())
}

// These words and this text have these bytes as their output, and this number.
fn expect_output<R: Abort + Threads + Wait + Sync>(
    rt: &R,
    alloc: Global,
    words: &[&str],
    text: &str,
    bytes: &str,
    number: u8,
) -> Result<(), AllocError> {
    let told = answer(rt, alloc, words, text.as_bytes(), &[], &[])?;
    assert_eq!(rt; told.0.as_slice(), bytes.as_bytes(), "{text}");
    assert_eq!(rt; told.1, number, "{text}");
    Ok(())
}

#[test]
fn texts_have_their_output(rt: HostRuntime) -> Result<(), Fail> {
    let alloc = rt.alloc();
    for workers in ["0", "4"] {
        for row in RUNS.as_slice() {
            let words = with_workers(alloc, &[], workers)?;
            expect_output(&rt, alloc, &words, row.0, row.1, row.2)?;
        }
    }
    Ok(())
}

#[test]
fn texts_have_their_output_by_words(rt: HostRuntime) -> Result<(), Fail> {
    let alloc = rt.alloc();
    for workers in ["0", "4"] {
        for row in WORDED.as_slice() {
            let words = with_workers(alloc, row.0, workers)?;
            expect_output(&rt, alloc, &words, row.1, row.2, row.3)?;
        }
    }
    Ok(())
}

#[test]
fn examples_have_their_output(rt: HostRuntime) -> Result<(), Fail> {
    for example in EXAMPLES.as_slice() {
        expect_output(&rt, rt.alloc(), &[], example.0, example.1, example.2)?;
    }
    Ok(())
}

#[test]
fn more_examples_have_their_output(rt: HostRuntime) -> Result<(), Fail> {
    for example in MORE_EXAMPLES.as_slice() {
        expect_output(&rt, rt.alloc(), &[], example.0, example.1, example.2)?;
    }
    Ok(())
}

#[test]
fn as_many_workers_as_may_be_come_to_the_end(rt: HostRuntime) -> Result<(), Fail> {
    for row in WIDE.as_slice() {
        expect_output(&rt, rt.alloc(), row.0, row.1, row.2, row.3)?;
    }
    Ok(())
}

#[test]
fn sites_without_workers_take_turns_in_rounds(rt: HostRuntime) -> Result<(), Fail> {
    for row in ROUNDS.as_slice() {
        expect_output(&rt, rt.alloc(), row.0, row.1, row.2, row.3)?;
    }
    Ok(())
}

// A text that is as deep as may be.
#[test]
fn a_deep_program_runs(rt: HostRuntime) -> Result<(), Fail> {
    let alloc = rt.alloc();
    let mut text = Vec::new(alloc);
    for _ in 0..199 {
        text.extend_from_slice(b"local X in ")?;
    }
    text.extend_from_slice(b"skip")?;
    for _ in 0..199 {
        text.extend_from_slice(b" end")?;
    }
    let told = answer(&rt, alloc, &[], &text, &[], &[])?;
    assert_eq!(rt;
        told.0.as_slice(),
        b"quiescent ended=1 waiting=0\n".as_slice()
    );
    assert_eq!(rt; told.1, 0);
    Ok(())
}

// The source, whose first call would fail, is not read.
#[test]
fn words_are_refused_before_a_text_is_read(rt: HostRuntime) -> Result<(), Fail> {
    let alloc = rt.alloc();
    for words in USAGE.as_slice() {
        let told = answer(&rt, alloc, words, b"skip", &[1], &[])?;
        assert_eq!(rt; told.0.as_slice(), b"usage\n".as_slice(), "{words:?}");
        assert_eq!(rt; told.1, 2, "{words:?}");
    }
    Ok(())
}

#[test]
fn texts_are_refused_at_their_first_fault(rt: HostRuntime) -> Result<(), Fail> {
    let alloc = rt.alloc();
    for row in REFUSED.as_slice() {
        expect_refusal(&rt, alloc, row.0.as_bytes(), row.1)?;
    }
    Ok(())
}

#[test]
fn calls_that_fail_end_the_work(rt: HostRuntime) -> Result<(), Fail> {
    let alloc = rt.alloc();
    for row in FAILING.as_slice() {
        let (words, text, reads, writes, bytes, number) = *row;
        let told = answer(&rt, alloc, words, text.as_bytes(), reads, writes)?;
        assert_eq!(rt; told.0.as_slice(), bytes.as_bytes());
        assert_eq!(rt; told.1, number);
    }
    Ok(())
}

// A byte, and so many blanks behind it.
fn before_blanks(alloc: Global, first: u8, blanks: usize) -> Result<Vec<u8>, AllocError> {
    let mut bytes = Vec::new(alloc);
    bytes.push(first)?;
    let rest = vec![in alloc; b' '; blanks]?;
    bytes.extend_from_slice(&rest)?;
    Ok(bytes)
}

#[test]
fn bytes_are_refused_before_a_text_is_read(rt: HostRuntime) -> Result<(), Fail> {
    let alloc = rt.alloc();
    expect_refusal(&rt, alloc, b"skip\xff", "refused byte 4 not UTF-8")?;
    let long = before_blanks(alloc, b' ', 1_048_576)?;
    expect_refusal(&rt, alloc, &long, "refused text too long")?;
    let longest = before_blanks(alloc, b' ', 1_048_575)?;
    expect_refusal(
        &rt,
        alloc,
        &longest,
        "refused 1:1048577 expected a statement",
    )?;
    let long = before_blanks(alloc, 255, 1_048_576)?;
    expect_refusal(&rt, alloc, &long, "refused text too long")?;
    let longest = before_blanks(alloc, 255, 1_048_575)?;
    expect_refusal(&rt, alloc, &longest, "refused byte 0 not UTF-8")?;
    Ok(())
}

// The line of a list of so many atoms, up to where it ends or is cut.
fn push_line(alloc: Global, lines: &mut Vec<u8>, count: u64, end: &str) -> Result<(), AllocError> {
    for _ in 0..count {
        lines.extend_from_slice(b"a|")?;
    }
    let rest = format!(in alloc; "{end}\n")?;
    lines.extend_from_slice(rest.as_bytes())?;
    Ok(())
}

// What is printed of a list of so many atoms.
fn shows_list<R: Abort + Threads + Wait + Sync>(
    rt: &R,
    alloc: Global,
    workers: &'static str,
    row: &Listed,
) -> Result<(), AllocError> {
    let (words, count, shown, end, last, number) = *row;
    let front = format!(in alloc; "local Mk One Zero A N L in One = 1 Zero = 0 A = a N = {count}")?;
    let mut text = Vec::from_slice(alloc, front.as_bytes())?;
    text.extend_from_slice(LIST.as_bytes())?;
    text.extend_from_slice(shown.as_bytes())?;
    let mut lines = Vec::new(alloc);
    if number == 0 {
        push_line(alloc, &mut lines, count, end)?;
    }
    lines.extend_from_slice(last.as_bytes())?;
    lines.push(b'\n')?;
    let words = with_workers(alloc, words, workers)?;
    let told = answer(rt, alloc, &words, &text, &[], &[])?;
    assert_eq!(rt; told.0.as_slice(), lines.as_slice());
    assert_eq!(rt; told.1, number);
    Ok(())
}

#[test]
fn long_lists_are_cut(rt: HostRuntime) -> Result<(), Fail> {
    let alloc = rt.alloc();
    for workers in ["0", "4"] {
        for row in LISTED.as_slice() {
            shows_list(&rt, alloc, workers, row)?;
        }
    }
    Ok(())
}

// A text as long as may be, of 209,715 statements: it is read to its end, and stopped after its first step.
#[test]
fn a_long_program_is_read_and_runs(rt: HostRuntime) -> Result<(), Fail> {
    let alloc = rt.alloc();
    let mut text = Vec::new(alloc);
    for _ in 0..209_715 {
        text.extend_from_slice(b"skip ")?;
    }
    text.push(b' ')?;
    let told = answer(&rt, alloc, &["--steps", "1"], &text, &[], &[])?;
    assert_eq!(rt; told.0.as_slice(), b"stopped steps site=1\n".as_slice());
    assert_eq!(rt; told.1, 4);
    Ok(())
}
