//! Turns of two sites are under way at once.

use crate::texts::{give_up, report_of, with_workers};
use oz_base::{MemSink, MemSource};
use oz_runner::{Gate, Status};
use std::alloc::{AllocError, Global};
use std::process::Abort;
use std::sync::Wait;
use std::sync::atomic::AtomicU64;
use std::sync::atomic::Ordering::SeqCst;
use std::test::Fail;
use std::thread::Threads;

// A gate that holds the second turn of site 1 until the first turn of site 2 has come, and that one until the second
// turn of site 1 has. Each gives up after so many polls, and notes it.
#[derive(Drop)]
struct Meeting {
    first: AtomicU64,
    second: AtomicU64,
    gave_up: AtomicU64,
}

const POLLS: u32 = 50_000_000;

impl Meeting {
    // Notes that one has come, and waits for the other.
    fn meet(&self, mine: &AtomicU64, other: &AtomicU64) {
        mine.store(1, SeqCst);
        for _ in 0..POLLS {
            if other.load(SeqCst) == 1 {
                return;
            }
        }
        self.gave_up.store(1, SeqCst);
    }
}

impl Gate for Meeting {
    fn before_turn<R: Wait>(&self, _rt: &R, site: u32, turn: u64) {
        if site == 1 && turn == 2 {
            self.meet(&self.first, &self.second);
        }
        if site == 2 && turn == 1 {
            self.meet(&self.second, &self.first);
        }
    }
}

const TWO_LOOPS: &str = "local P in P = proc {$} {P} end thread at 2 {P} end {P} end";

// Runs the two loops with so many workers. It tells whether a turn gave up, and how the run ended.
fn run_loops<R: Abort + Threads + Wait + Sync>(
    rt: &R,
    alloc: Global,
    workers: &'static str,
) -> Result<(bool, Status), AllocError> {
    let words = with_workers(alloc, &["--sites", "2", "--steps", "1000"], workers)?;
    let mut source = MemSource::new(TWO_LOOPS.as_bytes(), &[]);
    let mut sink = MemSink::new(alloc, &[], 2000)?;
    let gate = Meeting {
        first: AtomicU64::new(0),
        second: AtomicU64::new(0),
        gave_up: AtomicU64::new(0),
    };
    let report = report_of(rt, alloc, &words, &mut source, &mut sink, &gate)?;
    let (status, _) = give_up(report);
    Ok((gate.gave_up.load(SeqCst) == 1, status))
}

#[test]
fn two_turns_are_under_way_at_once(rt: HostRuntime) -> Result<(), Fail> {
    let (gave_up, status) = run_loops(&rt, rt.alloc(), "2")?;
    assert!(rt; !gave_up);
    assert!(rt; matches!(status, Status::StepLimit(1) | Status::StepLimit(2)));
    assert_eq!(rt; status.number(), 4);
    Ok(())
}

#[test]
fn one_thread_alone_gives_up(rt: HostRuntime) -> Result<(), Fail> {
    let (gave_up, _) = run_loops(&rt, rt.alloc(), "1")?;
    assert!(rt; gave_up);
    Ok(())
}
