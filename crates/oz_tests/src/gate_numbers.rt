//! The numbers with which the gate is called.

use crate::rows::COUNTER;
use crate::texts::{give_up, report_of, with_workers};
use oz_base::{MemSink, MemSource};
use oz_runner::Gate;
use site_message::Journal;
use std::alloc::{AllocError, Global};
use std::process::Abort;
use std::sync::Wait;
use std::sync::atomic::AtomicU64;
use std::sync::atomic::Ordering::SeqCst;
use std::test::Fail;
use std::thread::Threads;

// A gate that keeps for each site the number of the turn that is due next, from 1, and notes any other.
#[derive(Drop)]
struct DueTurns {
    due: Vec<AtomicU64>,
    noted: AtomicU64,
}

impl DueTurns {
    // Of so many sites, the first of which has the place 0.
    fn new(alloc: Global, sites: u32) -> Result<DueTurns, AllocError> {
        let mut due = Vec::new(alloc);
        for _ in 0..sites {
            due.push(AtomicU64::new(1))?;
        }
        Ok(DueTurns {
            due,
            noted: AtomicU64::new(0),
        })
    }

    // Whether the gate was called for each turn of the journal, and at each site for one more at most, which was not posted.
    fn counts(&self, journal: &Journal) -> bool {
        let mut site = 0u32;
        for due in self.due.as_slice() {
            site = site.wrapping_add(1);
            let posted = turns_of(journal, site);
            let called = due.load(SeqCst).wrapping_sub(1);
            if posted == 0 || (called != posted && called != posted.wrapping_add(1)) {
                return false;
            }
        }
        true
    }
}

impl Gate for DueTurns {
    fn before_turn<R: Wait>(&self, _rt: &R, site: u32, turn: u64) {
        let Some(due) = self.due.get((site as usize).wrapping_sub(1)) else {
            self.noted.store(1, SeqCst);
            return;
        };
        if due.load(SeqCst) != turn {
            self.noted.store(1, SeqCst);
        }
        due.store(turn.wrapping_add(1), SeqCst);
    }
}

// How many turns of a site stand in the journal.
fn turns_of(journal: &Journal, site: u32) -> u64 {
    let mut count = 0u64;
    for turn in journal.oldest_first() {
        if turn.site == site {
            count = count.wrapping_add(1);
        }
    }
    count
}

// The gate is called at each site with 1, 2, 3 and so on, and for no other site.
fn calls_in_order<R: Abort + Threads + Wait + Sync>(
    rt: &R,
    alloc: Global,
    workers: &'static str,
) -> Result<(), AllocError> {
    let words = with_workers(alloc, &["--sites", "3"], workers)?;
    let mut source = MemSource::new(COUNTER.as_bytes(), &[]);
    let mut sink = MemSink::new(alloc, &[], 2000)?;
    let gate = DueTurns::new(alloc, 3)?;
    let report = report_of(rt, alloc, &words, &mut source, &mut sink, &gate)?;
    let counts = gate.counts(&report.journal);
    give_up(report);
    assert_eq!(rt; gate.noted.load(SeqCst), 0);
    assert!(rt; counts);
    Ok(())
}

#[test]
fn the_gate_is_called_with_the_turns_of_each_site(rt: HostRuntime) -> Result<(), Fail> {
    for workers in ["1", "2", "3"] {
        calls_in_order(&rt, rt.alloc(), workers)?;
    }
    Ok(())
}
