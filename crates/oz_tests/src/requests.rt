//! What is sent for the exchanges of a stationary cell.

use crate::port_programs::STATIONARY;
use crate::texts::{give_up, report_of, with_workers};
use oz_base::{MemSink, MemSource};
use oz_runner::OpenGate;
use site_message::{Journal, Msg};
use std::test::Fail;

// How many messages ask the home of a cell, how many tell the old content, and how many others are of a cell.
fn cell_messages(journal: &Journal) -> (u64, u64, u64) {
    let mut counts: (u64, u64, u64) = (0, 0, 0);
    for turn in journal.oldest_first() {
        for message in turn.sent.as_slice() {
            match message.msg {
                Msg::CellAsk { .. } => counts.0 = counts.0.saturating_add(1),
                Msg::CellOld { .. } => counts.1 = counts.1.saturating_add(1),
                Msg::CellMake { .. } => counts.2 = counts.2.saturating_add(1),
                Msg::Get { .. } => counts.2 = counts.2.saturating_add(1),
                Msg::Forward { .. } => counts.2 = counts.2.saturating_add(1),
                Msg::Put { .. } => counts.2 = counts.2.saturating_add(1),
                _ => {}
            }
        }
    }
    counts
}

// Three of four threads exchange 25 times each at other sites than the home, where the cell was made.
#[test]
fn each_exchange_elsewhere_is_a_request_and_an_answer(rt: HostRuntime) -> Result<(), Fail> {
    let alloc = rt.alloc();
    for workers in ["0", "4"] {
        let words = with_workers(alloc, &["--sites", "4"], workers)?;
        let mut source = MemSource::new(STATIONARY.as_bytes(), &[]);
        let mut sink = MemSink::new(alloc, &[], 2000)?;
        let report = report_of(&rt, alloc, &words, &mut source, &mut sink, &OpenGate)?;
        let counts = cell_messages(&report.journal);
        give_up(report);
        assert_eq!(rt;
            sink.bytes(),
            b"100\nquiescent ended=5 waiting=0\n".as_slice()
        );
        assert_eq!(rt; counts, (75, 75, 0));
    }
    Ok(())
}
