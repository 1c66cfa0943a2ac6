//! What a site knows goes out with its messages.

use crate::rows::KNOWN;
use crate::texts::{give_up, report_of, with_workers};
use oz_base::{MemSink, MemSource};
use oz_runner::OpenGate;
use site_message::{Journal, Msg, Sent};
use std::alloc::{AllocError, Global};
use std::test::Fail;
use tree_node::{Feature, Node, Term, VarName};

// X and Y of the text.
const X: VarName = VarName { site: 1, num: 0 };

const Y: VarName = VarName { site: 1, num: 1 };

fn is_one(feature: &Feature) -> bool {
    match feature {
        Feature::Int(value) => value.get() == 1,
        Feature::Atom(_) => false,
    }
}

fn is_five(term: &Term) -> bool {
    match term {
        Term::Node(Node::Int(value)) => value.get() == 5,
        _ => false,
    }
}

// Whether a term is the record f(Y).
fn is_f_of_y(term: &Term) -> bool {
    let Term::Node(Node::Rec(label, fields)) = term else {
        return false;
    };
    let fields = fields.as_slice();
    label.as_slice() == b"f".as_slice()
        && fields.len() == 1
        && is_one(&fields[0].0)
        && fields[0].1 == Y
}

// Whether a message starts a thread and tells the two equations of the text, and no other.
fn tells_both(msg: &Msg) -> bool {
    let Msg::Spawn { bundle, .. } = msg else {
        return false;
    };
    let equations = bundle.as_slice();
    equations.len() == 2
        && equations[0].0 == X
        && is_f_of_y(&equations[0].1)
        && equations[1].0 == Y
        && is_five(&equations[1].1)
}

// The messages of a journal, in the order in which they were sent.
fn sent_in(alloc: Global, journal: &Journal) -> Result<Vec<&Sent>, AllocError> {
    let mut sent = Vec::new(alloc);
    for turn in journal.oldest_first() {
        for message in turn.sent.as_slice() {
            sent.push(message)?;
        }
    }
    Ok(sent)
}

// Whether the thread, with both equations, is the one message of a journal.
fn is_one_spawn(alloc: Global, journal: &Journal) -> Result<bool, AllocError> {
    let sent = sent_in(alloc, journal)?;
    match sent.as_slice() {
        [only] => Ok(only.to == 2 && tells_both(&only.msg)),
        _ => Ok(false),
    }
}

// The thread is the one message of the run, and what it shows goes out with it.
#[test]
fn a_thread_takes_along_what_it_shows(rt: HostRuntime) -> Result<(), Fail> {
    let alloc = rt.alloc();
    for workers in ["0", "4"] {
        let words = with_workers(alloc, &["--sites", "2"], workers)?;
        let mut source = MemSource::new(KNOWN.as_bytes(), &[]);
        let mut sink = MemSink::new(alloc, &[], 2000)?;
        let report = report_of(&rt, alloc, &words, &mut source, &mut sink, &OpenGate)?;
        let is_one = is_one_spawn(alloc, &report.journal);
        give_up(report);
        assert_eq!(rt;
            sink.bytes(),
            b"f(5)\nquiescent ended=2 waiting=0\n".as_slice()
        );
        assert!(rt; is_one?);
    }
    Ok(())
}
