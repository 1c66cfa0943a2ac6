//! Saved runs: what `save` writes, and what `check` finds of it.

use crate::examples::EXAMPLES;
use crate::more_examples::MORE_EXAMPLES;
use crate::port_programs::{HURRIED, REQUESTED};
use crate::rows::COUNTER;
use crate::site_texts::SEEDS;
use crate::texts::{give_up, report_of};
use oz_base::{MemSink, MemSource};
use oz_runner::OpenGate;
use std::alloc::{AllocError, Global};
use std::process::Abort;
use std::sync::Wait;
use std::test::Fail;
use std::thread::Threads;

// What these words make of these bytes, with room for a long saved run: the bytes taken, and the status' number.
fn told<R: Abort + Threads + Wait + Sync>(
    rt: &R,
    alloc: Global,
    words: &[&str],
    bytes: &[u8],
    writes: &[u64],
) -> Result<(Vec<u8>, u8), AllocError> {
    let mut source = MemSource::new(bytes, &[]);
    let mut sink = MemSink::new(alloc, writes, 2_000_000)?;
    let report = report_of(rt, alloc, words, &mut source, &mut sink, &OpenGate)?;
    let (status, _) = give_up(report);
    Ok((Vec::from_slice(alloc, sink.bytes())?, status.number()))
}

// The words after the name, a text, and its saved run.
static SAVED: [(&[&str], &str, &str); 4] = [
    (
        &["--sites", "1", "--workers", "0", "save"],
        "local X in X = 5 {Browse X} end",
        "ozrun 1 1 1000000 1000000 31
local X in X = 5 {Browse X} end
turn 1 - 1.0 1.0 1.0 1.0 1.0 1.0 1.0
line 5
end quiescent ended=1 waiting=0
",
    ),
    (
        &["--sites", "1", "--steps", "6", "--messages", "0", "save"],
        "local X in X = 5 {Browse X} end",
        "ozrun 1 1 6 0 31
local X in X = 5 {Browse X} end
turn 1 - 1.0 1.0 1.0 1.0 1.0 1.0
end stopped steps site=1
",
    ),
    (
        &["--workers", "0", "--messages", "0", "save"],
        "thread at 2 skip end",
        "ozrun 1 4 1000000 0 20
thread at 2 skip end
turn 1 - 1.0
end stopped messages
",
    ),
    (
        &["--workers", "0", "save"],
        "thread at 2 skip end",
        "ozrun 1 4 1000000 1000000 20
thread at 2 skip end
turn 1 - 1.0
turn 2 0 1.1
end quiescent ended=2 waiting=0
",
    ),
];

#[test]
fn runs_have_their_saved_run(rt: HostRuntime) -> Result<(), Fail> {
    let alloc = rt.alloc();
    for row in SAVED.as_slice() {
        let bytes = told(&rt, alloc, row.0, row.1.as_bytes(), &[])?.0;
        assert_eq!(rt; bytes.as_slice(), row.2.as_bytes(), "{}", row.2);
    }
    Ok(())
}

// Where nothing runs, the end line is written alone.
#[test]
fn what_does_not_run_is_not_saved(rt: HostRuntime) -> Result<(), Fail> {
    let alloc = rt.alloc();
    let refused = told(&rt, alloc, &["save"], b"skip skip }", &[])?;
    assert_eq!(rt;
        refused.0.as_slice(),
        b"refused 1:11 expected a statement or the end of the text\n".as_slice()
    );
    assert_eq!(rt; refused.1, 3);
    Ok(())
}

// What a sink takes that fails at its first call.
#[test]
fn a_saved_run_is_one_piece(rt: HostRuntime) -> Result<(), Fail> {
    let alloc = rt.alloc();
    let row = &SAVED[0];
    let failed = told(&rt, alloc, row.0, row.1.as_bytes(), &[1])?;
    assert_eq!(rt; failed.0.len(), 0);
    assert_eq!(rt; failed.1, 7);
    let whole = told(&rt, alloc, row.0, row.1.as_bytes(), &[2])?;
    assert_eq!(rt; whole.0.as_slice(), row.2.as_bytes());
    assert_eq!(rt; whole.1, 0);
    Ok(())
}

// Saved runs, what their check prints, and its number. The first rows are of one text on one site.
static CHECKED: [(&str, &str, u8); 25] = [
    // as it was saved
    (
        "ozrun 1 1 1000000 1000000 31
local X in X = 5 {Browse X} end
turn 1 - 1.0 1.0 1.0 1.0 1.0 1.0 1.0
line 5
end quiescent ended=1 waiting=0
",
        "5\nchecked entries=1 picks=7\n",
        0,
    ),
    // another line
    (
        "ozrun 1 1 1000000 1000000 31
local X in X = 5 {Browse X} end
turn 1 - 1.0 1.0 1.0 1.0 1.0 1.0 1.0
line 6
end quiescent ended=1 waiting=0
",
        "wrong entry=0\n",
        9,
    ),
    // no line
    (
        "ozrun 1 1 1000000 1000000 31
local X in X = 5 {Browse X} end
turn 1 - 1.0 1.0 1.0 1.0 1.0 1.0 1.0
end quiescent ended=1 waiting=0
",
        "wrong entry=0\n",
        9,
    ),
    // a line more
    (
        "ozrun 1 1 1000000 1000000 31
local X in X = 5 {Browse X} end
turn 1 - 1.0 1.0 1.0 1.0 1.0 1.0 1.0
line 5
line 5
end quiescent ended=1 waiting=0
",
        "wrong entry=0\n",
        9,
    ),
    // another end line
    (
        "ozrun 1 1 1000000 1000000 31
local X in X = 5 {Browse X} end
turn 1 - 1.0 1.0 1.0 1.0 1.0 1.0 1.0
line 5
end quiescent ended=0 waiting=1
",
        "wrong entry=1\n",
        9,
    ),
    // the end line of want of memory, where the run ended
    (
        "ozrun 1 1 1000000 1000000 31
local X in X = 5 {Browse X} end
turn 1 - 1.0 1.0 1.0 1.0 1.0 1.0 1.0
line 5
end out of memory
",
        "wrong entry=1\n",
        9,
    ),
    // an end line that no run has
    (
        "ozrun 1 1 1000000 1000000 31
local X in X = 5 {Browse X} end
turn 1 - 1.0 1.0 1.0 1.0 1.0 1.0 1.0
line 5
end 
",
        "wrong entry=1\n",
        9,
    ),
    // another version
    (
        "ozrun 2 1 1000000 1000000 31
local X in X = 5 {Browse X} end
turn 1 - 1.0 1.0 1.0 1.0 1.0 1.0 1.0
line 5
end quiescent ended=1 waiting=0
",
        "bad run file byte 6\n",
        10,
    ),
    // a unit less: the run goes on, and prints nothing
    (
        "ozrun 1 1 1000000 1000000 31
local X in X = 5 {Browse X} end
turn 1 - 1.0 1.0 1.0 1.0 1.0 1.0
end out of memory
",
        "checked entries=1 picks=6\n",
        0,
    ),
    // so it is not quiescent
    (
        "ozrun 1 1 1000000 1000000 31
local X in X = 5 {Browse X} end
turn 1 - 1.0 1.0 1.0 1.0 1.0 1.0
end quiescent ended=1 waiting=0
",
        "wrong entry=1\n",
        9,
    ),
    // the turn in two
    (
        "ozrun 1 1 1000000 1000000 31
local X in X = 5 {Browse X} end
turn 1 - 1.0 1.0 1.0
turn 1 - 1.0 1.0 1.0 1.0
line 5
end quiescent ended=1 waiting=0
",
        "5\nchecked entries=2 picks=7\n",
        0,
    ),
    // the line with the first of them
    (
        "ozrun 1 1 1000000 1000000 31
local X in X = 5 {Browse X} end
turn 1 - 1.0 1.0 1.0
line 5
turn 1 - 1.0 1.0 1.0 1.0
end quiescent ended=1 waiting=0
",
        "wrong entry=0\n",
        9,
    ),
    // a unit more, of a thread that ended
    (
        "ozrun 1 1 1000000 1000000 31
local X in X = 5 {Browse X} end
turn 1 - 1.0 1.0 1.0 1.0 1.0 1.0 1.0 1.0
line 5
end quiescent ended=1 waiting=0
",
        "wrong entry=0\n",
        9,
    ),
    // a thread that is not there
    (
        "ozrun 1 1 1000000 1000000 31
local X in X = 5 {Browse X} end
turn 1 - 1.0 1.0 1.0 1.0 1.0 1.0 1.1
line 5
end quiescent ended=1 waiting=0
",
        "wrong entry=0\n",
        9,
    ),
    // a turn behind the end of the run
    (
        "ozrun 1 1 1000000 1000000 31
local X in X = 5 {Browse X} end
turn 1 - 1.0 1.0 1.0 1.0 1.0 1.0 1.0
line 5
turn 1 -
end quiescent ended=1 waiting=0
",
        "wrong entry=1\n",
        9,
    ),
    // a message that nobody sent
    (
        "ozrun 1 1 1000000 1000000 31
local X in X = 5 {Browse X} end
turn 1 0 1.0 1.0 1.0 1.0 1.0 1.0 1.0
line 5
end quiescent ended=1 waiting=0
",
        "wrong entry=0\n",
        9,
    ),
    // no turn
    (
        "ozrun 1 1 1000000 1000000 31
local X in X = 5 {Browse X} end
end out of memory
",
        "checked entries=0 picks=0\n",
        0,
    ),
    // no turn, and quiescent
    (
        "ozrun 1 1 1000000 1000000 31
local X in X = 5 {Browse X} end
end quiescent ended=1 waiting=0
",
        "wrong entry=0\n",
        9,
    ),
    // another limit of steps, at which it is stopped behind its last turn
    (
        "ozrun 1 1 7 0 31
local X in X = 5 {Browse X} end
turn 1 - 1.0 1.0 1.0 1.0 1.0 1.0 1.0
line 5
end quiescent ended=1 waiting=0
",
        "5\nchecked entries=1 picks=7\n",
        0,
    ),
    // a text that is refused
    (
        "ozrun 1 1 1 0 1
}
end out of memory
",
        "refused 1:1 expected a statement\n",
        3,
    ),
    // no text
    (
        "ozrun 1 1 1 0 0

end out of memory
",
        "refused 1:1 expected a statement\n",
        3,
    ),
    // two sites, and a message that is taken once
    (
        "ozrun 1 4 1000000 1000000 20
thread at 2 skip end
turn 1 - 1.0
turn 2 0 1.1
end quiescent ended=2 waiting=0
",
        "checked entries=2 picks=2\n",
        0,
    ),
    // by another site
    (
        "ozrun 1 4 1000000 1000000 20
thread at 2 skip end
turn 1 - 1.0
turn 3 0
end out of memory
",
        "wrong entry=1\n",
        9,
    ),
    // and twice
    (
        "ozrun 1 4 1000000 1000000 20
thread at 2 skip end
turn 1 - 1.0
turn 2 0
turn 2 0
end out of memory
",
        "wrong entry=2\n",
        9,
    ),
    // nothing
    ("", "bad run file byte 0\n", 10),
];

#[test]
fn saved_runs_are_checked(rt: HostRuntime) -> Result<(), Fail> {
    let alloc = rt.alloc();
    for row in CHECKED.as_slice() {
        let found = told(
            &rt,
            alloc,
            &["--sites", "3", "check"],
            row.0.as_bytes(),
            &[],
        )?;
        assert_eq!(rt; found.0.as_slice(), row.1.as_bytes(), "{}", row.0);
        assert_eq!(rt; found.1, row.2, "{}", row.0);
    }
    Ok(())
}

// A home serves in order those that ask it before it hears that the cell was made; and each exchange and each send is one step, wherever
// its thread stands.
#[test]
fn runs_with_requests_are_right(rt: HostRuntime) -> Result<(), Fail> {
    let alloc = rt.alloc();
    for row in REQUESTED.as_slice() {
        let found = told(&rt, alloc, &["check"], row.0.as_bytes(), &[])?;
        assert_eq!(rt; found.0.as_slice(), row.1.as_bytes(), "{}", row.0);
        assert_eq!(rt; found.1, 0, "{}", row.0);
    }
    Ok(())
}

// A thread whose request is under way takes no unit before the answer has come.
#[test]
fn a_thread_that_waits_for_an_answer_rests(rt: HostRuntime) -> Result<(), Fail> {
    let alloc = rt.alloc();
    for row in HURRIED.as_slice() {
        let found = told(&rt, alloc, &["check"], row.0.as_bytes(), &[])?;
        assert_eq!(rt; found.0.as_slice(), row.1.as_bytes(), "{}", row.0);
        assert_eq!(rt; found.1, 9, "{}", row.0);
    }
    Ok(())
}

// The lines that a saved run tells. No text of the tables has a line that begins so.
fn push_lines(out: &mut Vec<u8>, file: &[u8]) -> Result<(), AllocError> {
    let word = b"line ";
    // So many bytes of the word stand at the front of this line; 6 where it is another.
    let mut front = 0;
    for byte in file {
        if front == 5 {
            out.push(*byte)?;
        } else if front < 5 && word[front] == *byte {
            front += 1;
        } else {
            front = 6;
        }
        if *byte == b'\n' {
            front = 0;
        }
    }
    Ok(())
}

// A run by these words and `save` is found right, and shows the lines that it tells. Answers what is shown.
fn expect_checked<R: Abort + Threads + Wait + Sync>(
    rt: &R,
    alloc: Global,
    words: &[&'static str],
    text: &str,
) -> Result<Vec<u8>, AllocError> {
    let mut saving = Vec::new(alloc);
    for word in words {
        saving.push(*word)?;
    }
    saving.push("save")?;
    let file = told(rt, alloc, &saving, text.as_bytes(), &[])?.0;
    let found = told(rt, alloc, &["check"], &file, &[])?;
    let mut lines = Vec::new(alloc);
    push_lines(&mut lines, &file)?;
    lines.extend_from_slice(b"checked entries=")?;
    assert!(rt; found.0.as_slice().starts_with(lines.as_slice()), "{text}");
    assert_eq!(rt; found.1, 0, "{text}");
    Ok(found.0)
}

#[test]
fn what_is_saved_is_right(rt: HostRuntime) -> Result<(), Fail> {
    let alloc = rt.alloc();
    for workers in ["0", "1", "4"] {
        let shown = expect_checked(&rt, alloc, &["--sites", "4", "--workers", workers], COUNTER)?;
        assert!(rt; shown.as_slice().starts_with(b"100\n"), "{workers} workers");
        expect_checked(
            &rt,
            alloc,
            &["--workers", workers, "--messages", "9"],
            COUNTER,
        )?;
        expect_checked(
            &rt,
            alloc,
            &["--workers", workers, "--steps", "90"],
            COUNTER,
        )?;
    }
    for seed in SEEDS.as_slice() {
        expect_checked(&rt, alloc, &["--sites", "4", "--seed", seed], COUNTER)?;
    }
    Ok(())
}

#[test]
fn the_examples_are_saved_right(rt: HostRuntime) -> Result<(), Fail> {
    let alloc = rt.alloc();
    for example in EXAMPLES.as_slice() {
        if example.2 < 2 {
            expect_checked(&rt, alloc, &["--sites", "3"], example.0)?;
        }
    }
    for example in MORE_EXAMPLES.as_slice() {
        if example.2 < 2 {
            expect_checked(&rt, alloc, &["--sites", "16", "--workers", "1"], example.0)?;
        }
    }
    Ok(())
}
