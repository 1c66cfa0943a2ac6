//! All orders of the threads of a racy program.

use crate::choices::{Answer, Choice, X, Y, Z, answer_to_pick};
use crate::programs::program_of;
use central_machine::Central;
use kernel_syntax::Program;
use std::alloc::{AllocError, Global};
use std::process::Abort;
use std::test::Fail;
use tree_node::{Line, Name, ThreadName};

const RACE: &str = "local X in thread X = 1 end X = 2 {Browse X} end";

fn thread(num: u64) -> ThreadName {
    ThreadName { site: 1, num }
}

// What the steps of the race take or bind: its variable, its second thread, and the variables of an exception.
static MOVES: [Choice; 6] = [
    Choice::Nothing,
    Choice::Takes(&[Name::Var(X)]),
    Choice::Takes(&[Name::Thread(ThreadName { site: 1, num: 1 })]),
    Choice::Takes(&[Name::Var(Y), Name::Var(Z)]),
    Choice::Int(X, 1),
    Choice::Int(X, 2),
];

// Makes the step of a thread: false, where it has none.
fn make_step<R: Abort>(
    rt: &R,
    alloc: Global,
    machine: &mut Central<'_>,
    name: ThreadName,
) -> Result<bool, AllocError> {
    for choice in MOVES.as_slice() {
        match answer_to_pick(rt, alloc, machine, name, *choice)? {
            Answer::Goes => return Ok(true),
            Answer::Memory => return Err(AllocError),
            _ => {}
        }
    }
    Ok(false)
}

// The threads of these numbers go one after the other: false, where one of them cannot.
fn walk_path<R: Abort>(
    rt: &R,
    alloc: Global,
    machine: &mut Central<'_>,
    path: &[u64],
) -> Result<bool, AllocError> {
    for number in path {
        if !make_step(rt, alloc, machine, thread(*number))? {
            return Ok(false);
        }
    }
    Ok(true)
}

/// What the race prints.
#[derive(Clone, Copy, Debug, PartialEq, Eq)]
enum Output {
    ValueThenFailure,
    FailureThenValue,
    Failure,
    Other,
}

fn output_of(lines: &[Line]) -> Output {
    let failure = b"uncaught failure(tell)".as_slice();
    let value = b"2".as_slice();
    match lines {
        [only] if only.as_slice() == failure => Output::Failure,
        [first, second] if first.as_slice() == value && second.as_slice() == failure => {
            Output::ValueThenFailure
        }
        [first, second] if first.as_slice() == failure && second.as_slice() == value => {
            Output::FailureThenValue
        }
        _ => Output::Other,
    }
}

/// What comes of an order of threads: one of them cannot go, or some thread still can, or nothing goes on.
#[derive(Clone, Copy, Debug, PartialEq, Eq)]
enum End {
    Refused,
    GoesOn,
    Rests(Output),
}

fn end_after<R: Abort>(
    rt: &R,
    alloc: Global,
    machine: &mut Central<'_>,
    path: &[u64],
) -> Result<End, AllocError> {
    if !walk_path(rt, alloc, machine, path)? {
        return Ok(End::Refused);
    }
    if !machine.at_rest() {
        return Ok(End::GoesOn);
    }
    Ok(End::Rests(output_of(machine.lines())))
}

fn end_of<R: Abort>(
    rt: &R,
    alloc: Global,
    program: &Program,
    path: &[u64],
) -> Result<End, AllocError> {
    let mut machine = Central::new(alloc, program)?;
    end_after(rt, alloc, &mut machine, path)
}

/// How often each output comes.
#[derive(Clone, Copy, Debug, PartialEq, Eq)]
struct Tally {
    value_then_failure: u64,
    failure_then_value: u64,
    failure: u64,
    other: u64,
}

impl Tally {
    fn with(self, output: Output) -> Tally {
        let mut tally = self;
        let count = match output {
            Output::ValueThenFailure => &mut tally.value_then_failure,
            Output::FailureThenValue => &mut tally.failure_then_value,
            Output::Failure => &mut tally.failure,
            Output::Other => &mut tally.other,
        };
        *count = count.wrapping_add(1);
        tally
    }
}

// The next path that does not begin with this one, in the order of the numbers 0 and 1: false, where there is none.
fn take_next_branch(path: &mut Vec<u64>) -> Result<bool, AllocError> {
    for _ in 0..path.len() {
        if path.pop() == Some(0) {
            path.push(1)?;
            return Ok(true);
        }
    }
    Ok(false)
}

// Looks at a path, and goes to the next one: false, where there is none.
fn visit_path<R: Abort>(
    rt: &R,
    alloc: Global,
    program: &Program,
    path: &mut Vec<u64>,
    tally: &mut Tally,
) -> Result<bool, AllocError> {
    match end_of(rt, alloc, program, path.as_slice())? {
        End::GoesOn => {
            path.push(0)?;
            Ok(true)
        }
        End::Refused => take_next_branch(path),
        End::Rests(output) => {
            *tally = tally.with(output);
            take_next_branch(path)
        }
    }
}

// Looks at all paths, of which there are fewer than ten thousand.
fn tally_of<R: Abort>(rt: &R, alloc: Global, program: &Program) -> Result<Tally, AllocError> {
    let mut tally = Tally {
        value_then_failure: 0,
        failure_then_value: 0,
        failure: 0,
        other: 0,
    };
    let mut path = Vec::new(alloc);
    for _ in 0..10_000 {
        if !visit_path(rt, alloc, program, &mut path, &mut tally)? {
            return Ok(tally);
        }
    }
    panic!(rt; "paths are left")
}

fn expect_outputs<R: Abort>(rt: &R, alloc: Global, want: Tally) -> Result<(), AllocError> {
    let program = program_of(rt, alloc, RACE)?;
    let tally = tally_of(rt, alloc, &program)?;
    assert_eq!(rt; tally, want);
    Ok(())
}

// Counted by hand. Three steps come first: the variable, the statements in order, the second thread. Then a thread that
// tells its value first has a tell, a bind, two steps to drop the pair and the block, and the first thread shows the value:
// T B D P L, or T B D P of the second. The other one has a tell, a failure and its report: T F R. Orders of T B D P L and
// T F R are 8! / (5! 3!) = 56, but in 6 + 10 = 16 of them F comes before B. In 22 of the 40 that are left L is the last
// step, so the report comes first, and in 18 R is. Orders of T B D P and T F R are 7! / (4! 3!) = 35, and in
// 5 + 8 = 13 of them F comes before B: 22 are left, and the first thread never shows the variable. All in all 62 orders.
#[test]
fn a_race_has_these_outputs_over_all_orders(rt: HostRuntime) -> Result<(), Fail> {
    let want = Tally {
        value_then_failure: 18,
        failure_then_value: 22,
        failure: 22,
        other: 0,
    };
    expect_outputs(&rt, rt.alloc(), want)?;
    Ok(())
}
