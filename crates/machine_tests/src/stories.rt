//! What is done with a machine, one call after the other, and what is seen of it.

ghost use Rattle.std.specs.Prelude.{◌<◌, ◌^◌};
ghost use Rattle.tree_node.specs.declared.names.Name.{Name as Named};
ghost use Rattle.tree_node.specs.Each.{Each};
ghost use Rattle.tree_node.specs.Order.{num_of};
ghost use Rattle.central_machine.specs.Numbers.{NumbersBelow};

use crate::choices::{Answer, Choice, answer_to_pick};
use crate::programs::program_of;
use central_machine::{Central, number_of};
use kernel_syntax::Program;
use std::alloc::{AllocError, Global};
use std::process::Abort;
use tree_node::{Line, Name, Pick, ThreadName};

/// A call, and what is told of it.
///
/// - `Pick`: the pick of a thread has this answer.
/// - `Turns`: of at most so many steps so many are made.
/// - `Rests`: of at most so many steps fewer are made, and nothing goes on.
#[derive(Clone, Copy)]
pub enum Row {
    Pick(ThreadName, Choice, Answer),
    Turns(u64, u64),
    Rests(u64),
}

/// What can be seen of a machine: the numbers of its picks and lines, whether it is at rest, and the numbers of ended
/// and of living threads.
#[derive(Clone, Copy, Debug, PartialEq, Eq)]
pub struct Sight {
    pub picks: u64,
    pub lines: u64,
    pub rests: bool,
    pub ended: u64,
    pub living: u64,
}

/// A text, the calls on a machine of its program, and then its lines, whether it is at rest, and the numbers of ended and
/// of living threads.
pub struct Story {
    pub text: &'static str,
    pub rows: &'static [Row],
    pub lines: &'static [&'static str],
    pub rests: bool,
    pub counts: (u64, u64),
}

fn look_at(machine: &Central<'_>) -> Sight {
    let (ended, living) = machine.counts();
    Sight {
        picks: machine.picks().len() as u64,
        lines: machine.lines().len() as u64,
        rests: machine.at_rest(),
        ended,
        living,
    }
}

// A pick is answered so. A step is one pick more; a refused pick changes nothing.
fn make_pick<R: Abort>(
    rt: &R,
    alloc: Global,
    machine: &mut Central<'_>,
    thread: ThreadName,
    choice: Choice,
    want: Answer,
) -> Result<(), AllocError> {
    let before = look_at(machine);
    let told = answer_to_pick(rt, alloc, machine, thread, choice)?;
    assert_eq!(rt; told, want);
    let after = look_at(machine);
    if want == Answer::Goes {
        assert_eq!(rt; after.picks, before.picks.wrapping_add(1));
    } else {
        assert_eq!(rt; after, before);
    }
    Ok(())
}

// A pick's names have numbers far below 2^60.
fn expect_low<R: Abort>(rt: &R, names: &[Name])
    ensures { Each (λ (x : Named). num_of x < 2 ^ 59) names.now }
{
    'names: for name in names {
        let low = number_of(name) < 1 << 59;
        assert!(rt; low);
    }
}

// The names of picks have numbers far below 2^60.
fn expect_all_low<R: Abort>(rt: &R, picks: &[Pick])
    ensures { NumbersBelow (2 ^ 59) picks.now }
{
    'picks: for pick in picks {
        expect_low(rt, pick.fresh.as_slice());
    }
}

// At most so many steps: their number, which is that of the new picks.
fn make_turns<R: Abort>(
    rt: &R,
    alloc: Global,
    machine: &mut Central<'_>,
    limit: u64,
) -> Result<u64, AllocError> {
    let before = look_at(machine);
    let told = machine.picks().to_vec(alloc)?;
    expect_all_low(rt, told.as_slice());
    assert!(rt; limit <= 1_000_000);
    let made = machine.run_turns(limit)?;
    assert_eq!(rt; look_at(machine).picks, before.picks.wrapping_add(made));
    assert!(rt; made == limit || machine.at_rest());
    Ok(made)
}

fn play_row<R: Abort>(
    rt: &R,
    alloc: Global,
    machine: &mut Central<'_>,
    row: Row,
) -> Result<(), AllocError> {
    match row {
        Row::Pick(thread, choice, want) => make_pick(rt, alloc, machine, thread, choice, want),
        Row::Turns(limit, want) => {
            let made = make_turns(rt, alloc, machine, limit)?;
            assert_eq!(rt; made, want);
            Ok(())
        }
        Row::Rests(limit) => {
            let made = make_turns(rt, alloc, machine, limit)?;
            assert!(rt; made < limit);
            Ok(())
        }
    }
}

fn play_rows<R: Abort>(
    rt: &R,
    alloc: Global,
    machine: &mut Central<'_>,
    rows: &[Row],
) -> Result<(), AllocError> {
    for row in rows {
        play_row(rt, alloc, machine, *row)?;
    }
    Ok(())
}

fn expect_lines<R: Abort>(rt: &R, lines: &[Line], want: &[&str]) {
    assert_eq!(rt; lines.len(), want.len());
    for (line, text) in lines.iter().zip(want) {
        assert_eq!(rt; line.as_slice(), text.as_bytes());
    }
}

fn expect_end<R: Abort>(rt: &R, machine: &Central<'_>, story: &Story) {
    expect_lines(rt, machine.lines(), story.lines);
    assert_eq!(rt; machine.at_rest(), story.rests);
    assert_eq!(rt; machine.counts(), story.counts);
}

const START: Sight = Sight {
    picks: 0,
    lines: 0,
    rests: false,
    ended: 0,
    living: 1,
};

// The calls of a story on a machine at its start.
fn play_from_start<R: Abort>(
    rt: &R,
    alloc: Global,
    machine: &mut Central<'_>,
    story: &Story,
) -> Result<(), AllocError> {
    assert_eq!(rt; look_at(machine), START);
    play_rows(rt, alloc, machine, story.rows)?;
    expect_end(rt, machine, story);
    Ok(())
}

fn expect_picks<R: Abort>(rt: &R, machine: Central<'_>) {
    let count = machine.picks().len();
    let picks = machine.into_picks();
    assert_eq!(rt; picks.len(), count);
}

fn play_program<R: Abort>(
    rt: &R,
    alloc: Global,
    program: &Program,
    story: &Story,
) -> Result<(), AllocError> {
    let mut machine = Central::new(alloc, program)?;
    play_from_start(rt, alloc, &mut machine, story)?;
    expect_picks(rt, machine);
    Ok(())
}

/// A machine of the story's program does what the story tells.
pub fn play_story<R: Abort>(rt: &R, alloc: Global, story: &Story) -> Result<(), AllocError> {
    let program = program_of(rt, alloc, story.text)?;
    play_program(rt, alloc, &program, story)
}
