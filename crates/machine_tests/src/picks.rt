//! A machine that is driven by picks: which are steps, and by which part others are refused.

use crate::choices::{Answer, Choice, FIRST, X, Y, Z};
use crate::stories::{Row, Story, play_story};
use std::test::Fail;
use tree_node::{CellName, Name, ThreadName};

const CELL: Name = Name::Cell(CellName {
    site: 1,
    at: 0,
    num: 0,
});

const SECOND: ThreadName = ThreadName { site: 1, num: 1 };

static SKIP: Story = Story {
    text: "skip",
    rows: &[
        Row::Pick(
            ThreadName { site: 9, num: 9 },
            Choice::Nothing,
            Answer::Thread,
        ),
        Row::Pick(FIRST, Choice::Takes(&[Name::Var(X)]), Answer::Fresh),
        Row::Pick(FIRST, Choice::Int(X, 1), Answer::Bind),
        Row::Pick(FIRST, Choice::Nothing, Answer::Goes),
    ],
    lines: &[],
    rests: true,
    counts: (1, 0),
};

// What waits is told before names and binds are looked at.
static WAITING: Story = Story {
    text: "local X in {Browse X} end",
    rows: &[
        Row::Pick(FIRST, Choice::Takes(&[Name::Var(X)]), Answer::Goes),
        Row::Pick(FIRST, Choice::Nothing, Answer::Waits(X)),
        Row::Pick(FIRST, Choice::Takes(&[Name::Var(Y)]), Answer::Waits(X)),
        Row::Pick(FIRST, Choice::Int(X, 1), Answer::Waits(X)),
        Row::Pick(
            ThreadName { site: 1, num: 1 },
            Choice::Nothing,
            Answer::Thread,
        ),
    ],
    lines: &[],
    rests: true,
    counts: (0, 1),
};

// A test of two unbound variables waits for the first, whatever else the pick has. Once they are one class its truth is told.
static TEST: Story = Story {
    text: "local A B R in thread B = A end R = A == B {Browse R} end",
    rows: &[
        Row::Pick(
            FIRST,
            Choice::Takes(&[Name::Var(X), Name::Var(Y), Name::Var(Z)]),
            Answer::Goes,
        ),
        Row::Pick(FIRST, Choice::Nothing, Answer::Goes),
        Row::Pick(FIRST, Choice::Takes(&[Name::Thread(SECOND)]), Answer::Goes),
        Row::Pick(FIRST, Choice::Nothing, Answer::Waits(X)),
        Row::Pick(FIRST, Choice::Takes(&[CELL]), Answer::Waits(X)),
        Row::Pick(FIRST, Choice::Atom(Z, "true"), Answer::Waits(X)),
        Row::Pick(SECOND, Choice::Nothing, Answer::Goes),
        Row::Pick(SECOND, Choice::Joins(Y, X), Answer::Goes),
        Row::Pick(FIRST, Choice::Takes(&[CELL]), Answer::Fresh),
        Row::Pick(FIRST, Choice::Nothing, Answer::Goes),
        Row::Pick(FIRST, Choice::Atom(Z, "false"), Answer::Bind),
        Row::Pick(FIRST, Choice::Atom(Z, "true"), Answer::Goes),
        Row::Rests(100),
    ],
    lines: &["true"],
    rests: true,
    counts: (2, 0),
};

// A second declaration takes neither the name of the first, which still occurs, nor one of another kind, nor none or two.
static USED: Story = Story {
    text: "local X in local Y in X = Y end end",
    rows: &[
        Row::Pick(FIRST, Choice::Takes(&[Name::Var(X)]), Answer::Goes),
        Row::Pick(FIRST, Choice::Takes(&[Name::Var(X)]), Answer::Fresh),
        Row::Pick(FIRST, Choice::Takes(&[CELL]), Answer::Fresh),
        Row::Pick(
            FIRST,
            Choice::Takes(&[Name::Var(Y), Name::Var(Z)]),
            Answer::Fresh,
        ),
        Row::Pick(FIRST, Choice::Nothing, Answer::Fresh),
        Row::Pick(FIRST, Choice::Takes(&[Name::Var(Y)]), Answer::Goes),
        Row::Pick(FIRST, Choice::Nothing, Answer::Goes),
        Row::Pick(FIRST, Choice::Joins(Y, X), Answer::Goes),
        Row::Pick(FIRST, Choice::Nothing, Answer::Goes),
        Row::Pick(FIRST, Choice::Nothing, Answer::Goes),
    ],
    lines: &[],
    rests: true,
    counts: (1, 0),
};

// The first variable is nowhere once its scope has no use of it.
static GONE: Story = Story {
    text: "local X in local Y in skip end end",
    rows: &[
        Row::Pick(FIRST, Choice::Takes(&[Name::Var(X)]), Answer::Goes),
        Row::Pick(FIRST, Choice::Takes(&[Name::Var(X)]), Answer::Goes),
        Row::Pick(FIRST, Choice::Nothing, Answer::Goes),
    ],
    lines: &[],
    rests: true,
    counts: (1, 0),
};

// Two variables have two names. A lesser variable is bound to a greater one, and then any of the two to the atom.
static LINKS: Story = Story {
    text: "local X Y in X = Y Y = a {Browse X} end",
    rows: &[
        Row::Pick(
            FIRST,
            Choice::Takes(&[Name::Var(X), Name::Var(X)]),
            Answer::Fresh,
        ),
        Row::Pick(
            FIRST,
            Choice::Takes(&[Name::Var(X), Name::Var(Y)]),
            Answer::Goes,
        ),
        Row::Pick(FIRST, Choice::Nothing, Answer::Goes),
        Row::Pick(FIRST, Choice::Nothing, Answer::Goes),
        Row::Pick(FIRST, Choice::Nothing, Answer::Bind),
        Row::Pick(FIRST, Choice::Joins(X, Z), Answer::Bind),
        Row::Pick(FIRST, Choice::Joins(X, X), Answer::Bind),
        Row::Pick(FIRST, Choice::Atom(X, "a"), Answer::Bind),
        Row::Pick(FIRST, Choice::Takes(&[Name::Var(Z)]), Answer::Fresh),
        Row::Pick(FIRST, Choice::Joins(X, Y), Answer::Goes),
        Row::Pick(FIRST, Choice::Joins(X, Y), Answer::Bind),
        Row::Pick(FIRST, Choice::Nothing, Answer::Goes),
        Row::Pick(FIRST, Choice::Nothing, Answer::Goes),
        Row::Pick(FIRST, Choice::Nothing, Answer::Goes),
        Row::Pick(FIRST, Choice::Atom(X, "b"), Answer::Bind),
        Row::Pick(FIRST, Choice::Atom(X, "a"), Answer::Goes),
        Row::Pick(FIRST, Choice::Nothing, Answer::Goes),
        Row::Pick(FIRST, Choice::Nothing, Answer::Goes),
        Row::Pick(FIRST, Choice::Nothing, Answer::Goes),
    ],
    lines: &["a"],
    rests: true,
    counts: (1, 0),
};

#[test]
fn picks_are_steps_or_refused_by_their_first_part(rt: HostRuntime) -> Result<(), Fail> {
    let alloc = rt.alloc();
    play_story(&rt, alloc, &SKIP)?;
    play_story(&rt, alloc, &WAITING)?;
    play_story(&rt, alloc, &TEST)?;
    play_story(&rt, alloc, &USED)?;
    play_story(&rt, alloc, &GONE)?;
    play_story(&rt, alloc, &LINKS)?;
    Ok(())
}
