//! Picks as rows of tables, and what a machine answers to them.

use central_machine::{Central, Refusal, are_small};
use std::alloc::{AllocError, Global};
use std::process::Abort;
use tree_node::{Integer, Name, NameList, Node, Pick, Term, Text, ThreadName, VarName};

/// What a pick takes or binds.
#[derive(Clone, Copy)]
pub enum Choice {
    Nothing,
    Takes(&'static [Name]),
    Joins(VarName, VarName),
    Int(VarName, i128),
    Atom(VarName, &'static str),
}

/// What a pick is answered: that it is a step, or the first part of a step that it fails.
#[derive(Clone, Copy, Debug, PartialEq, Eq)]
pub enum Answer {
    Goes,
    Thread,
    Waits(VarName),
    Fresh,
    Bind,
    Memory,
}

/// The first thread of a program.
pub const FIRST: ThreadName = ThreadName { site: 1, num: 0 };

/// The names that the tests give to variables, the least first.
pub const X: VarName = VarName { site: 1, num: 0 };

pub const Y: VarName = VarName { site: 1, num: 1 };

pub const Z: VarName = VarName { site: 1, num: 2 };

fn names_of(alloc: Global, choice: Choice) -> Result<NameList, AllocError> {
    match choice {
        Choice::Takes(names) => Ok(NameList::from_vec(Vec::from_slice(alloc, names)?)),
        _ => Ok(NameList::new(alloc)),
    }
}

fn atom(alloc: Global, text: &str) -> Result<Term, AllocError> {
    let text = Text::from_vec(Vec::from_slice(alloc, text.as_bytes())?)?;
    Ok(Term::Node(Node::Atom(text)))
}

fn bind_of(alloc: Global, choice: Choice) -> Result<Option<(VarName, Term)>, AllocError> {
    match choice {
        Choice::Joins(left, right) => Ok(Some((left, Term::Var(right)))),
        Choice::Int(left, value) => Ok(Some((left, Term::Node(Node::Int(Integer::new(value)))))),
        Choice::Atom(left, text) => {
            let term = atom(alloc, text)?;
            Ok(Some((left, term)))
        }
        _ => Ok(None),
    }
}

/// The pick of a thread.
pub fn pick_of(alloc: Global, thread: ThreadName, choice: Choice) -> Result<Pick, AllocError> {
    let fresh = names_of(alloc, choice)?;
    let bind = bind_of(alloc, choice)?;
    Ok(Pick {
        thread,
        fresh,
        bind,
    })
}

fn answer_of(outcome: Result<(), Refusal>) -> Answer {
    match outcome {
        Ok(()) => Answer::Goes,
        Err(Refusal::Thread) => Answer::Thread,
        Err(Refusal::Waits(var)) => Answer::Waits(var),
        Err(Refusal::Fresh) => Answer::Fresh,
        Err(Refusal::Bind) => Answer::Bind,
        Err(Refusal::Memory) => Answer::Memory,
    }
}

/// What the pick of a thread is answered, whose names have numbers below 2^61.
pub fn answer_to_pick<R: Abort>(
    rt: &R,
    alloc: Global,
    machine: &mut Central<'_>,
    thread: ThreadName,
    choice: Choice,
) -> Result<Answer, AllocError> {
    let pick = pick_of(alloc, thread, choice)?;
    let small = are_small(pick.fresh.as_slice());
    assert!(rt; small);
    Ok(answer_of(machine.step(pick)))
}
