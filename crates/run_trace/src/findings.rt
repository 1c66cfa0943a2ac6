//! What is told of a run.

use central_machine::Awaited;
use tree_node::{CodeId, Seq, ThreadName, VarName};

/// A statement that a thread began: its row of the program, and the positions of its environment with their variables.
#[derive(Drop)]
pub struct Begun {
    pub thread: ThreadName,
    pub code: CodeId,
    pub env: Seq<(u32, VarName)>,
}

/// An exception that a step raised: how many steps were made before it, the statement that its thread had begun last, the variable
/// of the exception, and whether a catch mark took it.
#[derive(Drop)]
pub struct Raise {
    pub before: usize,
    pub begun: Begun,
    pub raised: VarName,
    pub caught: bool,
}

/// A thread that was made: its name, and the thread that made it with the row of the statement that did.
#[derive(Clone, Copy, Debug, PartialEq, Eq)]
pub struct Birth {
    pub thread: ThreadName,
    pub maker: ThreadName,
    pub code: CodeId,
}

/// A thread that waits: the statement that it goes on with, and the variables of which one must be bound first.
#[derive(Drop)]
pub struct Waiting {
    pub begun: Begun,
    pub awaited: Awaited,
}
