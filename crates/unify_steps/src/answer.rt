//! What steps of blocks answer.

use tree_node::{Term, VarName};

/// What a step of a block did: nothing, as no pair was left; the first pair was dropped, or replaced by the pairs of two
/// records' fields; or nothing yet, as a variable has to be bound to a term first, or as nothing makes the two sides of the
/// first pair equal.
#[derive(Drop)]
pub enum GoalOut {
    Done,
    Dropped,
    Opened,
    Bind(VarName, Term),
    Fail,
}

/// What the next step of a block will do, where that is a bind, with the two sides of the first pair, or a failure.
#[derive(Clone, Copy)]
pub enum Peek<'a> {
    Bind(&'a Term, &'a Term),
    Fail,
    Other,
}
