//! Unification, one step at a time: what the first pair of a goal block leads to.
//!
//! A [`Block`] holds the pairs of terms that are still to be made equal, and the pairs of nodes that it has met, so that
//! rings of nodes are unified in finitely many steps. What it promises, by the clauses of its calls:
//!
//! - `step` drops the first pair, replaces it by the pairs of two records' fields, asks for a bind, fails, or finds no pair
//!   left (`IsStepOf`). It fails exactly where the two sides have nodes that were not met, are not of equal text, and are
//!   not two records of equal label and features. A failure and want of memory leave the block as it was.
//! - A bind is made by the caller, and the block goes on from the same pair. It is the one that is due (`IsBind`): of a
//!   variable without an equation of its own to the lesser such variable of the other side, where no side has a node, and
//!   to the node where the other side has one. So links go down, and no class gets a second node.
//! - `node_tell` and `var_tell` answer what the block of a tell comes to with its first pair (`IsNodeTell`, `IsVarTell`).
//! - `peek` tells beforehand whether the next step is a bind, of which two sides, or a failure (`IsPeekOf`).
//! - `Block::new`, and `fill` of a [`BlockRoom`], which takes no memory, begin with one pair and nothing met. `into_room` makes
//!   such room of a block that is done with; that it does is promised by no clause, and shown by `bench/run` alone.
//!
//! `case` finds the case of a pair, `met_pairs` and `met_table` keep the pairs that were met, which `hash` makes quick to find,
//! and `records` compares and pairs fields. `threads` shows that a block may go to another thread.
//!
//! It stands on `tree_store` and on the definitions of `tree_node` (`specs/Goal.antt`), and on `indexmap`. Tests
//! (`unit_tests`) show which of some small trees unify.
//!
//! Sources: Van Roy and Haridi, *Concepts, Techniques, and Models of Computer Programming*, section 2.8.2.
#![tactic(auto)]

mod answer;
mod block;
mod case;
mod first;
mod hash;
mod met_pairs;
mod met_table;
mod records;
mod threads;

pub use answer::{GoalOut, Peek};
pub use block::{Block, BlockRoom, peek, step};
pub use first::{NodeTell, VarTell, node_tell, var_tell};
