//! The kernel statements that programs with sugar stand for (CTM section 2.6).
//!
//! For: `oz_sugar`, which expands programs with sugar: `rows_of` writes the rows of the program that a tree stands for.
//!
//! Promises: the rows are those of the definition (`Expand`, specs/Put.antt), or memory ran out. The definition speaks of positions, not of
//! names, so no new identifier hides one of the text; that the rows which are written are its rows is proved of all trees
//! (proofs/WritingLaws.antt). A program of the kernel stands for itself (`kernel_stands_for_itself`). Worked examples hold of the definition
//! (`expanded_examples`).
//!
//! Stands on: `kernel_syntax` (trees, programs), definitions of `oz_grammar` (programs of the kernel, the numbers of rows) and of
//! `surface_grammar` (what is read with sugar), `oz_lexer` (that each text divides into tokens in one way).
//!
//! Tests alone show no promise of it.
//!
//! Sources: Van Roy and Haridi, *Concepts, Techniques, and Models of Computer Programming*, sections 2.6 (functions, nested values)
//! and 2.7.2 (`finally`).
#![tactic(auto)]

mod counts;
mod laws;
mod leaves;
mod rows;
mod writer;

pub use counts::{new_in, new_in_pair, new_of};
pub use laws::{
    expanded_examples, kernel_programs_are_one, kernel_stands_for_itself,
    kernel_texts_have_one_of_both,
};
pub use rows::rows_of;
