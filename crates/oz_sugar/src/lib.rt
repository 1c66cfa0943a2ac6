//! What programs with sugar stand for (CTM section 2.6): programs of the kernel.
//!
//! For: running a program as the book writes it. The reader of texts with sugar makes a tree (`kernel_syntax::sugar`), and
//! `expand` the program that it stands for, which every machine runs. The command calls `program_of_text`, which does both.
//!
//! Promises: `expand` gives the program that the tree stands for (`Expand`, specs/Put.antt of `sugar_rows`), or tells where that would be
//! more than 200 levels deep, with the line and the column (specs/Deep.antt), or that memory ran out. That a tree within its limits
//! stands for a program where it is not too deep is proved of all trees (proofs/PutFits.antt, Programs.antt). A program of the kernel
//! stands for itself (`kernel_expands`).
//! `program_of_text` gives a program exactly where the text stands for it, and the text's first fault with its line and column
//! exactly where it has one (`Reads`, `FaultOf`, specs/Texts.antt), or nothing but want of memory. Each text has one of both, what
//! a text in UTF-8 stands for is a program, and a text of the kernel stands for the program that it is (`texts_have_one_of_both`).
//! It has at most three rows for each token of the text (`rows_are_few`).
//! Worked examples hold of the definitions (`expanded_examples`, `deep_examples`).
//!
//! Stands on: `kernel_syntax` (trees, programs), `sugar_rows` (the rows that a tree stands for), `oz_parser` (texts with sugar, faults),
//! `oz_symbols` (where symbols begin) and definitions of `oz_grammar` and `surface_grammar` (what is read with sugar).
//!
//! Tests alone show that a program is made where there is memory.
//!
//! Sources: Van Roy and Haridi, *Concepts, Techniques, and Models of Computer Programming*, sections 2.6 (functions, nested values)
//! and 2.7.2 (`finally`).
#![tactic(auto)]

mod depth;
mod expansion;
mod laws;
mod texts;

pub use expansion::expand;
pub use laws::{deep_examples, kernel_expands, rows_are_few, texts_have_one_of_both};
pub use sugar_rows::expanded_examples;
pub use texts::program_of_text;
