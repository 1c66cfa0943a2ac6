//! What is printed besides shown values: programs in their canonical form, refusals, and the last line of a call.
//!
//! For: `program_text` gives a text for any program, made by hand or read; the command prints a refusal (`fault_line`) and
//! the last line of a call (`last_line`, or `fixed_piece` where no memory is to be had) from its `Status`.
//!
//! Promises: `program_text` is the canonical text as it is defined, in UTF-8, and reads as the program, for every program
//! (`canonical_text_reads_back`); so a table is a program exactly where a text is read as it (`programs_are_texts`).
//! Refusals and last lines are spelled as defined, and each status has its number (`Status::number`).
//!
//! Stands on: `oz_grammar` (the canonical form, faults), `kernel_syntax` (programs), `tree_node` (spelling, stacks).
//!
//! Tests alone show no promise of it; tables in `text_tests` try texts and what is printed of them, worked by hand.
//!
//! Sources: Van Roy and Haridi, *Concepts, Techniques, and Models of Computer Programming*, section 2.3 and appendix C.
#![tactic(auto)]

mod canonical;
mod end_line;
mod laws;
mod program;
mod refusal;
mod status;
mod symbols;

pub use canonical::program_text;
pub use end_line::{fixed_piece, last_line};
pub use laws::{canonical_text_reads_back, programs_are_texts};
pub use refusal::fault_line;
pub use status::Status;
