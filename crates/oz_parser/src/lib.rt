//! Programs from their texts.
//!
//! For: `parse_surface`, which reads a text with sugar, and which `oz_sugar` calls once on a text; and `parse`, which reads a text of
//! the kernel language.
//!
//! Promises: `parse` gives a program exactly where the text reads as it, and the text's first fault with its line and column
//! exactly where it has one; nothing else but want of memory (its clauses `read`, `refused`, `program` and `fault`, in the
//! words of `oz_grammar`). `parse_surface` does the same for texts with sugar, of which it gives the tree with the text and the
//! places of its tokens (in the words of `surface_grammar`). One reader makes the trees of both; `parse` has the symbols checked by the
//! grammar of the kernel first. Time and memory grow with the text.
//!
//! Stands on: `oz_symbols` (the symbols of a text), `surface_reader` (the tree of symbols), `kernel_check` (whether they are a program of
//! the kernel), `sugar_rows` (the rows that a tree stands for), `oz_grammar` and `surface_grammar` (what a text is), `kernel_syntax`
//! (programs, trees).
//!
//! Tests alone show no promise of it; tables in `text_tests` try texts, programs and refusals, worked by hand.
//!
//! Sources: Van Roy and Haridi, *Concepts, Techniques, and Models of Computer Programming*, sections 2.3 and 2.6.
#![tactic(auto)]

mod error;
mod parser;
mod surface;

pub use error::ParseError;
pub use oz_grammar::{FaultKind, TextFault, What};
pub use parser::parse;
pub use surface::parse_surface;
