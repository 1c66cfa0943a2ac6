//! Trees of programs with sugar from their symbols.
//!
//! For: `oz_parser`, which reads a text with sugar: `read_program` gives the tree of its symbols.
//!
//! Promises: `read_program` gives what `surface_grammar` says that the symbols are read as (`program_at`, specs/Reading.antt there), the
//! tree or the first fault, or nothing but want of memory. It goes once over the symbols, and calls itself at most 200 levels deep.
//!
//! Stands on: `surface_parts` (trees of their parts), `oz_phrases` (what statements are made of), `surface_grammar` (how symbols are read), `kernel_syntax` (trees).
//!
//! Tests alone show no promise of it; tables in `text_tests` try texts, worked by hand.
//!
//! Sources: Van Roy and Haridi, *Concepts, Techniques, and Models of Computer Programming*, section 2.6.
#![tactic(auto)]

mod reader;

pub use reader::read_program;
