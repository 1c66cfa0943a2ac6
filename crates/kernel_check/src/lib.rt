//! The check that symbols are a program of the kernel.
//!
//! For: `oz_parser`, whose `parse` reads texts of the kernel alone: `check` tells the first fault of their symbols.
//!
//! Promises: `check` gives what reading by the points of `oz_grammar` comes to (`run`, specs/Points.antt there): the first fault, that there
//! is none, or nothing but want of memory. It goes once over the symbols, with a stack of what a program must still give.
//!
//! Stands on: `oz_phrases` (declarations, the parts of statements), `oz_grammar` (the points), `kernel_syntax`, `tree_node`.
//!
//! Tests alone show no promise of it; tables in `text_tests` try texts, worked by hand.
//!
//! Sources: Van Roy and Haridi, *Concepts, Techniques, and Models of Computer Programming*, section 2.3.
#![tactic(auto)]

mod checking;
mod parts;
mod points;
mod statements;
mod values;

pub use checking::check;
