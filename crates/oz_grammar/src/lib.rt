//! The grammar of the kernel language: definitions, and laws that are calls which do nothing.
//!
//! For: saying what a text is read as, and where it is refused, apart from any reader. The reader's contract and the
//! printer's speak in these words: `Reads` and `FaultOf` (specs/Reads.antt), derivations as trees (Grammar), declarations
//! (Scoping), the table of a derivation (Table), what is wrong at a token (Faults, Check), what is expected at a point
//! (Points), the first fault of symbols, for any grammar that an automaton reads (Automata), the canonical form (Canonical).
//! Reading.antt says how parts of statements are read from the left; readers follow it.
//!
//! Promises: reading by the points finds no fault exactly in programs, and else the first fault, at its place (`reading_is_exact`,
//! `reading_texts_is_exact`); symbols are a program or have one first fault, never both (`one_of_both`). What a text in UTF-8 is read as
//! is a program (`reads_are_programs`), and every program is what its canonical symbols are (`canonical_symbols_read`). That symbols are
//! one program only is a law of `sugar_rows`. Worked examples hold of the definitions (`refused_examples`, `read_examples`).
//!
//! Stands on: `oz_lexer` (tokens), `kernel_syntax` (programs), `tree_node` (features).
//!
//! It has types and laws alone, and nothing is left to tests.
//!
//! Sources: Van Roy and Haridi, *Concepts, Techniques, and Models of Computer Programming*, sections 2.3 and 2.4.2, and
//! appendix C.
#![tactic(auto)]

mod fault;
mod laws;
mod numeral;
mod symbol;

pub use fault::{Fault, FaultKind, TextFault, What};
pub use laws::{
    canonical_symbols_read, one_of_both, read_examples, reading_is_exact, reading_texts_is_exact,
    reads_are_programs, refused_examples,
};
pub use numeral::Numeral;
pub use symbol::{Closer, Purpose, Sign, Symbol};
