//! The grammar of the language with sugar (CTM section 2.6): definitions, and laws that are calls which do nothing.
//!
//! For: saying what a text with sugar is read as, and where it is refused, apart from any reader: derivations as trees
//! (specs/Derivations.antt), what is wrong in one (Check), what is expected at a point (Points), the first fault of symbols
//! (Faults), the tree of positions that a derivation gives (Trees), which program a text is (Texts), and how symbols are read from
//! the left (Reading), which a reader follows. Symbols, scopes, patterns and faults are those of
//! `oz_grammar`; the first fault is defined there for any grammar (Automata).
//!
//! Promises: symbols are a program or have one first fault, never both, and reading by the points tells which (`one_of_both`); reading
//! gives the tree that symbols are, or their first fault, and nothing else (`reading_is_exact`);
//! what the symbols of a text are read as is within the limits of trees (`reads_fit`); each text is one program or has one first
//! fault, never both (`texts_have_one_of_both`); each program of the kernel is one with
//! sugar (`kernel_programs_read`). Worked examples hold of the definitions.
//!
//! Stands on: `oz_grammar` (symbols, faults, the kernel's grammar), `kernel_syntax` (trees), `oz_lexer`, `tree_node`.
//!
//! It has laws alone, and nothing is left to tests.
//!
//! Sources: Van Roy and Haridi, *Concepts, Techniques, and Models of Computer Programming*, section 2.6 and appendix C.
#![tactic(auto)]

mod laws;
mod parts;

pub use laws::{
    expected_examples, field_examples, kernel_programs_read, level_examples, one_of_both,
    passing_examples, reading_is_exact, reads_fit, texts_have_one_of_both,
};
pub use parts::{CallUse, Callable, Closer};
