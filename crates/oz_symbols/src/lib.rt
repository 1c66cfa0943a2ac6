//! The symbols of a kernel text.
//!
//! For: the reader of programs, which reads a text's statements symbol by symbol. A name's text is made once, however often it
//! stands, and its copies share it.
//!
//! Promises: `symbols_of` gives the symbols of the tokens into which a text divides, each with the place where it begins, up to
//! the text's end or its first lexical fault (`AreSymbols`).
//!
//! Stands on: `oz_lexer` (tokens), `oz_grammar` (which symbol a token stands for).
//!
//! Tests alone show no promise of it; tables in `text_tests` try texts, programs and refusals, worked by hand.
//!
//! Sources: Van Roy and Haridi, *Concepts, Techniques, and Models of Computer Programming*, appendix C.
#![tactic(auto)]

mod integer;
mod symbol;
mod symbols;
mod texts;

pub use symbols::symbols_of;
