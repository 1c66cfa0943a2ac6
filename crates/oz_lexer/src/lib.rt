//! The tokens of a kernel text.
//!
//! For: dividing a text from the left into its tokens, each with its kind, its span and its slice of the text. The reader
//! of programs takes them one by one.
//!
//! Promises: each token is the longest that begins at its place, behind blanks and nested comments, up to the end of the text
//! or its first lexical fault, which then comes again and again (`Lexer::next`, `lex`). A text divides so in one way
//! (`texts_divide`). `line_and_column` tells where a place stands.
//!
//! Stands on: `tree_node`, for the reserved words.
//!
//! Tests alone show no promise of it; a table in `text_tests` tries texts that are refused.
//!
//! Sources: Van Roy and Haridi, *Concepts, Techniques, and Models of Computer Programming*, appendix C (lexical syntax).
#![tactic(auto)]

mod blank;
mod front;
mod laws;
mod lexer;
mod place;
mod spelling;
mod token;

pub use laws::texts_divide;
pub use lexer::{Lexer, lex};
pub use place::line_and_column;
pub use token::{LexFault, LexKind, Token, TokenKind};
