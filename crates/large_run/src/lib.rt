//! The text of a large run, made from its size, and the law that it reads as a program.
//!
//! **For**: `oz_runner`, whose `gen NUMBER` runs it, and benchmarks. Who runs it has a text that nobody has written by hand, and need
//! not ask whether it is refused.
//!
//! **Promises**: `large_text` gives the very bytes that `large_text` of `specs/Text.antt` says, line by line (`text`), and they are no
//! more than a text may have (`short`). For each size that `gen` takes, that text reads as a program (`large_texts_are_read`, `reads`)
//! and has no fault (`no_fault`). Its tree is written down (proofs/LargeProgram.antt); that it is a derivation in which nothing is
//! wrong, and that the text's tokens are its symbols, is proved by induction over the lines of the streams (proofs/LargeReads.antt).
//!
//! A run of size N has 3 * N + 1 threads: N of them each put ten numbers into a stream, and N add up a stream each, at the site
//! next to the one that makes it; all of them count in one cell, and the sums are added up in another. Its last lines are the
//! two numbers `5 * N * N + 50 * N` and `10 * N`, on any number of sites: tests of `oz_tests` show that.
//!
//! **Stands on** std for the text; for the law on `oz_sugar` (which program a text is) and definitions of `oz_grammar` and `oz_lexer`.
//!
//! **Source**: the text is of this project; it is made of streams and cells, as in Van Roy and Haridi, *Concepts, Techniques, and Models
//! of Computer Programming*, chapters 4 and 6.
#![tactic(auto)]

mod laws;
mod text;

pub use laws::large_texts_are_read;
pub use text::large_text;
