//! The words of the command line: which are taken, and what they say.
//!
//! **For**: `oz_runner`, which reads its options here, and whoever wants the command itself, as for a page of help.
//!
//! **Promises**: `command` is `oz [--sites N] [--workers N] [--steps N] [--messages N] [--seed N] [run|central|gen|save|check] [NUMBER]` in the terms of the
//! crate that reads words (`app`: `oz_app` in `specs/Command.antt`), and what it makes of any words is determined: `words_fault`
//! and `words_rows` (`words`), wherever in memory the names of its actions lie. `read_options` answers `Usage` exactly where that
//! command refuses the words or a number stands without `gen` or is missing with it (`AreTaken` in `specs/Words.antt`), and else
//! the options that its matches say (`text`: `ReadsWords`), whose numbers are in their ranges (`range`).
//!
//! **Stands on** `clap`, by its contracts: what a parse refuses and matches is clap's own definition, which nothing here
//! repeats.
//!
//! **Tests alone show** nothing of this crate by itself: those of `oz_tests` run words through the whole program, and show
//! that they are taken where there is memory.
//!
//! **Source**: the words are of this project.
#![tactic(auto)]

mod command_line;
mod options;

pub use command_line::command;
pub use options::{Action, Options, WordsError, read_options};
