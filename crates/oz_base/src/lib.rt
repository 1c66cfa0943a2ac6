//! Where a program's bytes come from and go to: a source and a sink, as traits whose contracts say
//! which bytes there were and when a call has failed, and what stands for them.
//!
//! **For**: `oz_runner`, which reads a text by `read_text` and writes lines by `write_piece`, and its
//! callers, who hand in a source and a sink.
//!
//! **Promises**: `Source::read` and `Sink::write` (`bound`, `bytes`: which bytes went over; `cause`: a
//! count of faults rises at each failed call and stands still at the others, and at its last value it
//! stays). `read_text` gives the bytes of the source to its end, or more than the limit of them, and
//! stops at the first fault (`text`: `ReadsText`; `cause`). `write_piece` writes all of a piece, or a
//! front of it at the first fault (`bytes`: `TakesPiece`; `cause`), and hands the sink nothing but backs of
//! it, whatever was taken (`pieces`, of a sink that tells them). `MemSource` and `MemSink` fail exactly
//! at the calls whose numbers they are given (`fails`); `SteadySource` and `SteadySink` never do (`ok`,
//! `whole`); `StdSource` and `StdSink` stand over a reader and a writer of std and tell the bytes that
//! those tell, which of files and streams of the system are none.
//!
//! **Stands on** std alone; `thiserror` derives the texts of the errors, on which nothing rests.
//!
//! **Tests alone show** (`unit_tests`) that each call succeeds where nothing fails, and how many calls a text takes:
//! at most one a byte and one more, and over a reader of std one for each 4,096 bytes that it has.
//!
//! **Source**: the traits are of this project.
#![tactic(auto)]

mod counts;
mod memory;
mod piece;
mod read;
mod steady;
mod streams;
mod system;

pub use memory::{MemSink, MemSource};
pub use piece::write_piece;
pub use read::{ReadError, read_text};
pub use steady::{SteadySink, SteadySource};
pub use streams::{Failed, Sink, Source};
pub use system::{StdSink, StdSource};
