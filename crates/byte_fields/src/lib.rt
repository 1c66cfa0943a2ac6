//! Fields of bytes, of which formats are made: values with their spellings, where a value ends, and the first fault of other bytes.
//!
//! **For**: `wire_form` (messages between sites) and `run_file` (saved runs), which are formats in it.
//!
//! **Promises**: a `Field` has values, one spelling of each, the bytes before which a value ends, and the first fault of bytes that
//! begin with no value. Fields are put together: one after another (`then`, `before`), and as a part of a value (`part_field`). Texts
//! have words, numbers in decimal, lines, counted bytes and many items besides. Lemmas of it: what reads the parts of a field reads the
//! field; the first fault of a text stays whatever comes behind its place, and the bytes before it begin a text. Of numbers, lines and
//! counted bytes they are laws, as functions that do nothing (`texts_are_read`, `first_faults_stay`, `texts_begin_before_faults`). A [`Cursor`]
//! reads bytes from left to right as those readers do. `put_number` writes a number in decimal.
//!
//! **Stands on** the standard library alone.
//!
//! **Sources**: the forms are this project's own.
#![tactic(auto)]

mod cursor;
mod fault;
mod laws;
mod threads;
mod writing;

pub use cursor::Cursor;
pub use fault::FileFault;
pub use laws::{first_faults_stay, texts_are_read, texts_begin_before_faults};
pub use writing::put_number;
