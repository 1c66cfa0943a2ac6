//! Runs as files: the text of a program, the limits of a run of it, the entries of its journal, and its end line.
//!
//! For: whoever keeps a run over sites, to look at it or to have it made again. `docs/saved-runs.md` tells the format to writers and
//! readers in other languages. `oz save` writes by it, and `oz check` reads by it what `run_check` makes again.
//!
//! Promises: `write_run` answers the text of a journal with a program's text, limits and an end line (`saved_text`). `read_run` answers
//! a saved run exactly where the bytes are its text (`saved`, `only`), and a fault exactly where it is the first fault of the bytes, with
//! its place (`fault`, `first`). Both may answer that no memory was left, and nothing else. The text and the first fault are defined by a grammar of fields (`Saved`),
//! which neither direction shares. Laws of it, as functions that do nothing: every list of bytes is the text of one saved run or has one
//! first fault, and not both (`bytes_save_or_fail`); no text is a proper prefix of another (`no_proper_prefix`); the bytes before a first
//! fault begin a text, and none goes on with the byte there, or, where a number that is out of range stands there, with its digits
//! (`first_fault_is_exact`); which runs have a text (`these_are_saved`: `MayBeSaved`); worked runs and faults (`worked_runs`,
//! `worked_file_faults`). Whether a saved run is a run of its program is not asked here.
//!
//! Stands on: `byte_fields`, the fields of which the format is made; `site_message`, `tree_node`.
//!
//! By tests alone: that ample memory suffices. The tests, in `text_tests`, try a worked text and its fronts on both directions, and a
//! table of bytes with their first faults. Cost is told by no clause: both directions cost by the length of the text; `read_run` copies
//! the program's text and each line once, and units of one thread that follow one another take no memory each.
//!
//! Sources: the format is this project's own.
#![tactic(auto)]

mod entry;
mod file;
mod laws;
mod reading;
mod threads;
mod writing;

pub use byte_fields::FileFault;
pub use entry::Entry;
pub use file::RunFile;
pub use laws::{
    bytes_save_or_fail, first_fault_is_exact, no_proper_prefix, these_are_saved,
    worked_file_faults, worked_runs,
};
pub use reading::read_run;
pub use writing::write_run;
