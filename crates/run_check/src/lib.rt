//! Saved runs, made again.
//!
//! For: `oz_runner`, for the word `check`, and whoever has a saved run and asks whether it is a run of its program. `run_file` reads its
//! text; the program is read from that text by the caller, who also compares the end line.
//!
//! Promises: `make_again` makes the entries again, one after another, from the start of the program (`AreMadeAgain`): each delivers a
//! message that travels to its site, and has the units that it tells, which come to one turn alone, with the lines that it tells. The
//! journal that it hands on is one of a run of the program (`HasRun`), which nothing ended before its last turn (`HasNoEarlierEnd`).
//! `Made::All` comes where all entries were made again, and tells how the run ends after them (`end_of`); `Made::Wrong` the first
//! entry that is wrong (`IsWrongAt`), with the journal of those before it. Memory may run out at any time; then the journal is that
//! of a front of the entries, which were made again (`IsFrontMadeAgain`). Laws, as functions that do nothing: entries that were made
//! again are a run whose entries they are, they lead to one journal, and none of them is wrong; of the entries of a run that nothing
//! ended before its end none is wrong, and made again they lead to this very run (`again_is_exact`). No line that a run prints has a
//! newline in it, and the entries of such a run have a text, where the numbers of its threads have 64 bits (`runs_have_texts`).
//!
//! Stands on: `world_core`, `world_journals`, `world_model`, `run_file`, `site_core`, `site_units`, `site_model`,
//! `site_message`, `oz_model`, `kernel_syntax`, `tree_node`.
//!
//! By tests alone: that ample memory suffices. The tests, in `machine_tests`, save runs of workers and make them again, and try a table of
//! entries with how far they are made again. Cost is told by no clause: a run made again costs what the run costs, since each entry takes a
//! look-up of its message and its turn, and its units are written out once.
//!
//! Sources: this project's own.
#![tactic(auto)]

mod again;
mod laws;
mod made;

pub use again::make_again;
pub use laws::{again_is_exact, runs_have_texts};
pub use made::{Again, Made};
