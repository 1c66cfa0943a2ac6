//! The top call of `oz`: from words and a text, or a saved run, to lines, an end line and a status, or to a saved run.
//!
//! **For**: `oz_main`, whose `main` is `start`, and whoever embeds the whole program over a source and a sink of their own,
//! by `oz`, or runs a program over its sites, by `run_program`.
//!
//! **Promises**: `oz` (`headline`: `Headline` in `specs/Headline.antt`): the lines that were written, uncaught exceptions
//! among them, are those of the centralised machine under the schedule of the report, for every program and number of sites,
//! whatever the order of turns and deliveries in the journal of the report, and whatever drove the sites; where it is
//! quiescent no message travels, that machine has no step left, and the threads that ended and wait are that machine's
//! (`IsStatusOfRun` in `specs/Run.antt`); each status has its cause (`Cause` in `specs/Cause.antt`), and what a failed write
//! left is a front of what was due. `causes_exclude`: where the source tells its bytes and the count of its faults can rise,
//! no two statuses have their causes in one call, those of failed writes and of want of memory left out. With `save` the
//! lines stand in a saved run, which alone is written where the sites made turns (`IsDue` in `specs/Due.antt`); with `check`
//! a saved run is made again, and is right, or wrong at the place that is told, and what was made is a run of its program all
//! the same; what one call had to save is right to another that reads it, unless reading, writing, the length or memory
//! stands in the way (`saved_runs_are_right`). `oz` (`complete`): with words that are taken, a text that reads a program, and
//! no fault, the run goes to its end or to a limit, or memory is wanting; a saved run is made again, whole or as far as it is
//! right, or memory is wanting. `oz` (`homes`, `few`, `served`, `asked`, `chains`, `sends`): each own step of a thread is of the
//! site where the thread was placed, messages are few, requests for tokens are served, each exchange of a stationary cell for a
//! thread of another site has one request and one answer, and the exchanges of each cell are one chain, as the sends to each port are. `oz` (`pieces`): each
//! call of a sink that tells its pieces is handed one line with its newline or a back of that, or the saved run or a back of
//! it. `run_program`: the journal that workers, or the plain rounds, leave is a run of the program on so many sites, with its
//! schedule and totals, ends by the reason that is told, and has no turn past the limit of own steps;
//! without workers its turns come in the fixed order of `plain_run` (`rounds`). With a seed `oz` has the order drawn (`run_seeded` of
//! `plain_run`). `start`: the program ends with the number of
//! the status that a call of `oz` with the words answers; where no memory is left for the words it writes `out of memory`.
//!
//! **Stands on** `oz_words` for the words, `oz_base` for the text and the bytes written, `oz_sugar` and `oz_parser` for the program
//! that a text stands for, `large_run` for the text of `gen`, `run_file` and `run_check` for saved runs, `site_worker`,
//! `message_book` and `plain_run` for a run over sites, `world_simulation` and `world_journals` for what such a run is and where
//! its threads stay, `central_machine` and `oz_model` for a run of the machine alone, and `oz_show` for the end line.
//!
//! **Tests alone show**, in `oz_tests`: that memory suffices for the texts there, that runs with workers end, and that two runs
//! without them print the same, in the fixed order and with one seed.
//!
//! **Sources**: Van Roy and Haridi, Concepts, Techniques, and Models of Computer Programming, chapters 2, 4 and 6, for the
//! machine whose lines these are; Haridi and others, Efficient Logic Variables for Distributed Computing (TOPLAS 21(3), 1999),
//! and Van Roy and others, Mobile Objects in Distributed Oz (TOPLAS 19(5), 1997), for what the sites do.
#![tactic(auto)]

mod check;
mod laws;
mod machine;
mod oz_call;
mod program;
mod report;
mod run;
mod save;
mod system;
mod text;
mod words;
mod work;
mod write;

pub use laws::{causes_exclude, saved_runs_are_right};
pub use oz_call::oz;
pub use oz_show::Status;
pub use oz_words::command;
pub use plain_run::RunOut;
pub use program::run_program;
pub use report::Report;
pub use site_message::Limits;
pub use site_worker::{Gate, OpenGate};
pub use system::start;
pub use words::{NoWords, StoredWords, SystemWords, Words};
