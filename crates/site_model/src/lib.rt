//! One site: its plain state, its turns, and runs of a world of sites by their journal.
//!
//! For: what `turn` of a site means, and what a journal of sites must be. Whoever proves something of runs over several sites
//! starts from here.
//!
//! It promises the definitions: the state of a site (`specs/Site.antt`), one row for each message (`specs/Messages.antt`, over
//! those of variables, of cells, and of requests to the owner of a port or the home of a cell), a unit of a thread (`specs/Unit.antt`), the known equations that travel with a message
//! (`specs/Bundle.antt`), which messages are fit (`IsFit`), turns (`SiteTurnOf`, `IsFullTurnOf`) and runs of a world (`WorldRun`).
//! The law `worked_turns` is a run by these definitions, of fourteen turns, in which every kind of message of variables and of mobile
//! cells travels, and rows with a bundle; `worked_cells` are rows of cells, worked one after another. By `bundles_are_ordered` bundles keep to their limit
//! and to the order of names; by `bundles_come_last` the messages of a row or a unit get them at its end.
//!
//! It stands on `bind_protocol`, whose rows of variables it takes, on `token_chain` for those of cells, on `thread_roster` for
//! the threads, and on `oz_model` for a thread's step. It has no code, and no tests.
//!
//! Sources: Haridi and others, *Efficient Logic Variables for Distributed Computing* (TOPLAS 21(3), 1999), and Van Roy and
//! others, *Mobile Objects in Distributed Oz* (TOPLAS 19(5), 1997).
#![tactic(auto)]

mod laws;

pub use laws::{bundles_are_ordered, bundles_come_last, worked_cells, worked_turns};
