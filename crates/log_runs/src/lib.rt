//! Logs of runs: sites that run apart, each a program of its own, write their turns into one log that all of them read. What such a log
//! tells is a run.
//!
//! For: whoever runs one program over several machines. All that is asked of what keeps the log is that its readers see one order, and
//! that what was read stays: an entry may be lost, doubled or late.
//!
//! Promises: an entry of a log tells a turn without its picks, and the turn's place among those of its site. It counts where it is the
//! next one of its site and nothing ended the run before (`counts`); so all readers find the same run in a log (`run_of`). By `logs_are_runs`:
//! where the entries that count are the turns that the sites made, in order (`IsLogOf`), and each site made its turns in a row from its
//! start, each over a part of the log that it had read and that stands before the turn (`AreMadeBy`), the turns are a run of the program
//! that nothing ended before its last turn, to the states that the sites came to, and the log tells that run. By `fronts_are_logs` it is
//! so of each part of the log from its beginning: what is read while the run goes on is no less a run. By `sites_join` each site answers
//! for its own entries alone (`IsSiteLog`): where all do, the log is the log of what they made. Worked logs tell that doubled
//! entries, entries ahead of a lost one and entries behind the end do not count (`worked_logs`).
//!
//! Nothing is said of sites that do not make turns of their own: for those a saved run is made again (`run_check`).
//!
//! Stands on: `site_model`, whose definition of a run it is; `site_message`, `kernel_syntax`. It has no code, and no tests.
//!
//! Sources: that of a totally ordered log which all read (Lamport, *Time, Clocks, and the Ordering of Events in a Distributed System*,
//! CACM 21(7), 1978; Schneider, *Implementing Fault-Tolerant Services Using the State Machine Approach*, ACM Computing Surveys 22(4),
//! 1990). Here no site makes the turns of another.
#![tactic(auto)]

mod laws;

pub use laws::{fronts_are_logs, logs_are_runs, sites_join, worked_logs};
