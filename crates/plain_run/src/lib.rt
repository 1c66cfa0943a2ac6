//! Runs of a program over several sites without threads of the machine: one turn after another, in a fixed order or in one that is drawn
//! from a seed, so that a run is the same each time.
//!
//! For: whoever runs a program over sites without workers (`--workers 0`, `--seed N`).
//!
//! It promises: `run_plain` and `run_seeded` return, whatever the program: their limits bound own steps and messages, and between them each turn
//! lets a thread wait. Its journal is one of a run of the program on the sites (`HasRun`), the picks of which lead the
//! centralised machine to a state that the sites match (`HasMachineRun`); where nothing travels and every site is idle the
//! machine rests there. `schedule` has these picks in order; the reason is how the journal ends (`HasReason`, by `end_of` of
//! `site_message`), or that memory ran out where it goes on; no turn before the last had ended it (`HasNoEarlierEnd`), and none
//! went past the limit of own steps (`AreWithin`); `ended` and `waiting` are the sums of what the sites told last; and no more
//! messages were sent than the picks allow (`AreMessagesFew`).
//! `finish_run` tells all of this of the turns and the reason that it is given (`IsOutputOf`), whatever drove the run, and takes no
//! memory: workers end by it, too.
//!
//! The plain order: sites 1 to the last in rounds, each taking its message with the lowest number and then its threads, first come
//! first served, for at most 64 units and never past its limit of own steps. A site that has no message and is idle is left out.
//! Each turn of the journal is so by the turns before it and by how the sites stand (`IsPlainTurn`), from their start on
//! (`IsPlainRun`): it is of the first site behind the last one, in the circle, that has something to do, it takes the lowest number,
//! it is full, and each of its units is of the first thread in the order of the site, in which exactly those stand that can go on.
//! `turns_are_determined` is the law that site and message of the next turn follow from the journal, `runs_are_determined` that two
//! runs are the same whose turns tell the same threads. In which order those come behind the others that one bind lets go on at
//! once, no clause tells; so that two runs print the same, tests show.
//!
//! The order of a seed: which site goes next, which of the messages to it it takes, and how many units it makes are drawn. No clause
//! tells more of it than holds of each run; so that two runs with one seed print the same, tests show. Each 64th turn is one of rounds, so
//! that no site and no message waits for ever.
//!
//! One driver makes the turns of both, by the `Order` that it is given.
//!
//! A turn costs by what it does and by the number of sites; the journal is walked over once at the end, for the totals.
//!
//! It stands on `world_core` for the world that it drives, on `rand_xoshiro` for what is drawn, and on the definitions below those. Tests of programs (`oz_tests`) run
//! it with ample memory.
//!
//! Sources: Haridi and others, *Efficient Logic Variables for Distributed Computing* (TOPLAS 21(3), 1999), and Van Roy and
//! others, *Mobile Objects in Distributed Oz* (TOPLAS 19(5), 1997). The order is of this project.
#![tactic(auto)]

mod busy;
mod drive;
mod finish;
mod laws;
mod order;
mod out;
mod rounds;
mod run;
mod seeded;
mod totals;

pub use finish::finish_run;
pub use laws::{runs_are_determined, turns_are_determined};
pub use out::{DrivenRun, RunOut};
pub use run::{run_plain, run_seeded};
