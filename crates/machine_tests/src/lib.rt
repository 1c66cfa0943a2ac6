//! Tests of the machines: the centralised one and a world of sites, call by call, and whole runs of workers. They are a crate of
//! their own, since a crate with tests is proved twice.
//!
//! They show what no clause says: that memory suffices for the programs there, the order in which threads take their turns, how often
//! each output comes over all orders of a race, and that runs of workers end, at rest or at their limit, so that workers that sleep are
//! woken; and that one visit and one drive end for their own reason where there is memory. Beside that they drive a machine by given
//! picks, and see which are steps and by which part others are refused; and they save runs, make them again, and see how far
//! entries that are wrong are made again. They stand on `central_machine`, `world_core`, `run_check`, `run_file` and `site_worker`,
//! and on `oz_parser` for programs from texts.
#![tactic(auto)]

#[cfg(test)]
mod choices;
#[cfg(test)]
mod orders;
#[cfg(test)]
mod picks;
#[cfg(test)]
mod programs;
#[cfg(test)]
mod saved_runs;
#[cfg(test)]
mod stories;
#[cfg(test)]
mod turns;
#[cfg(test)]
mod visits;
#[cfg(test)]
mod workers;
#[cfg(test)]
mod worlds;
