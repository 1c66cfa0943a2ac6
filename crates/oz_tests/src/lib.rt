//! Tests of the whole call: words and texts, and what is printed of them.
//!
//! **For**: whoever wants to see that the program runs. They are a crate of their own, at the top, since a crate with tests
//! is proved twice.
//!
//! **They show** what no clause says: that the texts of the tables have their one lawful output with ample memory, or one of
//! their lawful outputs, on 1 to 64 sites, refusals and end lines among them; that a cell that stays at its home sends requests and answers
//! alone; that the examples of the repository print what
//! stands beside them; that a text as long as may be is read and runs; that a text without an end is stopped behind its
//! lines, and keeps no other thread of its site from a turn; that the program takes words in memory, and reads nothing where there
//! are none; that a sink is handed one line with its newline after the other; that two runs without workers print the same, and go
//! by rounds of sites; that the gate is called with the turns of each site; that turns of two sites are under way at once; that what
//! a site knows goes out with its messages; that runs have the saved runs of the table, that a check finds of other saved runs what the
//! table says, and that what is saved of the examples, of a count at four sites and of runs that a limit ends is right.
//!
//! **They stand on** `oz_runner`, and on `oz_base` for sources and sinks in memory.
#![tactic(auto)]

#[cfg(test)]
mod bundles;
#[cfg(test)]
mod endless;
#[cfg(test)]
mod examples;
#[cfg(test)]
mod gate_numbers;
#[cfg(test)]
mod large;
#[cfg(test)]
mod meeting;
#[cfg(test)]
mod more_examples;
#[cfg(test)]
mod pieces;
#[cfg(test)]
mod port_programs;
#[cfg(test)]
mod requests;
#[cfg(test)]
mod rows;
#[cfg(test)]
mod saved;
#[cfg(test)]
mod site_programs;
#[cfg(test)]
mod site_texts;
#[cfg(test)]
mod sites;
#[cfg(test)]
mod start;
#[cfg(test)]
mod texts;
