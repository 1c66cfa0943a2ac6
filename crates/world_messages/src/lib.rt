//! The messages of several sites: which are sent, how many, and that they are fit.
//!
//! For: the proof that no delivered message is unfit, and bounds on the number of messages.
//!
//! It promises, by `registers_are_few`: in every run each site sends at most one Register for a variable, is sent at most one
//! Binding, and none for its own. By `messages_are_few`: the number of Spawns, Registers, Bindings and requests by the threads
//! and variables made. By `parts_are_fit`: when a message is fit. Its lemmas say that each message that travels is fit
//! where the simulation holds, by an invariant over each journal: what a site has fits the program (`WorldFits`). That each
//! message can be spelled, and that its names are of sites, is the law of `site_wire` for each site (`SpelledLemmas`).
//!
//! It stands on `world_model`, on `site_wire`, on `bind_protocol` for the counts, and on `thread_machine` for what a step
//! makes of fitting stacks. It has no code, and no tests.
//!
//! Sources: Haridi and others, *Efficient Logic Variables for Distributed Computing* (TOPLAS 21(3), 1999), and Van Roy and
//! others, *Mobile Objects in Distributed Oz* (TOPLAS 19(5), 1997).
#![tactic(auto)]

mod laws;

pub use laws::{messages_are_few, parts_are_fit, registers_are_few};
