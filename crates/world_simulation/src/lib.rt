//! Every run of several sites is a run of the centralised machine.
//!
//! For: whoever runs one program over several sites, in whatever order their turns and messages come.
//!
//! It promises, by `sites_are_simulated`: for every program, every number of sites from 1 to 64 and every run of them there is
//! a state of the centralised machine to which the picks of the journal lead; the sites, their cells and the travelling
//! messages match it, its lines are the journal's, each variable has at most one equation, the exchanges of each cell are one
//! chain; where the run is quiet the machine rests, and its ended and waiting threads are those that the sites told last
//! (`IsSimulated`); and no delivered message was unfit. By `protocols_hold`: what the two protocols keep between the entries of
//! every run (`ProtocolsHold`), among it that each message that travels is fit for its site; what is kept of ports, of stationary cells and
//! of who waits for answers (`PortsHold`, `HomesHold`, `RequestsBalance`); and what a site knows stays known. By
//! `messages_are_few`: how many messages a run sends at most. By `runs_take_rows`: for every program and 1 to 64 sites the runs
//! whose messages take their rows without a test (`DistributedRun`, by which the headline says what a run over sites is) are the
//! runs in which an unfit message changes nothing (`WorldRun` of `site_model`), since none comes. All four laws are of bundles of
//! at most 256 equations.
//!
//! It stands on `world_cells`, which proves the simulation where each delivered message is fit, and on `world_messages`, which
//! proves that it is fit where the simulation holds: one induction over the journal joins them. It has no code, and no
//! tests.
//!
//! Sources: Haridi and others, *Efficient Logic Variables for Distributed Computing* (TOPLAS 21(3), 1999), and Van Roy and
//! others, *Mobile Objects in Distributed Oz* (TOPLAS 19(5), 1997).
#![tactic(auto)]

mod laws;

pub use laws::{messages_are_few, protocols_hold, runs_take_rows, sites_are_simulated};
