//! Several sites and the centralised machine: what is done with mobile cells.
//!
//! For: the proof that a run of sites is a run of the centralised machine. It takes the rows of a site that concern a mobile cell.
//!
//! It promises, by `rows_are_reached`: each unit of a thread but those on ports and on stationary cells, and each message but the
//! requests of such units and the answers to them, is a run of the centralised machine, whose state the sites match afterwards,
//! with the chain of the sites that asked for each mobile cell. Its lemmas say that exchanges pay for the messages of a cell.
//!
//! It stands on `world_variables` for the rows on variables and threads, and on the laws of `token_chain`. Requests, answers and whole
//! runs are joined above, in `world_answers`. It has no code, and no tests.
//!
//! Source: Van Roy and others, *Mobile Objects in Distributed Oz* (TOPLAS 19(5), 1997).
#![tactic(auto)]

mod laws;

pub use laws::rows_are_reached;
