//! Several sites and the centralised machine: requests to the owners of ports and to the homes of stationary cells, and their answers.
//!
//! For: the proof that a run of sites is a run of the centralised machine. It takes the rows of a site that concern a port or a
//! stationary cell, and joins all rows to turns and to runs.
//!
//! It promises, by `rows_are_joined`: each unit of a thread, and each message that its site can take, is a run of the centralised
//! machine, whose state the sites match afterwards, where a thread that waits for an answer has one claim (its request or its answer
//! travels, or the home of a cell keeps the request), and stands at the machine with the stack that it asked with or that its answer will leave.
//!
//! And by `fit_runs_are_simulated`: whatever the order of turns and deliveries, and whatever the bundles, a run in which each delivered
//! message is fit for its site is a run of the centralised machine, whose state the sites match (`IsSimulated`); and of each mobile
//! cell at most three messages are sent for each exchange and each site. Answers are at most as many as sends and exchanges; and of each
//! thread and each stationary cell the requests balance with the exchanges (`RequestsBalance`).
//!
//! It stands on `world_cells` for all rows but these. Threads that wait for an answer stay in the roster of their site; for the
//! relation they are shown at number 0, which is no site. It has no code, and no tests.
//!
//! Source: Van Roy and others, *Mobile Objects in Distributed Oz* (TOPLAS 19(5), 1997).
#![tactic(auto)]

mod laws;

pub use laws::{fit_runs_are_simulated, rows_are_joined};
