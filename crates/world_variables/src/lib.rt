//! Several sites and the centralised machine: what is done with variables and threads.
//!
//! For: the proof that a run of sites is a run of the centralised machine. It takes the rows of a site that concern no cell.
//!
//! It promises, by `worlds_are_followed`: at the start the sites match the machine; each message on a variable or a thread, and
//! each unit of a thread that exchanges no cell, is a run of the machine, which the sites match afterwards (equations, threads,
//! registrations, waiting threads and names, with any bundles); where nothing travels and no thread can go on, the machine
//! rests.
//!
//! It stands on `world_model`, whose relation it keeps. It has no code, and no tests.
//!
//! Source: Haridi and others, *Efficient Logic Variables for Distributed Computing* (TOPLAS 21(3), 1999).
#![tactic(auto)]

mod laws;

pub use laws::worlds_are_followed;
