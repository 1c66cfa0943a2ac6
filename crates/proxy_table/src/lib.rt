//! What a site knows of variables that other sites own: which names it has met, and which of them it knows bound. One
//! half of a site's records in `bind_protocol`, which decides what is sent.
//!
//! It promises: `Proxies` is the list of the names met, in the order of first meeting, each with its term where that is
//! known; a name is new exactly the first time that `meet` or `meet_bound` is called for it, and `bound` needs no memory.
//! Its rows are `after_meet` and `after_bound`.
//!
//! It stands on `tree_node` and on `indexmap`. Nothing is left to tests.
//!
//! Source: Haridi and others, *Efficient Logic Variables for Distributed Computing* (TOPLAS 21(3), 1999).
#![tactic(auto)]

mod proxies;
mod threads;

pub use proxies::{Met, Proxies};
