//! The manager of a cell: it keeps which site asked last for the cell's state token, and makes each asker the successor of
//! the one before it.
//!
//! It promises: `Manager` is the number of that site, and `on_get` answers the site before and its successor. It stands on
//! no other crate. A test (`unit_tests`) shows a worked list of requests.
//!
//! Source: Van Roy and others, *Mobile Objects in Distributed Oz* (TOPLAS 19(5), 1997).
#![tactic(auto)]

mod manager;
mod threads;

pub use manager::{Forward, Manager};
