//! What the owner of variables keeps of them: who is to be told of a binding, and the one binding that was accepted. One
//! half of a site's records in `bind_protocol`, which decides what is sent.
//!
//! It promises: `Owners` is the list of the variables made, in order, each with its registered sites while it is unbound,
//! then with its binding. The first request to bind a variable is taken and every later one is late; a registration for a
//! bound variable is answered with its binding. Its rows are `after_register` and `after_ask`. That no site is registered for any of them is known
//! without a look at each (`has_registered`). The variables of a site, whose numbers
//! come without gaps, stand in a row by number, and are found without a look-up by hash; each takes the memory of a term and a byte there,
//! since the sites that registered stand apart.
//!
//! It stands on `tree_node` and on `indexmap`. Nothing is left to tests.
//!
//! Source: Haridi and others, *Efficient Logic Variables for Distributed Computing* (TOPLAS 21(3), 1999).
#![tactic(auto)]

mod owners;
mod row;
mod table;
mod threads;

pub use owners::{Asked, Owner, Owners, Registered};
