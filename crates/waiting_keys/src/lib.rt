//! Keys that wait for variables: a roster of threads parks the places of its threads here. `tree_store`, too, lets keys wait.
//!
//! Contracts see `Waiters` as variables with the keys that wait for them (`specs/Keys.antt`). `add` puts a key behind the
//! others of its variable (after want of memory nothing has changed), `keys_at` lends a variable's keys, the first to come
//! first, and `take` takes them all. Nothing is said of the order of the variables. `add_again` puts a key that may be there:
//! nothing changes where it is the last; else it goes behind the others, and which of those that stand there more than once
//! have left before, no clause tells.
//!
//! A call costs one look-up. Where its queue is full, `add_again` leaves each key there once first, by a walk over the keys of
//! its variable. The queues stand by number in a slab; that each variable has a queue of its own is the invariant (`IsFiled` in
//! `specs/Waiting.antt`).
//!
//! It stands on `tree_node` (names, `Seq`), `indexmap` and `slab`. `threads` shows that threads may hold and share it. A
//! test (`unit_tests`) has keys wait and wake through `tree_store`; no promise is left to it.
//!
//! Source: Van Roy and Haridi, *Concepts, Techniques, and Models of Computer Programming*, section 2.4 (a statement waits until a
//! variable is bound).
#![tactic(auto)]

mod threads;
mod waiters;

pub use waiters::{Keys, Waiters};
