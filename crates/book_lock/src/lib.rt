//! The counted lock: a ticket lock round a value whose entries carry the site that posted them, with a seat for each
//! site.
//!
//! It promises (`specs/Seats.antt`, `specs/Rule.antt`): `begin` gives seats that are outside and have seen the value
//! given. `enter` gives the value, which agrees with what the seat saw last (`AreInAgreement`): the entries of the seat's site
//! are those that it left, so exactly those that this seat posted, each once and in their order; all entries begin with
//! those that it has seen; its numbers in hand are those that it left, a reason that it has seen is there, and the fixed
//! part is that of the value given to `begin`. `leave` takes the value back where the seat did what it may
//! (`IsLawfulChange`), and `finish` gives it back with the same said of every seat. A value that was taken out cannot be
//! dropped, so it is put home.
//!
//! It stands on `site_message` for what a value shows (`Story`), on `atomic_table` for the steps of the words and the
//! slot under one rule (`LockRule`), and on `crossbeam_utils` for the sleep of those who wait. Nothing is said of who
//! comes first, that a seat is ever served, or that a sleeper is woken. A test shows that two threads which enter many
//! times each come to an end.
//!
//! Source of the ticket lock: Reed and Kanodia, *Synchronization with Eventcounts and Sequencers* (CACM 22(2), 1979).
#![tactic(auto)]

mod board;
pub mod lock;
pub mod rule;
#[cfg(test)]
mod tests;
mod threads;
pub mod view;

pub use lock::{CountedLock, Held, SiteSeat};
