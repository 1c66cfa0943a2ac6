//! What sites say to each other, and what is said of it: the messages of the protocols of variables and cells, the
//! outbox that a site pushes them to, the turns of sites, the journal of a run and its schedule, and what a lock needs of
//! the value that it guards.
//!
//! It promises: `wire_fits` tells which messages can be spelled (`FitsWire`); a bundle, an outbox, the lists of a turn, a
//! journal and a schedule are the lists of what was put into them; copies are equal to what they were made of, and share
//! it; the units of a turn are the list of their threads. A `History` is the turns of a run with their schedule, made turn by turn.
//! What holds turns has no `Drop`, so that they are lost by two calls alone: `forget`, for a program that ends, and
//! `destroy_empty`, whose condition is that there are none. The `Limits` of a run are in the ranges of `AreLimits`, and `end_after`
//! tells how a run ends after a turn (`end_by`). Of journals it defines which deliveries are lawful (`Wired`), which messages travel (`travelling`) and how a run ends
//! (`end_of`), and the functions of `laws` say what follows: `travelling_tells`, `travelling_grows` (how a turn changes
//! what travels), `deliveries_add_up`, `wired_tells`, `quiet_tells`, `worked_ends`.
//!
//! It stands on `pick_list` and `tree_node`. `threads` shows that all of it may cross from thread to thread. Nothing
//! is left to tests.
//!
//! Sources: Haridi and others, *Efficient Logic Variables for Distributed Computing* (TOPLAS 21(3), 1999), and Van Roy
//! and others, *Mobile Objects in Distributed Oz* (TOPLAS 19(5), 1997).
#![tactic(auto)]

mod copy;
mod history;
mod laws;
mod limits;
mod message;
mod outbox;
mod picks;
mod reason;
mod schedule;
mod shared_seq;
mod story;
mod threads;
mod turn;
mod units;
mod wire;

pub use copy::{copy_msg, copy_sent};
pub use history::History;
pub use laws::{
    deliveries_add_up, quiet_tells, travelling_grows, travelling_tells, wired_tells, worked_ends,
};
pub use limits::Limits;
pub use message::{Bundle, Msg, Sent, SentList};
pub use outbox::Outbox;
pub use picks::Picks;
pub use reason::{DeliverError, Reason, end_after};
pub use schedule::Schedule;
pub use shared_seq::SharedSeq;
pub use story::{NoSeat, Outside, Sight, Story};
pub use turn::{Journal, Lines, Quantum, Turn};
pub use units::Units;
pub use wire::wire_fits;
