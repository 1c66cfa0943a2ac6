//! Workers that drive the sites of a run on threads of the system: each visit of a site takes a message from the book, makes a
//! turn outside the lock, and posts it.
//!
//! It promises (`specs/Host.antt`, `specs/Visit.antt`, `specs/Hosts.antt`): a `Host` is a site with its seat, and the entries of
//! its site that the seat saw are turns of the site in a row from its start (`IsHost`). `visit` keeps that, and tells what it
//! did (`IsVisit`): `Over` exactly where the book has that reason as the seat leaves it, which is how its entries end, or want of
//! memory where they go on (`IsOver`), with one entry more, or with none; else `Nothing` exactly where no message travelled to the
//! site and it was idle; else `Did`, with exactly one entry more and nothing in hand. The entry is a turn of 64 units or of the own
//! steps that were left, where these are fewer, and of fewer only where the site is then idle. Where it took no message the site was
//! not idle, and at some time of the visit none travelled to it (`NoneWaited`). The sites that it sent to are told, which are to be
//! woken (`HasMadeTurn`). A turn is made while the seat is outside the lock alone (the condition of the site's `turn`). Inside, a
//! worker makes visits in a row (`AreVisits`), which `drive` does not hand on. Each host stands in the group of its site's worker (`AreAtHome`). `drive` gives back the hosts that
//! it was given, each once with its seat, and when it ends in `Ok` some seat saw a reason to end; without memory nothing was done.
//! `finish` takes the book out: its journal is a run of the world of sites (`IsWorldRun`, which is `WorldRun` of
//! `site_model` with some states), nothing had ended it before its last turn (`HasNoEarlierEnd`), no site went past its limit of own
//! steps (`AreWithin`), and its limits are those that the seats saw. `run_sites` does all of it from a program to the finished book,
//! which has a reason; without the memory to begin nothing is run.
//!
//! It stands on `site_core` for a site and its turns, on `site_model` for what turns and runs are, on `message_book` and
//! `book_lock` for the book and its lock, on `wire_form` and `site_wire` for the bytes of messages and that each can be spelled, and on
//! `crossbeam_utils` for the sleep of workers with nothing to do. Nothing is said of
//! who comes first, nor that a worker is woken, nor that two turns are under way at once: tests alone show that runs end
//! (`machine_tests`, `oz_tests`) and that two sites work at once (`oz_tests`).
//!
//! Workers are of this project. Sources of what the sites do: Haridi and others, *Efficient Logic Variables for Distributed Computing*
//! (TOPLAS 21(3), 1999), and Van Roy and others, *Mobile Objects in Distributed Oz* (TOPLAS 19(5), 1997).
#![tactic(auto)]

mod driving;
mod gate;
mod host;
mod inside;
mod load;
mod run;
mod shared;
mod sites;
mod visited;
mod visits;
mod work;

pub use driving::drive;
pub use gate::{Gate, OpenGate};
pub use host::{Host, visit};
pub use run::finish;
pub use sites::run_sites;
pub use visited::Visited;
