//! One site of a program, as its callers see it: it is given messages, and makes turns.
//!
//! For: whoever drives the sites of a program, in one process or in many. A `Site` carries a seat of its driver's.
//!
//! It promises, of a site that contracts see as its plain state (`SiteState`): `Site::new` begins as the definitions say
//! (`initial_site`); `turn` is a full turn of the definitions, and its entry records it (`IsTurnMade`): the message, which
//! changes nothing where it is not fit, and then as many units as the quantum, fewer only where no thread can go on; each
//! message that it sends has the first 256 equations known there that are reached from its variables (`bundle_limit`). `replay` makes
//! a turn of given units, which is the one turn that they make (`TurnComesTo`), or tells the first that cannot be made
//! (`IsStuckTurn`); both give equal turns (`turns_are_made_again`). A site's threads have their turns in order: exactly those stand
//! in it that can go on, each once (`in_order`); the units of a turn are each of the first, and the thread of the last one then goes
//! behind the others where it can go on (`IsTransitionInOrder`). `idle` and `steps` tell what they say; the seat is lent and taken back, and
//! stays over a turn. After want of memory the site is spent: its data are given up, and it makes no turn any more. `threads` shows
//! that a site goes from thread to thread where its seat may.
//!
//! A turn costs by what it does: its message by the message's size, a unit by the statement. The totals of an entry are looked
//! up. It stands on `site_units` (units and the rows of messages), `site_variables` and `site_cells` (what a site keeps and
//! which messages are fit), `thread_machine` (which codes fit) and `site_model` (the definitions). That turns are made where
//! there is memory, tests alone show (`oz_tests`).
//!
//! Sources: Haridi and others, *Efficient Logic Variables for Distributed Computing* (TOPLAS 21(3), 1999), and Van Roy and
//! others, *Mobile Objects in Distributed Oz* (TOPLAS 19(5), 1997).
#![tactic(auto)]

mod deliver;
mod entry;
mod fit;
mod guarded;
mod laws;
mod receive;
mod replay;
mod site;
mod start;
mod threads;
mod turn;

pub use laws::turns_are_made_again;
pub use site::Site;
pub use site_units::Replay;
