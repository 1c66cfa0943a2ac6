//! Threads by name, each with a value, and with how it stands: it can go on, or it waits until a variable is bound, or one of
//! several, or until a variable's class has a node, or for the token of a cell. The machines of one site and of all keep their
//! threads here, in place.
//!
//! Contracts see a `Roster` as `Threads`: the list of those that live, the newest first, each with its value and its
//! `Mode`; the number of those that have ended; and `order`, the names of those that can go on, the next in turn first.
//! `start`, `end`, `wait`, `need`, `wait_any`, `wait_for`, `resume`, `wake` and `determine` say what they leave of each (after
//! want of memory the roster is unchanged); `value_mut` lends a thread's value where it stands; `get`, `mode` and `contains` find a thread by its name;
//! `slots` shows all of them; `len`, `waiting` and `ended` tell numbers that are kept; `first` gives the first in the order,
//! and none exactly where no thread can go on, as `is_idle` tells without looking for one. Slots, names, the run queue and
//! the waiting keys are hidden; what they keep together is `IsConsistent` and `IsOrdered`.
//!
//! Turns are taken first come first served: who is born, resumed or woken goes behind the others, and `rotate` moves the
//! first behind the others. In which order those go on that waited for one variable, no clause says: tests alone show that
//! runs without workers print the same each time (`oz_tests`).
//!
//! A call costs by what it does: the first of the queue is found without a look-up, another thread by one, `wake` looks at
//! those that wait for its variable, `determine` at those that need its node, and `first` and `rotate` at the slots that leave the queue. A thread that comes to
//! wait leaves the queue at once where it is the first, as the thread of a turn is, and else by a walk over the queue. A slot is
//! not used again, so that the list stays in the order of birth; an ended thread leaves an empty one of two words. A thread that waited for
//! several variables stays among the keys of the others, where it is passed over, until that variable is bound. One that waits
//! there again puts no key where its own is the last, as a clause of `add_again` tells (`waiting_keys`). Where others come to
//! wait there in turns with it, each puts one; where there is no room for one more, those that stand there more than once leave,
//! so that all keys of a variable together are some twice as many as the threads that have one. Their number is bounded by no
//! clause. The names of one site stand in a row by number, as long as neither their numbers nor their slots have gaps; there a name takes a
//! byte, and is found without a look-up by hash. It stands on `tree_node` (names), `waiting_keys` and `indexmap`.
//!
//! Source: Van Roy and Haridi, *Concepts, Techniques, and Models of Computer Programming*, sections 2.4 and 4.1 (threads that wait
//! for variables).
#![tactic(auto)]

mod mode;
mod queue;
mod roster;
mod slot;
mod slots_by_name;
mod table;
mod threads;

pub use mode::{Awaited, Mode};
pub use roster::Roster;
pub use slot::{Occupant, Slot};
