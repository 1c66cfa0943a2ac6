//! The book of a run over several sites: the journal of the turns that were posted, the messages that were sent and not
//! delivered, the numbers of those that a site has in hand, and the reason why the run ends.
//!
//! It promises: `SpelledTurn` is a turn with the spellings of its messages, made before the turn is posted, which wants that each
//! can be spelled (`FitsWire`). `post` appends the turn given and sets the reason by which the journal ends then (`end_of`), or changes
//! nothing; `Closed` comes exactly where there was a reason. `take` hands out the number and the bytes of a message
//! that travels to the site and that no site has taken (`IsUntakenSpelling`: `decode` reads it back), and nothing exactly where
//! there is none; it takes no memory, nor do `quiet` and `close`. `quiet` holds exactly where no message travels and every site is
//! idle (`is_quiet`), so a message in hand keeps the run going. `close` keeps the first reason. `journal` and `into_history` give
//! the turns posted: each message was delivered once at most, after it was sent, to the site that it was sent to (`Wired`), every
//! turn is of a site of the book, and none but the last had ended the run (`HasNoEarlierEnd`). A book has no `Drop`: its turns are
//! handed on with their schedule, or it has none (`destroy_empty`). `Book` is a `Story` for a lock: its fixed part is the number of sites
//! and both limits.
//!
//! No call walks over the journal: `take` takes one step, `post` as many as the turn sent messages and there are sites, on
//! average, since a list that is full is moved to a greater room.
//!
//! It stands on `wire_form` for the spellings, on `site_message` for turns, journals and their laws, and on `tree_node`.
//! `threads` shows that a book may cross from thread to thread. A test (`unit_tests`) runs two turns to a quiet end; no promise
//! is left to it alone.
//!
//! Sources: the messages in a book are those of Haridi and others, *Efficient Logic Variables for Distributed Computing*
//! (TOPLAS 21(3), 1999), and Van Roy and others, *Mobile Objects in Distributed Oz* (TOPLAS 19(5), 1997). The book itself
//! is of this project.
#![tactic(auto)]

mod book;
mod inbox;
mod outgoing;
mod posted;
mod spelled_turn;
mod threads;

pub use book::Book;
pub use posted::Posted;
pub use site_message::Reason;
pub use spelled_turn::SpelledTurn;
