//! The phrases of which the statements of a text are made.
//!
//! For: `surface_reader` and `kernel_check`, which read a text's statements phrase by phrase.
//!
//! Promises: a `Scope` has the names declared around a place, and finds a name's position however many there are. Each of the
//! others reads one phrase at the front of symbols: an identifier, a list of names, fields, a pattern. It gives what the phrase
//! reads as and the symbols behind it, or its first fault, or want of memory (`IsReadAs`).
//!
//! Stands on: `oz_grammar` (how a phrase reads), `kernel_syntax` (patterns).
//!
//! Tests alone show no promise of it; tables in `text_tests` try texts, programs and refusals, worked by hand.
//!
//! Sources: Van Roy and Haridi, *Concepts, Techniques, and Models of Computer Programming*, section 2.3.
#![tactic(auto)]

mod declarations;
mod fields;
mod operands;
mod patterns;
mod scope;
mod signs;
mod stop;

pub use declarations::{count_fault, first_local, formals};
pub use fields::fields_in_brackets;
pub use operands::{catch_name, selection, site, used_variable};
pub use patterns::pattern;
pub use scope::{Scope, arity_of, built_in_at, position_or_zero};
pub use signs::{close, expected_after, is_at_statement, is_close_round, is_end_of, sign};
pub use stop::{Read, Stop, fault, mismatch};
