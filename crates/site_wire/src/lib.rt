//! What a site sends fits the wire form.
//!
//! For: whoever spells the messages of a turn, and has to know that each can be spelled.
//!
//! It promises, by `sites_send_what_fits`: in every journal in which the entries of a site are turns in a row from its start,
//! each message that those entries send can be spelled (`FitsWire`), whatever the other sites did: a message that is not fit
//! changes nothing at a site. `specs/Sending.antt` has what stays true of such a site: each name that it keeps is of a site 1
//! to 64, as is the home of each stationary cell, its nodes are those of the program, with texts and lists that are short enough,
//! the threads that wait for a cell stand at a statement that takes no fresh name and once in its line, and those that wait for
//! the end of a port stand at a send.
//!
//! It stands on `site_model` for what a turn is, on `oz_model` for what a step makes of a stack, and on lemmas of `world_model`
//! on threads by name. It has no code, and no tests.
//!
//! Sources: Haridi and others, *Efficient Logic Variables for Distributed Computing* (TOPLAS 21(3), 1999), and Van Roy and
//! others, *Mobile Objects in Distributed Oz* (TOPLAS 19(5), 1997). The wire form is of this project.
#![tactic(auto)]

mod laws;

pub use laws::sites_send_what_fits;
