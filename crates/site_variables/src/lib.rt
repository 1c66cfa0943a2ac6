//! What a site does with variables: it makes and meets them, learns and binds them, registers other sites and is asked for
//! binds, in its store, its records and its threads together.
//!
//! For: the machine of a site, which calls this for the variables of its threads' steps and of the messages that come.
//!
//! It promises: each call does what the row of the site's definition says (`IsVariableRow`), whatever the site keeps besides:
//! `meet`, `open`, `learn`, `bind`, `follow_bind`, `register`, `on_request`; `make` and `ask_owner` do the parts of a step that make
//! names and send a request, and `follow_alone` has the records follow own binds of which nobody is to be told. After each of them the store's
//! equations and names are those of the records (`IsLinked`), and no name is forgotten. Of a message, `can_take`,
//! `bundle_fits`, `names_fit` and `sites_fit` tell exactly whether it is fit for the site as far as its variables, names and
//! sites go. After want of memory no clause speaks, and the site is given up.
//!
//! A message that comes is opened whole, with the equations that it carries. What is sent here carries none, so the limit in
//! these rows is 0: each message gets its bundle when the row or the unit that sends it is done.
//!
//! It stands on `tree_store` (equations), `bind_protocol` (records), `thread_roster` (who waits), `site_message`, and on
//! `site_model`, whose rows it follows. That calls go well where there is memory, tests of programs alone show (`oz_tests`).
//!
//! Source: Haridi and others, *Efficient Logic Variables for Distributed Computing* (TOPLAS 21(3), 1999).
#![tactic(auto)]

mod fit;
mod meeting;
mod names;
mod threads;
mod variables;

pub use names::{Bounds, names_fit, sites_fit};
pub use variables::{Variables, bundle_of};
