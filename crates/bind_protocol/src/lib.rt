//! The protocol by which sites share variables: a variable's owner takes the first binding that is asked for, and tells
//! it to every site that registered.
//!
//! It promises, of one site: `Binder` does and sends at each event what the rows of `specs/Rows.antt` say, and `takes`
//! tells which messages it can take. Of any world, whatever else travels in it, by the functions of `laws`: `rows_teach`
//! (what a site knows after each row), `rows_count` and `counts_go_on` (each Register and Binding is sent at most once for
//! each name and site, and finds its site ready), `rows_tell` and `telling_goes_on` (a site that waits for a name's binding
//! is registered, or its Register or a Binding to it travels), `rows_keep_equations` and `equations_go_on` (what sites know
//! and messages tell are owners' equations, which stay and lead down). Of sites whose messages travel in any order, `laws::BindWorld` makes
//! every call and delivery, and `HasInvariant` and `calls_keep` say what holds after every list of them.
//!
//! It stands on `proxy_table`, `variable_owner` and `site_message`. Tests (`unit_tests`) show worked lists of calls, and
//! that the calls go well with ample memory.
//!
//! Source: Haridi and others, *Efficient Logic Variables for Distributed Computing* (TOPLAS 21(3), 1999).
#![tactic(auto)]

mod binder;
pub mod laws;
mod threads;

pub use binder::{Binder, Knowledge, Want};
