//! What a site does with the tokens of mobile cells, and what it keeps of the stationary cells that are at home there: the code
//! behind the rows of `site_model` on cells.
//!
//! For: the machine of one site, which keeps a `Cells` and a `Homes` beside its threads and variables, and hands it what its threads and
//! its messages want of cells.
//!
//! It promises: contracts see `Cells` as `CellTables`, the two tables of cells in a site's plain state, and each call is a row
//! of the site (`IsRow`, `IsChange`): `make` and `exchange` are `after_cell`, `request` is `request_row`, `get` is
//! `get_row`, `forward` is `forward_row`; a Put is `arrive`, an `exchange` for each thread that it hands out, and `leave`,
//! together `put_row`. `takes` tells which messages can be taken, `is_here` where the token is. After want of memory a
//! call has changed nothing. Contracts see `Homes` as the table of what a home keeps of each cell (`HomeTable`), and each call as a
//! change of one place in it. What is sent here carries no equations, so the limit in these rows is 0: each message gets its
//! bundle when the row or the unit that sends it is done. The functions of `laws` say that the tests are those of the definitions
//! of a site, and how the exchanges of a Put follow each other.
//!
//! It stands on `token_chain` (a site's part of a cell), `site_message` (messages, outbox), `site_model` (the definitions)
//! and `indexmap`. That calls go well where there is memory, tests of programs alone show (`oz_tests`).
//!
//! Source: Van Roy and others, *Mobile Objects in Distributed Oz* (TOPLAS 19(5), 1997).
#![tactic(auto)]

mod cells;
mod home;
mod homes;
pub mod laws;
mod place;
mod tables;
mod threads;

pub use cells::Cells;
pub use homes::Homes;
