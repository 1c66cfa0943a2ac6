//! The picks of a run, in columns.
//!
//! **For**: whoever makes steps and keeps their picks: `machine_state` and `central_machine` those of a run, `site_units` those of a
//! turn, and `site_message`, whose turns and schedules are made of them; `name_supply`, which puts the names of a step there.
//!
//! **Promises**: a [`PickList`] is a list of picks (contracts see it so): `push`, `push_plain`, `push_row`, `push_bind` and `push_tell` put
//! picks behind the others,
//! and after want of memory the list is as before; `drop_last` takes the last one away; `len` counts them; `to_vec` copies them;
//! `take_all` takes all of them out as [`CompactPicks`], to which none is added, in as little memory as they need, while the list keeps its own
//! for others.
//! `binds` are the equations that they added, in order. A pick of the thread of the one before it that takes no name and adds no
//! equation takes no memory, and variables whose numbers count up take that of one.
//!
//! **Stands on** `tree_node` alone.
//!
//! **Tests alone show**, in `machine_tests` (lists that are filled and copied) and `oz_tests` (whole runs), that memory suffices there.
//!
//! **Source**: the columns are of this project. What a pick chooses is in Van Roy and Haridi, *Concepts, Techniques, and Models of
//! Computer Programming*, sections 2.4 and 4.1 (one step of one thread at a time).
#![tactic(auto)]

mod columns;
mod compact;
mod list;
mod names;
mod namings;

pub use columns::Bind;
pub use compact::CompactPicks;
pub use list::PickList;
