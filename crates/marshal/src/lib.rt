//! Known equations that travel with a message: taken out of a store, and taken in.
//!
//! For: a site that sends a variable may send along what it knows of it, so that the other need not ask.
//!
//! It promises: `export` and `export_from` give exactly the bundle of the definitions (`bundle_from` of `site_model`): of the
//! equations of the store the first that are reached from the given variables, breadth first, at most as many as the limit, in
//! the order of their names; none where the limit is 0. They cost by what is taken and by the variables of that, however much
//! the store has. `pack` gives a message that bundle (`with_own_bundle`). `import` adds each equation of the bundle whose variable has
//! none (`with_equations`), and answers the names that were not known before, each once, in the order in which they stand
//! there. After want of memory the store may know a part of the bundle, and the site is given up.
//!
//! It stands on `tree_store` and `site_message`, and on `site_model` for words. That memory suffices there, and that
//! what is known reaches another site in few messages, tests alone show (`oz_tests`).
//!
//! Source: Haridi and others, *Efficient Logic Variables for Distributed Computing* (TOPLAS 21(3), 1999).
#![tactic(auto)]

mod exporting;
mod importing;
mod packing;
mod vars;

pub use exporting::{export, export_from};
pub use importing::import;
pub use packing::pack;
