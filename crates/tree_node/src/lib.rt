//! Names, nodes and terms of rational trees, and what stores, goals, shown values and states of the kernel machine
//! are.
//!
//! For: every other crate speaks of these values, and its contracts are written in the definitions that stand here:
//! stores and their classes (`Store`, `Classes`), pairs of a tell (`Goal`), comparisons of two variables (`Compare`), shown values (`Shown`), states and the names in
//! them (`State`, `Names`), environments (`Env`), exceptions (`Unwind`), values by key (`Assoc`). The
//! greatest numbers that all agree on have names (`MOST_SITES` and its like).
//!
//! Promises: copies equal what they copy (`copy_node`, `copy_term`, `copy_feature`, `copy_pick`); tests and orders are those
//! of the definitions (`equal_text`, `equal_fields`, `equal_feature`, `compare_features`, `is_below`); atoms,
//! features and heads are spelled as defined, with quotes where they could not be read back (`atom_text`, `feature_text`,
//! `node_head`, `is_reserved`); an environment is a finite map (`Env`, `RoomyEnv`); lists are lists (`Seq`, `Shared`, `Line`),
//! and a `Stack` is the list of its items, the top first: after want of memory it is as before, and the item is given back.
//! Laws of the definitions, as functions that do nothing: `roots_tell_classes`, `nodes_tell_det`, `sound_stores`,
//! `one_names_class`, `fields_in_order`, `comparisons_are_exact`, `comparisons_stay`, `shown_stays`, and worked examples (`worked_goals`, `worked_comparisons`, `shown_records`, `shown_cuts`, `shown_nodes`).
//! The laws of look-ups in association lists hold for keys and values of every type, so they are lemmas (`AssocLemmas`).
//!
//! Stands on: the standard library alone.
//!
//! `threads` shows that environments, lines and picks may cross from thread to thread. The spelling of chosen atoms and heads,
//! which the contracts say of all, is shown by tests (`unit_tests`) too.
//!
//! Sources: Van Roy and Haridi, *Concepts, Techniques, and Models of Computer Programming* (CTM), sections 2.3, 2.4, 2.7, 2.8
//! and 6.3.
#![tactic(auto)]

mod env;
mod integer;
mod item;
mod laws;
mod limits;
mod line;
mod names;
mod node;
mod pick;
mod seq;
mod shared;
mod spelling;
mod stack;
mod threads;
mod words;

pub use env::{Env, RoomyEnv};
pub use integer::Integer;
pub use item::Item;
pub use laws::{
    comparisons_are_exact, comparisons_stay, fields_in_order, nodes_tell_det, one_names_class,
    roots_tell_classes, shown_cuts, shown_nodes, shown_records, shown_stays, sound_stores,
    worked_comparisons, worked_goals,
};
pub use limits::{MOST_ITEMS, MOST_MESSAGES, MOST_SITES, MOST_STEPS, MOST_UNITS};
pub use line::Line;
pub use names::{
    CellName, CodeId, Name, NameKind, NameList, PortName, ProcName, ThreadName, VarList, VarName,
    is_below,
};
pub use node::{
    Feature, Fields, Node, Term, Text, Vars, compare_features, copy_feature, copy_node, copy_term,
    equal_bytes, equal_feature, equal_features, equal_fields, equal_node, equal_term, equal_text,
    node_arity,
};
pub use pick::{Pick, copy_pick, plain_pick};
pub use seq::Seq;
pub use shared::Shared;
pub use spelling::{atom_text, feature_text, node_head};
pub use stack::Stack;
pub use words::{is_reserved, is_reserved_word};
