//! The store of one site: equations between variables and terms, shared by the threads that run there.
//!
//! Contracts see a [`Store`] as three lists (`specs/Contents.antt`): its equations, the newest first; the names that are
//! known; and variables with the keys that wait for them. What it promises, by the clauses of its calls:
//!
//! - `root`, `root_of`: the node of a term's class or, exactly where the class has none, the class's variable without an
//!   equation of its own (`IsRootOf`). `equation` is a name's own equation, and `known` tells whether a name is known.
//! - `bind` adds the equation that it is given, for a variable that is known and has none, and leads down where it links
//!   two variables. `know` and `fresh` add a name and no equation. After want of memory the store is as before.
//! - `forest`: each variable has one equation at most, links go down and form no ring, and each class has one node at most
//!   (`IsForest`, `IsSound`). So every way to a root ends.
//! - `shown`: the line that a value shows as, to 20 levels and 1,000 nodes, or the first variable that it needs and that
//!   has no value, by the name of its class (`IsShownAs`).
//! - `compare`: whether two variables are equal or different for all that the equations tell, or which variables are open in them,
//!   in the order in which they are come to, breadth first (`compared`). It costs by the pairs of classes that it comes to, each
//!   of which it looks at once, so cyclic values end too. `compare_on` answers the same, and where variables are open the store keeps
//!   how far it came: the next such call goes on from there (`front`).
//! - `wait`, `wake`: keys wait for a variable in the order in which they came, until all of them are taken (`keys`,
//!   `rest`). The programs here let threads wait in rosters; no crate of code calls these two.
//!
//! No call walks the store. The equations stand in a list, in order, and each name is filed with the place of its own one:
//! the names of the site of the first `fresh` in a row by number, as long as their numbers come without gaps, and all
//! others in a map (`names`). Classes are kept by union and find, so that a root is found in steps that grow with the
//! logarithm of the class (`links`). `walk` writes shown values, and `shows` keeps how far those came that wait. `truths` keeps the texts of true and of false. The waiting keys are those of `waiting_keys`.
//!
//! It stands on `tree_node`, whose definitions of stores and shown lines it meets, on `waiting_keys`, and on `indexmap`.
//! `threads` shows that a store may go to another thread. Tests (`unit_tests`) show that names become known and keys are woken where
//! there is memory.
//!
//! Sources: Van Roy and Haridi, *Concepts, Techniques, and Models of Computer Programming*, sections 2.3 and 2.8.2.
#![tactic(auto)]

mod compare;
mod front;
mod links;
mod names;
mod shows;
mod small_set;
mod store;
mod threads;
mod truths;
mod walk;

pub use compare::Compared;
pub use store::{Root, Shown, Store};
pub use waiting_keys::Keys;
