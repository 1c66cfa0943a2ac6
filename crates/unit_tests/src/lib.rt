//! Tests of single crates below the machine, a file for each subject. They are a crate of their own, since a crate with tests
//! is proved twice. They show what no contract says: that each call goes well with ample memory, and that spellings and lists of
//! calls, worked by hand, come out as they were meant. They stand on the crates of values, of the store, of statements and of the
//! protocols, on `marshal` and on `oz_base`.
#![tactic(auto)]

#[cfg(test)]
mod book;
#[cfg(test)]
mod bundles;
#[cfg(test)]
mod cells;
#[cfg(test)]
mod comparisons;
#[cfg(test)]
mod handlers;
#[cfg(test)]
mod nodes;
#[cfg(test)]
mod operators;
#[cfg(test)]
mod programs;
#[cfg(test)]
mod stores;
#[cfg(test)]
mod streams;
#[cfg(test)]
mod variables;
