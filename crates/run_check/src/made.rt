//! How far a saved run was made again.

use site_message::{History, Reason};

/// How far the entries of a saved run were made again: all of them, and how the run then ends, if it does; up to the entry at this place,
/// counted from 0, which is the first that is wrong; or as far as memory went.
#[derive(Clone, Copy, Debug, PartialEq, Eq)]
pub enum Made {
    All(Option<Reason>),
    Wrong(usize),
    Memory,
}

/// The turns that were made again with their schedule, and how far that is. It has no `Drop`: whoever has turns hands them on.
pub struct Again {
    pub history: History,
    pub made: Made,
}
