//! What travels.

/// A message on its way: its number, which is its place among all messages sent, from 0, and the site that it goes to.
#[derive(Clone, Copy, Debug, PartialEq, Eq)]
pub struct Travel {
    pub number: u64,
    pub to: u32,
}
