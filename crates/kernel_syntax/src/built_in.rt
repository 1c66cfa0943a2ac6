//! What is built in.

/// The calls that are built in, where nothing declares their names.
#[derive(Clone, Copy, Debug, PartialEq, Eq)]
pub enum BuiltIn {
    Browse,
    Wait,
    NewCell,
    Exchange,
    NewPort,
    Send,
    NewCellAt,
}
