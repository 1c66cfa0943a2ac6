//! The lock, its seats and what is inside.

ghost use Rattle.std.specs.Prelude.{◌≡◌};

use crate::board::Board;
use crate::rule::{Counted, Opening};
use crate::view::View;
use atomic_table::{Badge, Seat, Table};
use crossbeam_utils::sync::Parker;
use site_message::Story;
use std::alloc::Global;

mod calls;
mod ends;

/// Word 0 is the next ticket, word 1 the one that is served. The slot has the value.
pub struct CountedLock<B: Story> {
    table: Table<Option<B>, View, Opening<B>, Counted<B>, Global>,
    board: Board,
    ghost sized: { (table.shared.table_id.words ≡ 2) × (table.shared.table_id.slots ≡ 1) },
}

/// The right of one site to enter, and what its thread sleeps on while it waits. While it is inside, its badge is blank.
#[derive(Drop)]
pub struct SiteSeat {
    site: u32,
    badge: Badge<View>,
    parker: Parker,
}

/// The value, taken out by a seat. It has no `Drop`, so it is given back.
pub struct Held<B> {
    pub value: B,
    seat: Seat<Option<B>, View>,
}
