//! The rule of the lock's table, and the names of its steps.

ghost use Rattle.book_lock.specs.Rule.{LockRule, DrawStep, LookStep, PassStep, outside, parts_from, split_left, split_right, join_both};

use crate::view::View;
use atomic_table::{Join, Play, Split, TableRule};
use site_message::Story;
use std::marker::PhantomData;
use std::snapshot::Snapshot;

/// What the table is told when it is made: the number of seats, and the value.
pub struct Opening<B> {
    pub seats: u32,
    pub value: Snapshot<B>,
}

impl<B> Drop for Opening<B> {
    fn drop(self) {
        let Self { seats: _, value: _ } = self;
    }
}

/// The rule of the lock's table (`LockRule`).
pub struct Counted<B> {
    value: PhantomData<B>,
}

impl<B: Story> TableRule<Option<B>, View, Opening<B>> for Counted<B> {
    ghost holds = { λ o. LockRule B.sight o.seats };

    ghost first = { λ o. outside (parts_from o.seats 1 (B.sight o.value.value)) };
}

/// A ticket is drawn.
pub struct Draw;

impl<B> Play<Option<B>, View> for Draw {
    ghost then = { DrawStep };
}

/// The ticket that is served is read; its holder may then take the value.
pub struct Look<B> {
    value: PhantomData<B>,
}

impl<B: Story> Play<Option<B>, View> for Look<B> {
    ghost then = { LookStep B.sight };
}

/// The turn goes to the next ticket.
pub struct Pass<B> {
    value: PhantomData<B>,
}

impl<B: Story> Play<Option<B>, View> for Pass<B> {
    ghost then = { PassStep B.sight };
}

/// The first part goes to a new seat.
pub struct Deal;

impl Split<View> for Deal {
    ghost left = { split_left };

    ghost right = { split_right };
}

/// The parts of both, and the other seat has none.
pub struct Gather;

impl Join<View> for Gather {
    ghost use Rattle.std.specs.Prelude.{[]};

    ghost both = { join_both };

    ghost spent = { outside [] };
}
