//! Units and messages keep a world matched with the machine, mobile cells among it.

ghost use Rattle.world_cells.specs.Laws.{UnitsAreReached, MessagesAreReached};

/// A unit of a thread that is on no port and on no stationary cell, and a message that is no request of such a unit and no answer to
/// one, are runs of the machine, which the sites match afterwards, their mobile cells too.
pub fn rows_are_reached()
    ensures units { UnitsAreReached }
    ensures messages { MessagesAreReached }
{}
