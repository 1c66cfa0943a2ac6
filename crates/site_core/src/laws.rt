//! A law of turns. The function does nothing: its clause is what it shows.

ghost use Rattle.site_core.specs.Replay.{TurnsAreMadeAgain};

/// A turn, and the one that is made again of the units that it tells, are equal.
pub fn turns_are_made_again()
    ensures { TurnsAreMadeAgain }
{}
