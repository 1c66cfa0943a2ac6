//! Turns on variables and threads keep a world matched with the centralised machine.

ghost use Rattle.world_variables.specs.Laws.{StartMatches, MessagesAreFollowed, UnitsAreFollowed, QuietRests};

/// At the start the sites match the machine. A message on a variable or a thread, and a unit of a thread that exchanges no cell,
/// is a run of the machine, which the sites match afterwards. Where nothing is left to do, the machine rests.
pub fn worlds_are_followed()
    ensures start { StartMatches }
    ensures messages { MessagesAreFollowed }
    ensures units { UnitsAreFollowed }
    ensures quiet { QuietRests }
{}
