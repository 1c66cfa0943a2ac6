//! The ends of a port.

ghost use Rattle.port_owner.specs.Laws.{EndsAreChains};

/// The ends of each port are one chain: a send gives the end that the send before left.
pub fn ends_are_chains()
    ensures { EndsAreChains }
{}
