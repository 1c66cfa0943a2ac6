//! Totals of a worked run by the definitions.

ghost use Rattle.world_model.specs.Example.{TotalsReturn};

/// The totals that the two sites of the worked run told last: of ended threads and of waiting ones, at its end and two turns
/// before. It does nothing: its clause is the totals.
pub fn worked_totals()
    ensures { TotalsReturn }
{}
