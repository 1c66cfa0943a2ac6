//! Laws of the definitions, and worked runs by them.

ghost use Rattle.site_model.specs.CellExample.{TokenGoesRound};
ghost use Rattle.site_model.specs.Example.{BundleTravels, TokenReturns};
ghost use Rattle.site_model.specs.Laws.{BundlesAreOrdered, RowsFillLast, UnitsFillLast};

/// A run of fourteen turns of two sites, in which every kind of message travels, is a run of a world and ends quiet. And rows
/// in which a bundle takes a known structure along in one message. It does nothing: its clauses are worked examples.
pub fn worked_turns()
    ensures run { TokenReturns }
    ensures bundle { BundleTravels }
{}

/// The rows in which a cell's token goes round three sites, once with a Forward that comes before its Put.
pub fn worked_cells()
    ensures { TokenGoesRound }
{}

/// The bundle of a message has at most as many equations as the limit, in the strictly ascending order of their names. It does
/// nothing: its clause is the law.
pub fn bundles_are_ordered()
    ensures { BundlesAreOrdered }
{}

/// A row and a unit can be made without bundles, and the messages get theirs at its end. It does nothing: its clauses are the
/// laws.
pub fn bundles_come_last()
    ensures rows { RowsFillLast }
    ensures units { UnitsFillLast }
{}
