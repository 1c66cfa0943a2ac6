//! A world of sites and the centralised machine: what the one has to do with the other.
//!
//! For: what it means that a run of several sites is a run of the centralised machine. Whoever proves something of both
//! starts from here.
//!
//! It promises the definitions: the picks, lines and totals of a journal (`specs/Schedule.antt`), a world of sites between
//! two parts of a turn (`specs/World.antt`), that its sites and travelling messages match a state of the machine (`Matches`
//! and `CellsMatch`), the chain of the sites that asked for a cell (`Cells`), which names occur where and who made them
//! (`specs/Names.antt`), and the whole relation of a run to the machine's (`IsSimulated`). `worked_totals` computes the
//! totals of a run of two sites.
//!
//! It stands on `site_model`, whose runs it speaks of, and on `oz_model`, whose machine it is. That every run of sites is
//! such a run is proved above. It has no code, and no tests.
//!
//! Sources: Haridi and others, *Efficient Logic Variables for Distributed Computing* (TOPLAS 21(3), 1999), and Van Roy and
//! others, *Mobile Objects in Distributed Oz* (TOPLAS 19(5), 1997).
#![tactic(auto)]

mod laws;

pub use laws::worked_totals;
