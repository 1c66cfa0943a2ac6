//! The world of sites: a program on 1 to 64 sites, driven turn by turn in any order, with its journal.
//!
//! For: drivers that choose which site goes next and what it is told, as the fixed order of a plain run.
//!
//! It promises: every world that `World::new`, `World::turn` and `World::replay` give is a run of the program by its `journal`
//! (`WorldRun`), and each turn adds the entry that tells it (`IsWorldTurn`); in a turn that is made by `turn` the threads of the site
//! have their turns in order, and those of the others stand as they did (`IsWorldTurnInOrder`). `World::replay` makes a turn of given
//! units again, where it prints given lines (`IsReplayed`), and else tells the first unit that cannot be made (`IsWorldStuck`), or
//! that the one turn of these units prints others (`PrintsOthers`). `NotThere` comes exactly where the place is none of `travelling`
//! or its message is for another site, and then nothing changes. `travelling` tells exactly the messages that travel by the journal,
//! each once (`AreTravels`), `next_for` the place of the one with the lowest number for a site, `place_of` that of a number, `quiet`
//! whether nothing travels and every site is idle, `sent` how many messages were sent, `schedule` the picks of the turns in
//! order. After each turn the picks of the journal lead the centralised machine to a state that the sites match
//! (`IsSimulated`), the protocols' invariants hold (`ProtocolsHold`, and `HoldAnswers` of ports and of cells whose state stays), no
//! delivered message was unfit, and no more messages were sent than the picks allow (`AreMessagesFew`). Where the world is quiet the machine rests, with the threads that ended and
//! wait at the sites. After want of memory, and after a turn that could not be made again, the world is given up: it has the
//! journal of the turns made before, which stays one of a run. A world has no `Drop`: its turns are handed on, with their schedule (`into_history`).
//!
//! No call walks over messages, threads or the journal, but for `schedule`, which takes a step for each turn and shares its
//! picks: a turn costs by what it does, `quiet` by the number of sites.
//!
//! It stands on `site_core` for the turns of sites, on `world_simulation` for the laws, and on `indexmap` for look-ups of messages by number and
//! by place. `Mail` is the messages between the sites: by their places, from which any can be taken out next, and by the sites that they go
//! to; each call takes as many steps as a look-up, `push_all` as many for each message. `threads` shows that it may cross from thread to thread. Tests of programs (`oz_tests`) run it; no promise is left to them alone.
//!
//! Sources: Haridi and others, *Efficient Logic Variables for Distributed Computing* (TOPLAS 21(3), 1999), and Van Roy and
//! others, *Mobile Objects in Distributed Oz* (TOPLAS 19(5), 1997).
#![tactic(auto)]

mod mail;
mod picks;
mod queue;
mod refusal;
mod threads;
mod travel;
mod world;

pub use picks::schedule;
pub use refusal::{ReplayRefusal, WorldRefusal};
pub use travel::Travel;
pub use world::World;
