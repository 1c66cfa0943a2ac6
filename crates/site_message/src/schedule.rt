//! The picks of a run.

ghost use Rattle.std.specs.Prelude.{◌≡◌, ◌<◌, ◌^◌, [], ◌++◌, length, IfOk, OnOk, OnErr};

use crate::picks::Picks;
use pick_list::PickList;
use std::alloc::{AllocError, Global};
use std::marker::Model;
use tree_node::Pick;

// The most picks of a schedule.
const MOST: usize = isize::MAX as usize;

/// The picks of a whole run in the order of its steps, which contracts see as a list: the choices by which the
/// centralised machine makes the run again. It shares the lists of the turns that it is made of, so that the picks of a
/// run stand in memory once; a turn costs a step, however many picks it has.
#[derive(Drop)]
pub struct Schedule {
    first: PickList,
    turns: Vec<Picks>,
    count: usize,
}

impl Model for Schedule {
    ghost use Rattle.std.specs.Prelude.{◌≡◌, ◌<◌, ◌^◌, List, length};
    ghost use Rattle.tree_node.specs.declared.pick.Pick.{Pick};
    ghost use Rattle.site_message.specs.Schedule.{picks_in};

    ghost Value = { List Pick };

    ghost view = { λ s. picks_in s.first s.turns.items };

    ghost invariant = { λ s. (s.count ≡ length (picks_in s.first s.turns.items)) × (s.count < 2 ^ 63) };
}

impl Schedule {
    /// No picks. It takes no memory.
    pub fn new(alloc: Global) -> Schedule
        ensures { result ≡ [] }
    {
        Schedule::from_picks(alloc, PickList::new(alloc))
    }

    /// The picks of a list, as they stand there. It takes no memory.
    pub fn from_picks(alloc: Global, picks: PickList) -> Schedule
        ensures { result ≡ picks }
    {
        picks.is_short();
        Schedule {
            count: picks.len(),
            first: picks,
            turns: Vec::new(alloc),
        }
    }

    /// The number of picks.
    pub fn len(&self) -> usize
        ensures { result ≡ length self.now }
    {
        self.count
    }

    /// That a schedule has less than 2^63 picks, as a vector has. It does nothing: a caller learns the fact.
    pub fn is_short(&self)
        ensures { length self.now < 2 ^ 63 }
    {
        let _ = &self.count;
    }

    /// Puts the picks of a turn behind the others. It takes no memory for each pick, and none for a turn without picks.
    #[tactic(auto, using(crate::proofs::PickLemmas::none_put))]
    pub fn append(&mut self, turn: &Picks) -> Result<(), AllocError>
        ensures ok { OnOk result (self.new ≡ self.old ++ turn.now) }
        ensures err { OnErr result (self.new ≡ self.old) }
    {
        let more = turn.len();
        if more == 0 {
            return Ok(());
        }
        if more > MOST - self.count {
            return Err(AllocError);
        }
        self.turns.push(turn.copy()?)?;
        self.count += more;
        Ok(())
    }

    /// The vector of these picks. It takes memory for each of them.
    pub fn into_vec(self, alloc: Global) -> Result<Vec<Pick>, AllocError>
        ensures { IfOk result (λ picks. picks.items ≡ self) }
    {
        let mut picks = self.first.to_vec(alloc)?;
        for turn in self.turns.as_slice() {
            turn.push_to(alloc, &mut picks)?;
        }
        Ok(picks)
    }
}
