//! The picks of a turn.

ghost use Rattle.std.specs.Prelude.{◌≡◌, ◌++◌, [], length, IfOk, OnOk};

use pick_list::{CompactPicks, PickList};
use std::alloc::{AllocError, Global};
use std::marker::Model;
use std::sync::Arc;
use tree_node::Pick;

/// The picks of one turn, in the order of their steps, which contracts see as a list. They stand in columns, and the schedule of
/// the run shares them: a copy takes one step however many they are, and threads may hold copies of one list. The empty one takes
/// no memory.
#[derive(Drop)]
pub struct Picks {
    list: Option<Arc<CompactPicks, Global>>,
}

impl Model for Picks {
    ghost use Rattle.std.specs.Prelude.{List};
    ghost use Rattle.tree_node.specs.declared.pick.Pick.{Pick};
    ghost use Rattle.site_message.specs.Schedule.{shared_picks};

    ghost Value = { List Pick };

    ghost view = { λ s. shared_picks s.list };
}

impl Picks {
    /// No picks.
    pub fn new() -> Picks
        ensures { result ≡ [] }
    {
        Picks { list: None }
    }

    /// Takes the picks of a list out, in as little memory as they need. The list has none then, and keeps its memory for others. Where there are
    /// none it takes no memory.
    #[tactic(auto, using(crate::proofs::PickLemmas::no_picks))]
    pub fn take(alloc: Global, list: &mut PickList) -> Result<Picks, AllocError>
        ensures same { IfOk result (λ s. s ≡ list.old) }
        ensures empty { OnOk result (list.new ≡ []) }
    {
        if list.len() == 0 {
            return Ok(Picks::new());
        }
        let taken = list.take_all(alloc)?;
        let list = Arc::new(alloc, taken)?;
        Ok(Picks { list: Some(list) })
    }

    /// The number of picks.
    pub fn len(&self) -> usize
        ensures { result ≡ length self.now }
    {
        match &self.list {
            Some(list) => list.len(),
            None => 0,
        }
    }

    /// The same list. An error comes only where its copies can no longer be counted.
    pub fn copy(&self) -> Result<Picks, AllocError>
        ensures same { IfOk result (λ s. s ≡ self.now) }
    {
        let list = match &self.list {
            Some(list) => Some(list.clone()?),
            None => None,
        };
        Ok(Picks { list })
    }

    /// Puts copies of these picks behind those of a vector.
    pub fn push_to(&self, alloc: Global, picks: &mut Vec<Pick>) -> Result<(), AllocError>
        ensures { OnOk result (picks.new.items ≡ picks.old.items ++ self.now) }
    {
        if let Some(list) = &self.list {
            let mut more = list.to_vec(alloc)?;
            picks.append(&mut more)?;
        }
        Ok(())
    }
}
