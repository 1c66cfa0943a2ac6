//! The turns of a run with their schedule.

ghost use Rattle.std.specs.Prelude.{◌≡◌, [], ◌∷◌, OnOk, OnErr, IfErr};
ghost use Rattle.site_message.specs.Journal.{schedule};

use crate::schedule::Schedule;
use crate::turn::{Journal, Turn};
use std::alloc::{AllocFailed, Global};
use std::marker::Model;

/// The turns of a run with their picks, which contracts see as the list of the turns, the newest first. The picks are put together
/// turn by turn, so that the schedule of a run that is over takes no memory. It has no `Drop`: whoever has turns hands them on.
pub struct History {
    journal: Journal,
    picks: Schedule,
}

impl Model for History {
    ghost use Rattle.std.specs.Prelude.{◌≡◌, List};
    ghost use Rattle.site_message.specs.declared.turn.Turn.{Turn};
    ghost use Rattle.site_message.specs.Journal.{schedule};

    ghost Value = { List Turn };

    ghost view = { λ h. h.journal };

    ghost invariant = { λ h. h.picks ≡ schedule h.journal };
}

impl History {
    /// No turns. It takes no memory.
    pub fn new(alloc: Global) -> History
        ensures { result ≡ [] }
    {
        History {
            journal: Journal::new(alloc),
            picks: Schedule::new(alloc),
        }
    }

    /// The turns.
    pub fn journal(&self) -> &Journal
        ensures { result.now ≡ self.now }
    {
        &self.journal
    }

    /// One more turn, and its picks behind the others. After an error the turn is given back.
    pub fn push(&mut self, turn: Turn) -> Result<(), AllocFailed<Turn>>
        ensures ok { OnOk result (self.new ≡ turn ∷ self.old) }
        ensures err { OnErr result (self.new ≡ self.old) }
        ensures given_back { IfErr result (λ refused. refused.value ≡ turn) }
    {
        self.journal.push_with_picks(turn, &mut self.picks)
    }

    /// The turns and their schedule, of a run that is over. It takes no memory.
    pub fn into_parts(self) -> (Journal, Schedule)
        ensures journal { result.0 ≡ self }
        ensures schedule { result.1 ≡ schedule self }
    {
        let History { journal, picks } = self;
        (journal, picks)
    }

    /// Lets go of no turns.
    pub fn destroy_empty(self)
        requires { self ≡ [] }
    {
        let History { journal, picks: _ } = self;
        journal.destroy_empty();
    }
}
