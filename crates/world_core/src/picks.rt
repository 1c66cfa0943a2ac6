//! The schedule of a journal.

ghost use Rattle.std.specs.Prelude.{◌≡◌, IfOk};
ghost use Rattle.world_model.specs.Schedule.{schedule};

use site_message::{Journal, Schedule};
use std::alloc::{AllocError, Global};

/// The picks of the turns in order: the choices by which the centralised machine makes the same run. It shares the turns'
/// lists, so it costs by the number of turns.
pub fn schedule(alloc: Global, journal: &Journal) -> Result<Schedule, AllocError>
    ensures { IfOk result (λ picks. picks ≡ schedule journal.now) }
{
    let mut picks = Schedule::new(alloc);
    for turn in journal.oldest_first() {
        picks.append(&turn.picks)?;
    }
    Ok(picks)
}
