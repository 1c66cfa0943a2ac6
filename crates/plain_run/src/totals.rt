//! What the sites told last.

ghost use Rattle.std.specs.Prelude.{◌≡◌, ◌<◌, ◌≤◌, ◌^◌};
ghost use Rattle.tree_node.specs.declared.limits.TheConstants.{MOST_SITES};
ghost use Rattle.world_model.specs.Schedule.{sum_to};
ghost use Rattle.world_model.specs.Simulated.{last_ended, last_waiting};

use site_message::Journal;
use tree_node::MOST_SITES;

/// How many threads ended and wait at the sites together, by the last turn of each.
pub(crate) fn last_totals(journal: &Journal, sites: u32) -> (u64, u64)
    requires most { sites ≤ MOST_SITES }
    requires ended { sum_to sites (last_ended journal.now) < 2 ^ 64 }
    requires waiting { sum_to sites (last_waiting journal.now) < 2 ^ 64 }
    ensures ended { result.0 ≡ sum_to sites (last_ended journal.now) }
    ensures waiting { result.1 ≡ sum_to sites (last_waiting journal.now) }
{
    let mut told = [(0u64, 0u64); MOST_SITES as usize + 1];
    for turn in journal.oldest_first() {
        if turn.site <= MOST_SITES {
            told[turn.site as usize] = (turn.ended, turn.waiting);
        }
    }
    let mut ended = 0;
    let mut waiting = 0;
    for site in 1..sites + 1 {
        ended += told[site as usize].0;
        waiting += told[site as usize].1;
    }
    (ended, waiting)
}
