//! Which site goes next.

ghost use Rattle.std.specs.Prelude.{◌≡◌, ◌+◌, ◌<◌, ◌≤◌, ℕ, false, MatchOption};
ghost use Rattle.tree_node.specs.declared.limits.TheConstants.{MOST_SITES};
ghost use Rattle.plain_run.specs.Progress.{IsAtEase, IsFirstBusy, IsNextBusy};

use world_core::World;

// The first of these sites that has a message or can go on.
fn busy_among(world: &World<'_>, from: u32, end: u32) -> Option<u32>
    requires some { 1 ≤ from }
    requires among { end ≤ world.now.sites + 1 }
    requires live { world.now.spent ≡ false }
    ensures { MatchOption result ((i : ℕ) → from ≤ i → i < end → IsAtEase world.now i) (λ i. IsFirstBusy world.now from end i) }
{
    for site in from..end {
        if !world.idle(site) || world.has_message(site) {
            return Some(site);
        }
    }
    None
}

// The next site behind the last one, in rounds, that has a message or can go on.
pub(crate) fn next_busy(world: &World<'_>, last: u32, sites: u32) -> Option<u32>
    requires last { last ≤ sites }
    requires sites { sites ≡ world.now.sites }
    requires most { sites ≤ MOST_SITES }
    requires live { world.now.spent ≡ false }
    ensures { MatchOption result ((i : ℕ) → 1 ≤ i → i ≤ sites → IsAtEase world.now i) (λ i. IsNextBusy world.now sites last i) }
{
    match busy_among(world, last + 1, sites + 1) {
        Some(site) => Some(site),
        None => busy_among(world, 1, last + 1),
    }
}
