//! The fixed order of a plain run.

ghost use Rattle.std.specs.Prelude.{◌≡◌, ◌≤◌, MatchOption};
ghost use Rattle.kernel_syntax.specs.Program.{IsProgram};
ghost use Rattle.site_message.specs.Limits.{AreLimits};
ghost use Rattle.tree_node.specs.declared.limits.TheConstants.{MOST_UNITS};
ghost use Rattle.world_core.specs.Travels.{IsNoneFor, IsFirstFor, AreTravels};
ghost use Rattle.plain_run.specs.Rounds.{LeadsTo, last_site};
ghost use Rattle.plain_run.specs.Progress.{IsGoing, IsNextBusy};
ghost use Rattle.plain_run.specs.Order.{CanBeMade};

use crate::busy::next_busy;
use crate::order::{Choice, Order};
use site_message::Limits;
use tree_node::MOST_UNITS;
use world_core::World;

// The turn of the next site behind the last one, in rounds, that has a message or can go on: with the message of the lowest number, and
// as many units as may be.
pub(crate) fn next_in_rounds(world: &World<'_>, last: u32, limits: Limits) -> Choice
    requires program { IsProgram world.now.program }
    requires limits { AreLimits limits }
    requires going { IsGoing limits world.now.program world.now }
    requires last { last ≤ limits.sites }
    ensures can { CanBeMade limits world.now result }
    ensures next { IsNextBusy world.now limits.sites last result.site }
    ensures lowest { MatchOption result.place (IsNoneFor world.now.travels result.site) (λ place. IsFirstFor world.now.travels result.site place) }
    ensures passed { result.passed ≡ 0 }
    ensures units { result.units ≡ MOST_UNITS }
{
    let Some(site) = next_busy(world, last, limits.sites) else {
        // The run would have ended.
        unreachable!();
    };
    Choice {
        site,
        passed: 0,
        place: world.next_for(site),
        units: MOST_UNITS,
    }
}

/// Rounds of sites 1 to the last. They keep the site of the last turn, before the first one the last of all.
#[derive(Drop)]
pub(crate) struct Rounds {
    pub last: u32,
}

impl Order for Rounds {
    ghost follows = { LeadsTo };

    ghost recalls = { λ r l j. (r.last ≡ last_site l.sites j) × (r.last ≤ l.sites) };

    fn next(&mut self, world: &World<'_>, limits: Limits) -> Choice {
        world.travelling();
        let choice = next_in_rounds(world, self.last, limits);
        self.last = choice.site;
        choice
    }
}
