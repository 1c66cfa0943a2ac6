//! The order that is drawn from a seed.

ghost use Rattle.std.specs.Prelude.{◌≡◌, ◌≤◌, ◌<◌, ⊤};
ghost use Rattle.kernel_syntax.specs.Program.{IsProgram};
ghost use Rattle.site_message.specs.Limits.{AreLimits};
ghost use Rattle.tree_node.specs.declared.limits.TheConstants.{MOST_SITES, MOST_UNITS};
ghost use Rattle.plain_run.specs.Progress.{IsGoing};
ghost use Rattle.plain_run.specs.Order.{CanBeMade};

use crate::busy::next_busy;
use crate::order::{Choice, Order};
use crate::rounds::next_in_rounds;
use rand_core::{Rng, SeedableRng};
use rand_xoshiro::Xoshiro256PlusPlus;
use site_message::Limits;
use tree_node::MOST_SITES;
use world_core::World;

// So many turns are drawn between two of the rounds.
const BETWEEN_ROUNDS: u32 = 63;

// So often a turn is drawn again, where it is of a site that is held back.
const MOST_DRAWS: u32 = 8;

// So many turns of a site pass threads by, before each of its threads has a turn again.
const MOST_PASSING: u32 = 64;

// So many threads are passed by at most, one after another.
const MOST_PASSED: usize = 64;

// A number below the bound.
fn below(random: &mut Xoshiro256PlusPlus, bound: u64) -> u64
    requires { 1 ≤ bound }
    ensures { result < bound }
{
    random.next_u64() % bound
}

// 0, 1, 3, 7, 15, 31 or 63.
fn below_64(random: &mut Xoshiro256PlusPlus) -> u64
    ensures { result < 64 }
{
    63 >> below(random, 7)
}

// Whether the site is one of these, which are bits.
fn is_among(sites: u64, site: u32) -> bool
    requires some { 1 ≤ site }
    requires most { site ≤ MOST_SITES }
{
    (sites >> (site - 1)) & 1 == 1
}

// What is counted of a site: how many of its turns passed threads by since each of them had a turn, and in how many turns from now on none
// is passed by, so that each has one.
#[derive(Clone, Copy)]
struct Passing {
    passed: u32,
    owed: usize,
}

/// The draws of a run. How long turns are at most is drawn once for all turns, so that runs differ in it.
#[derive(Drop)]
pub(crate) struct Draws {
    random: Xoshiro256PlusPlus,
    // A turn makes so many units at most, and one; more in a long run.
    longest: u64,
    // The sites that are held back for now, as bits: about half of them.
    held: u64,
    // What is counted of each site, that of site 1 first.
    passing: [Passing; MOST_SITES as usize],
    // The site of the last turn of the rounds, and how many are drawn before the next one.
    last: u32,
    left: u32,
}

impl Draws {
    /// The draws of a seed.
    pub(crate) fn new(seed: u64) -> Draws
        ensures { result.last ≡ 0 }
    {
        let mut random = Xoshiro256PlusPlus::seed_from_u64(seed);
        let longest = below_64(&mut random).min(below_64(&mut random));
        Draws {
            random,
            longest,
            held: 0,
            passing: [Passing { passed: 0, owed: 0 }; MOST_SITES as usize],
            last: 0,
            left: BETWEEN_ROUNDS,
        }
    }

    // How many units a turn makes at most.
    fn draw_units(&mut self) -> u32
        ensures some { 1 ≤ result }
        ensures most { result ≤ MOST_UNITS }
        ensures last { self.new.last ≡ self.old.last }
    {
        let longest = below_64(&mut self.random).min(self.longest);
        1 + below(&mut self.random, 1 + longest) as u32
    }

    // A turn: of a message, drawn of all that travel, or of a site that can go on.
    fn draw(&mut self, world: &World<'_>, limits: Limits) -> Choice
        requires program { IsProgram world.now.program }
        requires limits { AreLimits limits }
        requires going { IsGoing limits world.now.program world.now }
        ensures can { CanBeMade limits world.now result }
        ensures last { self.new.last ≡ self.old.last }
    {
        let units = self.draw_units();
        let behind = below(&mut self.random, u64::from(limits.sites)) as u32;
        let delivers = below(&mut self.random, 8) != 0;
        let Some(site) = next_busy(world, behind, limits.sites) else {
            // The run would have ended.
            unreachable!();
        };
        let travels = world.travelling();
        if !world.idle(site) && (travels.is_empty() || !delivers) {
            return Choice {
                site,
                passed: 0,
                place: None,
                units,
            };
        }
        let place = below(&mut self.random, travels.len() as u64) as usize;
        Choice {
            site: travels[place].to,
            passed: 0,
            place: Some(place),
            units,
        }
    }

    // A turn of a site that is not held back, if one is drawn soon.
    fn draw_free(&mut self, world: &World<'_>, limits: Limits) -> Choice
        requires program { IsProgram world.now.program }
        requires limits { AreLimits limits }
        requires going { IsGoing limits world.now.program world.now }
        ensures can { CanBeMade limits world.now result }
        ensures last { self.new.last ≡ self.old.last }
    {
        let mut choice = self.draw(world, limits);
        for _ in 0..MOST_DRAWS {
            if !is_among(self.held, choice.site) {
                return choice;
            }
            choice = self.draw(world, limits);
        }
        choice
    }
}

impl Draws {
    // How many threads of the site are passed by: any number of those that can go on. Now and then none is, until each of them has had a turn.
    fn draw_passed(&mut self, world: &World<'_>, site: u32) -> u32
        requires some { 1 ≤ site }
        requires among { site ≤ world.now.sites }
        requires most { world.now.sites ≤ MOST_SITES }
        ensures last { self.new.last ≡ self.old.last }
    {
        let runnable = world.runnable(site);
        let at = site as usize - 1;
        let Passing { passed, owed } = self.passing[at];
        if owed > 0 {
            self.passing[at].owed = owed - 1;
            return 0;
        }
        if passed >= MOST_PASSING {
            self.passing[at] = Passing {
                passed: 0,
                owed: runnable,
            };
            return 0;
        }
        self.passing[at].passed = passed + 1;
        below(&mut self.random, runnable.clamp(1, MOST_PASSED) as u64) as u32
    }
}

impl Order for Draws {
    ghost follows = { λ p l j now. ⊤ };

    ghost recalls = { λ d l j. d.last ≤ l.sites };

    fn next(&mut self, world: &World<'_>, limits: Limits) -> Choice {
        if self.left == 0 {
            self.left = BETWEEN_ROUNDS;
            self.longest = self.longest.saturating_add(1);
            let choice = next_in_rounds(world, self.last, limits);
            self.last = choice.site;
            return choice;
        }
        self.left -= 1;
        if below(&mut self.random, 32) == 0 {
            self.held = self.random.next_u64();
        }
        let mut choice = self.draw_free(world, limits);
        choice.passed = self.draw_passed(world, choice.site);
        choice
    }
}
