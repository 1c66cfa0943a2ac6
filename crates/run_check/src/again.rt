//! Entries of a saved run, made again.

ghost use Rattle.std.specs.Prelude.{◌≡◌, ◌≢◌, ℕ, [], false, IfOk, IfErr, OnOk, OnErr, Option, None};
ghost use Rattle.site_message.specs.declared.limits.Limits.{Limits};
ghost use Rattle.site_message.specs.Journal.{end_of};
ghost use Rattle.site_message.specs.EarlierEnd.{HasNoEarlierEnd};
ghost use Rattle.site_model.specs.Site.{initial_site};
ghost use Rattle.world_core.specs.Laws.{HasRun, AreMessagesFew};
ghost use Rattle.world_core.specs.World.{states_of};
ghost use Rattle.world_core.specs.declared.refusal.ReplayRefusal.TheVariants.{Memory as OutOfMemory};
ghost use Rattle.run_file.specs.Fits.{MayBeSaved, IsEntryOf};
ghost use Rattle.run_check.specs.Again.{AreMadeAgain, IsFrontMadeAgain, IsWrong, IsWrongAt};
ghost use Rattle.run_check.specs.World.{HasMade, IsNext, IsLookedUp, Stops, TravelsNowhere, limits_of};
ghost use Rattle.run_check.specs.declared.made.Made.TheVariants as made;

use crate::made::{Again, Made};
use kernel_syntax::Program;
use run_file::{Entry, RunFile};
use site_message::{History, Reason};
use std::alloc::Global;
use world_core::{ReplayRefusal, World};

// The most own steps of a site before a turn that is made again. No saved run comes near to it.
const MOST_STEPS_BEFORE: u64 = 1 << 48;

/// Makes the entries of a saved run of the program again, one after another, up to the first that is wrong.
pub fn make_again(alloc: Global, program: &Program, run: &RunFile) -> Again
    requires saved { MayBeSaved run.now }
    ensures run { HasRun program.now run.now.sites result.history }
    ensures few { AreMessagesFew program.now run.now.sites result.history }
    ensures went { HasNoEarlierEnd (limits_of run.now) result.history }
    ensures all { (reason : Option _) → result.made ≡ made.All reason → (w : _) × AreMadeAgain program.now (limits_of run.now) result.history run.now.entries w }
    ensures end { (reason : Option _) → result.made ≡ made.All reason → reason ≡ end_of (limits_of run.now) result.history }
    ensures wrong { (at : ℕ) → result.made ≡ made.Wrong at → IsWrongAt program.now (limits_of run.now) run.now.entries at result.history }
    ensures memory { result.made ≡ made.Memory → IsFrontMadeAgain program.now (limits_of run.now) result.history run.now.entries }
{
    program.is_program();
    match World::new(alloc, program, run.sites()) {
        Ok(mut world) => {
            let made = replay_all(alloc, &mut world, run);
            Again {
                history: world.into_history(),
                made,
            }
        }
        Err(_) => Again {
            history: History::new(alloc),
            made: Made::Memory,
        },
    }
}

// The entries from the first one on, in a world at its start.
fn replay_all(alloc: Global, world: &mut World<'_>, run: &RunFile) -> Made
    requires saved { MayBeSaved run.now }
    requires sites { world.old.sites ≡ run.now.sites }
    requires live { world.old.spent ≡ false }
    requires new { world.old.journal ≡ [] }
    requires start { (i : ℕ) → states_of world.old i ≡ initial_site world.old.program world.old.sites i }
    ensures same { (world.new.program ≡ world.old.program) × (world.new.sites ≡ world.old.sites) }
    ensures went { HasNoEarlierEnd (limits_of run.now) world.new.journal }
    ensures all { (reason : Option _) → result ≡ made.All reason → HasMade world.old.program (limits_of run.now) run.now.entries world.new }
    ensures end { (reason : Option _) → result ≡ made.All reason → reason ≡ end_of (limits_of run.now) world.new.journal }
    ensures wrong { (at : ℕ) → result ≡ made.Wrong at → IsWrongAt world.old.program (limits_of run.now) run.now.entries at world.new.journal }
    ensures memory { result ≡ made.Memory → IsFrontMadeAgain world.old.program (limits_of run.now) world.new.journal run.now.entries }
{
    let entries = run.entries();
    for at in 0..entries.len() {
        if end_after(world, run).is_some() {
            return Made::Wrong(at);
        }
        match replay(alloc, world, &entries[at]) {
            Ok(()) => {}
            Err(refusal) => return stopped(refusal, at),
        }
    }
    Made::All(end_after(world, run))
}

// How far the entries were made again, where the one at this place was not.
fn stopped(refusal: ReplayRefusal, at: usize) -> Made
    ensures { Stops refusal at result }
{
    match refusal {
        ReplayRefusal::Memory => Made::Memory,
        _ => Made::Wrong(at),
    }
}

// How the run ends after the turns made so far, if it does.
fn end_after(world: &World<'_>, run: &RunFile) -> Option<Reason>
    requires live { world.now.spent ≡ false }
    requires sites { world.now.sites ≡ run.now.sites }
    ensures { result ≡ end_of (limits_of run.now) world.now.journal }
{
    let turn = world.journal().oldest_first().last()?;
    let over_limit = world.sent() > run.messages();
    let at_limit = turn.steps >= run.steps() && !turn.idle;
    site_message::end_after(over_limit, at_limit, turn.site, world.quiet())
}

// The place of what an entry delivers, if it delivers something; none travels where that is refused.
fn place_for(world: &World<'_>, delivered: Option<u64>) -> Result<Option<usize>, ReplayRefusal>
    requires live { world.now.spent ≡ false }
    ensures place { IfOk result (λ place. IsLookedUp world.now.journal world.now.travels delivered place) }
    ensures none { IfErr result (λ _. TravelsNowhere world.now.journal delivered) }
{
    let Some(number) = delivered else {
        return Ok(None);
    };
    match world.place_of(number) {
        Some(place) => Ok(Some(place)),
        None => Err(ReplayRefusal::NotThere),
    }
}

// One entry, where the run goes on. A message that does not travel is refused as one that is not there.
fn replay(alloc: Global, world: &mut World<'_>, entry: &Entry) -> Result<(), ReplayRefusal>
    requires live { world.old.spent ≡ false }
    requires entry { IsEntryOf world.old.sites entry.now }
    ensures same { (world.new.program ≡ world.old.program) × (world.new.sites ≡ world.old.sites) }
    ensures err { OnErr result (world.new.journal ≡ world.old.journal) }
    ensures live { OnOk result (world.new.spent ≡ false) }
    ensures next { (l : Limits) → l.sites ≡ world.old.sites → end_of l world.old.journal ≡ None → OnOk result (IsNext l world.old world.new entry.now) }
    ensures wrong { (l : Limits) → l.sites ≡ world.old.sites → IfErr result (λ r. r ≢ OutOfMemory → IsWrong world.old.program l world.old.journal (states_of world.old) entry.now) }
{
    if world.steps(entry.site) > MOST_STEPS_BEFORE {
        return Err(ReplayRefusal::Memory);
    }
    let place = place_for(world, entry.delivered)?;
    let threads = entry.units.to_vec(alloc)?;
    world.replay(entry.site, place, &threads, entry.lines.as_slice())
}
