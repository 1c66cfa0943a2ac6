//! The turns of a run without workers, in the order that is given.

ghost use Rattle.std.specs.Prelude.{◌≡◌, ◌<◌, ◌≤◌, List, [], false, IfOk, IfErr, OnErr};
ghost use Rattle.kernel_syntax.specs.declared.stmt.Stmt.{Stmt};
ghost use Rattle.kernel_syntax.specs.Program.{IsProgram};
ghost use Rattle.site_message.specs.Limits.{AreLimits};
ghost use Rattle.site_message.specs.Journal.{end_of, AreWithin};
ghost use Rattle.site_message.specs.EarlierEnd.{HasNoEarlierEnd};
ghost use Rattle.world_core.specs.World.{WorldState, IsWorldTurn, IsWorldTurnInOrder};
ghost use Rattle.plain_run.specs.Rounds.{Standing};
ghost use Rattle.plain_run.specs.Progress.{HasReason, IsGoing, IsLimitedTurn, IsProgress, standing_of, turns_left};
ghost use Rattle.plain_run.specs.Order.{AreSameButOrders, CanBeMade, IsChosenTurn, units_of};

use crate::order::{Choice, Order};
use site_message::{Limits, Quantum, Reason};
use std::alloc::AllocError;
use world_core::{World, WorldRefusal};

// So many threads of the site are passed by, one after another.
#[tactic(auto, using(crate::proofs::PassLemmas::one_more))]
fn pass_by(world: &mut World<'_>, site: u32, count: u32)
    requires some { 1 ≤ site }
    requires among { site ≤ world.old.sites }
    ensures same { AreSameButOrders world.old world.new }
    ensures none { count ≡ 0 → world.new ≡ world.old }
{
    if count == 0 {
        return;
    }
    for _ in 0..count {
        world.pass_by(site);
    }
}

// The turn that was chosen, behind the threads that are passed by. It tells whether the turn took a message or made an own step.
fn take_turn(world: &mut World<'_>, choice: Choice, limits: Limits) -> Result<bool, AllocError>
    requires limits { AreLimits limits }
    requires going { IsGoing limits world.old.program world.old }
    requires can { CanBeMade limits world.old choice }
    ensures err { OnErr result (world.new.journal ≡ world.old.journal) }
    ensures same { (world.new.program ≡ world.old.program) × (world.new.sites ≡ world.old.sites) }
    ensures chosen { IfOk result (λ _. IsChosenTurn limits world.old world.new choice) }
    ensures made { IfOk result (λ _. IsLimitedTurn limits world.old.program world.old world.new choice.site) }
    ensures progress { IfOk result (λ progress. IsProgress limits world.old world.new progress) }
{
    pass_by(world, choice.site, choice.passed);
    make_turn(world, choice, limits)
}

// A turn of the site as it stands, within the limit of own steps. It tells whether the turn took a message or made an own step.
fn make_turn(world: &mut World<'_>, choice: Choice, limits: Limits) -> Result<bool, AllocError>
    requires limits { AreLimits limits }
    requires going { IsGoing limits world.old.program world.old }
    requires can { CanBeMade limits world.old choice }
    ensures err { OnErr result (world.new.journal ≡ world.old.journal) }
    ensures same { (world.new.program ≡ world.old.program) × (world.new.sites ≡ world.old.sites) }
    ensures turn { IfOk result (λ _. IsWorldTurn world.old world.new choice.site choice.place (units_of limits world.old choice)
        × IsWorldTurnInOrder world.old world.new choice.site) }
    ensures made { IfOk result (λ _. IsLimitedTurn limits world.old.program world.old world.new choice.site) }
    ensures progress { IfOk result (λ progress. IsProgress limits world.old world.new progress) }
{
    let steps = world.steps(choice.site);
    let units = (limits.steps - steps).min(u64::from(choice.units)) as u32;
    match world.turn(choice.site, choice.place, Quantum(units)) {
        Ok(()) => Ok(choice.place.is_some() || steps < world.steps(choice.site)),
        Err(WorldRefusal::Memory) => Err(AllocError),
        // The message that was chosen travels.
        Err(WorldRefusal::NotThere) => unreachable!(),
    }
}

// How the run ends after a turn of the site, if it does.
fn end_after(world: &World<'_>, site: u32, limits: Limits) -> Option<Reason>
    requires sites { world.now.sites ≡ limits.sites }
    requires live { world.now.spent ≡ false }
    requires some { 1 ≤ site }
    requires among { site ≤ limits.sites }
    ensures { (old : WorldState) (p : List Stmt) → IsLimitedTurn limits p old world.now site → result ≡ end_of limits world.now.journal }
{
    let over_limit = world.sent() > limits.messages;
    let at_limit = world.steps(site) >= limits.steps && !world.idle(site);
    site_message::end_after(over_limit, at_limit, site, world.quiet())
}

// Turns up to the next one that takes a message or makes an own step; or how the run ends before.
fn advance<O: Order>(world: &mut World<'_>, order: &mut O, limits: Limits) -> Result<(), Reason>
    requires program { IsProgram world.old.program }
    requires limits { AreLimits limits }
    requires going { IsGoing limits world.old.program world.old }
    requires recalls { O.recalls order.old limits world.old.journal }
    requires follows { O.follows world.old.program limits world.old.journal (standing_of world.old) }
    ensures same { (world.new.program ≡ world.old.program) × (world.new.sites ≡ world.old.sites) }
    ensures ended { IfErr result (λ reason. HasReason limits world.new.journal reason) }
    ensures went { HasNoEarlierEnd limits world.new.journal }
    ensures within { AreWithin limits world.new.journal }
    ensures follows { (now : Standing) × O.follows world.old.program limits world.new.journal now }
    ensures on { IfOk result (λ _. IsGoing limits world.old.program world.new × O.recalls order.new limits world.new.journal
        × O.follows world.old.program limits world.new.journal (standing_of world.new) × (turns_left limits world.new < turns_left limits world.old)) }
{
    loop {
        let choice = order.next(world, limits);
        let Ok(progress) = take_turn(world, choice, limits) else {
            return Err(Reason::Memory);
        };
        if let Some(reason) = end_after(world, choice.site, limits) {
            return Err(reason);
        }
        if progress {
            return Ok(());
        }
    }
}

// Turns in the order, up to the end of the run.
pub(crate) fn drive<O: Order>(world: &mut World<'_>, order: &mut O, limits: Limits) -> Reason
    requires program { IsProgram world.old.program }
    requires limits { AreLimits limits }
    requires going { IsGoing limits world.old.program world.old }
    requires recalls { O.recalls order.old limits world.old.journal }
    requires follows { O.follows world.old.program limits world.old.journal (standing_of world.old) }
    ensures same { (world.new.program ≡ world.old.program) × (world.new.sites ≡ world.old.sites) }
    ensures follows { (now : Standing) × O.follows world.old.program limits world.new.journal now }
    ensures reason { HasReason limits world.new.journal result }
    ensures went { HasNoEarlierEnd limits world.new.journal }
    ensures within { AreWithin limits world.new.journal }
{
    loop {
        if let Err(reason) = advance(world, order, limits) {
            return reason;
        }
    }
}
