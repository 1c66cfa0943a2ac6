//! The runs: in the fixed order, and in one that is drawn.

ghost use Rattle.std.specs.Prelude.{◌≡◌, []};
ghost use Rattle.world_model.specs.Schedule.{schedule, sum_to};
ghost use Rattle.world_model.specs.Simulated.{last_ended, last_waiting};
ghost use Rattle.site_message.specs.Limits.{AreLimits};
ghost use Rattle.site_message.specs.Journal.{AreWithin};
ghost use Rattle.site_message.specs.EarlierEnd.{HasNoEarlierEnd};
ghost use Rattle.world_core.specs.Laws.{HasRun, AreMessagesFew};
ghost use Rattle.plain_run.specs.Progress.{HasReason};
ghost use Rattle.plain_run.specs.Rounds.{AreAtStart, IsPlainRun, Standing};
ghost use Rattle.plain_run.specs.Simulated.{HasMachineRun};

use crate::drive::drive;
use crate::finish::finish_run;
use crate::order::Order;
use crate::out::{DrivenRun, RunOut};
use crate::rounds::Rounds;
use crate::seeded::Draws;
use kernel_syntax::Program;
use site_message::{History, Limits, Reason};
use std::alloc::Global;
use world_core::World;

/// Runs the program on sites 1 to the last, in rounds: each site takes its message with the lowest number, if there is one, and
/// then its threads go, first come first served, for at most 64 units and never past the limit of own steps. A site that has
/// no message and is idle is left out. The run ends by the first that holds after a turn: more messages were sent than the
/// limit, the site came to its limit of own steps and is not idle, nothing travels and every site is idle; or where memory runs out.
pub fn run_plain(alloc: Global, program: &Program, limits: Limits) -> RunOut
    requires { AreLimits limits }
    ensures run { HasRun program.now limits.sites result.journal }
    ensures simulated { HasMachineRun program.now limits.sites result.journal }
    ensures few { AreMessagesFew program.now limits.sites result.journal }
    ensures schedule { result.schedule ≡ schedule result.journal }
    ensures reason { HasReason limits result.journal result.reason }
    ensures went { HasNoEarlierEnd limits result.journal }
    ensures within { AreWithin limits result.journal }
    ensures rounds { IsPlainRun program.now limits result.journal }
    ensures ended { result.ended ≡ sum_to limits.sites (last_ended result.journal) }
    ensures waiting { result.waiting ≡ sum_to limits.sites (last_waiting result.journal) }
{
    let mut rounds = Rounds { last: limits.sites };
    finish_run(
        program,
        limits,
        run_world(alloc, program, limits, &mut rounds),
    )
}

/// Runs the program on sites 1 to the last, in an order that is drawn from the seed: which site goes next, which of the messages that
/// travel to it it takes, if it takes one, and how many units it makes, 1 to 64 and never past the limit of own steps. Each run of a
/// program with one seed and the same limits is the same. It ends as the plain run does.
pub fn run_seeded(alloc: Global, program: &Program, limits: Limits, seed: u64) -> RunOut
    requires { AreLimits limits }
    ensures run { HasRun program.now limits.sites result.journal }
    ensures simulated { HasMachineRun program.now limits.sites result.journal }
    ensures few { AreMessagesFew program.now limits.sites result.journal }
    ensures schedule { result.schedule ≡ schedule result.journal }
    ensures reason { HasReason limits result.journal result.reason }
    ensures went { HasNoEarlierEnd limits result.journal }
    ensures within { AreWithin limits result.journal }
    ensures ended { result.ended ≡ sum_to limits.sites (last_ended result.journal) }
    ensures waiting { result.waiting ≡ sum_to limits.sites (last_waiting result.journal) }
{
    let mut draws = Draws::new(seed);
    finish_run(
        program,
        limits,
        run_world(alloc, program, limits, &mut draws),
    )
}

// The turns of a run in this order, and how it ended.
fn run_world<O: Order>(alloc: Global, program: &Program, limits: Limits, order: &mut O) -> DrivenRun
    requires limits { AreLimits limits }
    requires recalls { O.recalls order.old limits [] }
    requires begins { (now : Standing) → AreAtStart program.now limits.sites now → O.follows program.now limits [] now }
    ensures run { HasRun program.now limits.sites result.history }
    ensures reason { HasReason limits result.history result.reason }
    ensures went { HasNoEarlierEnd limits result.history }
    ensures within { AreWithin limits result.history }
    ensures follows { (now : Standing) × O.follows program.now limits result.history now }
{
    program.is_program();
    match World::new(alloc, program, limits.sites) {
        Ok(mut world) => {
            let reason = drive(&mut world, order, limits);
            DrivenRun {
                history: world.into_history(),
                reason,
            }
        }
        Err(_) => DrivenRun {
            history: History::new(alloc),
            reason: Reason::Memory,
        },
    }
}
