//! What is told of a run, whatever drove it.

ghost use Rattle.std.specs.Prelude.{◌≡◌};
ghost use Rattle.world_model.specs.Schedule.{schedule, sum_to};
ghost use Rattle.world_model.specs.Simulated.{last_ended, last_waiting};
ghost use Rattle.site_message.specs.Limits.{AreLimits};
ghost use Rattle.site_message.specs.Journal.{AreWithin};
ghost use Rattle.site_message.specs.EarlierEnd.{HasNoEarlierEnd};
ghost use Rattle.world_core.specs.Laws.{HasRun, AreMessagesFew};
ghost use Rattle.plain_run.specs.Progress.{HasReason};
ghost use Rattle.plain_run.specs.Simulated.{HasMachineRun};
ghost use Rattle.plain_run.specs.Output.{IsOutputOf};

use crate::out::{DrivenRun, RunOut};
use crate::totals::last_totals;
use kernel_syntax::Program;
use site_message::Limits;

/// Tells a run of the program on the sites, whatever drove it, a saved run that is made again among them: the totals are made of its
/// journal, once. It takes no memory.
pub fn finish_run(program: &Program, limits: Limits, driven: DrivenRun) -> RunOut
    requires limits { AreLimits limits }
    requires run { HasRun program.now limits.sites driven.history }
    requires reason { HasReason limits driven.history driven.reason }
    requires went { HasNoEarlierEnd limits driven.history }
    ensures told { IsOutputOf driven result }
    ensures run { HasRun program.now limits.sites result.journal }
    ensures simulated { HasMachineRun program.now limits.sites result.journal }
    ensures few { AreMessagesFew program.now limits.sites result.journal }
    ensures schedule { result.schedule ≡ schedule result.journal }
    ensures reason { HasReason limits result.journal result.reason }
    ensures went { HasNoEarlierEnd limits result.journal }
    ensures within { AreWithin limits driven.history → AreWithin limits result.journal }
    ensures ended { result.ended ≡ sum_to limits.sites (last_ended result.journal) }
    ensures waiting { result.waiting ≡ sum_to limits.sites (last_waiting result.journal) }
{
    program.is_program();
    let DrivenRun { history, reason } = driven;
    let (journal, schedule) = history.into_parts();
    schedule.is_short();
    let (ended, waiting) = last_totals(&journal, limits.sites);
    RunOut {
        reason,
        ended,
        waiting,
        journal,
        schedule,
    }
}
