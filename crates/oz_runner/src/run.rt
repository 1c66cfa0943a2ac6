//! The run of a program: over its sites, or on the centralised machine.

ghost use Rattle.std.specs.Prelude.{◌≡◌, None};
ghost use Rattle.oz_words.specs.Words.{InRange};
ghost use Rattle.site_message.specs.Journal.{AreWithin};
ghost use Rattle.site_message.specs.EarlierEnd.{HasNoEarlierEnd};
ghost use Rattle.world_model.specs.Schedule.{schedule, sum_to};
ghost use Rattle.world_model.specs.Simulated.{last_ended, last_waiting};
ghost use Rattle.plain_run.specs.Progress.{HasReason};
ghost use Rattle.plain_run.specs.Rounds.{IsPlainRun};
ghost use Rattle.plain_run.specs.Simulated.{HasMachineRun};
ghost use Rattle.oz_runner.specs.Run.{IsNew, IsStatusOfRun, limits_of};
ghost use Rattle.oz_runner.specs.Checking.{status_after};
ghost use Rattle.oz_runner.specs.Ends.{IsOverSites, journal_of, output_of_work, status_of};
ghost use Rattle.oz_runner.specs.Saving.{IsPlain};

use crate::Status;
use crate::machine::run_machine;
use crate::program::run_program;
use crate::work::{RunLines, Work};
use kernel_syntax::Program;
use oz_model::runs_are_determined;
use oz_words::{Action, Options};
use plain_run::{RunOut, run_seeded};
use site_message::{Limits, Reason, quiet_tells};
use site_worker::Gate;
use std::alloc::Global;
use std::sync::Wait;
use std::thread::Threads;
use world_simulation::runs_take_rows;

/// Runs a program, as the options say.
pub fn run<G: Gate + Sync, R: Threads + Wait + Sync>(
    rt: &R,
    alloc: Global,
    options: Options,
    program: &Program,
    gate: &G,
) -> Work
    requires range { InRange options }
    requires new { IsNew options.action }
    ensures came { IsStatusOfRun program.now options (output_of_work result) result.status }
    ensures plain { IsPlain result.printed }
    ensures after { IsOverSites options.action → result.status ≡ status_after (limits_of options) (journal_of result.printed) }
{
    match options.action {
        Action::Central => run_machine(alloc, options, program),
        _ => run_over_sites(rt, alloc, options, program, gate),
    }
}

// Runs a program over its sites.
fn run_over_sites<G: Gate + Sync, R: Threads + Wait + Sync>(
    rt: &R,
    alloc: Global,
    options: Options,
    program: &Program,
    gate: &G,
) -> Work
    requires { InRange options }
    ensures came { IsOverSites options.action → IsStatusOfRun program.now options (output_of_work result) result.status }
    ensures plain { IsPlain result.printed }
    ensures after { result.status ≡ status_after (limits_of options) (journal_of result.printed) }
{
    let RunOut {
        reason,
        ended,
        waiting,
        journal,
        schedule,
    } = drive_program(rt, alloc, options, program, gate);
    quiet_tells();
    program.is_program();
    runs_take_rows();
    runs_are_determined();
    Work {
        status: status_of(reason, ended, waiting),
        schedule,
        printed: RunLines::Sites(journal),
    }
}

// What is left of a run over sites, in an order that is drawn from the seed, if there is one, and else as workers drive them, or none.
fn drive_program<G: Gate + Sync, R: Threads + Wait + Sync>(
    rt: &R,
    alloc: Global,
    options: Options,
    program: &Program,
    gate: &G,
) -> RunOut
    requires { InRange options }
    ensures simulated { HasMachineRun program.now options.sites result.journal }
    ensures schedule { result.schedule ≡ schedule result.journal }
    ensures reason { HasReason (limits_of options) result.journal result.reason }
    ensures went { HasNoEarlierEnd (limits_of options) result.journal }
    ensures within { AreWithin (limits_of options) result.journal }
    ensures rounds { options.seed ≡ None → options.workers ≡ 0 → IsPlainRun program.now (limits_of options) result.journal }
    ensures ended { result.ended ≡ sum_to options.sites (last_ended result.journal) }
    ensures waiting { result.waiting ≡ sum_to options.sites (last_waiting result.journal) }
{
    let limits = Limits {
        sites: options.sites,
        steps: options.steps,
        messages: options.messages,
    };
    match options.seed {
        Some(seed) => run_seeded(alloc, program, limits, seed),
        None => run_program(rt, alloc, program, limits, options.workers, gate),
    }
}

/// The status of a run that ended for this reason.
pub fn status_of(reason: Reason, ended: u64, waiting: u64) -> Status
    ensures { result ≡ status_of reason ended waiting }
{
    match reason {
        Reason::Quiet => Status::Quiescent { ended, waiting },
        Reason::Steps(site) => Status::StepLimit(site),
        Reason::Messages => Status::MessageLimit,
        Reason::Memory => Status::Memory,
    }
}
