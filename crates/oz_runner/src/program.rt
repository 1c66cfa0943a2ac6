//! The run of a program over its sites, whatever drives them.

ghost use Rattle.std.specs.Prelude.{◌≡◌, ◌≤◌, Some};
ghost use Rattle.site_message.specs.declared.reason.Reason.{Reason};
ghost use Rattle.site_message.specs.Limits.{AreLimits};
ghost use Rattle.site_message.specs.Journal.{AreWithin};
ghost use Rattle.site_message.specs.EarlierEnd.{HasNoEarlierEnd};
ghost use Rattle.message_book.specs.Book.{IsReason};
ghost use Rattle.world_model.specs.Schedule.{schedule, sum_to};
ghost use Rattle.world_model.specs.Simulated.{last_ended, last_waiting};
ghost use Rattle.world_core.specs.Laws.{HasRun, AreMessagesFew};
ghost use Rattle.world_journals.specs.Places.{ThreadsStayHome};
ghost use Rattle.plain_run.specs.Progress.{HasReason};
ghost use Rattle.plain_run.specs.Rounds.{IsPlainRun};
ghost use Rattle.plain_run.specs.Simulated.{HasMachineRun};
ghost use Rattle.tree_node.specs.declared.limits.TheConstants.{MOST_SITES};

use kernel_syntax::Program;
use message_book::Book;
use plain_run::{DrivenRun, RunOut, finish_run, run_plain};
use site_message::{History, Limits, Reason};
use site_worker::{Gate, run_sites};
use std::alloc::Global;
use std::sync::Wait;
use std::thread::{Threads, available_parallelism};
use tree_node::MOST_SITES;
use world_journals::threads_stay_home;

/// Runs a program over its sites. Workers drive them on threads of the system, and call the gate before each turn; without
/// workers the sites take turns here, in a fixed order, and there is no gate.
pub fn run_program<G: Gate + Sync, R: Threads + Wait + Sync>(
    rt: &R,
    alloc: Global,
    program: &Program,
    limits: Limits,
    workers: u32,
    gate: &G,
) -> RunOut
    requires limits { AreLimits limits }
    requires workers { workers ≤ MOST_SITES }
    ensures run { HasRun program.now limits.sites result.journal }
    ensures simulated { HasMachineRun program.now limits.sites result.journal }
    ensures few { AreMessagesFew program.now limits.sites result.journal }
    ensures homes { ThreadsStayHome result.journal }
    ensures schedule { result.schedule ≡ schedule result.journal }
    ensures reason { HasReason limits result.journal result.reason }
    ensures went { HasNoEarlierEnd limits result.journal }
    ensures within { AreWithin limits result.journal }
    ensures rounds { workers ≡ 0 → IsPlainRun program.now limits result.journal }
    ensures ended { result.ended ≡ sum_to limits.sites (last_ended result.journal) }
    ensures waiting { result.waiting ≡ sum_to limits.sites (last_waiting result.journal) }
{
    threads_stay_home();
    if workers == 0 {
        return run_plain(alloc, program, limits);
    }
    let driven = drive_sites(rt, alloc, program, limits, workers, gate);
    finish_run(program, limits, driven)
}

// What workers leave, of which there are no more than sites and than may be at work at once.
fn drive_sites<G: Gate + Sync, R: Threads + Wait + Sync>(
    rt: &R,
    alloc: Global,
    program: &Program,
    limits: Limits,
    workers: u32,
    gate: &G,
) -> DrivenRun
    requires limits { AreLimits limits }
    requires workers { (1 ≤ workers) × (workers ≤ MOST_SITES) }
    ensures run { HasRun program.now limits.sites result.history }
    ensures reason { HasReason limits result.history result.reason }
    ensures went { HasNoEarlierEnd limits result.history }
    ensures within { AreWithin limits result.history }
{
    let workers = workers.min(limits.sites).min(most_workers(rt));
    match run_sites(rt, alloc, program, limits, workers, gate) {
        Ok(book) => run_in_book(book),
        Err(_) => DrivenRun {
            history: History::new(alloc),
            reason: Reason::Memory,
        },
    }
}

// How many workers may be at work at once: one for each processor, and always two. More would only wait for the book.
fn most_workers<R: Threads>(rt: &R) -> u32
    ensures { 2 ≤ result }
{
    match available_parallelism(rt) {
        Ok(processors) => processors.get().clamp(2, MOST_SITES as usize) as u32,
        Err(_) => MOST_SITES,
    }
}

// What a book leaves that has a reason.
fn run_in_book(book: Book) -> DrivenRun
    requires { (r : Reason) × (book.reason ≡ Some r) }
    ensures journal { result.history ≡ book.journal }
    ensures reason { IsReason book.limits book.journal (Some result.reason) }
    ensures went { HasNoEarlierEnd book.limits book.journal }
{
    let reason = book.reason().unwrap();
    DrivenRun {
        history: book.into_history(),
        reason,
    }
}
