//! A saved run, made again.

ghost use Rattle.std.specs.Prelude.{◌≡◌, ◌⊎◌, ◌↔◌, IfErr, IfOk, IsTrue};
ghost use Rattle.oz_words.specs.Words.{InRange};
ghost use Rattle.oz_words.specs.declared.options.Action.TheVariants.{Check};
ghost use Rattle.oz_words.specs.declared.options.Options.{Options};
ghost use Rattle.oz_show.specs.Status.{HasLine, end_line};
ghost use Rattle.run_file.specs.Fits.{MayBeSaved};
ghost use Rattle.run_file.specs.Saved.{IsFirstFault, Saved};
ghost use Rattle.byte_fields.specs.declared.fault.FileFault.TheVariants.{Memory as OutOfMemory};
ghost use Rattle.run_check.specs.World.{limits_of};
ghost use Rattle.site_message.specs.EarlierEnd.{HasNoEarlierEnd};
ghost use Rattle.site_message.specs.Journal.{end_of};
ghost use Rattle.world_core.specs.Laws.{HasRun};
ghost use Rattle.world_model.specs.Schedule.{schedule};
ghost use Rattle.oz_runner.specs.Cause.{Cause, HasOptions, IsFileOfSource, IsGiven, file_limit};
ghost use Rattle.oz_runner.specs.Checking.{IsFound, IsMadeOf};
ghost use Rattle.oz_runner.specs.Ends.{output_of_work};
ghost use Rattle.oz_runner.specs.FileRun.{IsRunOfFile};
ghost use Rattle.oz_runner.specs.OzCall.{OzCall};
ghost use Rattle.oz_runner.specs.Saving.{IsPlain};
ghost use Rattle.oz_runner.specs.declared.work.RunLines.TheVariants.{Sites};

use crate::Status;
use crate::run::status_of;
use crate::text::program_of_bytes;
use crate::work::{RunLines, Work, work_without_run};
use kernel_syntax::Program;
use oz_show::last_line;
use plain_run::{DrivenRun, RunOut, finish_run};
use run_check::{Again, Made, make_again};
use run_file::{FileFault, RunFile, read_run, these_are_saved};
use site_message::{History, Limits, Reason};
use std::alloc::{AllocError, Global};
use world_simulation::{runs_take_rows, sites_are_simulated};

/// Reads a saved run and has it made again.
pub fn check(alloc: Global, bytes: Vec<u8>) -> Work
    ensures cause { (seen : OzCall) (words : Options) → HasOptions seen words → InRange words → words.action ≡ Check
        → IsGiven file_limit seen.source bytes.items → Cause seen (output_of_work result) result.status }
    ensures plain { IsPlain result.printed }
    ensures line { HasLine result.status }
{
    these_are_saved();
    match read_file(alloc, bytes) {
        Ok(file) => check_text(alloc, &file),
        Err(FileFault::Bad(at)) => work_without_run(alloc, Status::BadFile(at as u64)),
        Err(FileFault::Memory) => work_without_run(alloc, Status::Memory),
    }
}

// The saved run whose text these bytes are, which are let go of.
fn read_file(alloc: Global, bytes: Vec<u8>) -> Result<RunFile, FileFault>
    ensures saved { IfOk result (λ file. Saved file bytes.items) }
    ensures fault { IfErr result (λ f. (f ≡ OutOfMemory) ⊎ IsFirstFault bytes.items f) }
{
    read_run(alloc, &bytes)
}

// Reads the text of a saved run, and has the run made again.
fn check_text(alloc: Global, file: &RunFile) -> Work
    requires { MayBeSaved file.now }
    ensures cause { (seen : OzCall) (words : Options) → HasOptions seen words → InRange words → words.action ≡ Check
        → IsFileOfSource seen.source file.now → Cause seen (output_of_work result) result.status }
    ensures plain { IsPlain result.printed }
    ensures line { HasLine result.status }
{
    match program_of_bytes(alloc, file.text()) {
        Ok(program) => check_run(alloc, &program, file),
        Err(status) => work_without_run(alloc, status),
    }
}

// Makes the entries of a saved run of the program again, and compares how the run ends.
fn check_run(alloc: Global, program: &Program, file: &RunFile) -> Work
    requires { MayBeSaved file.now }
    ensures found { IsFound program.now file.now (output_of_work result) result.status }
    ensures run { IsRunOfFile program.now file.now (output_of_work result) }
    ensures plain { IsPlain result.printed }
{
    program.is_program();
    sites_are_simulated();
    runs_take_rows();
    let Again { history, made } = make_again(alloc, program, file);
    match made {
        Made::All(reason) => check_end(alloc, program, file, history, reason),
        Made::Wrong(at) => again(history, Status::Wrong(at as u64)),
        Made::Memory => again(history, Status::Memory),
    }
}

// The turns of a run, with this status.
fn again(history: History, status: Status) -> Work
    ensures status { result.status ≡ status }
    ensures journal { result.printed ≡ Sites history }
    ensures schedule { result.schedule ≡ schedule history }
{
    let (journal, schedule) = history.into_parts();
    Work {
        status,
        schedule,
        printed: RunLines::Sites(journal),
    }
}

// All entries were made again, and the run then ends for this reason, or for want of memory: the end line is that of the saved run, or the
// saved run is wrong.
fn check_end(
    alloc: Global,
    program: &Program,
    file: &RunFile,
    history: History,
    reason: Option<Reason>,
) -> Work
    requires saved { MayBeSaved file.now }
    requires run { HasRun program.now file.now.sites history }
    requires went { HasNoEarlierEnd (limits_of file.now) history }
    requires made { IsMadeOf program.now file.now history }
    requires reason { reason ≡ end_of (limits_of file.now) history }
    ensures found { IsFound program.now file.now (output_of_work result) result.status }
    ensures journal { result.printed ≡ Sites history }
    ensures schedule { result.schedule ≡ schedule history }
{
    let limits = Limits {
        sites: file.sites(),
        steps: file.steps(),
        messages: file.messages(),
    };
    let reason = reason.unwrap_or(Reason::Memory);
    let RunOut {
        reason,
        ended,
        waiting,
        journal,
        schedule,
    } = finish_run(program, limits, DrivenRun { history, reason });
    let entries = file.entries().len() as u64;
    let status = match is_end(alloc, file, &status_of(reason, ended, waiting)) {
        Ok(true) => Status::Checked {
            entries,
            picks: schedule.len() as u64,
        },
        Ok(false) => Status::Wrong(entries),
        Err(AllocError) => Status::Memory,
    };
    Work {
        status,
        schedule,
        printed: RunLines::Sites(journal),
    }
}

// Whether the end line of a saved run is that of this status.
fn is_end(alloc: Global, file: &RunFile, status: &Status) -> Result<bool, AllocError>
    requires { HasLine status.now }
    ensures { IfOk result (λ same. IsTrue same ↔ (file.now.end ≡ end_line status.now)) }
{
    let end = last_line(alloc, status)?;
    Ok(end.as_slice() == file.end().as_slice())
}
