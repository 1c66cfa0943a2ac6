//! The top call.

ghost use Rattle.std.specs.Prelude.{◌≡◌, ◌<◌, ◌++◌, ◌∷◌, List, [], ℕ, length, map, string_bytes};
ghost use Rattle.oz_base.specs.Streams.{HandsInOnly};
ghost use Rattle.oz_model.specs.Output.{output};
ghost use Rattle.oz_show.specs.Status.{end_line, HasLine};
ghost use Rattle.oz_show.specs.declared.status.Status.TheVariants.{Memory};
ghost use Rattle.world_journals.specs.Places.{ThreadsStayHome};
ghost use Rattle.oz_runner.specs.Besides.{AreMessagesBounded, AreTokensServed, AreExchangesAsked};
ghost use Rattle.oz_runner.specs.Cells.{AreExchangesChained, AreSendsChained};
ghost use Rattle.oz_runner.specs.OzCall.{stream_of, oz_call_of, run_output_of};
ghost use Rattle.oz_runner.specs.Complete.{IsGood, IsDone};
ghost use Rattle.oz_runner.specs.Ends.{journal_of};
ghost use Rattle.oz_runner.specs.Headline.{Headline};
ghost use Rattle.oz_runner.specs.Due.{IsRestOfDue, IsRestOfOutput, due_bytes};
ghost use Rattle.oz_runner.specs.Pieces.{IsWrittenByLine};
ghost use Rattle.oz_runner.specs.Saving.{IsRestOfWork, bytes_due, due_of};
ghost use Rattle.oz_runner.specs.Writing.{IsOutputTaken, IsReportedAs, after_fault};

use crate::work::{RunLines, Work, do_work, work_without_run};
use crate::write::write_due;
use crate::{Report, Status};
use oz_base::{Sink, Source};
use oz_model::{exchanges_are_a_chain, sends_are_a_chain};
use oz_show::{fixed_piece, last_line};
use oz_sugar::texts_have_one_of_both;
use run_file::bytes_save_or_fail;
use site_message::Journal;
use site_worker::Gate;
use std::alloc::Global;
use std::sync::Wait;
use std::thread::Threads;
use world_journals::{homes_are_asked, requests_are_served, threads_stay_home};
use world_simulation::{messages_are_few, runs_take_rows};

/// Reads the words and a text, runs it, and writes its lines and the end line, or with `save` the saved run; with `check` it reads a saved
/// run in the place of a text, and has it made again. `words` are the program's name and the words after it. Workers call the gate before
/// each turn of a site.
pub fn oz<S: Source, K: Sink, G: Gate + Sync, R: Threads + Wait + Sync>(
    rt: &R,
    alloc: Global,
    words: &[String],
    source: &mut S,
    sink: &mut K,
    gate: &G,
) -> Report
    requires { 0 < length words.now }
    ensures headline { (lines : List (List ℕ)) × Headline
        (oz_call_of (map string_bytes words.now) (stream_of S.left S.faults source.old source.new) (stream_of K.taken K.faults sink.old sink.new))
        (run_output_of result.journal result.schedule lines) result.status }
    ensures complete { IsGood
        (oz_call_of (map string_bytes words.now) (stream_of S.left S.faults source.old source.new) (stream_of K.taken K.faults sink.old sink.new))
        → IsDone result.status }
    ensures homes { ThreadsStayHome result.journal }
    ensures few { AreMessagesBounded
        (oz_call_of (map string_bytes words.now) (stream_of S.left S.faults source.old source.new) (stream_of K.taken K.faults sink.old sink.new))
        result.journal result.schedule }
    ensures served { AreTokensServed
        (oz_call_of (map string_bytes words.now) (stream_of S.left S.faults source.old source.new) (stream_of K.taken K.faults sink.old sink.new))
        result.journal }
    ensures asked { AreExchangesAsked
        (oz_call_of (map string_bytes words.now) (stream_of S.left S.faults source.old source.new) (stream_of K.taken K.faults sink.old sink.new))
        result.journal }
    ensures chains { AreExchangesChained result.schedule }
    ensures sends { AreSendsChained result.schedule }
    ensures pieces { IsWrittenByLine
        (oz_call_of (map string_bytes words.now) (stream_of S.left S.faults source.old source.new) (stream_of K.taken K.faults sink.old sink.new))
        result.journal result.schedule result.status (K.pieces sink.old) (K.pieces sink.new) }
{
    texts_have_one_of_both();
    bytes_save_or_fail();
    runs_take_rows();
    threads_stay_home();
    messages_are_few();
    requests_are_served();
    homes_are_asked();
    exchanges_are_a_chain();
    sends_are_a_chain();
    let work = do_work(rt, alloc, words, source, gate);
    report(alloc, sink, work)
}

/// The report where no memory is left for the words: nothing ran, and the line of want of memory is written. It takes no memory.
pub(crate) fn report_without_words<K: Sink>(alloc: Global, sink: &mut K) -> Report
    ensures status { result.status ≡ Memory }
    ensures written { IsOutputTaken (stream_of K.taken K.faults sink.old sink.new) (output [] (end_line Memory)) Memory Memory }
    ensures pieces { HandsInOnly (K.pieces sink.old) (K.pieces sink.new) (IsRestOfOutput [] (end_line Memory ++ 10 ∷ [])) }
{
    report(alloc, sink, work_without_run(alloc, Status::Memory))
}

// Writes the lines of the work and its end line, or its saved run.
fn report<K: Sink>(alloc: Global, sink: &mut K, work: Work) -> Report
    requires { HasLine work.status }
    ensures written { (worked : Status) × IsReportedAs work.printed work.status worked
        × IsOutputTaken (stream_of K.taken K.faults sink.old sink.new) (due_bytes (due_of work.printed worked)) worked result.status
        × HandsInOnly (K.pieces sink.old) (K.pieces sink.new) (IsRestOfDue (due_of work.printed worked)) }
    ensures journal { result.journal ≡ journal_of work.printed }
    ensures schedule { result.schedule ≡ work.schedule }
{
    if let RunLines::Saved(_, _) = &work.printed {
        return finish(alloc, sink, work, b"");
    }
    if let Some(end) = fixed_piece(work.status) {
        return finish(alloc, sink, work, end);
    }
    match last_line(alloc, &work.status) {
        Ok(end) => finish(alloc, sink, work, end.as_piece()),
        Err(_) => finish(alloc, sink, out_of_memory(work), b"out of memory\n"),
    }
}

// The same schedule and lines, where no memory is left for the end line.
fn out_of_memory(work: Work) -> Work
    ensures status { result.status ≡ Memory }
    ensures schedule { result.schedule ≡ work.schedule }
    ensures printed { result.printed ≡ work.printed }
{
    let Work {
        status: _,
        schedule,
        printed,
    } = work;
    Work {
        status: Status::Memory,
        schedule,
        printed,
    }
}

// Writes what is due, with the piece of an end line.
fn finish<K: Sink>(alloc: Global, sink: &mut K, work: Work, end: &[u8]) -> Report
    ensures written { IsOutputTaken (stream_of K.taken K.faults sink.old sink.new)
        (bytes_due work.printed work.status end.now) work.status result.status }
    ensures pieces { HandsInOnly (K.pieces sink.old) (K.pieces sink.new) (IsRestOfWork work.printed work.status end.now) }
    ensures journal { result.journal ≡ journal_of work.printed }
    ensures schedule { result.schedule ≡ work.schedule }
{
    let Work {
        status,
        schedule,
        printed,
    } = work;
    let status = match write_due(sink, status, &printed, end) {
        Ok(()) => status,
        Err(_) => after_fault(status),
    };
    Report {
        status,
        schedule,
        journal: into_journal(alloc, printed),
    }
}

// The journal of the sites; the centralised machine has none.
fn into_journal(alloc: Global, printed: RunLines) -> Journal
    ensures { result ≡ journal_of printed }
{
    match printed {
        RunLines::Sites(journal) => journal,
        RunLines::Saved(journal, _file) => journal,
        RunLines::Machine(_lines) => Journal::new(alloc),
    }
}

// The status after a write has failed.
fn after_fault(status: Status) -> Status
    ensures { result ≡ after_fault status }
{
    match status {
        Status::Memory => Status::Memory,
        _ => Status::WriteFault,
    }
}
