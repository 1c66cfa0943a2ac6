//! From the words and the text to the lines, before anything is written.

ghost use Rattle.std.specs.Prelude.{◌≡◌, ◌≤◌, [], length, List, ℕ, map, string_bytes, Ok};
ghost use Rattle.oz_words.specs.Words.{ReadsWords, InRange};
ghost use Rattle.oz_show.specs.Status.{HasLine};
ghost use Rattle.oz_runner.specs.OzCall.{Stream, OzCall, stream_of, oz_call_of};
ghost use Rattle.oz_words.specs.declared.options.Action.TheVariants.{Gen};
ghost use Rattle.oz_runner.specs.Cause.{Cause, HasOptions, IsGiven, IsUntouched, ReadsSource, ReadsText, byte_limit, text_limit};
ghost use Rattle.oz_runner.specs.Ends.{output_of_work};
ghost use Rattle.oz_runner.specs.declared.work.RunLines.TheVariants.{Sites};
ghost use Rattle.oz_runner.specs.Saving.{IsPlain, IsReady};

use crate::Status;
use crate::check::check;
use crate::run::run;
use crate::save::save;
use crate::text::{program_of_bytes, program_of_str};
use large_run::large_text;
use oz_base::{ReadError, Source, read_text};
use oz_words::{Action, Options, WordsError, read_options};
use run_check::runs_have_texts;
use run_file::these_are_saved;
use site_message::{Journal, Schedule};
use site_worker::Gate;
use std::alloc::Global;
use std::sync::Wait;
use std::thread::Threads;
use tree_node::{Line, Seq};
use world_simulation::runs_take_rows;

// The most bytes of a text, `text_limit` of the definitions.
const MOST_TEXT: u64 = 1_048_576;

// The most bytes of a saved run, `file_limit` of the definitions.
const MOST_FILE: u64 = 268_435_456;

/// What a run left to be written: its lines, which stand in the turns of its sites, or by themselves where the centralised machine ran;
/// or with the turns their saved run, whole.
pub enum RunLines {
    Sites(Journal),
    Machine(Vec<Line>),
    Saved(Journal, Seq<u8>),
}

/// What the work came to: its status, and the schedule and the lines of the run, if there was one.
pub struct Work {
    pub status: Status,
    pub schedule: Schedule,
    pub printed: RunLines,
}

/// Reads the words, which are the program's name and those after it, then the text, if it is the source's, and runs it.
pub fn do_work<S: Source, G: Gate + Sync, R: Threads + Wait + Sync>(
    rt: &R,
    alloc: Global,
    words: &[String],
    source: &mut S,
    gate: &G,
) -> Work
    ensures cause { (sink : Stream) → Cause
        (oz_call_of (map string_bytes words.now) (stream_of S.left S.faults source.old source.new) sink) (output_of_work result) result.status }
    ensures due { (sink : Stream) → IsReady
        (oz_call_of (map string_bytes words.now) (stream_of S.left S.faults source.old source.new) sink) result }
    ensures line { HasLine result.status }
{
    match read_options(alloc, words) {
        Ok(options) => work_as_said(rt, alloc, options, source, gate),
        Err(WordsError::Usage) => work_without_run(alloc, Status::Usage),
        Err(WordsError::Memory) => work_without_run(alloc, Status::Memory),
    }
}

// Runs the text that the options want: the large one of their size, or that of the source.
fn work_as_said<S: Source, G: Gate + Sync, R: Threads + Wait + Sync>(
    rt: &R,
    alloc: Global,
    options: Options,
    source: &mut S,
    gate: &G,
) -> Work
    requires { InRange options }
    ensures cause { (words : List (List ℕ)) (sink : Stream) → ReadsWords words (Ok options) → Cause
        (oz_call_of words (stream_of S.left S.faults source.old source.new) sink) (output_of_work result) result.status }
    ensures due { (words : List (List ℕ)) (sink : Stream) → ReadsWords words (Ok options) → IsReady
        (oz_call_of words (stream_of S.left S.faults source.old source.new) sink) result }
    ensures line { HasLine result.status }
{
    match options.action {
        Action::Gen(size) => work_on_size(rt, alloc, options, size, gate),
        _ => work_on_source(rt, alloc, options, source, gate),
    }
}

// Runs the large text of this size.
fn work_on_size<G: Gate + Sync, R: Threads + Wait + Sync>(
    rt: &R,
    alloc: Global,
    options: Options,
    size: u32,
    gate: &G,
) -> Work
    requires range { InRange options }
    requires size { options.action ≡ Gen size }
    ensures cause { (seen : OzCall) → HasOptions seen options → IsUntouched seen.source → Cause seen (output_of_work result) result.status }
    ensures due { IsPlain result.printed }
    ensures line { HasLine result.status }
{
    let text = match large_text(alloc, size) {
        Ok(text) => text,
        Err(_) => return work_without_run(alloc, Status::Memory),
    };
    match program_of_str(alloc, &text) {
        Ok(program) => run(rt, alloc, options, &program, gate),
        Err(status) => work_without_run(alloc, status),
    }
}

// The most bytes that the source may give: those of a text, or of a saved run.
fn byte_limit(action: Action) -> u64
    ensures { result ≡ byte_limit action }
{
    match action {
        Action::Check => MOST_FILE,
        _ => MOST_TEXT,
    }
}

// Reads the bytes of a source, and does with them what the options say.
fn work_on_source<S: Source, G: Gate + Sync, R: Threads + Wait + Sync>(
    rt: &R,
    alloc: Global,
    options: Options,
    source: &mut S,
    gate: &G,
) -> Work
    requires range { InRange options }
    requires source { ReadsSource options.action }
    ensures cause { (words : List (List ℕ)) (sink : Stream) → ReadsWords words (Ok options) → Cause
        (oz_call_of words (stream_of S.left S.faults source.old source.new) sink) (output_of_work result) result.status }
    ensures due { (words : List (List ℕ)) (sink : Stream) → ReadsWords words (Ok options) → IsReady
        (oz_call_of words (stream_of S.left S.faults source.old source.new) sink) result }
    ensures line { HasLine result.status }
{
    match read_text(alloc, source, byte_limit(options.action)) {
        Ok(bytes) => work_on_bytes(rt, alloc, options, bytes, gate),
        Err(ReadError::Fault) => work_without_run(alloc, Status::ReadFault),
        Err(ReadError::TooLong) => work_without_run(alloc, Status::TooLong),
        Err(ReadError::Memory) => work_without_run(alloc, Status::Memory),
    }
}

// Has the saved run that the bytes are made again, or runs the text that they are, as the options say.
fn work_on_bytes<G: Gate + Sync, R: Threads + Wait + Sync>(
    rt: &R,
    alloc: Global,
    options: Options,
    bytes: Vec<u8>,
    gate: &G,
) -> Work
    requires range { InRange options }
    requires source { ReadsSource options.action }
    requires short { length bytes.items ≤ byte_limit options.action }
    ensures cause { (seen : OzCall) → HasOptions seen options → IsGiven (byte_limit options.action) seen.source bytes.items → Cause seen (output_of_work result) result.status }
    ensures due { (seen : OzCall) → HasOptions seen options → IsGiven (byte_limit options.action) seen.source bytes.items → IsReady seen result }
    ensures line { HasLine result.status }
{
    match options.action {
        Action::Check => check(alloc, bytes),
        _ => work_on_text(rt, alloc, options, &bytes, gate),
    }
}

// Runs the text that the bytes of a source are, and makes a saved run of it where the options say so.
fn work_on_text<G: Gate + Sync, R: Threads + Wait + Sync>(
    rt: &R,
    alloc: Global,
    options: Options,
    bytes: &[u8],
    gate: &G,
) -> Work
    requires range { InRange options }
    requires source { ReadsText options.action }
    requires short { length bytes.now ≤ text_limit }
    ensures cause { (seen : OzCall) → HasOptions seen options → IsGiven text_limit seen.source bytes.now → Cause seen (output_of_work result) result.status }
    ensures due { (seen : OzCall) → HasOptions seen options → IsGiven text_limit seen.source bytes.now → IsReady seen result }
    ensures line { HasLine result.status }
{
    let program = match program_of_bytes(alloc, bytes) {
        Ok(program) => program,
        Err(status) => return work_without_run(alloc, status),
    };
    these_are_saved();
    runs_have_texts();
    runs_take_rows();
    program.is_program();
    let work = run(rt, alloc, options, &program, gate);
    match options.action {
        Action::Save => save(alloc, options, bytes, work),
        _ => work,
    }
}

/// The end before anything ran. It takes no memory.
pub fn work_without_run(alloc: Global, status: Status) -> Work
    ensures status { result.status ≡ status }
    ensures printed { result.printed ≡ Sites [] }
    ensures schedule { result.schedule ≡ [] }
{
    Work {
        status,
        schedule: Schedule::new(alloc),
        printed: RunLines::Sites(Journal::new(alloc)),
    }
}
