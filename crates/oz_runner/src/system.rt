//! What the program does with its words, and the number that it ends with.

ghost use Rattle.std.specs.Prelude.{◌≡◌, ◌<◌, length, map, string_bytes, IfOk};
ghost use Rattle.std.specs.Process.{exit_status};
ghost use Rattle.oz_show.specs.Status.{status_number};
ghost use Rattle.oz_runner.specs.OzCall.{stream_of};
ghost use Rattle.oz_runner.specs.Words.{AreToldAs};
ghost use Rattle.oz_runner.specs.Exit.{IsExit};

use crate::oz_call::report_without_words;
use crate::words::{NoWords, Words};
use crate::{Report, oz};
use oz_base::{Sink, Source};
use site_worker::OpenGate;
use std::alloc::{AllocError, Global};
use std::mem::forget;
use std::process::ExitCode;
use std::sync::Wait;
use std::thread::Threads;

// Words that are refused, as a word that is no text is.
fn refused_words(alloc: Global) -> Result<Vec<String>, AllocError>
    ensures { IfOk result (λ words. 0 < length words.items) }
{
    let mut words = Vec::new(alloc);
    words.push(String::from_str(alloc, "oz")?)?;
    words.push(String::from_str(alloc, "?")?)?;
    Ok(words)
}

// The words, or words that are refused where those are no text.
#[tactic(auto, using(crate::proofs::WordLemmas::untold))]
fn words_of<W: Words>(alloc: Global, words: W) -> Result<Vec<String>, AllocError>
    ensures some { IfOk result (λ words. 0 < length words.items) }
    ensures value { IfOk result (λ given. AreToldAs (W.told words) (map string_bytes given.items)) }
{
    match words.into_words(alloc) {
        Ok(words) => Ok(words),
        Err(NoWords::NotText) => refused_words(alloc),
        Err(NoWords::Memory) => Err(AllocError),
    }
}

/// Calls `oz` with the words, and tells the number of its status, with which the program ends. It is all that `main` does. A word
/// that is no text is refused, as a word is that the command does not take. Where no memory is left for the words, nothing is read,
/// and the line of want of memory is written all the same.
#[tactic(auto, using(crate::proofs::WordLemmas::call_ends))]
pub fn start<R: AllocGlobal + Threads + Wait + Sync, W: Words, S: Source, K: Sink>(
    rt: &R,
    words: W,
    source: &mut S,
    sink: &mut K,
) -> ExitCode
    ensures { IsExit (W.told words) (stream_of S.left S.faults source.old source.new) (stream_of K.taken K.faults sink.old sink.new) result }
{
    match words_of(rt.alloc(), words) {
        Ok(words) => exit_with(oz(rt, rt.alloc(), &words, source, sink, &OpenGate)),
        Err(_) => exit_with(report_without_words(rt.alloc(), sink)),
    }
}

// The number of a report's status. The program ends, and its memory goes back to the system as a whole.
fn exit_with(report: Report) -> ExitCode
    ensures { exit_status result ≡ status_number report.status }
{
    let Report {
        status,
        schedule,
        journal,
    } = report;
    forget(schedule);
    journal.forget();
    ExitCode::from(status.number())
}
