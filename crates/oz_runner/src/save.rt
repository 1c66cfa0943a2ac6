//! A run as a saved run.

ghost use Rattle.std.specs.Prelude.{◌≡◌, IfOk, OnOk};
ghost use Rattle.oz_show.specs.Status.{end_line, HasLine};
ghost use Rattle.run_file.specs.Writing.{AreNumbered, saved_text};
ghost use Rattle.oz_runner.specs.Run.{limits_of};
ghost use Rattle.oz_runner.specs.Saving.{IsPlain, IsSavedAs};

use crate::Status;
use crate::work::{RunLines, Work, work_without_run};
use oz_show::last_line;
use oz_words::Options;
use run_file::write_run;
use site_message::{Journal, Limits};
use std::alloc::{AllocError, Global};
use std::mem::forget;
use tree_node::Seq;

/// The run of a text, as its saved run: where the sites made turns, the text of that is what is written. Where no memory is left for
/// it, or for its end line, nothing is told of the run.
pub fn save(alloc: Global, options: Options, text: &[u8], work: Work) -> Work
    requires line { HasLine work.status }
    requires plain { IsPlain work.printed }
    ensures { IsSavedAs text.now options work result }
{
    let Work {
        status,
        schedule,
        printed,
    } = work;
    let journal = match printed {
        RunLines::Sites(journal) => journal,
        printed => {
            return Work {
                status,
                schedule,
                printed,
            };
        }
    };
    if journal.oldest_first().is_empty() {
        return Work {
            status,
            schedule,
            printed: RunLines::Sites(journal),
        };
    }
    match file_of(alloc, options, text, &status, &journal) {
        Ok(file) => Work {
            status,
            schedule,
            printed: RunLines::Saved(journal, file),
        },
        Err(_) => {
            forget(schedule);
            journal.forget();
            work_without_run(alloc, Status::Memory)
        }
    }
}

// The saved run of a text, of these turns, with the end line of this status.
fn file_of(
    alloc: Global,
    options: Options,
    text: &[u8],
    status: &Status,
    journal: &Journal,
) -> Result<Seq<u8>, AllocError>
    requires { HasLine status.now }
    ensures text { IfOk result (λ file. file ≡ saved_text text.now (limits_of options) journal.now (end_line status.now)) }
    ensures numbered { OnOk result (AreNumbered journal.now) }
{
    let limits = Limits {
        sites: options.sites,
        steps: options.steps,
        messages: options.messages,
    };
    let end = last_line(alloc, status)?;
    write_run(alloc, text, limits, journal, &end)
}
