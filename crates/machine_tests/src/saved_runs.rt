//! Saved runs made again: those of workers, as they were written, and worked ones, right and wrong. What comes of the worked ones was
//! worked out by hand, from what the units of their threads do.

ghost use Rattle.std.specs.Prelude.{◌≤◌, IfOk};
ghost use Rattle.run_file.specs.Fits.{MayBeSaved};

use crate::programs::program_of;
use crate::workers::{LOOP, MESSAGES, QUIET, STEPS, book_of};
use run_check::{Again, Made, make_again};
use run_file::{FileFault, RunFile, read_run, these_are_saved, write_run};
use site_message::{Limits, Reason};
use std::alloc::{AllocError, Global};
use std::process::Abort;
use std::sync::Wait;
use std::test::Fail;
use std::thread::Threads;
use tree_node::Line;

// Its thread has seven units, and prints with the last one.
const FIVE: &str = "local X in X = 5 {Browse X} end";

// Its thread has a step, and waits with the second unit.
const WAIT: &str = "local X in {Browse X} end";

// Its thread has one unit, which sends message 0 to site 2: with it comes thread 1 of site 1, which has one unit.
const AWAY: &str = "thread at 2 skip end";

static WORKED: &str =
    "ozrun 1 1 10000 4000000000 31\nlocal X in X = 5 {Browse X} end\nturn 1 - 1.0 1.0 1.0 1.0 1.0 1.0 1.0\nline 5\nend done\n";

/// Entries as they are written, and how far they are made again.
type Row = (&'static str, Made);

/// Saved runs of one text, with as many sites, own steps and messages.
struct Table {
    text: &'static str,
    numbers: (u32, u64, u64),
    rows: &'static [Row],
}

const QUIETLY: Made = Made::All(Some(Reason::Quiet));

static TABLES: [Table; 6] = [
    Table {
        text: FIVE,
        numbers: (1, 10, 0),
        rows: &[
            ("turn 1 - 1.0 1.0 1.0 1.0 1.0 1.0 1.0\nline 5\n", QUIETLY),
            (
                "turn 1 - 1.0 1.0\nturn 1 -\nturn 1 - 1.0 1.0 1.0 1.0 1.0\nline 5\n",
                QUIETLY,
            ),
            ("turn 1 - 1.0 1.0 1.0 1.0 1.0 1.0\n", Made::All(None)),
            ("", Made::All(None)),
            // other lines
            (
                "turn 1 - 1.0 1.0 1.0 1.0 1.0 1.0 1.0\nline 6\n",
                Made::Wrong(0),
            ),
            ("turn 1 - 1.0 1.0 1.0 1.0 1.0 1.0 1.0\n", Made::Wrong(0)),
            (
                "turn 1 - 1.0\nturn 1 - 1.0\nline 5\nturn 1 -\n",
                Made::Wrong(1),
            ),
            // a thread that ended, and one that is not there
            (
                "turn 1 - 1.0 1.0 1.0 1.0 1.0 1.0 1.0 1.0\nline 5\n",
                Made::Wrong(0),
            ),
            ("turn 1 - 1.0\nturn 1 - 1.1\n", Made::Wrong(1)),
            // a message that was never sent
            (
                "turn 1 0 1.0 1.0 1.0 1.0 1.0 1.0 1.0\nline 5\n",
                Made::Wrong(0),
            ),
            // an entry behind the end
            (
                "turn 1 - 1.0 1.0 1.0 1.0 1.0 1.0 1.0\nline 5\nturn 1 -\n",
                Made::Wrong(1),
            ),
        ],
    },
    Table {
        text: FIVE,
        numbers: (1, 3, 0),
        rows: &[
            ("turn 1 - 1.0 1.0\n", Made::All(None)),
            ("turn 1 - 1.0 1.0 1.0\n", Made::All(Some(Reason::Steps(1)))),
            (
                "turn 1 - 1.0 1.0 1.0\nturn 1 - 1.0 1.0 1.0 1.0\nline 5\n",
                Made::Wrong(1),
            ),
            ("turn 1 - 1.0 1.0 1.0 1.0 1.0 1.0 1.0\nline 5\n", QUIETLY),
        ],
    },
    // a thread that waits
    Table {
        text: WAIT,
        numbers: (1, 10, 0),
        rows: &[
            ("turn 1 - 1.0 1.0\n", QUIETLY),
            ("turn 1 - 1.0 1.0 1.0\n", Made::Wrong(0)),
        ],
    },
    Table {
        text: AWAY,
        numbers: (2, 10, 1),
        rows: &[
            ("turn 1 - 1.0\nturn 2 0 1.1\n", QUIETLY),
            ("turn 1 - 1.0\n", Made::All(None)),
            // a message to another site, and one that was delivered
            ("turn 1 - 1.0\nturn 1 0\n", Made::Wrong(1)),
            ("turn 1 - 1.0\nturn 2 0\nturn 2 0 1.1\n", Made::Wrong(2)),
            // a thread before its message, and at the site that sends it
            ("turn 1 - 1.0\nturn 2 - 1.1\n", Made::Wrong(1)),
            ("turn 1 - 1.0 1.1\n", Made::Wrong(0)),
        ],
    },
    Table {
        text: AWAY,
        numbers: (2, 10, 0),
        rows: &[
            ("turn 1 - 1.0\n", Made::All(Some(Reason::Messages))),
            ("turn 1 - 1.0\nturn 2 0 1.1\n", Made::Wrong(1)),
        ],
    },
    Table {
        text: AWAY,
        numbers: (3, 1, 1),
        rows: &[("turn 1 - 1.0\nturn 3 -\nturn 2 0 1.1\n", QUIETLY)],
    },
];

// The text of a saved run of a table with these entries, which tells no end.
fn text_of(alloc: Global, table: &Table, entries: &str) -> Result<Vec<u8>, AllocError> {
    let text = table.text;
    let length = text.len();
    let (sites, steps, messages) = table.numbers;
    let front = format!(in alloc; "ozrun 1 {sites} {steps} {messages} {length}\n{text}\n")?;
    let whole = format!(in alloc; "{front}{entries}end \n")?;
    Vec::from_slice(alloc, whole.as_bytes())
}

// The saved run whose text the bytes are. Others end the test.
fn run_of<R: Abort>(rt: &R, alloc: Global, bytes: &[u8]) -> Result<RunFile, AllocError>
    ensures { IfOk result MayBeSaved }
{
    these_are_saved();
    match read_run(alloc, bytes) {
        Ok(run) => Ok(run),
        Err(FileFault::Memory) => Err(AllocError),
        Err(FileFault::Bad(at)) => panic!(rt; "no saved run: byte {at}"),
    }
}

// How far the entries of a saved run of the text are made again.
fn made_of<R: Abort>(rt: &R, alloc: Global, text: &str, bytes: &[u8]) -> Result<Made, AllocError> {
    let program = program_of(rt, alloc, text)?;
    let run = run_of(rt, alloc, bytes)?;
    let Again { history, made } = make_again(alloc, &program, &run);
    let (journal, _) = history.into_parts();
    journal.forget();
    Ok(made)
}

#[test]
fn entries_are_made_again_so_far(rt: HostRuntime) -> Result<(), Fail> {
    for table in TABLES.as_slice() {
        for (entries, want) in table.rows {
            let bytes = text_of(rt.alloc(), table, entries)?;
            let made = made_of(&rt, rt.alloc(), table.text, &bytes)?;
            assert_eq!(rt; made, *want, "{entries}");
        }
    }
    Ok(())
}

// The text of a run of the row's program on so many sites with so many workers.
fn saved_of<R: Abort + Threads + Wait + Sync>(
    rt: &R,
    alloc: Global,
    row: (&str, u32, u32),
) -> Result<Vec<u8>, AllocError>
    requires { (1 ≤ row.1) × (row.1 ≤ 64) × (1 ≤ row.2) × (row.2 ≤ 64) }
{
    let end = Line::from_vec(Vec::from_slice(alloc, b"done")?)?;
    let limits = Limits {
        sites: row.1,
        steps: STEPS,
        messages: MESSAGES,
    };
    let book = book_of(rt, alloc, row)?;
    let (journal, _) = book.into_history().into_parts();
    let text = write_run(alloc, row.0.as_bytes(), limits, &journal, &end);
    journal.forget();
    Ok(text?.into_vec())
}

#[test]
fn a_run_of_a_worker_has_this_text(rt: HostRuntime) -> Result<(), Fail> {
    let text = saved_of(&rt, rt.alloc(), (FIVE, 1, 1))?;
    assert_eq!(rt; text.as_slice(), WORKED.as_bytes());
    Ok(())
}

#[test]
fn runs_of_workers_are_made_again(rt: HostRuntime) -> Result<(), Fail> {
    for row in QUIET {
        let text = saved_of(&rt, rt.alloc(), row)?;
        assert_eq!(rt; made_of(&rt, rt.alloc(), row.0, &text)?, QUIETLY);
    }
    let text = saved_of(&rt, rt.alloc(), (LOOP, 3, 4))?;
    let made = made_of(&rt, rt.alloc(), LOOP, &text)?;
    assert_eq!(rt; made, Made::All(Some(Reason::Steps(1))));
    Ok(())
}
