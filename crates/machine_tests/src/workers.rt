//! How runs of programs end, with any number of workers.

ghost use Rattle.std.specs.Prelude.{◌≤◌};

use crate::programs::program_of;
use message_book::Book;
use site_message::{Limits, Reason};
use site_worker::{OpenGate, run_sites};
use std::alloc::{AllocError, Global};
use std::process::Abort;
use std::sync::Wait;
use std::test::Fail;
use std::thread::Threads;

/// The own steps that a site may make, and the messages that may be sent.
pub const STEPS: u64 = 10_000;

pub const MESSAGES: u64 = 4_000_000_000;

/// Rows: a text, its sites, and its workers. Each run comes to rest.
pub const QUIET: [(&str, u32, u32); 9] = [
    ("skip", 1, 1),
    ("skip", 64, 64),
    ("local X in {Browse X} end", 2, 2),
    ("local X in thread at 2 X = a end {Browse X} end", 2, 1),
    (
        "local X Y in thread at 2 X = a end thread at 3 Y = X end {Browse Y} end",
        4,
        4,
    ),
    (
        "local X Y in thread at 2 X = a end thread at 3 Y = X end {Browse Y} end",
        4,
        3,
    ),
    (ROUNDS, 3, 3),
    (ROUNDS, 64, 64),
    (VISITS, 64, 64),
];

// The token of a cell goes to and fro between sites 2 and 3, whose workers sleep while it is away.
const ROUNDS: &str = "local Cell Add Zero One N A B in
  Zero = 0  One = 1  N = 100
  {NewCell Zero Cell}
  proc {Add N ?Done}
    local Ends in
      Ends = N =< Zero
      if Ends then Done = true
      else
        local Old New Less in
          {Exchange Cell Old New}
          New = Old + One
          Less = N - One
          {Add Less Done}
        end
      end
    end
  end
  thread at 2 {Add N A} end
  thread at 3 {Add N B} end
  {Wait A} {Wait B}
end";

// Each of 64 sites is asked for a cell of its own, from the last to the first, when its worker has slept since the start: so each worker is
// woken by a message, and wakes that of site 1 by its answer.
const VISITS: &str = "local Visit Zero One Last in
  Zero = 0  One = 1  Last = 64
  proc {Visit Home}
    local Ends in
      Ends = Home =< Zero
      if Ends then skip
      else
        local Cell Old New Next in
          {NewCellAt Home Cell Home}
          {Exchange Cell Old New}
          {Wait Old}
          Next = Home - One
          {Visit Next}
        end
      end
    end
  end
  {Visit Last}
end";

/// A thread that goes round and round.
pub const LOOP: &str = "local P in P = proc {$} {P} end {P} end";

/// The book of a run of the row's text on so many sites with so many workers.
pub fn book_of<R: Abort + Threads + Wait + Sync>(
    rt: &R,
    alloc: Global,
    row: (&str, u32, u32),
) -> Result<Book, AllocError>
    requires { (1 ≤ row.1) × (row.1 ≤ 64) × (1 ≤ row.2) × (row.2 ≤ 64) }
{
    let program = program_of(rt, alloc, row.0)?;
    let limits = Limits {
        sites: row.1,
        steps: STEPS,
        messages: MESSAGES,
    };
    run_sites(rt, alloc, &program, limits, row.2, &OpenGate)
}

// The reason by which such a run ends.
fn reason_of<R: Abort + Threads + Wait + Sync>(
    rt: &R,
    alloc: Global,
    row: (&str, u32, u32),
) -> Result<Option<Reason>, AllocError>
    requires { (1 ≤ row.1) × (row.1 ≤ 64) × (1 ≤ row.2) × (row.2 ≤ 64) }
{
    let book = book_of(rt, alloc, row)?;
    let reason = book.reason();
    let (journal, _) = book.into_history().into_parts();
    journal.forget();
    Ok(reason)
}

#[test]
fn runs_come_to_rest(rt: HostRuntime) -> Result<(), Fail> {
    for row in QUIET {
        assert_eq!(rt; reason_of(&rt, rt.alloc(), row)?, Some(Reason::Quiet));
    }
    Ok(())
}

#[test]
fn a_loop_comes_to_its_limit(rt: HostRuntime) -> Result<(), Fail> {
    let reason = reason_of(&rt, rt.alloc(), (LOOP, 3, 4))?;
    assert_eq!(rt; reason, Some(Reason::Steps(1)));
    Ok(())
}
