//! The lines and the end line, written as pieces.

ghost use Rattle.std.specs.Prelude.{◌++◌, reverse};
ghost use Rattle.oz_base.specs.Streams.{HasCause, HandsInOnly, TakesPiece};
ghost use Rattle.oz_model.specs.Output.{pieces_of};
ghost use Rattle.world_model.specs.Schedule.{lines_in};
ghost use Rattle.oz_runner.specs.Ends.{lines_of};
ghost use Rattle.oz_runner.specs.Due.{IsRestOfLine, IsRestOfOutput};
ghost use Rattle.oz_runner.specs.Saving.{IsRestOfWork, bytes_due};

use crate::Status;
use crate::work::RunLines;
use oz_base::{Failed, Sink, write_piece};
use site_message::Turn;
use tree_node::Line;

/// Writes each line with its newline, in order, and stops at the first that fails.
pub fn write_lines<K: Sink>(sink: &mut K, lines: &[Line]) -> Result<(), Failed>
    ensures bytes { TakesPiece (K.taken sink.old) (K.taken sink.new) result (pieces_of lines.now) }
    ensures pieces { HandsInOnly (K.pieces sink.old) (K.pieces sink.new) (IsRestOfLine lines.now) }
    ensures cause { HasCause (K.faults sink.old) (K.faults sink.new) result }
{
    for line in lines {
        if let Err(failed) = write_piece(sink, line.as_piece()) {
            return Err(failed);
        }
    }
    Ok(())
}

/// Writes the lines of turns, the oldest first, and stops at the first that fails.
pub fn write_turns<K: Sink>(sink: &mut K, turns: &[Turn]) -> Result<(), Failed>
    ensures bytes { TakesPiece (K.taken sink.old) (K.taken sink.new) result (pieces_of (lines_in (reverse turns.now))) }
    ensures pieces { HandsInOnly (K.pieces sink.old) (K.pieces sink.new) (IsRestOfLine (lines_in (reverse turns.now))) }
    ensures cause { HasCause (K.faults sink.old) (K.faults sink.new) result }
{
    for turn in turns {
        if let Err(failed) = write_lines(sink, turn.lines.as_slice()) {
            return Err(failed);
        }
    }
    Ok(())
}

// Writes the lines of a run.
fn write_run_lines<K: Sink>(sink: &mut K, printed: &RunLines) -> Result<(), Failed>
    ensures bytes { TakesPiece (K.taken sink.old) (K.taken sink.new) result (pieces_of (lines_of printed.now)) }
    ensures pieces { HandsInOnly (K.pieces sink.old) (K.pieces sink.new) (IsRestOfLine (lines_of printed.now)) }
    ensures cause { HasCause (K.faults sink.old) (K.faults sink.new) result }
{
    match printed {
        RunLines::Sites(journal) | RunLines::Saved(journal, _) => {
            write_turns(sink, journal.oldest_first())
        }
        RunLines::Machine(lines) => write_lines(sink, lines),
    }
}

// Writes the lines of a run and then the piece of the end line.
fn write_all<K: Sink>(sink: &mut K, printed: &RunLines, end: &[u8]) -> Result<(), Failed>
    ensures bytes { TakesPiece (K.taken sink.old) (K.taken sink.new) result (pieces_of (lines_of printed.now) ++ end.now) }
    ensures pieces { HandsInOnly (K.pieces sink.old) (K.pieces sink.new) (IsRestOfOutput (lines_of printed.now) end.now) }
    ensures cause { HasCause (K.faults sink.old) (K.faults sink.new) result }
{
    if let Err(failed) = write_run_lines(sink, printed) {
        return Err(failed);
    }
    write_piece(sink, end)
}

/// Writes what is due: the saved run, if there is one, and nothing else; or the lines of the run, but none where an entry is wrong, and
/// then the piece of the end line.
pub fn write_due<K: Sink>(
    sink: &mut K,
    status: Status,
    printed: &RunLines,
    end: &[u8],
) -> Result<(), Failed>
    ensures bytes { TakesPiece (K.taken sink.old) (K.taken sink.new) result (bytes_due printed.now status end.now) }
    ensures pieces { HandsInOnly (K.pieces sink.old) (K.pieces sink.new) (IsRestOfWork printed.now status end.now) }
    ensures cause { HasCause (K.faults sink.old) (K.faults sink.new) result }
{
    match (printed, status) {
        (RunLines::Saved(_, file), _) => write_piece(sink, file.as_slice()),
        (_, Status::Wrong(_)) => write_piece(sink, end),
        _ => write_all(sink, printed, end),
    }
}
