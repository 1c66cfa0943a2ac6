//! The last line of a call.

ghost use Rattle.std.specs.Prelude.{◌≡◌, ◌++◌, ◌∷◌, [], IfOk, MatchOption};
ghost use Rattle.oz_show.specs.Status.{end_line, HasLine, HasNumbers};

use crate::refusal::fault_line;
use crate::status::Status;
use std::alloc::{AllocError, Global};
use tree_node::Line;

/// The end line and its newline where it is always the same, so that it takes no memory.
pub fn fixed_piece(status: Status) -> Option<&'static [u8]>
    requires { HasLine status }
    ensures { MatchOption result (HasNumbers status) (λ piece. piece.now ≡ end_line status ++ 10 ∷ []) }
{
    match status {
        Status::Usage => Some(b"usage\n"),
        Status::TooLong => Some(b"refused text too long\n"),
        Status::MessageLimit => Some(b"stopped messages\n"),
        Status::ReadFault => Some(b"read fault\n"),
        Status::Memory => Some(b"out of memory\n"),
        _ => None,
    }
}

/// The end line. At `WriteFault` nothing more is written, and there is none.
pub fn last_line(alloc: Global, status: &Status) -> Result<Line, AllocError>
    requires { HasLine status.now }
    ensures { IfOk result (λ l. l ≡ end_line status.now) }
{
    let text = match status {
        Status::Quiescent { ended, waiting } => {
            format!(in alloc; "quiescent ended={ended} waiting={waiting}")?
        }
        Status::Usage => String::from_str(alloc, "usage")?,
        Status::Refused(fault) => {
            let line = fault_line(alloc, fault)?;
            return Ok(line);
        }
        Status::NotUtf8(at) => format!(in alloc; "refused byte {at} not UTF-8")?,
        Status::TooLong => String::from_str(alloc, "refused text too long")?,
        Status::StepLimit(site) => format!(in alloc; "stopped steps site={site}")?,
        Status::MessageLimit => String::from_str(alloc, "stopped messages")?,
        Status::ReadFault => String::from_str(alloc, "read fault")?,
        Status::WriteFault => String::new(alloc),
        Status::Memory => String::from_str(alloc, "out of memory")?,
        Status::Checked { entries, picks } => {
            format!(in alloc; "checked entries={entries} picks={picks}")?
        }
        Status::Wrong(at) => format!(in alloc; "wrong entry={at}")?,
        Status::BadFile(at) => format!(in alloc; "bad run file byte {at}")?,
    };
    Ok(Line::from_vec(text.into_bytes())?)
}
