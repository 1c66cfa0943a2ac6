//! From a text to its program.

ghost use Rattle.std.specs.Prelude.{◌≤◌, length};
ghost use Rattle.oz_runner.specs.Cause.{text_limit};
ghost use Rattle.oz_runner.specs.Reading.{IsProgramOf, IsReadAs};

use crate::Status;
use kernel_syntax::Program;
use oz_parser::ParseError;
use oz_sugar::program_of_text;
use std::alloc::Global;
use std::str;

/// The program that a text stands for, or the status of one that stands for none.
pub fn program_of_str(alloc: Global, text: &str) -> Result<Program, Status>
    requires short { length text.now ≤ text_limit }
    ensures { IsProgramOf text.now result }
{
    match program_of_text(alloc, text) {
        Ok(program) => Ok(program),
        Err(ParseError::Text(fault)) => Err(Status::Refused(fault)),
        Err(ParseError::Memory) => Err(Status::Memory),
    }
}

/// The program that the text of these bytes stands for, or the status of bytes that are no text, or of one that stands for none.
pub fn program_of_bytes(alloc: Global, bytes: &[u8]) -> Result<Program, Status>
    requires short { length bytes.now ≤ text_limit }
    ensures { IsReadAs bytes.now result }
{
    match str::from_utf8(bytes) {
        Ok(text) => program_of_str(alloc, text),
        Err(error) => Err(Status::NotUtf8(error.valid_up_to() as u64)),
    }
}
