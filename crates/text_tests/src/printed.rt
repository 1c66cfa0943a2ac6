// What a text prints: its canonical text, or the line of its refusal.

use oz_parser::{ParseError, parse};
use oz_show::{fault_line, program_text};
use oz_sugar::program_of_text;
use std::alloc::{AllocError, Global};

/// How texts are read: as the kernel language alone, or with sugar.
#[derive(Clone, Copy)]
pub enum Language {
    Kernel,
    Sugared,
}

fn printed_text(
    alloc: Global,
    language: Language,
    text: &str,
) -> Result<(bool, Vec<u8>), AllocError> {
    if text.len() >= 1 << 28 {
        return Err(AllocError);
    }
    let read = match language {
        Language::Kernel => parse(alloc, text),
        Language::Sugared => program_of_text(alloc, text),
    };
    match read {
        Ok(program) => {
            let canonical = program_text(alloc, &program)?;
            Ok((true, Vec::from_slice(alloc, canonical.as_slice())?))
        }
        Err(ParseError::Text(fault)) => {
            let line = fault_line(alloc, &fault)?;
            Ok((false, Vec::from_slice(alloc, line.as_slice())?))
        }
        Err(ParseError::Memory) => Err(AllocError),
    }
}

/// The first of the texts that does not print what stands beside it.
pub fn first_difference(
    alloc: Global,
    language: Language,
    rows: &[(&'static str, &'static str)],
) -> Result<Option<&'static str>, AllocError> {
    for row in rows {
        let (text, want) = *row;
        let (_, bytes) = printed_text(alloc, language, text)?;
        if bytes.as_slice() != want.as_bytes() {
            return Ok(Some(text));
        }
    }
    Ok(None)
}

/// Whether a text is refused with this line, or is a program where there is none.
pub fn is_printed(
    alloc: Global,
    language: Language,
    text: &str,
    want: Option<&str>,
) -> Result<bool, AllocError> {
    let (is_program, bytes) = printed_text(alloc, language, text)?;
    match want {
        Some(line) => Ok(!is_program && bytes.as_slice() == line.as_bytes()),
        None => Ok(is_program),
    }
}
