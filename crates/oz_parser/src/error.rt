//! Why a text gives no program.

ghost use Rattle.std.specs.Prelude.{◌≡◌};
ghost use Rattle.oz_parser.specs.declared.error.ParseError.TheVariants as errors;

use oz_grammar::TextFault;
use std::alloc::AllocError;

/// Why a text gives no program: its first fault, with its line and column, or want of memory.
#[derive(Drop)]
pub enum ParseError {
    /// The first fault of the text.
    Text(TextFault),
    /// Memory ran out.
    Memory,
}

impl From<AllocError> for ParseError {
    ghost from_gives = { λ _ e. e ≡ errors.Memory };

    fn from(_e: AllocError) -> ParseError {
        ParseError::Memory
    }
}
