//! Why nothing is read.

ghost use Rattle.std.specs.Prelude.{◌≡◌};
ghost use Rattle.oz_grammar.specs.Faults.{fault_here, mismatch};
ghost use Rattle.oz_phrases.specs.declared.stop.Stop.TheVariants as stops;

use oz_grammar::{Fault, FaultKind, Symbol, What};
use std::alloc::{AllocError, AllocFailed};

/// Why a reader gave nothing.
#[derive(Drop)]
pub enum Stop {
    /// Memory ran out.
    Memory,
    /// The first fault of the symbols.
    Fault(Fault),
}

/// What a phrase reads as, and the symbols behind it.
pub type Read<'t, T> = Result<(T, &'t [Symbol]), Stop>;

impl From<AllocError> for Stop {
    ghost from_gives = { λ _ e. e ≡ stops.Memory };

    fn from(_e: AllocError) -> Stop {
        Stop::Memory
    }
}

impl<T: Drop> From<AllocFailed<T>> for Stop {
    ghost from_gives = { λ _ e. e ≡ stops.Memory };

    fn from(_e: AllocFailed<T>) -> Stop {
        Stop::Memory
    }
}

/// A fault at the first of these symbols.
pub fn fault(kind: FaultKind, symbols: &[Symbol]) -> Stop
    ensures { result ≡ stops.Fault (fault_here kind symbols.now) }
{
    Stop::Fault(Fault {
        kind,
        left: symbols.len(),
    })
}

/// The symbol at the front is another than is expected, or a lexical fault.
pub fn mismatch(what: What, symbols: &[Symbol]) -> Stop
    ensures { result ≡ stops.Fault (fault_here (mismatch what symbols.now) symbols.now) }
{
    match symbols {
        [Symbol::Bad(kind), ..] => fault(FaultKind::Lex(*kind), symbols),
        _ => fault(FaultKind::Expected(what), symbols),
    }
}
