//! Lines to be printed.

ghost use Rattle.std.specs.Prelude.{◌≡◌, ◌++◌, ◌∷◌, [], IfOk, OnOk, OnErr};

use std::alloc::{AllocError, AllocFailed};
use std::marker::Model;

/// A line of a run, which contracts see as the list of its bytes. It is kept together with its newline, so that
/// printing it takes no memory.
#[derive(Drop)]
pub struct Line {
    piece: Vec<u8>,
}

impl Model for Line {
    ghost use Rattle.std.specs.Prelude.{◌≡◌, ◌-◌, ◌++◌, ◌∷◌, [], List, ℕ, take, length};

    ghost Value = { List ℕ };

    ghost view = { λ l. take (length l.piece.items - 1) l.piece.items };

    ghost invariant = { λ l. l.piece.items ≡ take (length l.piece.items - 1) l.piece.items ++ 10 ∷ [] };
}

impl Line {
    /// The line of these bytes.
    pub fn from_vec(mut bytes: Vec<u8>) -> Result<Line, AllocFailed<u8>>
        ensures { IfOk result (λ l. l ≡ bytes.items) }
    {
        bytes.push(b'\n')?;
        Ok(Line { piece: bytes })
    }

    /// The bytes without the newline.
    pub fn as_slice(&self) -> &[u8]
        ensures { result.now ≡ self.now }
    {
        &self.piece[..self.piece.len() - 1]
    }

    /// The bytes and a newline behind them, as they are written.
    pub fn as_piece(&self) -> &[u8]
        ensures { result.now ≡ self.now ++ 10 ∷ [] }
    {
        self.piece.as_slice()
    }
}
