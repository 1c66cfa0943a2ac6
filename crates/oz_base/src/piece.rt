// A whole piece, written.
ghost use Rattle.oz_base.specs.Streams.{HasCause, TakesPiece, HandsInOnly, IsRestOf};

use crate::{Failed, Sink};

/// Writes the whole piece, in as many calls as the sink wants, each of which is handed all that is left; it stops at the first
/// fault. Takes no memory. The clause `pieces` says no more than that each call is handed the piece or a back of it.
pub fn write_piece<K: Sink>(sink: &mut K, piece: &[u8]) -> Result<(), Failed>
    ensures bytes { TakesPiece (K.taken sink.old) (K.taken sink.new) result piece.now }
    ensures pieces { HandsInOnly (K.pieces sink.old) (K.pieces sink.new) (IsRestOf piece.now) }
    ensures cause { HasCause (K.faults sink.old) (K.faults sink.new) result }
{
    let mut at = 0;
    while at < piece.len() {
        at += sink.write(&piece[at..])?;
    }
    Ok(())
}
