//! A turn with the spellings of its messages.

ghost use Rattle.std.specs.Prelude.{◌≡◌, IfOk, List, map};
ghost use Rattle.tree_node.specs.Each.{Each};
ghost use Rattle.site_message.specs.declared.message.Sent.{Sent as ASent};
ghost use Rattle.site_message.specs.Wire.{FitsWire};
ghost use Rattle.message_book.specs.Inboxes.{AllOfFormat, letter_of};

use site_message::{Sent, Turn};
use std::alloc::{AllocError, Global};
use std::marker::Model;
use wire_form::{Bytes, encode};

/// A turn with the spelling of each message that it sends, which contracts see as the turn. It is made before the turn is
/// posted, so that nothing is spelled while others wait for the book.
#[derive(Drop)]
pub struct SpelledTurn {
    turn: Turn,
    letters: Vec<(u32, Bytes)>,
}

impl Model for SpelledTurn {
    ghost use Rattle.std.specs.Prelude.{◌≡◌, map};
    ghost use Rattle.site_message.specs.declared.turn.Turn.{Turn};
    ghost use Rattle.message_book.specs.Inboxes.{AllOfFormat, letter_of};

    ghost Value = { Turn };

    ghost view = { λ s. s.turn };

    ghost invariant = { λ s. (s.letters.items ≡ map letter_of s.turn.sent) × AllOfFormat s.turn.sent };
}

impl SpelledTurn {
    /// Spells the messages of the turn. It takes memory once for the list and once for the bytes of each message.
    pub fn new(alloc: Global, turn: Turn) -> Result<SpelledTurn, AllocError>
        requires { Each (λ (s : ASent). FitsWire s.msg) turn.sent }
        ensures { IfOk result (λ s. s ≡ turn) }
    {
        let letters = spell_all(alloc, turn.sent.as_slice())?;
        Ok(SpelledTurn { turn, letters })
    }

    // The turn, and the spellings of its messages, each behind the site that it goes to.
    pub(crate) fn into_parts(self) -> (Turn, Vec<(u32, Bytes)>)
        ensures turn { result.0 ≡ self }
        ensures letters { result.1.items ≡ map letter_of self.sent }
        ensures spelled { AllOfFormat self.sent }
    {
        (self.turn, self.letters)
    }
}

// The spellings of the messages, each behind the site that it goes to.
#[tactic(auto, using(wire_form::proofs::WriteLaws::each_get, tree_node::proofs::EachLemmas::each_take_more))]
fn spell_all(alloc: Global, sent: &[Sent]) -> Result<Vec<(u32, Bytes)>, AllocError>
    requires { Each (λ (s : ASent). FitsWire s.msg) sent.now }
    ensures { IfOk result (λ ls. (ls.items ≡ map letter_of sent.now) × AllOfFormat sent.now) }
{
    let mut letters = Vec::with_capacity(alloc, sent.len())?;
    for one in sent {
        let bytes = encode(alloc, &one.msg)?;
        letters.push((one.to, bytes))?;
    }
    Ok(letters)
}
