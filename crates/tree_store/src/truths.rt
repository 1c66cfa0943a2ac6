//! The texts of truth values.

ghost use Rattle.std.specs.Prelude.{◌≡◌, codes, IfOk, if◌then◌else◌};
ghost use Rattle.tree_store.specs.Truths.{IsKept};

use std::alloc::{AllocError, Global};
use std::marker::Model;
use tree_node::Text;

/// The texts of true and of false, each from when it was first asked for. A store keeps its own, and not the program for all: threads of
/// the system would count the copies of one text in turn. Contracts do not see it.
#[derive(Drop)]
pub struct Truths {
    yes: Option<Text>,
    no: Option<Text>,
}

impl Model for Truths {
    ghost use Rattle.std.specs.Prelude.{codes};
    ghost use Rattle.tree_store.specs.Truths.{IsKept};

    ghost Value = { Unit {0} };

    ghost view = { λ t. tt };

    ghost invariant = { λ t. IsKept (codes "true") t.yes × IsKept (codes "false") t.no };
}

// The text of these bytes, which is kept from the first time on.
fn kept_text(kept: &mut Option<Text>, alloc: Global, bytes: &[u8]) -> Result<Text, AllocError>
    requires kept { IsKept bytes.now kept.old }
    ensures kept { IsKept bytes.now kept.new }
    ensures text { IfOk result (λ t. t ≡ bytes.now) }
{
    if let Some(text) = kept {
        let copy = text.copy()?;
        return Ok(copy);
    }
    let text = Text::from_vec(Vec::from_slice(alloc, bytes)?)?;
    let copy = text.copy()?;
    *kept = Some(text);
    Ok(copy)
}

impl Truths {
    /// None yet.
    pub fn new() -> Truths {
        Truths {
            yes: None,
            no: None,
        }
    }

    /// The text of a truth value.
    pub fn text(&mut self, alloc: Global, truth: bool) -> Result<Text, AllocError>
        ensures { IfOk result (λ t. t ≡ (if truth then codes "true" else codes "false")) }
    {
        if truth {
            kept_text(&mut self.yes, alloc, b"true")
        } else {
            kept_text(&mut self.no, alloc, b"false")
        }
    }
}
