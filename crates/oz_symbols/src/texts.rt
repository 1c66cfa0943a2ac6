//! Interned texts, and a direct-mapped cache of those that were met lately.

ghost use Rattle.std.specs.Prelude.{◌≡◌, true, IfOk, IfSome};

use indexmap::IndexMap;
use std::alloc::{AllocError, Global};
use std::marker::Model;
use tree_node::Text;

// How many places the cache of texts met lately has.
const RECENT: usize = 128;

/// Texts by their spelling: each is made once, and its copies share what it holds. Contracts see nothing of them.
#[derive(Drop)]
pub struct Texts<'t> {
    alloc: Global,
    made: IndexMap<&'t str, Text>,
    /// A direct-mapped cache of the texts met lately, which is looked into first: what it has at a place is compared whole.
    recent: Vec<Option<Text>>,
}

impl<'t> Model for Texts<'t> {
    ghost use Rattle.std.specs.Prelude.{⊤};
    ghost use Rattle.oz_symbols.specs.Texts.{AreSpelled};

    ghost Value = { ⊤ };

    ghost view = { λ _. tt };

    ghost invariant = { λ s. AreSpelled s.made.entries };
}

/// The place of a text in the cache, by its first byte, the middle one and the last. Different names of one letter have different
/// places.
fn place_of(spelled: &[u8]) -> usize {
    if spelled.is_empty() {
        return 0;
    }
    let first = spelled[0] as usize;
    let middle = spelled[spelled.len() / 2] as usize;
    let last = spelled[spelled.len() - 1] as usize;
    (first + 5 * middle + 23 * last) % RECENT
}

/// Whether a text is spelled so. One letter, as many names have, is compared at once.
#[tactic(auto, using(crate::proofs::Interning::same_bytes, crate::proofs::Interning::same_letter))]
fn is_spelled(text: &[u8], spelled: &[u8]) -> bool
    ensures { result ≡ true → text.now ≡ spelled.now }
{
    if text.len() == 1 && spelled.len() == 1 && text[0] == spelled[0] {
        return true;
    }
    text == spelled
}

/// The text that the cache has at a place, if it is spelled so.
fn found<'a>(recent: &'a [Option<Text>], at: usize, spelled: &[u8]) -> Option<&'a Text>
    ensures { IfSome result (λ t. t.now ≡ spelled.now) }
{
    if at >= recent.len() {
        return None;
    }
    match &recent[at] {
        Some(text) => {
            if is_spelled(text.as_slice(), spelled) {
                Some(text)
            } else {
                None
            }
        }
        None => None,
    }
}

impl<'t> Texts<'t> {
    /// No texts yet.
    pub fn new(alloc: Global) -> Result<Texts<'t>, AllocError> {
        let mut recent = Vec::with_capacity(alloc, RECENT)?;
        for _ in 0..RECENT {
            recent.push(None)?;
        }
        Ok(Texts {
            alloc,
            made: IndexMap::new(alloc),
            recent,
        })
    }

    /// The text that is spelled so.
    #[inline(always)]
    pub fn text(&mut self, spelled: &'t str) -> Result<Text, AllocError>
        ensures { IfOk result (λ t. t ≡ spelled.now) }
    {
        let at = place_of(spelled.as_bytes());
        match found(self.recent.as_slice(), at, spelled.as_bytes()) {
            Some(text) => Ok(text.copy()?),
            None => self.renewed(spelled, at),
        }
    }

    /// The same where the cache has it not, which takes it.
    #[inline(never)]
    fn renewed(&mut self, spelled: &'t str, at: usize) -> Result<Text, AllocError>
        ensures { IfOk result (λ t. t ≡ spelled.now) }
    {
        let text = self.interned(spelled)?;
        if at < self.recent.len() {
            self.recent[at] = Some(text.copy()?);
        }
        Ok(text)
    }

    /// The text among all.
    fn interned(&mut self, spelled: &'t str) -> Result<Text, AllocError>
        ensures { IfOk result (λ t. t ≡ spelled.now) }
    {
        match self.made.get(spelled) {
            Some(text) => Ok(text.copy()?),
            None => self.make(spelled),
        }
    }

    /// One text more.
    fn make(&mut self, spelled: &'t str) -> Result<Text, AllocError>
        ensures { IfOk result (λ t. t ≡ spelled.now) }
    {
        let text = Text::from_vec(Vec::from_slice(self.alloc, spelled.as_bytes())?)?;
        self.made.insert(spelled, text.copy()?)?;
        Ok(text)
    }
}
