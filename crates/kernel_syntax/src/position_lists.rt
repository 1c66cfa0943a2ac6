//! Lists of positions that stand one behind the other.

ghost use Rattle.std.specs.Prelude.{◌≡◌, ◌<◌, ◌≤◌, [], ◌∷◌, ◌++◌, length, take, slice_index_or, IfOk, OnOk};

use std::alloc::{AllocError, Global};
use std::marker::Model;

/// Lists of positions, which contracts see as a list of lists. They stand in one vector, so that a list takes no memory of its
/// own, and one that is the front of another stands there once.
#[derive(Drop)]
pub struct PositionLists {
    positions: Vec<u32>,
    /// Where each list begins and ends.
    spans: Vec<(usize, usize)>,
}

impl Model for PositionLists {
    ghost use Rattle.std.specs.Prelude.{List, ℕ};
    ghost use Rattle.tree_node.specs.Each.{Each};
    ghost use Rattle.kernel_syntax.specs.PositionLists.{lists_of, IsWithin};

    ghost Value = { List (List ℕ) };

    ghost view = { λ s. lists_of s.positions.items s.spans.items };

    ghost invariant = { λ s. Each (IsWithin s.positions.items) s.spans.items };
}

impl PositionLists {
    /// No lists yet, with room for so many that have two positions or fewer.
    pub fn with_capacity(alloc: Global, lists: usize) -> Result<PositionLists, AllocError>
        ensures { IfOk result (λ l. l ≡ []) }
    {
        Ok(PositionLists {
            positions: Vec::with_capacity(alloc, lists.saturating_mul(2))?,
            spans: Vec::with_capacity(alloc, lists)?,
        })
    }

    /// One list more.
    #[inline(always)]
    pub fn push(&mut self, list: &[u32]) -> Result<(), AllocError>
        ensures { OnOk result (self.new ≡ self.old ++ list.now ∷ []) }
    {
        let start = self.positions.len();
        self.positions.extend_from_slice(list)?;
        self.spans.push((start, self.positions.len()))?;
        Ok(())
    }

    /// One list more: the first so many positions of another. It takes no memory but for its place.
    pub fn push_prefix(&mut self, at: usize, count: usize) -> Result<(), AllocError>
        requires at { at < length self.old }
        requires count { count ≤ length (slice_index_or self.old at []) }
        ensures { OnOk result (self.new ≡ self.old ++ take count (slice_index_or self.old at []) ∷ []) }
    {
        let (start, _) = self.spans[at];
        self.spans.push((start, start + count))?;
        Ok(())
    }

    /// A list by its number, from 0.
    pub fn get(&self, at: usize) -> &[u32]
        requires { at < length self.now }
        ensures { result.now ≡ slice_index_or self.now at [] }
    {
        let (start, end) = self.spans[at];
        &self.positions[start..end]
    }
}
