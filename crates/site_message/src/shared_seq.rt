//! Lists that copies share, many of which are empty.

ghost use Rattle.std.specs.Prelude.{◌≡◌, ◌↔◌, [], IfOk, IsOk, IsTrue};

use std::alloc::AllocError;
use std::marker::Model;
use tree_node::Shared;

/// Items that never change, in order, which contracts see as a list. A copy takes one step however many they are, and
/// threads may hold copies of one list. The empty one takes no memory.
#[derive(Drop)]
pub struct SharedSeq<T> {
    items: Option<Shared<T>>,
}

impl<T> Model for SharedSeq<T> {
    ghost use Rattle.std.specs.Prelude.{List};
    ghost use Rattle.site_message.specs.SharedSeq.{items_of, IsEmptyFree};

    ghost Value = { List T };

    ghost view = { λ s. items_of s.items };

    ghost invariant = { λ s. IsEmptyFree s.items };
}

impl<T: Drop> SharedSeq<T> {
    /// The items of a vector. It takes no memory where there are none.
    pub fn from_vec(items: Vec<T>) -> Result<SharedSeq<T>, AllocError>
        ensures same { IfOk result (λ s. s ≡ items.items) }
        ensures empty { items.items ≡ [] → IsOk result }
    {
        if items.is_empty() {
            return Ok(SharedSeq::new());
        }
        let items = Shared::from_vec(items)?;
        Ok(SharedSeq { items: Some(items) })
    }

    /// The same list. An error comes only where its copies can no longer be counted.
    pub fn copy(&self) -> Result<SharedSeq<T>, AllocError>
        ensures same { IfOk result (λ s. s ≡ self.now) }
        ensures empty { self.now ≡ [] → IsOk result }
    {
        let items = match &self.items {
            Some(items) => Some(items.copy()?),
            None => None,
        };
        Ok(SharedSeq { items })
    }
}

impl<T> SharedSeq<T> {
    /// The empty list.
    pub fn new() -> SharedSeq<T>
        ensures { result ≡ [] }
    {
        SharedSeq { items: None }
    }

    /// The items.
    pub fn as_slice(&self) -> &[T]
        ensures { result.now ≡ self.now }
    {
        match &self.items {
            Some(items) => items.as_slice(),
            None => &[],
        }
    }

    /// Whether there is no item.
    pub fn is_empty(&self) -> bool
        ensures { IsTrue result ↔ (self.now ≡ []) }
    {
        self.items.is_none()
    }
}
