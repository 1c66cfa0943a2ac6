//! Lists whose copies share what they hold.

ghost use Rattle.std.specs.Prelude.{◌≡◌, IfOk};

use std::alloc::{AllocError, Global};
use std::marker::Model;
use std::sync::ArcSlice;

/// Items that never change, in order, which contracts see as a list. A copy costs the same however long the list
/// is, and threads may hold copies of one list.
#[derive(Drop)]
pub struct Shared<T> {
    items: ArcSlice<T, Global>,
}

impl<T> Model for Shared<T> {
    ghost use Rattle.std.specs.Prelude.{List};
    ghost use Rattle.std.specs.Arc.{arc_slice_items};

    ghost Value = { List T };

    ghost view = { λ s. arc_slice_items s.items };
}

impl<T: Drop> Shared<T> {
    /// The items of a vector.
    pub fn from_vec(items: Vec<T>) -> Result<Shared<T>, AllocError>
        ensures { IfOk result (λ s. s ≡ items.items) }
    {
        Ok(Shared {
            items: ArcSlice::from_vec(items)?,
        })
    }

    /// The same list. An error comes only where its copies can no longer be counted.
    pub fn copy(&self) -> Result<Shared<T>, AllocError>
        ensures { IfOk result (λ s. s ≡ self.now) }
    {
        Ok(Shared {
            items: self.items.clone()?,
        })
    }
}

impl<T> Shared<T> {
    /// The items.
    pub fn as_slice(&self) -> &[T]
        ensures { result.now ≡ self.now }
    {
        self.items.as_slice()
    }
}
