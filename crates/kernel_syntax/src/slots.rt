//! The fields of records in programs.

ghost use Rattle.std.specs.Prelude.{◌≡◌, [], ◌∷◌};

use std::marker::Model;
use tree_node::Feature;

/// The fields of a record with the positions of their values, in ascending order of features, which contracts see as a list. One
/// field or two, as most records have, lie within; more of them in a vector.
#[derive(Drop)]
pub struct Slots {
    held: Held,
}

#[derive(Drop)]
enum Held {
    One([(Feature, u32); 1]),
    Two([(Feature, u32); 2]),
    Many(Vec<(Feature, u32)>),
}

impl Model for Slots {
    ghost use Rattle.std.specs.Prelude.{List, ℕ};
    ghost use Rattle.tree_node.specs.declared.node.Feature.{Feature};
    ghost use Rattle.kernel_syntax.specs.SlotList.{held_slots};

    ghost Value = { List (Feature × ℕ) };

    ghost view = { λ s. held_slots s.held };
}

impl Slots {
    /// One field.
    pub fn one(only: (Feature, u32)) -> Slots
        ensures { result ≡ only ∷ [] }
    {
        Slots {
            held: Held::One([only]),
        }
    }

    /// Two fields.
    pub fn two(first: (Feature, u32), second: (Feature, u32)) -> Slots
        ensures { result ≡ first ∷ second ∷ [] }
    {
        Slots {
            held: Held::Two([first, second]),
        }
    }

    /// The fields of a vector.
    pub fn from_vec(many: Vec<(Feature, u32)>) -> Slots
        ensures { result ≡ many.items }
    {
        Slots {
            held: Held::Many(many),
        }
    }

    /// The fields.
    pub fn as_slice(&self) -> &[(Feature, u32)]
        ensures { result.now ≡ self.now }
    {
        match &self.held {
            Held::One(items) => items.as_slice(),
            Held::Two(items) => items.as_slice(),
            Held::Many(items) => items.as_slice(),
        }
    }
}
