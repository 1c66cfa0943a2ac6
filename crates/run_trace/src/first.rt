//! Where each variable was raised first.

ghost use Rattle.std.specs.Prelude.{◌≡◌, Some, None, IfOk, OnOk, if◌then◌else◌};
ghost use Rattle.tree_node.specs.declared.names.VarName.{VarName as Variable};
ghost use Rattle.tree_node.specs.Store.{equal_var};
ghost use Rattle.run_trace.specs.First.{first_place, or_later, place_of};

use crate::findings::Raise;
use indexmap::IndexMap;
use std::alloc::{AllocError, Global};
use std::marker::Model;
use tree_node::VarName;

/// The places of exceptions in a list by their variables: of each variable the place of the first. A handler may raise again what it
/// caught, so several exceptions may have one variable.
#[derive(Drop)]
pub struct FirstRaises {
    places: IndexMap<VarName, usize>,
}

impl Model for FirstRaises {
    ghost use Rattle.std.specs.Prelude.{List, ℕ};
    ghost use Rattle.tree_node.specs.declared.names.VarName.{VarName};

    ghost Value = { List (VarName × ℕ) };

    ghost view = { λ f. f.places.entries };
}

// Keeps the place of an exception of this variable, where none is kept.
fn keep_first(
    places: &mut IndexMap<VarName, usize>,
    place: usize,
    raised: VarName,
) -> Result<(), AllocError>
    ensures { OnOk result ((x : Variable) → place_of places.new.entries x ≡ or_later (place_of places.old.entries x) (if equal_var raised x then Some place else None)) }
{
    if places.get(&raised).is_some() {
        return Ok(());
    }
    places.insert(raised, place)?;
    Ok(())
}

impl FirstRaises {
    /// Those of these exceptions.
    pub fn of(alloc: Global, raises: &[Raise]) -> Result<FirstRaises, AllocError>
        ensures { IfOk result (λ f. (x : Variable) → place_of f x ≡ first_place raises.now x) }
    {
        let mut places = IndexMap::new(alloc);
        for (place, raise) in raises.iter().enumerate() {
            keep_first(&mut places, place, raise.raised)?;
        }
        Ok(FirstRaises { places })
    }

    /// The place of the first exception of this variable.
    pub fn get(&self, raised: VarName) -> Option<usize>
        ensures { result ≡ place_of self.now raised }
    {
        match self.places.get(&raised) {
            Some(place) => Some(*place),
            None => None,
        }
    }
}
