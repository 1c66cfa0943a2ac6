//! What the home of a stationary cell keeps of it.

ghost use Rattle.std.specs.Prelude.{◌≡◌, ◌↔◌, [], ◌∷◌, ◌++◌, None, Some, OnOk, OnErr, IsTrue, IsSome};
ghost use Rattle.site_model.specs.Site.{unheard_cell};

use std::alloc::{AllocError, Global};
use std::marker::Model;
use std::mem;
use token_chain::{CellHome, EarlyRequest};
use tree_node::VarName;

/// The content of a cell, once its home heard of the cell, and the requests that came before, in their order.
#[derive(Drop)]
pub struct Home {
    content: CellHome,
    early: Vec<EarlyRequest>,
}

impl Model for Home {
    ghost use Rattle.site_model.specs.Site.{HomeRecord};

    ghost Value = { HomeRecord };

    ghost view = { λ h. record { content = h.content; early = h.early.items } };
}

impl Home {
    /// The home did not hear of the cell.
    pub fn unheard(alloc: Global) -> Home
        ensures { result ≡ unheard_cell }
    {
        Home {
            content: CellHome::early(),
            early: Vec::new(alloc),
        }
    }

    /// The cell has this content.
    pub fn new_here(alloc: Global, content: VarName) -> Home
        ensures { result ≡ record { content = Some content; early = [] } }
    {
        Home {
            content: CellHome::new_here(content),
            early: Vec::new(alloc),
        }
    }

    /// Whether the home heard of the cell.
    pub fn is_here(&self) -> bool
        ensures { IsTrue result ↔ IsSome self.now.content }
    {
        self.content.is_here()
    }

    /// A request comes early, and is kept behind the others.
    pub fn keep(&mut self, request: EarlyRequest) -> Result<(), AllocError>
        ensures ok { OnOk result (self.new ≡ record self.old { early = self.old.early ++ request ∷ [] }) }
        ensures err { OnErr result (self.new ≡ self.old) }
    {
        self.early.push(request)?;
        Ok(())
    }

    /// A thread exchanges the content, and is given the old one.
    pub fn exchange(&mut self, new: VarName) -> VarName
        requires here { IsSome self.old.content }
        ensures old { self.old.content ≡ Some result }
        ensures new { self.new ≡ record self.old { content = Some new } }
    {
        self.content.swap(new)
    }

    /// The home hears of the cell, and all requests that came before are handed out.
    pub fn hear(&mut self, alloc: Global, content: VarName) -> Vec<EarlyRequest>
        requires unheard { self.old.content ≡ None }
        ensures early { result.items ≡ self.old.early }
        ensures new { self.new ≡ record { content = Some content; early = [] } }
    {
        self.content.on_make(content);
        mem::replace(&mut self.early, Vec::new(alloc))
    }
}
