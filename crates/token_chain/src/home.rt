//! The home of a stationary cell.

ghost use Rattle.std.specs.Prelude.{◌≡◌, ◌↔◌, None, Some, IsTrue, IsSome};

use std::marker::Model;
use tree_node::{ThreadName, VarName};

/// A request for the content of a cell that came before its home heard of the cell: the thread that asked, its site, which may be the
/// home itself, and the new content.
#[derive(Clone, Copy, Debug, PartialEq, Eq)]
pub struct EarlyRequest {
    /// The thread.
    pub thread: ThreadName,
    /// Its site.
    pub asking: u32,
    /// What the cell is to have then.
    pub new: VarName,
}

/// What the home of a stationary cell keeps of it: its content, once it is known that the cell was made. Contracts see it as
/// that content. Requests that come before are kept by the caller, and served in order when the content is there.
#[derive(Drop)]
pub struct CellHome {
    content: Option<VarName>,
}

impl Model for CellHome {
    ghost use Rattle.std.specs.Prelude.{Option};
    ghost use Rattle.tree_node.specs.declared.names.VarName.{VarName};

    ghost Value = { Option VarName };

    ghost view = { λ h. h.content };
}

impl CellHome {
    /// A cell that its home makes itself, with this content.
    pub fn new_here(content: VarName) -> CellHome
        ensures { result ≡ Some content }
    {
        CellHome {
            content: Some(content),
        }
    }

    /// A cell of which the home heard by a request, before it heard that the cell was made.
    pub fn early() -> CellHome
        ensures { result ≡ None }
    {
        CellHome { content: None }
    }

    /// Whether the content is known here.
    pub fn is_here(&self) -> bool
        ensures { IsTrue result ↔ IsSome self.now }
    {
        self.content.is_some()
    }

    /// The maker tells the content.
    pub fn on_make(&mut self, content: VarName)
        requires early { self.old ≡ None }
        ensures here { self.new ≡ Some content }
    {
        self.content = Some(content);
    }

    /// An exchange: sets the content, and gives the old one.
    pub fn swap(&mut self, new: VarName) -> VarName
        requires here { IsSome self.old }
        ensures old { self.old ≡ Some result }
        ensures new { self.new ≡ Some new }
    {
        match self.content.replace(new) {
            Some(old) => old,
            None => unreachable!(),
        }
    }
}
