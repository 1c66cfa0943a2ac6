//! The ports that a site owns.

ghost use Rattle.std.specs.Prelude.{◌≡◌, [], None, Some, IsSome, OnOk, OnErr};
ghost use Rattle.port_owner.specs.Ports.{end_of, with_end};

use indexmap::IndexMap;
use std::alloc::{AllocError, Global};
use std::marker::Model;
use tree_node::{PortName, VarName};

/// The ports that a site made, in the order in which they were made, each with its end. Contracts see them as a list. Each
/// call costs by a look-up.
#[derive(Drop)]
pub struct Ports {
    ends: IndexMap<PortName, VarName>,
}

impl Model for Ports {
    ghost use Rattle.std.specs.Prelude.{List};
    ghost use Rattle.tree_node.specs.declared.names.PortName.{PortName};
    ghost use Rattle.tree_node.specs.declared.names.VarName.{VarName};

    ghost Value = { List (PortName × VarName) };

    ghost view = { λ p. p.ends.entries };
}

impl Ports {
    /// No ports. It takes no memory.
    pub fn new(alloc: Global) -> Ports
        ensures { result ≡ [] }
    {
        Ports {
            ends: IndexMap::new(alloc),
        }
    }

    /// The end of a port; none where it was not made here.
    pub fn end(&self, port: PortName) -> Option<VarName>
        ensures { result ≡ end_of self.now port }
    {
        self.ends.get(&port).copied()
    }

    /// The ports by their names, each with its end.
    pub fn by_name(&self) -> &IndexMap<PortName, VarName>
        ensures { result.now.entries ≡ self.now }
    {
        &self.ends
    }

    /// A new port, whose end is this variable.
    pub fn make(&mut self, port: PortName, end: VarName) -> Result<(), AllocError>
        requires new { end_of self.old port ≡ None }
        ensures ok { OnOk result (self.new ≡ with_end self.old port end) }
        ensures err { OnErr result (self.new ≡ self.old) }
    {
        self.ends.insert(port, end)?;
        Ok(())
    }

    /// A send: the port's end is `new` from now on, and the end that stood is given.
    pub fn on_send(&mut self, port: PortName, new: VarName) -> VarName
        requires made { IsSome (end_of self.old port) }
        ensures old { end_of self.old port ≡ Some result }
        ensures new { self.new ≡ with_end self.old port new }
    {
        match self.ends.get_mut(&port) {
            Some(end) => {
                let old = *end;
                *end = new;
                old
            }
            None => unreachable!(),
        }
    }
}
