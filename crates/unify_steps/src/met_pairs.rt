//! The pairs of nodes that a block has met.

ghost use Rattle.std.specs.Prelude.{◌≡◌, [], ◌∷◌, ◌++◌, OnOk, OnErr};
ghost use Rattle.tree_node.specs.Goal.{is_met_pair};

use crate::met_table::MetTable;
use std::alloc::{AllocError, Global};
use std::marker::Model;
use tree_node::Node;

/// Pairs of nodes in the order in which they were met, which contracts see as a list. Most blocks meet none: they have no
/// table, so that a block is small.
#[derive(Drop)]
pub struct MetPairs {
    alloc: Global,
    table: Option<Box<MetTable>>,
}

impl Model for MetPairs {
    ghost use Rattle.std.specs.Prelude.{List};
    ghost use Rattle.tree_node.specs.declared.node.Node.{Node};

    ghost Value = { List (Node × Node) };

    ghost use Rattle.unify_steps.specs.MetPairs.{table_pairs};

    ghost view = { λ m. table_pairs m.table };
}

impl MetPairs {
    /// No pairs.
    pub fn new(alloc: Global) -> MetPairs
        ensures { result ≡ [] }
    {
        MetPairs { alloc, table: None }
    }

    /// The pairs.
    pub fn as_slice(&self) -> &[(Node, Node)]
        ensures { result.now ≡ self.now }
    {
        match &self.table {
            Some(table) => table.as_slice(),
            None => &[],
        }
    }

    /// Whether the two nodes were met, in either order.
    pub fn contains(&self, left: &Node, right: &Node) -> bool
        ensures { result ≡ is_met_pair self.now left.now right.now }
    {
        match &self.table {
            Some(table) => table.contains(left, right),
            None => false,
        }
    }

    /// Remembers two nodes.
    pub fn add(&mut self, left: Node, right: Node) -> Result<(), AllocError>
        ensures ok { OnOk result (self.new ≡ self.old ++ (left, right) ∷ []) }
        ensures err { OnErr result (self.new ≡ self.old) }
    {
        match &mut self.table {
            Some(table) => table.add(left, right),
            None => {
                let mut table = MetTable::new(self.alloc);
                table.add(left, right)?;
                self.table = Some(Box::new(self.alloc, table)?);
                Ok(())
            }
        }
    }
}
