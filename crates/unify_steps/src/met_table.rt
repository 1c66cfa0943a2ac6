//! A table of pairs of nodes, which are found by their hashes.

ghost use Rattle.std.specs.Prelude.{◌≡◌, ℕ, [], ◌∷◌, ◌++◌, if◌then◌else◌, nat_eq, IfOk, OnOk, OnErr};
ghost use Rattle.indexmap.specs.IndexMap.{get};
ghost use Rattle.unify_steps.specs.MetPairs.{pairs_of};
ghost use Rattle.tree_node.specs.Goal.{is_met_pair};

use crate::hash::pair_hash;
use crate::records::is_among;
use indexmap::IndexMap;
use std::alloc::{AllocError, Global};
use std::marker::Model;
use tree_node::{Node, copy_node};

/// Pairs of nodes in the order in which they came, which contracts see as a list.
#[derive(Drop)]
pub struct MetTable {
    alloc: Global,
    pairs: Vec<(Node, Node)>,
    index: IndexMap<u64, Vec<(Node, Node)>>,
}

impl Model for MetTable {
    ghost use Rattle.std.specs.Prelude.{List};
    ghost use Rattle.tree_node.specs.declared.node.Node.{Node};

    ghost Value = { List (Node × Node) };

    ghost use Rattle.unify_steps.specs.MetPairs.{IsIndexOf};

    ghost view = { λ m. m.pairs.items };

    ghost invariant = { λ m. IsIndexOf m.pairs.items m.index.entries };
}

impl MetTable {
    /// No pairs.
    pub fn new(alloc: Global) -> MetTable
        ensures { result ≡ [] }
    {
        MetTable {
            alloc,
            pairs: Vec::new(alloc),
            index: IndexMap::new(alloc),
        }
    }

    /// The pairs.
    pub fn as_slice(&self) -> &[(Node, Node)]
        ensures { result.now ≡ self.now }
    {
        self.pairs.as_slice()
    }

    /// Whether the two nodes are a pair of the table, in either order.
    pub fn contains(&self, left: &Node, right: &Node) -> bool
        ensures { result ≡ is_met_pair self.now left.now right.now }
    {
        match self.index.get(&pair_hash(left, right)) {
            Some(pairs) => is_among(pairs.as_slice(), left, right),
            None => false,
        }
    }

    /// Adds a pair.
    pub fn add(&mut self, left: Node, right: Node) -> Result<(), AllocError>
        ensures ok { OnOk result (self.new ≡ self.old ++ (left, right) ∷ []) }
        ensures err { OnErr result (self.new ≡ self.old) }
    {
        let pair = (left, right);
        self.pairs.reserve(1)?;
        let again = copy_pair(&pair)?;
        add_under(
            &mut self.index,
            self.alloc,
            pair_hash(&pair.0, &pair.1),
            again,
        )?;
        self.pairs.push_reserved(pair);
        Ok(())
    }
}

fn copy_pair(pair: &(Node, Node)) -> Result<(Node, Node), AllocError>
    ensures { IfOk result (λ p. p ≡ pair.now) }
{
    Ok((copy_node(&pair.0)?, copy_node(&pair.1)?))
}

// Puts a pair behind those of a hash.
fn add_under(
    index: &mut IndexMap<u64, Vec<(Node, Node)>>,
    alloc: Global,
    hash: u64,
    pair: (Node, Node),
) -> Result<(), AllocError>
    ensures ok { OnOk result ((k : ℕ) → pairs_of (get nat_eq index.new k) ≡ (if nat_eq hash k then pairs_of (get nat_eq index.old k) ++ pair ∷ [] else pairs_of (get nat_eq index.old k))) }
    ensures err { OnErr result ((k : ℕ) → pairs_of (get nat_eq index.new k) ≡ pairs_of (get nat_eq index.old k)) }
{
    match index.get_mut(&hash) {
        Some(pairs) => pairs.push(pair)?,
        None => {
            let mut pairs = Vec::with_capacity(alloc, 1)?;
            pairs.push(pair)?;
            index.insert(hash, pairs)?;
        }
    }
    Ok(())
}
