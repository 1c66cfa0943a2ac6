//! Sets of which most are small.

ghost use Rattle.std.specs.Prelude.{◌≡◌, ◌<◌, ◌≤◌, ◌^◌, [], List, length, take, slice_get, Some, IfOk, OnOk, OnErr};
ghost use Rattle.std.specs.List.{list_any};
ghost use Rattle.tree_node.specs.Compare.{with_new};

use indexmap::IndexSet;
use std::alloc::{AllocError, Global};
use std::hash::Hash;
use std::marker::Model;

// So many keys are looked through one by one.
const FEW: usize = 4;

// Keys that are found by their hashes, in the order in which they came. The table has memory of its own from the first key on.
#[derive(Drop)]
struct Behind<T: Eq + Hash> {
    alloc: Global,
    table: Option<Box<IndexSet<T>>>,
}

impl<T: Eq + Hash> Model for Behind<T> {
    ghost use Rattle.std.specs.Prelude.{List};
    ghost use Rattle.tree_store.specs.SmallSet.{table_keys};

    ghost Value = { List T };

    ghost view = { λ b. table_keys b.table };
}

impl<T: Eq + Hash + Copy> Behind<T> {
    fn new(alloc: Global) -> Behind<T>
        ensures { result ≡ [] }
    {
        Behind { alloc, table: None }
    }

    fn len(&self) -> usize
        ensures len { result ≡ length self.now }
        ensures small { result < 2 ^ 63 }
    {
        match &self.table {
            Some(table) => table.len(),
            None => 0,
        }
    }

    fn as_slice(&self) -> &[T]
        ensures { result.now ≡ self.now }
    {
        match &self.table {
            Some(table) => table.as_slice(),
            None => &[],
        }
    }

    fn insert(&mut self, key: T) -> Result<(), AllocError>
        ensures ok { OnOk result (self.new ≡ with_new T.eq self.old key) }
        ensures err { OnErr result (self.new ≡ self.old) }
    {
        match &mut self.table {
            Some(table) => {
                table.insert(key)?;
                Ok(())
            }
            None => {
                let mut table = IndexSet::new(self.alloc);
                table.insert(key)?;
                self.table = Some(Box::new(self.alloc, table)?);
                Ok(())
            }
        }
    }

    fn truncate(&mut self, count: usize)
        ensures { self.new ≡ take count self.old }
    {
        if let Some(table) = &mut self.table {
            table.truncate(count);
        }
    }
}

/// Keys in the order in which they came, each once, which contracts see as a list. The first few are looked through one by one,
/// and only those behind them are in a table. So a small set takes one piece of memory, and is quickly moved.
#[derive(Drop)]
pub struct SmallSet<T: Eq + Hash> {
    few: Vec<T>,
    more: Behind<T>,
}

impl<T: Eq + Hash> Model for SmallSet<T> {
    ghost use Rattle.std.specs.Prelude.{List, ◌++◌};
    ghost use Rattle.tree_store.specs.SmallSet.{AreApart};

    ghost Value = { List T };

    ghost view = { λ s. s.few.items ++ s.more };

    ghost invariant = { λ s. AreApart s.few.items s.more };
}

fn has<T: Eq + Copy>(keys: &[T], key: T) -> bool
    ensures { result ≡ list_any (T.eq key) keys.now }
{
    keys.iter().any(|other| key == *other)
}

impl<T: Eq + Hash + Copy> SmallSet<T> {
    /// No keys. It takes no memory.
    pub fn new(alloc: Global) -> SmallSet<T>
        ensures { result ≡ [] }
    {
        SmallSet {
            few: Vec::new(alloc),
            more: Behind::new(alloc),
        }
    }

    /// How many keys there are.
    pub fn len(&self) -> usize
        ensures { result ≡ length self.now }
    {
        self.few.len() + self.more.len()
    }

    /// The key at a place.
    #[tactic(auto, using(crate::proofs::SmallSetLemmas::key_first, crate::proofs::SmallSetLemmas::key_behind))]
    pub fn key_at(&self, place: usize) -> T
        requires { place < length self.now }
        ensures { slice_get self.now place ≡ Some result }
    {
        if place < self.few.len() {
            self.few[place]
        } else {
            self.more.as_slice()[place - self.few.len()]
        }
    }

    /// One key more, behind the others, unless it is among them.
    #[tactic(auto, using(crate::proofs::SmallSetLemmas::there_already, crate::proofs::SmallSetLemmas::new_among_few, crate::proofs::SmallSetLemmas::new_behind, crate::proofs::SmallSetLemmas::apart_more, crate::proofs::SmallSetLemmas::apart_behind))]
    #[inline(always)]
    pub fn insert(&mut self, key: T) -> Result<(), AllocError>
        ensures ok { OnOk result (self.new ≡ with_new T.eq self.old key) }
        ensures err { OnErr result (self.new ≡ self.old) }
    {
        let known = has(self.few.as_slice(), key);
        if known {
            return Ok(());
        }
        if self.few.len() < FEW {
            self.few.push(key)?;
            return Ok(());
        }
        self.more.insert(key)?;
        Ok(())
    }

    /// Only the first of the keys.
    #[tactic(auto, using(crate::proofs::SmallSetLemmas::first_keys, crate::proofs::SmallSetLemmas::apart_first))]
    pub fn truncate(&mut self, count: usize)
        ensures { self.new ≡ take count self.old }
    {
        let behind = count.saturating_sub(self.few.len());
        self.more.truncate(behind);
        self.few.truncate(count);
    }

    /// All keys.
    pub fn into_vec(self) -> Result<Vec<T>, AllocError>
        ensures { IfOk result (λ v. v.items ≡ self) }
    {
        let SmallSet { few, more } = self;
        let mut keys = few;
        keys.extend_from_slice(more.as_slice())?;
        Ok(keys)
    }
}
