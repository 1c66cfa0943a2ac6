//! Names that are known, each with the ordinal of its equation.

ghost use Rattle.std.specs.Prelude.{◌≡◌, ◌+◌, [], ◌∷◌, ◌++◌, OnOk, OnErr, IsTrue, ◌↔◌, Contains, IsSome, false, length, if◌then◌else◌};
ghost use Rattle.std.specs.Map.{lookup};
ghost use Rattle.tree_node.specs.declared.names.VarName.{VarName};
ghost use Rattle.tree_node.specs.Store.{equal_var};
ghost use Rattle.tree_store.specs.Contents.{with_name};
ghost use Rattle.tree_store.specs.Names.{names_in, is_own, ordinal_of, IsPut};

use indexmap::IndexMap;
use std::alloc::{AllocError, Global};
use std::marker::Model;
use tree_node::VarName;

/// What is filed of a name outside the row: how many names stood in the row when it became known, and the ordinal of its
/// equation, 0 where it has none.
#[derive(Clone, Copy)]
pub struct Entry {
    pub before: usize,
    pub ordinal: usize,
}

/// The names that are known. The names of one site stand in a row by number, as long as their numbers come without gaps,
/// and take one word each; all others stand in a map.
#[derive(Drop)]
pub struct Names {
    site: u32,
    first: u64,
    own: Vec<usize>,
    others: IndexMap<VarName, Entry>,
}

impl Model for Names {
    ghost use Rattle.tree_store.specs.Names.{NameTable};

    ghost Value = { NameTable };

    ghost use Rattle.std.specs.Prelude.{length};
    ghost use Rattle.tree_store.specs.Names.{IsRising};

    ghost view = { λ n. record { site = n.site; first = n.first; own = n.own.items; others = n.others.entries } };

    ghost invariant = { λ n. IsRising 0 (length n.own.items) n.others.entries };
}

// Files an ordinal at a name outside the row.
fn put(others: &mut IndexMap<VarName, Entry>, var: VarName, ordinal: usize)
    requires { IsSome (lookup (equal_var var) others.old.entries) }
    ensures { IsPut others.old.entries var ordinal others.new.entries }
{
    if let Some(entry) = others.get_mut(&var) {
        let before = entry.before;
        *entry = Entry { before, ordinal };
    }
}

impl Names {
    /// No names.
    pub fn new(alloc: Global) -> Names
        ensures names { names_in result ≡ [] }
        ensures ordinals { (y : VarName) → ordinal_of result y ≡ 0 }
    {
        Names {
            site: 0,
            first: 0,
            own: Vec::new(alloc),
            others: IndexMap::new(alloc),
        }
    }

    // Whether a name stands in the row.
    fn is_own(&self, var: VarName) -> bool
        ensures { result ≡ is_own self.now var }
    {
        var.site == self.site
            && var.num >= self.first
            && var.num - self.first < self.own.len() as u64
    }

    /// Whether a name is known.
    pub fn contains(&self, var: VarName) -> bool
        ensures { IsTrue result ↔ Contains (names_in self.now) var }
    {
        if self.is_own(var) {
            return true;
        }
        self.others.contains_key(&var)
    }

    /// The ordinal of a name's equation; 0, where it has none.
    pub fn ordinal(&self, var: VarName) -> usize
        ensures { result ≡ ordinal_of self.now var }
    {
        if self.is_own(var) {
            return self.own[(var.num - self.first) as usize];
        }
        self.other_ordinal(var)
    }

    // That of a name outside the row. It is not inlined, since most names stand in the row.
    #[inline(never)]
    fn other_ordinal(&self, var: VarName) -> usize
        requires { is_own self.now var ≡ false }
        ensures { result ≡ ordinal_of self.now var }
    {
        match self.others.get(&var) {
            Some(entry) => entry.ordinal,
            None => 0,
        }
    }

    // Whether a name is the next of the row.
    fn is_next(&self, var: VarName) -> bool
        ensures { IsTrue result → var ≡ record { site = self.now.site; num = self.now.first + length self.now.own } }
    {
        var.site == self.site
            && var.num >= self.first
            && var.num - self.first == self.own.len() as u64
    }

    // Begins the row, which has no name yet, at a name.
    fn begin(&mut self, var: VarName)
        requires { self.old.own ≡ [] }
        ensures names { names_in self.new ≡ names_in self.old }
        ensures ordinals { (y : VarName) → ordinal_of self.new y ≡ ordinal_of self.old y }
    {
        self.site = var.site;
        self.first = var.num;
    }

    // Puts a name that is not known yet behind the others.
    fn push(&mut self, var: VarName) -> Result<(), AllocError>
        requires { Contains (names_in self.old) var → ⊥ }
        ensures names { OnOk result (names_in self.new ≡ names_in self.old ++ var ∷ []) }
        ensures ordinals { (y : VarName) → ordinal_of self.new y ≡ ordinal_of self.old y }
        ensures err { OnErr result (names_in self.new ≡ names_in self.old) }
    {
        if self.is_next(var) {
            self.own.push(0)?;
            return Ok(());
        }
        let before = self.own.len();
        self.others.insert(var, Entry { before, ordinal: 0 })?;
        Ok(())
    }

    /// Puts the name of a variable that is made here behind the others. The first one begins the row.
    pub fn make(&mut self, var: VarName) -> Result<(), AllocError>
        requires { Contains (names_in self.old) var → ⊥ }
        ensures names { OnOk result (names_in self.new ≡ names_in self.old ++ var ∷ []) }
        ensures ordinals { (y : VarName) → ordinal_of self.new y ≡ ordinal_of self.old y }
        ensures err { OnErr result (names_in self.new ≡ names_in self.old) }
    {
        if self.own.is_empty() {
            self.begin(var);
        }
        self.push(var)
    }

    /// Puts a name behind the others, if it is not known yet.
    pub fn add(&mut self, var: VarName) -> Result<(), AllocError>
        ensures names { OnOk result (names_in self.new ≡ with_name (names_in self.old) var) }
        ensures ordinals { (y : VarName) → ordinal_of self.new y ≡ ordinal_of self.old y }
        ensures err { OnErr result (names_in self.new ≡ names_in self.old) }
    {
        if self.contains(var) {
            return Ok(());
        }
        self.push(var)
    }

    /// Files the ordinal of a known name's equation.
    pub fn set(&mut self, var: VarName, ordinal: usize)
        requires { Contains (names_in self.old) var }
        ensures names { names_in self.new ≡ names_in self.old }
        ensures ordinals { (y : VarName) → ordinal_of self.new y ≡ (if equal_var var y then ordinal else ordinal_of self.old y) }
    {
        if self.is_own(var) {
            self.own[(var.num - self.first) as usize] = ordinal;
        } else {
            put(&mut self.others, var, ordinal);
        }
    }
}
