//! Classes of variables.

ghost use Rattle.std.specs.Prelude.{◌≡◌, ◌↔◌, ◌≤◌, [], Contains, IfOk, IsTrue, OnOk, OnErr, IsSome};
ghost use Rattle.std.specs.Map.{lookup, set_value};
ghost use Rattle.tree_node.specs.declared.names.VarName.{VarName};
ghost use Rattle.tree_node.specs.Store.{equal_var, joined_root};
ghost use Rattle.tree_store.specs.Links.{singleton, entry_in, IsRepresentative, IsTree, AreClasses, entry_after_union, root_with, IsApart};

use indexmap::IndexMap;
use std::alloc::{AllocError, Global};
use std::marker::Model;
use tree_node::{Term, VarName};

/// The entry of a variable in the tree of its class: its parent, itself at the top, and there how many variables the
/// class has, and at which of them its links end; and the next variable of the class, which all stand in a ring.
#[derive(Clone, Copy)]
pub struct ClassEntry {
    pub parent: VarName,
    pub size: u64,
    pub end: VarName,
    pub next: VarName,
}

/// The classes of variables that links join, which contracts see as the entries of the variables. The smaller tree is put
/// below the greater, so that from a variable of a class of n to the top there are at most log2 n steps, in whatever
/// order variables are linked.
#[derive(Drop)]
pub struct Links {
    forest: IndexMap<VarName, ClassEntry>,
}

impl Model for Links {
    ghost use Rattle.std.specs.Prelude.{List};
    ghost use Rattle.tree_node.specs.declared.names.VarName.{VarName};
    ghost use Rattle.tree_store.specs.declared.links.ClassEntry.{ClassEntry};

    ghost Value = { List (VarName × ClassEntry) };

    ghost use Rattle.tree_store.specs.Links.{IsTree};

    ghost view = { λ l. l.forest.entries };

    ghost invariant = { λ l. IsTree l.forest.entries };
}

// The entry of a variable. Where no variable was linked none is looked for.
#[tactic(auto, using(crate::proofs::TopLemmas::none_linked))]
fn entry_of(forest: &IndexMap<VarName, ClassEntry>, var: VarName) -> ClassEntry
    ensures { result ≡ entry_in forest.now.entries var }
{
    if forest.is_empty() {
        return singleton(var);
    }
    match forest.get(&var) {
        Some(entry) => *entry,
        None => singleton(var),
    }
}

// The entry of a variable that is alone in its class.
fn singleton(var: VarName) -> ClassEntry
    ensures { result ≡ singleton var }
{
    ClassEntry {
        parent: var,
        size: 1,
        end: var,
        next: var,
    }
}

// Adds the entry of a variable that has none of its own yet.
fn make_set(forest: &mut IndexMap<VarName, ClassEntry>, var: VarName) -> Result<(), AllocError>
    requires { IsTree forest.old.entries }
    ensures tree { IsTree forest.new.entries }
    ensures same { (y : VarName) → entry_in forest.new.entries y ≡ entry_in forest.old.entries y }
    ensures there { OnOk result (IsSome (lookup (equal_var var) forest.new.entries)) }
    ensures stay { (y : VarName) → IsSome (lookup (equal_var y) forest.old.entries) → IsSome (lookup (equal_var y) forest.new.entries) }
{
    match forest.get(&var) {
        Some(_) => Ok(()),
        None => {
            let alone = ClassEntry {
                parent: var,
                size: 1,
                end: var,
                next: var,
            };
            forest.insert(var, alone)?;
            Ok(())
        }
    }
}

// Replaces the entry of a variable.
fn put(forest: &mut IndexMap<VarName, ClassEntry>, var: VarName, entry: ClassEntry)
    requires { IsSome (lookup (equal_var var) forest.old.entries) }
    ensures { forest.new.entries ≡ set_value (equal_var var) forest.old.entries entry }
{
    if let Some(old) = forest.get_mut(&var) {
        *old = entry;
    }
}

// Puts one tree below the top of another one that is no smaller, whose links end at the given variable then. These are the entries of both
// tops.
fn attach(
    forest: &mut IndexMap<VarName, ClassEntry>,
    child: ClassEntry,
    top: ClassEntry,
    end: VarName,
)
    requires tree { IsTree forest.old.entries }
    requires apart { child.parent ≡ top.parent → ⊥ }
    requires child { IsRepresentative (entry_in forest.old.entries) child.parent × (child ≡ entry_in forest.old.entries child.parent) }
    requires top { IsRepresentative (entry_in forest.old.entries) top.parent × (top ≡ entry_in forest.old.entries top.parent) }
    requires child_there { IsSome (lookup (equal_var child.parent) forest.old.entries) }
    requires top_there { IsSome (lookup (equal_var top.parent) forest.old.entries) }
    requires smaller { child.size ≤ top.size }
    ensures tree { IsTree forest.new.entries }
    ensures forest { (y : VarName) → entry_in forest.new.entries y ≡ entry_after_union (entry_in forest.old.entries) child.parent top.parent end y }
{
    // Called for its clause: the number of entries is below 2^63, and no size is above it, so that the sum below is in range.
    let _count = forest.len();
    let below = ClassEntry {
        parent: top.parent,
        size: child.size,
        end: child.end,
        next: top.next,
    };
    let above = ClassEntry {
        parent: top.parent,
        size: child.size + top.size,
        end,
        next: child.next,
    };
    put(forest, child.parent, below);
    put(forest, top.parent, above);
}

impl Links {
    /// Each variable alone.
    pub fn new(alloc: Global) -> Links
        ensures { result ≡ [] }
    {
        Links {
            forest: IndexMap::new(alloc),
        }
    }

    // The entry of the top of a variable's tree, which is its own parent, after at most 64 steps, since sizes double.
    #[tactic(auto, using(crate::proofs::TopLemmas::top_entry))]
    fn top(&self, var: VarName) -> ClassEntry
        ensures top { IsRepresentative (entry_in self.now) result.parent }
        ensures entry { result ≡ entry_in self.now result.parent }
        ensures class { (root : VarName → VarName) → AreClasses root (entry_in self.now) → root result.parent ≡ root var }
    {
        let mut at = var;
        let mut entry = entry_of(&self.forest, at);
        'parents: for step in 0..64_u32 {
            // The invariant speaks of the number of the step.
            let _ = step;
            if entry.parent == at {
                return entry;
            }
            at = entry.parent;
            entry = entry_of(&self.forest, at);
        }
        unreachable!()
    }

    /// The variable at which the links of a variable's class end. Where no variable was linked it is that one.
    #[tactic(auto, using(crate::proofs::TopLemmas::none_ends))]
    pub fn end(&self, var: VarName) -> VarName
        ensures { (root : VarName → VarName) → AreClasses root (entry_in self.now) → root var ≡ result }
    {
        if self.forest.is_empty() {
            return var;
        }
        self.top(var).end
    }

    /// Whether a variable is alone in its class.
    pub fn is_alone(&self, var: VarName) -> bool
        ensures { (root : VarName → VarName) → AreClasses root (entry_in self.now) → IsTrue result ↔ ((y : VarName) → root y ≡ root var → y ≡ var) }
    {
        self.top(var).size == 1
    }

    /// The variables of a variable's class.
    pub fn members(&self, alloc: Global, var: VarName) -> Result<Vec<VarName>, AllocError>
        ensures { IfOk result (λ v. (root : VarName → VarName) → AreClasses root (entry_in self.now) → (y : VarName) → Contains v.items y ↔ (root y ≡ root var)) }
    {
        let mut members = Vec::new(alloc);
        let first = self.top(var);
        let mut at = first.parent;
        let mut left = first.size;
        'members: while left > 0 {
            members.push(at)?;
            let entry = entry_of(&self.forest, at);
            at = entry.next;
            left -= 1;
        }
        Ok(members)
    }

    // Joins the class of a variable to another one, which keeps its end.
    fn union(&mut self, var: VarName, other: VarName) -> Result<(), AllocError>
        ensures ok { OnOk result ((root : VarName → VarName) → AreClasses root (entry_in self.old) → (root var ≡ root other → ⊥) → AreClasses (joined_root root var other) (entry_in self.new)) }
        ensures err { OnErr result ((root : VarName → VarName) → AreClasses root (entry_in self.old) → AreClasses root (entry_in self.new)) }
    {
        let above = self.top(var);
        let below = self.top(other);
        if above.parent == below.parent {
            return Ok(());
        }
        make_set(&mut self.forest, above.parent)?;
        make_set(&mut self.forest, below.parent)?;
        if above.size <= below.size {
            attach(&mut self.forest, above, below, below.end);
        } else {
            attach(&mut self.forest, below, above, below.end);
        }
        Ok(())
    }

    /// Follows an equation of a variable: a link joins its class to the other one, which keeps its end.
    pub fn add(&mut self, var: VarName, term: &Term) -> Result<(), AllocError>
        ensures ok { OnOk result ((root : VarName → VarName) → AreClasses root (entry_in self.old) → IsApart root var term.now → AreClasses (root_with root var term.now) (entry_in self.new)) }
        ensures err { OnErr result ((root : VarName → VarName) → AreClasses root (entry_in self.old) → AreClasses root (entry_in self.new)) }
    {
        match term {
            Term::Var(other) => self.union(var, *other),
            Term::Node(_) => Ok(()),
        }
    }
}
