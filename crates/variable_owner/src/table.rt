//! The variables of a site by name, as they are filed.

ghost use Rattle.std.specs.Prelude.{◌≡◌, ◌+◌, ◌↔◌, [], None, Some, IsTrue, IsSome, IfSome, IfOk, OnOk, OnErr, Contains, option_copied};
ghost use Rattle.variable_owner.specs.Owners.{IsMade, OnAnswer, TellsRegistered, owner_of, sites_of, binding_of, with_owner, after_register, after_ask};
ghost use Rattle.variable_owner.specs.Row.{is_in_row};
ghost use Rattle.variable_owner.specs.declared.owners.Owner.TheVariants.{Open};
ghost use Rattle.variable_owner.specs.declared.owners.Asked.TheVariants.{Late};

use crate::owners::{Asked, Owner, Registered};
use crate::row::Row;
use indexmap::IndexMap;
use std::alloc::{AllocError, Global};
use std::marker::Model;
use tree_node::{Seq, Term, VarName};

/// Variables in the order in which they were made, each with what its owner keeps of it. Contracts see them as a list. Those of one site
/// stand in a row by number, as long as their numbers come without gaps; once one does not, it and all later ones stand in a map.
/// Each call costs by a look-up.
#[derive(Drop)]
pub struct Table {
    alloc: Global,
    site: u32,
    first: u64,
    row: Row,
    others: IndexMap<VarName, Owner>,
}

impl Model for Table {
    ghost use Rattle.std.specs.Prelude.{List, ◌++◌};
    ghost use Rattle.tree_node.specs.declared.names.VarName.{VarName};
    ghost use Rattle.variable_owner.specs.Row.{in_row};
    ghost use Rattle.variable_owner.specs.declared.owners.Owner.{Owner};

    ghost Value = { List (VarName × Owner) };

    ghost view = { λ o. in_row o.site o.first o.row ++ o.others.entries };
}

// Whether a variable is one of so many of a site, from a number on.
fn is_within(site: u32, first: u64, count: usize, var: VarName) -> bool
    ensures { result ≡ is_in_row site first count var }
{
    var.site == site && var.num >= first && var.num - first < count as u64
}

// Whether a variable is the next one behind so many of a site, from a number on.
fn is_next(site: u32, first: u64, count: usize, var: VarName) -> bool
    ensures { IsTrue result → var ≡ record { site = site; num = first + count } }
{
    var.site == site && var.num >= first && var.num - first == count as u64
}

// Puts an owner at a variable of a map.
fn add(others: &mut IndexMap<VarName, Owner>, var: VarName, owner: Owner) -> Result<(), AllocError>
    ensures ok { OnOk result (others.new.entries ≡ with_owner others.old.entries var owner) }
    ensures err { OnErr result (others.new.entries ≡ others.old.entries) }
{
    others.insert(var, owner)?;
    Ok(())
}

// The sites that are registered for a variable of which this is kept, if it is unbound.
fn sites_of(owner: Option<&Owner>) -> &[u32]
    ensures { result.now ≡ sites_of (option_copied owner.entry) }
{
    match owner {
        Some(Owner::Open(sites)) => sites.as_slice(),
        _ => &[],
    }
}

// Its binding, if it has one.
fn binding_of(owner: Option<&Owner>) -> Option<&Term>
    ensures { option_copied result ≡ binding_of (option_copied owner.entry) }
{
    match owner {
        Some(Owner::Bound(term)) => Some(term),
        _ => None,
    }
}

impl Table {
    /// No variables. It takes no memory.
    pub fn new(alloc: Global) -> Table
        ensures { result ≡ [] }
    {
        Table {
            alloc,
            site: 0,
            first: 0,
            row: Row::new(alloc),
            others: IndexMap::new(alloc),
        }
    }

    /// Whether the variable was made.
    pub fn made(&self, var: VarName) -> bool
        ensures { IsTrue result ↔ IsMade self.now var }
    {
        is_within(self.site, self.first, self.row.len(), var) || self.others.contains_key(&var)
    }

    // Where the row has no variable yet, it begins at this one.
    fn begin(&mut self, var: VarName)
        ensures { self.new ≡ self.old }
    {
        if self.row.len() == 0 {
            self.site = var.site;
            self.first = var.num;
        }
    }

    /// A new variable, unbound, with the room for its binding.
    pub fn make(&mut self, var: VarName) -> Result<(), AllocError>
        requires { owner_of self.old var ≡ None }
        ensures ok { OnOk result (self.new ≡ with_owner self.old var (Open [])) }
        ensures err { OnErr result (self.new ≡ self.old) }
    {
        self.begin(var);
        if self.others.is_empty() && is_next(self.site, self.first, self.row.len(), var) {
            self.row.push()
        } else {
            add(&mut self.others, var, Owner::Open(Seq::new(self.alloc)))
        }
    }

    /// The sites that are registered for an unbound variable, in the order in which they registered. None is for one
    /// that is bound.
    pub fn registered(&self, var: VarName) -> &[u32]
        ensures { result.now ≡ sites_of (owner_of self.now var) }
    {
        if is_within(self.site, self.first, self.row.len(), var) {
            return self.row.registered((var.num - self.first) as usize);
        }
        sites_of(self.others.get(&var))
    }

    /// The binding that was accepted for the variable.
    pub fn binding(&self, var: VarName) -> Option<&Term>
        ensures { option_copied result ≡ binding_of (owner_of self.now var) }
    {
        if is_within(self.site, self.first, self.row.len(), var) {
            return self.row.binding((var.num - self.first) as usize);
        }
        binding_of(self.others.get(&var))
    }

    /// A site registers for the variable. The binding is answered exactly where one is held.
    pub fn register(&mut self, var: VarName, site: u32) -> Result<Registered, AllocError>
        requires made { IsMade self.old var }
        requires once { Contains (sites_of (owner_of self.old var)) site → ⊥ }
        ensures answer { IfOk result (λ r. IfSome (owner_of self.old var) (λ o. TellsRegistered o r)) }
        ensures ok { OnOk result (self.new ≡ after_register self.old var site) }
        ensures bound { IfOk result (λ r. OnAnswer r (self.new ≡ self.old)) }
        ensures err { OnErr result (self.new ≡ self.old) }
    {
        if is_within(self.site, self.first, self.row.len(), var) {
            return self.row.join((var.num - self.first) as usize, site);
        }
        match self.others.get_mut(&var) {
            Some(owner) => owner.join(site),
            None => unreachable!(),
        }
    }

    /// Somebody asks to bind the variable. It is too late exactly where a binding is held, and then nothing changes.
    pub fn ask(&mut self, var: VarName, term: Term) -> Asked
        requires made { IsMade self.old var }
        ensures late { (result ≡ Late) ↔ IsSome (binding_of (owner_of self.old var)) }
        ensures after { self.new ≡ after_ask self.old var term }
    {
        if is_within(self.site, self.first, self.row.len(), var) {
            return self.row.bind((var.num - self.first) as usize, term);
        }
        match self.others.get_mut(&var) {
            Some(owner) => owner.bind(term),
            None => unreachable!(),
        }
    }
}
