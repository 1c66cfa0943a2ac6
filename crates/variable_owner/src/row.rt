//! Variables in a row, as they are filed.

ghost use Rattle.std.specs.Prelude.{◌≡◌, ◌≢◌, ◌<◌, ◌++◌, ◌∷◌, ◌==◌, ◌↔◌, [], ℕ, length, set, Some, IsSome, IfOk, OnOk, OnErr, option_copied, if◌then◌else◌};
ghost use Rattle.variable_owner.specs.Owners.{OnAnswer, TellsRegistered, sites_of, binding_of, with_registered, after_bind};
ghost use Rattle.variable_owner.specs.Row.{owner_in, sites_at};
ghost use Rattle.variable_owner.specs.declared.owners.Owner.TheVariants.{Open};
ghost use Rattle.variable_owner.specs.declared.owners.Asked.TheVariants.{Late};

use crate::owners::{Asked, Registered};
use indexmap::IndexMap;
use std::alloc::{AllocError, Global};
use std::marker::Model;
use tree_node::{Seq, Term, VarName, copy_term};

// What stands in the place of the binding of a variable that is unbound.
const NOTHING: Term = Term::Var(VarName { site: 0, num: 0 });

/// Variables by place, each with what its owner keeps of it, which contracts see as a list. A variable takes the room of a term and a
/// byte; the sites that are registered for those that are unbound stand apart, by place.
#[derive(Drop)]
pub struct Row {
    alloc: Global,
    terms: Vec<Term>,
    bound: Vec<bool>,
    registered: IndexMap<usize, Seq<u32>>,
}

impl Model for Row {
    ghost use Rattle.std.specs.Prelude.{◌≡◌, List, length, zero};
    ghost use Rattle.variable_owner.specs.Row.{owners_in, AreBelow};
    ghost use Rattle.variable_owner.specs.declared.owners.Owner.{Owner};

    ghost Value = { List Owner };

    ghost view = { λ r. owners_in r.registered.entries zero r.bound.items r.terms.items };

    ghost invariant = { λ r. (length r.terms.items ≡ length r.bound.items) × AreBelow r.registered.entries (length r.bound.items) };
}

// The sites that are registered at a place.
fn at(registered: &IndexMap<usize, Seq<u32>>, place: usize) -> &[u32]
    ensures { result.now ≡ sites_at registered.now.entries place }
{
    if registered.is_empty() {
        return &[];
    }
    match registered.get(&place) {
        Some(sites) => sites.as_slice(),
        None => &[],
    }
}

// A site registers at a place.
fn keep(
    alloc: Global,
    registered: &mut IndexMap<usize, Seq<u32>>,
    place: usize,
    site: u32,
) -> Result<(), AllocError>
    ensures there { OnOk result (sites_at registered.new.entries place ≡ sites_at registered.old.entries place ++ site ∷ []) }
    ensures others { OnOk result ((i : ℕ) → i ≢ place → sites_at registered.new.entries i ≡ sites_at registered.old.entries i) }
    ensures err { OnErr result (registered.new.entries ≡ registered.old.entries) }
{
    if let Some(sites) = registered.get_mut(&place) {
        sites.push(site)?;
        return Ok(());
    }
    let mut sites = Seq::new(alloc);
    sites.push(site)?;
    registered.insert(place, sites)?;
    Ok(())
}

// Nobody is registered at a place any more.
fn forget(registered: &mut IndexMap<usize, Seq<u32>>, place: usize)
    ensures others { (i : ℕ) → i ≢ place → sites_at registered.new.entries i ≡ sites_at registered.old.entries i }
    ensures there { sites_at registered.new.entries place ≡ [] }
{
    if !registered.is_empty() {
        registered.swap_remove(&place);
    }
}

impl Row {
    /// No variables. It takes no memory.
    pub fn new(alloc: Global) -> Row
        ensures { result ≡ [] }
    {
        Row {
            alloc,
            terms: Vec::new(alloc),
            bound: Vec::new(alloc),
            registered: IndexMap::new(alloc),
        }
    }

    /// The number of variables.
    pub fn len(&self) -> usize
        ensures { result ≡ length self.now }
    {
        self.bound.len()
    }

    /// One variable more, which is unbound, with the room for its binding.
    pub fn push(&mut self) -> Result<(), AllocError>
        ensures ok { OnOk result (self.new ≡ self.old ++ Open [] ∷ []) }
        ensures err { OnErr result (self.new ≡ self.old) }
    {
        self.bound.reserve(1)?;
        self.terms.push(NOTHING)?;
        self.bound.push_reserved(false);
        Ok(())
    }

    /// The sites that are registered for an unbound variable, in the order in which they registered. None is for one
    /// that is bound.
    pub fn registered(&self, place: usize) -> &[u32]
        requires { place < length self.now }
        ensures { result.now ≡ sites_of (Some (owner_in self.now place)) }
    {
        if self.bound[place] {
            return &[];
        }
        at(&self.registered, place)
    }

    /// The binding that was accepted for the variable.
    pub fn binding(&self, place: usize) -> Option<&Term>
        requires { place < length self.now }
        ensures { option_copied result ≡ binding_of (Some (owner_in self.now place)) }
    {
        if self.bound[place] {
            Some(&self.terms[place])
        } else {
            None
        }
    }

    /// A site registers.
    pub fn join(&mut self, place: usize, site: u32) -> Result<Registered, AllocError>
        requires { place < length self.old }
        ensures answer { IfOk result (TellsRegistered (owner_in self.old place)) }
        ensures ok { OnOk result (self.new ≡ set self.old place (with_registered (owner_in self.old place) site)) }
        ensures bound { IfOk result (λ r. OnAnswer r (self.new ≡ self.old)) }
        ensures err { OnErr result (self.new ≡ self.old) }
    {
        if self.bound[place] {
            return Ok(Registered::Answer(copy_term(&self.terms[place])?));
        }
        keep(self.alloc, &mut self.registered, place, site)?;
        Ok(Registered::Kept)
    }

    /// Somebody asks to bind the variable.
    pub fn bind(&mut self, place: usize, term: Term) -> Asked
        requires { place < length self.old }
        ensures late { (result ≡ Late) ↔ IsSome (binding_of (Some (owner_in self.old place))) }
        ensures after { self.new ≡ set self.old place (after_bind (owner_in self.old place) term) }
    {
        if self.bound[place] {
            return Asked::Late;
        }
        forget(&mut self.registered, place);
        self.terms[place] = term;
        self.bound[place] = true;
        Asked::Taken
    }
}
