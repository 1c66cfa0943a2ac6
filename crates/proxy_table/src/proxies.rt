//! The proxies of a site.

ghost use Rattle.std.specs.Prelude.{◌≡◌, ◌↔◌, [], Some, None, IsTrue, IfOk, OnOk, OnErr, option_copied};
ghost use Rattle.proxy_table.specs.Proxies.{IsMet, entry_of, term_of, after_meet, after_bound};
ghost use Rattle.proxy_table.specs.declared.proxies.Met.TheVariants.{New};
ghost use Rattle.tree_node.specs.declared.node.Term.{Term as TheTerm};

use indexmap::IndexMap;
use std::alloc::{AllocError, Global};
use std::marker::Model;
use tree_node::{Term, VarName};

/// Whether a name was met before.
#[derive(Clone, Copy, Debug, PartialEq, Eq)]
pub enum Met {
    Known,
    New,
}

/// The names owned elsewhere that a site has met, in the order of first meeting, each with the term that the site
/// knows it to be bound to, if it does. Contracts see them as a list. Each call costs by a look-up.
#[derive(Drop)]
pub struct Proxies {
    entries: IndexMap<VarName, Option<Term>>,
}

impl Model for Proxies {
    ghost use Rattle.std.specs.Prelude.{List, Option};
    ghost use Rattle.tree_node.specs.declared.names.VarName.{VarName};
    ghost use Rattle.tree_node.specs.declared.node.Term.{Term};

    ghost Value = { List (VarName × Option Term) };

    ghost view = { λ p. p.entries.entries };
}

impl Proxies {
    /// No proxies. It takes no memory.
    pub fn new(alloc: Global) -> Proxies
        ensures { result ≡ [] }
    {
        Proxies {
            entries: IndexMap::new(alloc),
        }
    }

    /// Whether the name was met.
    pub fn met(&self, var: VarName) -> bool
        ensures { IsTrue result ↔ IsMet self.now var }
    {
        self.entries.get(&var).is_some()
    }

    /// What is kept of the name: nothing where it was not met, then the term that it is known to be bound to, if it is.
    pub fn entry(&self, var: VarName) -> Option<&Option<Term>>
        ensures { option_copied result ≡ entry_of self.now var }
    {
        self.entries.get(&var)
    }

    /// The term that the name is known to be bound to: none where it was not met or is not bound.
    pub fn state(&self, var: VarName) -> Option<&Term>
        ensures { option_copied result ≡ term_of self.now var }
    {
        match self.entries.get(&var) {
            Some(Some(term)) => Some(term),
            _ => None,
        }
    }

    /// Meets a name, and makes the room for its term. It is new exactly the first time.
    pub fn meet(&mut self, var: VarName) -> Result<Met, AllocError>
        ensures new { IfOk result (λ m. (m ≡ New) ↔ (entry_of self.old var ≡ None)) }
        ensures met { OnOk result (self.new ≡ after_meet self.old var) }
        ensures err { OnErr result (self.new ≡ self.old) }
    {
        if self.met(var) {
            return Ok(Met::Known);
        }
        self.entries.insert(var, None)?;
        Ok(Met::New)
    }

    /// Meets a name together with the term that it is known to be bound to. It is new exactly the first time.
    pub fn meet_bound(&mut self, var: VarName, term: Term) -> Result<Met, AllocError>
        requires { (t : TheTerm) → entry_of self.old var ≡ Some (Some t) → t ≡ term }
        ensures new { IfOk result (λ m. (m ≡ New) ↔ (entry_of self.old var ≡ None)) }
        ensures bound { OnOk result (self.new ≡ after_bound self.old var term) }
        ensures err { OnErr result (self.new ≡ self.old) }
    {
        let met = if self.met(var) { Met::Known } else { Met::New };
        self.entries.insert(var, Some(term))?;
        Ok(met)
    }

    /// The name is known to be bound to the term from now on.
    pub fn bound(&mut self, var: VarName, term: Term)
        requires { entry_of self.old var ≡ Some None }
        ensures { self.new ≡ after_bound self.old var term }
    {
        match self.entries.insert(var, Some(term)) {
            Ok(_) => (),
            Err(_) => unreachable!(),
        }
    }
}
