//! The variables that a site owns.

ghost use Rattle.std.specs.Prelude.{◌≡◌, ◌↔◌, [], None, Some, false, IsTrue, IsSome, IfSome, IfOk, OnOk, OnErr, Contains, option_copied};
ghost use Rattle.variable_owner.specs.Owners.{AreAlone, IsMade, OnAnswer, TellsRegistered, owner_of, sites_of, binding_of, with_registered, with_owner, after_register, after_bind, after_ask};
ghost use Rattle.variable_owner.specs.declared.owners.Owner.TheVariants.{Open};
ghost use Rattle.variable_owner.specs.declared.owners.Asked.TheVariants.{Late};

use crate::table::Table;
use std::alloc::{AllocError, Global};
use std::marker::Model;
use tree_node::{Seq, Term, VarName, copy_term};

// So many registrations are never kept, as each takes 4 bytes. Then memory has run out.
const MOST_REGISTERED: usize = 1 << 62;

/// What an owner keeps of a variable: the sites that registered for it while it is unbound, then its binding.
#[derive(Drop)]
pub enum Owner {
    Open(Seq<u32>),
    Bound(Term),
}

/// What comes of a registration: the site is kept, or the variable is bound already, and the binding is the answer.
#[derive(Drop)]
pub enum Registered {
    Kept,
    Answer(Term),
}

/// What comes of a request to bind a variable: the first is taken, and every later one is late.
#[derive(Clone, Copy, Debug, PartialEq, Eq)]
pub enum Asked {
    Taken,
    Late,
}

/// The variables that a site owns, in the order in which they were made. Contracts see them as a list. Each call costs by a look-up.
/// How many registrations are kept is known.
#[derive(Drop)]
pub struct Owners {
    table: Table,
    registrations: usize,
}

impl Model for Owners {
    ghost use Rattle.std.specs.Prelude.{◌≡◌, List};
    ghost use Rattle.tree_node.specs.declared.names.VarName.{VarName};
    ghost use Rattle.variable_owner.specs.Owners.{registrations_in};
    ghost use Rattle.variable_owner.specs.declared.owners.Owner.{Owner};

    ghost Value = { List (VarName × Owner) };

    ghost view = { λ o. o.table };

    ghost invariant = { λ o. o.registrations ≡ registrations_in o.table };
}

impl Owner {
    // A site registers.
    pub(crate) fn join(&mut self, site: u32) -> Result<Registered, AllocError>
        ensures answer { IfOk result (TellsRegistered self.old) }
        ensures ok { OnOk result (self.new ≡ with_registered self.old site) }
        ensures bound { IfOk result (λ r. OnAnswer r (self.new ≡ self.old)) }
        ensures err { OnErr result (self.new ≡ self.old) }
    {
        match self {
            Owner::Open(sites) => {
                sites.push(site)?;
                Ok(Registered::Kept)
            }
            Owner::Bound(term) => Ok(Registered::Answer(copy_term(term)?)),
        }
    }

    // Somebody asks to bind the variable.
    pub(crate) fn bind(&mut self, term: Term) -> Asked
        ensures late { (result ≡ Late) ↔ IsSome (binding_of (Some self.old)) }
        ensures after { self.new ≡ after_bind self.old term }
    {
        match self {
            Owner::Open(_) => {
                *self = Owner::Bound(term);
                Asked::Taken
            }
            Owner::Bound(_) => Asked::Late,
        }
    }
}

impl Owners {
    /// No variables. It takes no memory.
    pub fn new(alloc: Global) -> Owners
        ensures { result ≡ [] }
    {
        Owners {
            table: Table::new(alloc),
            registrations: 0,
        }
    }

    /// Whether the variable was made.
    pub fn made(&self, var: VarName) -> bool
        ensures { IsTrue result ↔ IsMade self.now var }
    {
        self.table.made(var)
    }

    /// A new variable, unbound, with the room for its binding.
    #[tactic(auto, using(crate::proofs::RegisteredLemmas::made_counts))]
    pub fn make(&mut self, var: VarName) -> Result<(), AllocError>
        requires { owner_of self.old var ≡ None }
        ensures ok { OnOk result (self.new ≡ with_owner self.old var (Open [])) }
        ensures err { OnErr result (self.new ≡ self.old) }
    {
        self.table.make(var)
    }

    /// The sites that are registered for an unbound variable, in the order in which they registered. None is for one
    /// that is bound.
    pub fn registered(&self, var: VarName) -> &[u32]
        ensures { result.now ≡ sites_of (owner_of self.now var) }
    {
        self.table.registered(var)
    }

    /// Whether a site is registered for a variable that is unbound.
    #[tactic(auto, using(crate::proofs::RegisteredLemmas::alone))]
    pub fn has_registered(&self) -> bool
        ensures { result ≡ false → AreAlone self.now }
    {
        self.registrations > 0
    }

    /// The binding that was accepted for the variable.
    pub fn binding(&self, var: VarName) -> Option<&Term>
        ensures { option_copied result ≡ binding_of (owner_of self.now var) }
    {
        self.table.binding(var)
    }

    /// A site registers for the variable. The binding is answered exactly where one is held. Behind 2^62 registrations, which is more than
    /// memory holds, it finds no memory.
    #[tactic(auto, using(crate::proofs::RegisteredLemmas::kept_counts))]
    pub fn register(&mut self, var: VarName, site: u32) -> Result<Registered, AllocError>
        requires made { IsMade self.old var }
        requires once { Contains (sites_of (owner_of self.old var)) site → ⊥ }
        ensures answer { IfOk result (λ r. IfSome (owner_of self.old var) (λ o. TellsRegistered o r)) }
        ensures ok { OnOk result (self.new ≡ after_register self.old var site) }
        ensures bound { IfOk result (λ r. OnAnswer r (self.new ≡ self.old)) }
        ensures err { OnErr result (self.new ≡ self.old) }
    {
        if self.registrations >= MOST_REGISTERED {
            return Err(AllocError);
        }
        let registered = self.table.register(var, site)?;
        if let Registered::Kept = &registered {
            self.registrations += 1;
        }
        Ok(registered)
    }

    /// Somebody asks to bind the variable. It is too late exactly where a binding is held, and then nothing changes.
    #[tactic(auto, using(crate::proofs::RegisteredLemmas::asked_counts, crate::proofs::RegisteredLemmas::held_within))]
    pub fn ask(&mut self, var: VarName, term: Term) -> Asked
        requires made { IsMade self.old var }
        ensures late { (result ≡ Late) ↔ IsSome (binding_of (owner_of self.old var)) }
        ensures after { self.new ≡ after_ask self.old var term }
    {
        if self.registrations > 0 {
            let count = self.table.registered(var).len();
            self.registrations -= count;
        }
        self.table.ask(var, term)
    }
}
