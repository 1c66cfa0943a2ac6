//! The protocol's part at one site.

ghost use Rattle.std.specs.Prelude.{◌≡◌, ◌↔◌, [], ◌++◌, map, Some, None, false, IsTrue, IsSome, is_some, IfOk, OnOk, OnErr, Contains, option_copied, option_and_then};
ghost use Rattle.tree_node.specs.declared.node.Term.{Term as TheTerm};
ghost use Rattle.proxy_table.specs.Proxies.{IsMet, entry_of, term_of};
ghost use Rattle.proxy_table.specs.declared.proxies.Met.TheVariants.{New};
ghost use Rattle.variable_owner.specs.Owners.{AreAlone, IsMade, owner_of, sites_of, binding_of};
ghost use Rattle.variable_owner.specs.declared.owners.Asked.TheVariants.{Late};
ghost use Rattle.bind_protocol.specs.Records.{IsKnown, IsKnowledge, IsReceivable, is_own, knowledge};
ghost use Rattle.bind_protocol.specs.Rows.{binding, after_make, after_meet, meet_sends, after_register, register_sends, after_ask, ask_sends, after_binding, after_meet_bound, after_want, want_sends};
ghost use Rattle.bind_protocol.specs.declared.binder.Want.TheVariants as want;

use proxy_table::{Met, Proxies};
use site_message::{Bundle, Msg, Outbox, Sent};
use std::alloc::{AllocError, Global};
use std::marker::Model;
use tree_node::{Term, ThreadName, VarName, copy_term};
use variable_owner::{Asked, Owners, Registered};

/// What comes of a bind that a thread wants: it is made, or its variable's owner is asked for it.
#[derive(Clone, Copy, Debug, PartialEq, Eq)]
pub enum Want {
    Done,
    Sent,
}

/// What a site knows of a variable: nothing, that it is unbound as far as the site knows, or its term.
#[derive(Clone, Copy)]
pub enum Knowledge<'a> {
    Nothing,
    Unbound,
    Bound(&'a Term),
}

/// What one site keeps of variables, and what it sends: of its own as their owner, of the others as proxies. Each call
/// costs by a look-up and by what it sends, and changes nothing where memory runs out. What it sends carries no
/// bundle.
#[derive(Drop)]
pub struct Binder {
    alloc: Global,
    site: u32,
    owners: Owners,
    proxies: Proxies,
}

impl Model for Binder {
    ghost use Rattle.bind_protocol.specs.Records.{Records};

    ghost Value = { Records };

    ghost view = { λ b. record { site = b.site; owners = b.owners; proxies = b.proxies } };
}

// The bindings that tell these sites.
fn bindings(
    alloc: Global,
    var: VarName,
    term: &Term,
    sites: &[u32],
) -> Result<Vec<Sent>, AllocError>
    ensures { IfOk result (λ v. v.items ≡ map (λ k. binding var term.now k) sites.now) }
{
    let mut messages = Vec::new(alloc);
    for site in sites {
        let msg = Msg::Binding {
            var,
            term: copy_term(term)?,
            bundle: Bundle::new(),
        };
        messages.push(Sent { to: *site, msg })?;
    }
    Ok(messages)
}

impl Binder {
    /// The records of a new site, 1 to the number of sites. It takes no memory.
    pub fn new(alloc: Global, site: u32) -> Binder
        ensures { result ≡ record { site = site; owners = []; proxies = [] } }
    {
        Binder {
            alloc,
            site,
            owners: Owners::new(alloc),
            proxies: Proxies::new(alloc),
        }
    }

    /// Whether a variable is the site's own, whether it was made or not.
    pub fn owns(&self, var: VarName) -> bool
        ensures { result ≡ is_own self.now var }
    {
        var.site == self.site
    }

    /// Whether a variable is the site's own and was made, or was met.
    pub fn known(&self, var: VarName) -> bool
        ensures { IsTrue result ↔ IsKnown self.now var }
    {
        if self.owns(var) {
            self.owners.made(var)
        } else {
            self.proxies.met(var)
        }
    }

    /// The term that a variable is bound to, as far as the site knows.
    pub fn state(&self, var: VarName) -> Option<&Term>
        ensures { option_copied result ≡ option_and_then (λ o. o) (knowledge self.now var) }
    {
        if self.owns(var) {
            self.owners.binding(var)
        } else {
            self.proxies.state(var)
        }
    }

    // What the site knows of a variable of its own.
    #[tactic(auto, using(crate::proofs::KnowLemmas::own_nothing, crate::proofs::KnowLemmas::own_unbound, crate::proofs::KnowLemmas::own_bound))]
    fn owned(&self, var: VarName) -> Knowledge<'_>
        requires own { var.site ≡ self.now.site }
        ensures { IsKnowledge (knowledge self.now var) result }
    {
        if !self.owners.made(var) {
            return Knowledge::Nothing;
        }
        match self.owners.binding(var) {
            None => Knowledge::Unbound,
            Some(term) => Knowledge::Bound(term),
        }
    }

    /// What the site knows of a variable.
    #[tactic(auto, using(crate::proofs::KnowLemmas::other_known))]
    pub fn knows(&self, var: VarName) -> Knowledge<'_>
        ensures { IsKnowledge (knowledge self.now var) result }
    {
        if self.owns(var) {
            return self.owned(var);
        }
        match self.proxies.entry(var) {
            None => Knowledge::Nothing,
            Some(None) => Knowledge::Unbound,
            Some(Some(term)) => Knowledge::Bound(term),
        }
    }

    /// Makes a variable of the site's own, unbound.
    pub fn make(&mut self, var: VarName) -> Result<(), AllocError>
        requires own { var.site ≡ self.old.site }
        requires new { owner_of self.old.owners var ≡ None }
        ensures ok { OnOk result (self.new ≡ after_make self.old var) }
        ensures err { OnErr result (self.new ≡ self.old) }
    {
        self.owners.make(var)
    }

    /// Meets a name. One owned elsewhere is new exactly the first time, and then a Register goes to its owner. A name
    /// of the site's own, which it made, is known.
    pub fn meet(&mut self, var: VarName, outbox: &mut Outbox) -> Result<Met, AllocError>
        requires made { var.site ≡ self.old.site → IsMade self.old.owners var }
        ensures new { IfOk result (λ m. (m ≡ New) ↔ (knowledge self.old var ≡ None)) }
        ensures records { OnOk result (self.new ≡ after_meet self.old var) }
        ensures sent { OnOk result (outbox.new ≡ outbox.old ++ meet_sends self.old var) }
        ensures same { OnErr result (self.new ≡ self.old) }
        ensures unsent { OnErr result (outbox.new ≡ outbox.old) }
    {
        if self.owns(var) || self.proxies.met(var) {
            return Ok(Met::Known);
        }
        let msg = Msg::Register {
            var,
            asking: self.site,
        };
        outbox.push(Sent { to: var.site, msg })?;
        match self.proxies.meet(var) {
            Ok(met) => Ok(met),
            Err(error) => {
                outbox.pop();
                Err(error)
            }
        }
    }

    /// Meets a name together with its term, which a bundle tells. Nobody is asked for it. A name of the site's own is known.
    pub fn meet_bound(&mut self, var: VarName, term: Term) -> Result<Met, AllocError>
        requires same { (t : TheTerm) → knowledge self.old var ≡ Some (Some t) → t ≡ term }
        requires own { var.site ≡ self.old.site → knowledge self.old var ≡ Some (Some term) }
        ensures new { IfOk result (λ m. (m ≡ New) ↔ (knowledge self.old var ≡ None)) }
        ensures records { OnOk result (self.new ≡ after_meet_bound self.old var term) }
        ensures bound { OnOk result (knowledge self.new var ≡ Some (Some term)) }
        ensures same { OnErr result (self.new ≡ self.old) }
    {
        if self.owns(var) {
            return Ok(Met::Known);
        }
        self.proxies.meet_bound(var, term)
    }

    /// A site registers for a variable of this site's own: it is kept while the variable is unbound, and else a
    /// Binding goes to it.
    pub fn on_register(
        &mut self,
        var: VarName,
        asking: u32,
        outbox: &mut Outbox,
    ) -> Result<(), AllocError>
        requires own { var.site ≡ self.old.site }
        requires made { IsMade self.old.owners var }
        requires once { Contains (sites_of (owner_of self.old.owners var)) asking → ⊥ }
        ensures records { OnOk result (self.new ≡ after_register self.old var asking) }
        ensures sent { OnOk result (outbox.new ≡ outbox.old ++ register_sends self.old var asking) }
        ensures same { OnErr result (self.new ≡ self.old) }
        ensures unsent { OnErr result (outbox.new ≡ outbox.old) }
    {
        match self.owners.register(var, asking)? {
            Registered::Kept => Ok(()),
            Registered::Answer(term) => {
                let msg = Msg::Binding {
                    var,
                    term,
                    bundle: Bundle::new(),
                };
                outbox.push(Sent { to: asking, msg })?;
                Ok(())
            }
        }
    }

    /// A thread asks to bind a variable of this site's own: the first request is taken, and a Binding goes to each
    /// registered site. A later one is late: nothing changes, and nothing is sent.
    #[tactic(auto, using(crate::proofs::KnowLemmas::none_told))]
    pub fn on_ask(
        &mut self,
        var: VarName,
        term: Term,
        outbox: &mut Outbox,
    ) -> Result<Asked, AllocError>
        requires own { var.site ≡ self.old.site }
        requires made { IsMade self.old.owners var }
        ensures late { IfOk result (λ a. (a ≡ Late) ↔ IsSome (binding_of (owner_of self.old.owners var))) }
        ensures records { OnOk result (self.new ≡ after_ask self.old var term) }
        ensures sent { OnOk result (outbox.new ≡ outbox.old ++ ask_sends self.old var term) }
        ensures same { OnErr result (self.new ≡ self.old) }
        ensures unsent { OnErr result (outbox.new ≡ outbox.old) }
    {
        let registered = self.owners.registered(var);
        if !registered.is_empty() {
            let messages = bindings(self.alloc, var, &term, registered)?;
            outbox.append(messages)?;
        }
        Ok(self.owners.ask(var, term))
    }

    /// Whether a site registered for a variable of this site's own.
    pub fn has_registered(&self) -> bool
        ensures { result ≡ false → AreAlone self.now.owners }
    {
        self.owners.has_registered()
    }

    /// A thread of this site binds a variable of its own, for which no site is registered.
    pub fn bind_alone(&mut self, var: VarName, term: Term)
        requires own { var.site ≡ self.old.site }
        requires made { IsMade self.old.owners var }
        requires alone { sites_of (owner_of self.old.owners var) ≡ [] }
        ensures records { self.new ≡ after_ask self.old var term }
    {
        self.owners.ask(var, term);
    }

    /// The binding of a name that the site met has come. Nothing changes where a bundle told it before.
    pub fn on_binding(&mut self, var: VarName, term: Term)
        requires { IsMet self.old.proxies var }
        ensures unbound { entry_of self.old.proxies var ≡ Some None → self.new ≡ after_binding self.old var term }
        ensures bound { IsSome (term_of self.old.proxies var) → self.new ≡ self.old }
    {
        if self.proxies.state(var).is_none() {
            self.proxies.bound(var, term);
        }
    }

    /// A thread of the site wants to bind a variable that is known and unbound here. A variable of the site's own is
    /// bound at once. For one owned elsewhere a BindReq is sent, and the site learns the binding by its registration.
    pub fn want(
        &mut self,
        var: VarName,
        term: Term,
        thread: ThreadName,
        outbox: &mut Outbox,
    ) -> Result<Want, AllocError>
        requires { knowledge self.old var ≡ Some None }
        ensures elsewhere { IfOk result (λ w. (w ≡ want.Sent) ↔ (var.site ≡ self.old.site → ⊥)) }
        ensures records { OnOk result (self.new ≡ after_want self.old var term) }
        ensures sent { OnOk result (outbox.new ≡ outbox.old ++ want_sends self.old var term thread) }
        ensures same { OnErr result (self.new ≡ self.old) }
        ensures unsent { OnErr result (outbox.new ≡ outbox.old) }
    {
        if self.owns(var) {
            self.on_ask(var, term, outbox)?;
            return Ok(Want::Done);
        }
        let msg = Msg::BindReq {
            var,
            thread,
            term,
            bundle: Bundle::new(),
        };
        outbox.push(Sent { to: var.site, msg })?;
        Ok(Want::Sent)
    }

    /// Whether the site can take a message of the protocol. It can take every other message.
    pub fn takes(&self, msg: &Msg) -> bool
        ensures { IsTrue result ↔ IsReceivable self.now msg.now }
    {
        match msg {
            Msg::Register { var, asking } => {
                var.site == self.site
                    && self.owners.made(*var)
                    && !self.owners.registered(*var).contains(asking)
            }
            Msg::BindReq { var, .. } => var.site == self.site && self.owners.made(*var),
            Msg::Binding { var, .. } => self.proxies.met(*var),
            _ => true,
        }
    }
}
