//! Sites whose messages travel in any order, and what holds of them whatever the calls and the deliveries.

ghost use Rattle.std.specs.Prelude.{◌≡◌, ◌↔◌, ◌<◌, ◌≤◌, [], ◌∷◌, ◌++◌, length, remove, slice_get, Some, None, IfOk, OnOk, OnErr, IsErrOf};
ghost use Rattle.tree_node.specs.declared.limits.TheConstants.{MOST_SITES};
ghost use Rattle.tree_node.specs.Each.{Each};
ghost use Rattle.variable_owner.specs.Owners.{IsMade};
ghost use Rattle.bind_protocol.specs.Records.{IsKnowledge, IsReceivableNews, knowledge};
ghost use Rattle.bind_protocol.specs.Rows.{after_meet, meet_sends, after_want, want_sends, after_message, message_sends};
ghost use Rattle.bind_protocol.specs.World.{HasInvariant, HasGrown, IsFront, IsSiteOf, IsMadeIn, known_at, new_records, new_world, after_make_at, after_meet_at, after_meeting, after_want_at, takes_message, met_first, after_arrival, after_delivery, field_vars, vars_of};
ghost use Rattle.site_message.specs.declared.reason.DeliverError.TheVariants.{NotThere};
ghost use Rattle.bind_protocol.specs.Count.{RowsCount, RowsHear, CountsJoin, CountsGoOn, CountedOnce, MessagesComeReady};
ghost use Rattle.bind_protocol.specs.Learn.{RowsTeach, KnownStays};
ghost use Rattle.bind_protocol.specs.Equations.{RowsKeepEquations, EquationsJoin, EquationsGoOn};
ghost use Rattle.bind_protocol.specs.Notices.{RowsTell, TellingJoins, TellingGoesOn, WaitersAreTold};
ghost use Rattle.bind_protocol.specs.Worked.{WorkedBind};
ghost use Rattle.bind_protocol.specs.Calls.{CanMake, CanMeet, CanWant, CallsKeep};

use crate::binder::{Binder, Knowledge};
use site_message::{DeliverError, Msg, Outbox, Sent, copy_sent};
use std::alloc::{AllocError, Global};
use std::marker::Model;
use tree_node::{Feature, Node, Term, ThreadName, VarName};

/// Sites that share variables, with the messages that travel between them and those that came. Contracts see the
/// records of each site, and both lists of messages. At all times an equation at an owner stays, what a site knows is
/// an owner's equation, a site that met a name and does not know it bound is registered or its Register or a Binding
/// to it travels, each Register and Binding was sent at most once for each name and site, no message goes to its own
/// sender, and links lead down.
#[derive(Drop)]
pub struct BindWorld {
    binders: Vec<Binder>,
    travelling: Outbox,
    delivered: Vec<Sent>,
}

impl Model for BindWorld {
    ghost use Rattle.bind_protocol.specs.World.{World};

    ghost Value = { World };

    ghost use Rattle.bind_protocol.specs.Lawful.{IsLawful};

    ghost view = { λ w. record { binders = w.binders.items; travelling = w.travelling; delivered = w.delivered.items } };

    ghost invariant = { λ w. IsLawful (record { binders = w.binders.items; travelling = w.travelling; delivered = w.delivered.items }) };
}

/// Whatever the calls on a world and the order of deliveries: what holds of worlds holds after them, and an equation
/// at an owner stays. It does nothing: its clause is the law.
pub fn calls_keep()
    ensures { CallsKeep }
{}

/// A worked bind by the rows. It does nothing: its clause is the row.
pub fn worked_bind()
    ensures { WorkedBind }
{}

/// What a site knows after each row, and that what it knows stays known. It does nothing: its clauses are the law.
pub fn rows_teach()
    ensures learnt { RowsTeach }
    ensures stays { KnownStays }
{}

/// What each row does to the numbers of Registers and Bindings, in any world: other messages may travel beside, and
/// messages may bring bundles. It does nothing: its clauses are the law.
pub fn rows_count()
    ensures counted { RowsCount }
    ensures heard { RowsHear }
    ensures together { CountsJoin }
{}

/// A world of which one site goes on by such rows keeps its counts, messages may be dropped from it, and each Register
/// and Binding is sent at most once for each name and site and finds its site ready.
pub fn counts_go_on()
    ensures world { CountsGoOn }
    ensures once { CountedOnce }
    ensures ready { MessagesComeReady }
{}

/// What each row does for those who wait for a name, in any world: a name that is met is asked for, a Register is kept or
/// answered, and a Binding is heard. It does nothing: its clauses are the law.
pub fn rows_tell()
    ensures rows { RowsTell }
    ensures together { TellingJoins }
{}

/// In a world of which one site goes on by such rows, and from which no message is dropped, each site that waits for a
/// name's binding is registered, or its Register or a Binding to it travels.
pub fn telling_goes_on()
    ensures world { TellingGoesOn }
    ensures waiters { WaitersAreTold }
{}

/// What each row does to equations, in any world: none is forgotten, one that is learnt is an own variable's and leads
/// down or is told by a message, and messages tell what is known. It does nothing: its clauses are the law.
pub fn rows_keep_equations()
    ensures rows { RowsKeepEquations }
    ensures together { EquationsJoin }
{}

/// In a world of which one site goes on by such rows, an equation at an owner stays, what sites know and messages tell are
/// owners' equations, and equations and requests lead down.
pub fn equations_go_on()
    ensures { EquationsGoOn }
{}

// The records of new sites.
fn new_binders(alloc: Global, sites: u32) -> Result<Vec<Binder>, AllocError>
    ensures { IfOk result (λ v. v.items ≡ new_records sites) }
{
    let mut binders = Vec::new(alloc);
    for before in 0..sites {
        binders.push(Binder::new(alloc, before + 1))?;
    }
    Ok(binders)
}

// The variable of a field.
fn var_of(field: &(Feature, VarName)) -> VarName
    ensures { result ≡ field.now.1 }
{
    field.1
}

// A site meets a name.
fn meet_at(binder: &mut Binder, travelling: &mut Outbox, var: VarName) -> Result<(), AllocError>
    requires { var.site ≡ binder.old.site → IsMade binder.old.owners var }
    ensures records { OnOk result (binder.new ≡ after_meet binder.old var) }
    ensures sent { OnOk result (travelling.new ≡ travelling.old ++ meet_sends binder.old var) }
    ensures same { OnErr result (binder.new ≡ binder.old) }
    ensures unsent { OnErr result (travelling.new ≡ travelling.old) }
{
    binder.meet(var, travelling)?;
    Ok(())
}

// A thread of a site wants a bind.
fn want_at(
    binder: &mut Binder,
    travelling: &mut Outbox,
    var: VarName,
    term: Term,
    thread: ThreadName,
) -> Result<(), AllocError>
    requires { knowledge binder.old var ≡ Some None }
    ensures records { OnOk result (binder.new ≡ after_want binder.old var term) }
    ensures sent { OnOk result (travelling.new ≡ travelling.old ++ want_sends binder.old var term thread) }
    ensures same { OnErr result (binder.new ≡ binder.old) }
    ensures unsent { OnErr result (travelling.new ≡ travelling.old) }
{
    binder.want(var, term, thread, travelling)?;
    Ok(())
}

// A site takes a message.
fn take_at(binder: &mut Binder, travelling: &mut Outbox, msg: Msg) -> Result<(), AllocError>
    requires { IsReceivableNews binder.old msg }
    ensures records { OnOk result (binder.new ≡ after_message binder.old msg) }
    ensures sent { OnOk result (travelling.new ≡ travelling.old ++ message_sends binder.old msg) }
    ensures same { OnErr result (binder.new ≡ binder.old) }
    ensures unsent { OnErr result (travelling.new ≡ travelling.old) }
{
    match msg {
        Msg::Register { var, asking } => {
            binder.on_register(var, asking, travelling)?;
            Ok(())
        }
        Msg::BindReq { var, term, .. } => {
            binder.on_ask(var, term, travelling)?;
            Ok(())
        }
        Msg::Binding { var, term, .. } => {
            binder.on_binding(var, term);
            Ok(())
        }
        _ => Ok(()),
    }
}

// A message of a place comes to its site.
fn deliver_at(
    binder: &mut Binder,
    travelling: &mut Outbox,
    delivered: &mut Vec<Sent>,
    place: usize,
    sent: Sent,
) -> Result<(), AllocError>
    requires there { slice_get travelling.old place ≡ Some sent }
    requires taken { IsReceivableNews binder.old sent.msg }
    ensures records { OnOk result (binder.new ≡ after_message binder.old sent.msg) }
    ensures travelling { OnOk result (travelling.new ≡ remove (travelling.old ++ message_sends binder.old sent.msg) place) }
    ensures delivered { OnOk result (delivered.new.items ≡ delivered.old.items ++ sent ∷ []) }
    ensures same { OnErr result (binder.new ≡ binder.old) }
    ensures unsent { OnErr result (travelling.new ≡ travelling.old) }
    ensures undelivered { OnErr result (delivered.new.items ≡ delivered.old.items) }
{
    delivered.reserve(1)?;
    take_at(binder, travelling, sent.msg)?;
    let arrived = travelling.remove(place);
    match delivered.push(arrived) {
        Ok(()) => Ok(()),
        Err(_) => unreachable!(),
    }
}

impl BindWorld {
    /// New sites, 1 to 64 of them, with no variables.
    #[tactic(auto, using(crate::proofs::HoldLemmas::new_lawful, crate::proofs::HoldLemmas::lawful_holds))]
    pub fn new(alloc: Global, sites: u32) -> Result<BindWorld, AllocError>
        requires { (1 ≤ sites) × (sites ≤ MOST_SITES) }
        ensures new { IfOk result (λ w. w ≡ new_world sites) }
        ensures holds { IfOk result HasInvariant }
    {
        let binders = new_binders(alloc, sites)?;
        Ok(BindWorld {
            binders,
            travelling: Outbox::new(alloc),
            delivered: Vec::new(alloc),
        })
    }

    /// The messages that travel, in the order in which they were sent.
    pub fn travelling(&self) -> &[Sent]
        ensures { result.now ≡ self.now.travelling }
    {
        self.travelling.as_slice()
    }

    /// The number of sites.
    pub fn sites(&self) -> usize
        ensures { result ≡ length self.now.binders }
    {
        self.binders.len()
    }

    /// What a site knows of a variable. At the owner that is whether it was made, and its equation.
    pub fn knows(&self, site: u32, var: VarName) -> Knowledge<'_>
        requires { IsSiteOf self.now site }
        ensures { IsKnowledge (known_at self.now site var) result }
    {
        self.binders[site as usize - 1].knows(var)
    }

    /// A site makes a variable of its own.
    pub fn make(&mut self, site: u32, var: VarName) -> Result<(), AllocError>
        requires { CanMake self.old site var }
        ensures ok { OnOk result (self.new ≡ after_make_at self.old site var) }
        ensures err { OnErr result (self.new ≡ self.old) }
        ensures holds { HasInvariant self.new }
        ensures grows { HasGrown self.old self.new }
    {
        self.binders[site as usize - 1].make(var)
    }

    /// A site meets a name.
    pub fn meet(&mut self, site: u32, var: VarName) -> Result<(), AllocError>
        requires { CanMeet self.old site var }
        ensures ok { OnOk result (self.new ≡ after_meet_at self.old site var) }
        ensures err { OnErr result (self.new ≡ self.old) }
        ensures holds { HasInvariant self.new }
        ensures grows { HasGrown self.old self.new }
        ensures front { IsFront self.old.travelling self.new.travelling }
        ensures delivered { self.new.delivered ≡ self.old.delivered }
    {
        meet_at(
            &mut self.binders[site as usize - 1],
            &mut self.travelling,
            var,
        )
    }

    /// A thread of a site wants to bind a variable that the site knows and does not know bound.
    pub fn want(
        &mut self,
        site: u32,
        var: VarName,
        term: Term,
        thread: ThreadName,
    ) -> Result<(), AllocError>
        requires { CanWant self.old site var term }
        ensures ok { OnOk result (self.new ≡ after_want_at self.old site var term thread) }
        ensures err { OnErr result (self.new ≡ self.old) }
        ensures holds { HasInvariant self.new }
        ensures grows { HasGrown self.old self.new }
    {
        want_at(
            &mut self.binders[site as usize - 1],
            &mut self.travelling,
            var,
            term,
            thread,
        )
    }

    // A site meets each of these names.
    fn meet_vars(&mut self, site: u32, vars: &[VarName]) -> Result<(), AllocError>
        requires site { IsSiteOf self.old site }
        requires made { Each (IsMadeIn self.old) vars.now }
        ensures ok { OnOk result (self.new ≡ after_meeting self.old site vars.now) }
        ensures holds { OnErr result (HasInvariant self.new) }
        ensures grows { HasGrown self.old self.new }
        ensures front { IsFront self.old.travelling self.new.travelling }
        ensures delivered { self.new.delivered ≡ self.old.delivered }
    {
        for var in vars {
            self.meet(site, *var)?;
        }
        Ok(())
    }

    // A site meets the variable of each of these fields.
    fn meet_fields(&mut self, site: u32, fields: &[(Feature, VarName)]) -> Result<(), AllocError>
        requires site { IsSiteOf self.old site }
        requires made { Each (IsMadeIn self.old) (field_vars fields.now) }
        ensures ok { OnOk result (self.new ≡ after_meeting self.old site (field_vars fields.now)) }
        ensures holds { OnErr result (HasInvariant self.new) }
        ensures grows { HasGrown self.old self.new }
        ensures front { IsFront self.old.travelling self.new.travelling }
        ensures delivered { self.new.delivered ≡ self.old.delivered }
    {
        for field in fields {
            let var = var_of(field);
            self.meet(site, var)?;
        }
        Ok(())
    }

    // A site meets each variable of a term.
    fn meet_term(&mut self, site: u32, term: &Term) -> Result<(), AllocError>
        requires site { IsSiteOf self.old site }
        requires made { Each (IsMadeIn self.old) (vars_of term.now) }
        ensures ok { OnOk result (self.new ≡ after_meeting self.old site (vars_of term.now)) }
        ensures holds { OnErr result (HasInvariant self.new) }
        ensures grows { HasGrown self.old self.new }
        ensures front { IsFront self.old.travelling self.new.travelling }
        ensures delivered { self.new.delivered ≡ self.old.delivered }
    {
        match term {
            Term::Var(x) => self.meet_vars(site, &[*x]),
            Term::Node(Node::Rec(_, fields)) => self.meet_fields(site, fields.as_slice()),
            Term::Node(Node::Proc(_, _, _, vars)) => self.meet_vars(site, vars.as_slice()),
            Term::Node(_) => self.meet_vars(site, &[]),
        }
    }

    // A site meets what it meets before it takes a message.
    fn meet_first(&mut self, site: u32, msg: &Msg) -> Result<(), AllocError>
        requires site { IsSiteOf self.old site }
        requires made { Each (IsMadeIn self.old) (met_first msg.now) }
        ensures ok { OnOk result (self.new ≡ after_meeting self.old site (met_first msg.now)) }
        ensures holds { OnErr result (HasInvariant self.new) }
        ensures grows { HasGrown self.old self.new }
        ensures front { IsFront self.old.travelling self.new.travelling }
        ensures delivered { self.new.delivered ≡ self.old.delivered }
    {
        match msg {
            Msg::BindReq { term, .. } | Msg::Binding { term, .. } => self.meet_term(site, term),
            _ => self.meet_vars(site, &[]),
        }
    }

    // The message of a place comes to its site, which has met its names.
    fn take(&mut self, place: usize, sent: Sent) -> Result<(), AllocError>
        requires { slice_get self.old.travelling place ≡ Some sent }
        ensures ok { OnOk result (self.new ≡ after_arrival (takes_message self.old sent.to sent.msg) place sent) }
        ensures err { OnErr result (self.new ≡ self.old) }
        ensures holds { HasInvariant self.new }
        ensures grows { HasGrown self.old self.new }
    {
        deliver_at(
            &mut self.binders[sent.to as usize - 1],
            &mut self.travelling,
            &mut self.delivered,
            place,
            sent,
        )
    }

    /// Delivers the message of a place in the list of travelling messages, counted from 0. Its site first meets the
    /// variables of its term. There is no such place exactly where the list is not that long, and then nothing
    /// changes. Where memory runs out the message still travels, and its site may have met some of the variables.
    pub fn deliver(&mut self, place: usize) -> Result<(), DeliverError>
        ensures not_there { IsErrOf result NotThere ↔ (length self.old.travelling ≤ place) }
        ensures unchanged { IsErrOf result NotThere → self.new ≡ self.old }
        ensures ok { OnOk result (self.new ≡ after_delivery self.old place) }
        ensures still { OnErr result (IsFront self.old.travelling self.new.travelling) }
        ensures undelivered { OnErr result (self.new.delivered ≡ self.old.delivered) }
        ensures holds { HasInvariant self.new }
        ensures grows { HasGrown self.old self.new }
    {
        if place >= self.travelling.len() {
            return Err(DeliverError::NotThere);
        }
        let sent = copy_sent(&self.travelling.as_slice()[place])?;
        self.meet_first(sent.to, &sent.msg)?;
        self.take(place, sent)?;
        Ok(())
    }
}
