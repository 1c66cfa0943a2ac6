//! The world.

ghost use Rattle.std.specs.Prelude.{◌≡◌, ◌≢◌, ◌↔◌, ◌∷◌, ℕ, ◌+◌, ◌-◌, ◌^◌, ◌<◌, ◌≤◌, [], length, map, true, false, None, Some, Ok, Err, IsTrue, IfOk, IfErr, OnOk, OnErr, MatchOption, slice_get};
ghost use Rattle.tree_node.specs.declared.limits.TheConstants.{MOST_SITES, MOST_UNITS};
ghost use Rattle.site_message.specs.Journal.{is_quiet, sent_of, IsTravelling};
ghost use Rattle.site_message.specs.declared.message.Sent.{Sent};
ghost use Rattle.site_model.specs.Bundle.{bundle_limit};
ghost use Rattle.site_model.specs.Site.{initial_site, is_idle};
ghost use Rattle.site_model.specs.Run.{WorldRun};
ghost use Rattle.world_simulation.specs.Protocols.{ProtocolsHold};
ghost use Rattle.world_core.specs.declared.refusal.WorldRefusal.TheVariants.{NotThere, Memory};
ghost use Rattle.world_core.specs.declared.refusal.ReplayRefusal.TheVariants as replay;
ghost use Rattle.world_core.specs.Replay.{IsReplayed, IsWorldStuck, PrintsOthers};
ghost use Rattle.world_core.specs.Laws.{HasRun, HasMachine, HasMachineAtRest, HoldAnswers, WereFit, AreMessagesFew};
ghost use Rattle.world_core.specs.Mail.{message_at, without_message};
ghost use Rattle.world_core.specs.Travels.{travel_of, IsNoneFor, IsFirstFor, IsAt, IsPlaceOf, AreTravels, IsNothingFor, IsNotThere};
ghost use Rattle.world_core.specs.World.{states_of, orders_of, IsWorldTurn, IsWorldTurnInOrder, KnowledgeStays, IsNewSite, IsTaken};
ghost use Rattle.thread_roster.specs.Order.{rotated};
ghost use Rattle.thread_roster.specs.Threads.{waiting_of};
ghost use Rattle.site_core.specs.Start.{first_order};
ghost use Rattle.site_core.specs.Site.{SiteState};
ghost use Rattle.site_message.specs.declared.story.NoSeat.{NoSeat};

use crate::mail::Mail;
use crate::refusal::{ReplayRefusal, WorldRefusal};
use crate::travel::Travel;
use kernel_syntax::Program;
use site_core::Site;
use site_message::{History, Journal, Msg, NoSeat, Quantum, Turn};
use std::alloc::{AllocError, Global};
use std::marker::Model;
use tree_node::{Line, ThreadName};

/// A program on 1 to 64 sites. Its sites take turns in whatever order the caller gives, and each turn delivers one message at
/// most. After want of memory the world is given up: it makes no turn any more, and its journal tells the turns made before. It has no
/// `Drop`: whoever has it hands its turns on.
pub struct World<'a> {
    program: &'a Program,
    sites: Vec<Site<'a, NoSeat>>,
    journal: History,
    mail: Mail,
    sent: u64,
    spent: bool,
}

impl<'a> Model for World<'a> {
    ghost use Rattle.std.specs.Prelude.{length, map};
    ghost use Rattle.world_core.specs.Travels.{travel_of};
    ghost use Rattle.world_core.specs.World.{WorldState, IsConsistent, order_in, state_in};

    ghost Value = { WorldState };

    ghost view = { λ w. record { program = w.program.now; sites = length w.sites.items; journal = w.journal; states = map state_in w.sites.items; orders = map order_in w.sites.items; travels = map travel_of w.mail.messages; spent = w.spent } };

    ghost invariant = { λ w. IsConsistent w.program.now w.journal w.sites.items w.mail w.sent w.spent };
}

impl<'a> World<'a> {
    /// The program on so many sites at its start: site 1 has the program's thread, the others none, and nothing travels.
    pub fn new(alloc: Global, program: &'a Program, sites: u32) -> Result<World<'a>, AllocError>
        requires some { 1 ≤ sites }
        requires most { sites ≤ MOST_SITES }
        ensures program { IfOk result (λ w. w.program ≡ program.now) }
        ensures sites { IfOk result (λ w. w.sites ≡ sites) }
        ensures journal { IfOk result (λ w. w.journal ≡ []) }
        ensures states { IfOk result (λ w. (i : ℕ) → states_of w i ≡ initial_site program.now sites i) }
        ensures orders { IfOk result (λ w. (i : ℕ) → orders_of w i ≡ first_order i) }
        ensures travels { IfOk result (λ w. w.travels ≡ []) }
        ensures live { IfOk result (λ w. w.spent ≡ false) }
    {
        program.is_program();
        let first = first_sites(alloc, program, sites)?;
        let mail = Mail::new(alloc, sites)?;
        Ok(World {
            program,
            sites: first,
            journal: History::new(alloc),
            mail,
            sent: 0,
            spent: false,
        })
    }

    /// One turn of the site: the message at the place, if one is given, and then as many units as the quantum, fewer only
    /// where no thread of the site can go on then. A place that holds no message for the site is refused, and nothing changes.
    pub fn turn(
        &mut self,
        site: u32,
        place: Option<usize>,
        quantum: Quantum,
    ) -> Result<(), WorldRefusal>
        requires some { 1 ≤ site }
        requires among { site ≤ self.old.sites }
        requires live { self.old.spent ≡ false }
        requires units { quantum.0 ≤ MOST_UNITS }
        requires room { (states_of self.old site).steps ≤ 2 ^ 48 }
        ensures refused { (result ≡ Err NotThere) ↔ IsNotThere self.old.travels site place }
        ensures same { result ≡ Err NotThere → self.new ≡ self.old }
        ensures spent { result ≡ Err Memory → (self.new.spent ≡ true) × (self.new.journal ≡ self.old.journal) }
        ensures program { (self.new.program ≡ self.old.program) × (self.new.sites ≡ self.old.sites) }
        ensures live { OnOk result (self.new.spent ≡ false) }
        ensures turn { OnOk result (IsWorldTurn self.old self.new site place quantum.0) }
        ensures order { OnOk result (IsWorldTurnInOrder self.old self.new site) }
        ensures stays { OnOk result (KnowledgeStays self.old self.new) }
        ensures run { OnOk result (WorldRun self.new.program self.new.sites bundle_limit self.new.journal (states_of self.new)) }
        ensures simulated { OnOk result (HasMachine self.new.program self.new.sites self.new.journal (states_of self.new)) }
        ensures protocols { OnOk result (ProtocolsHold self.new.program self.new.sites self.new.journal (states_of self.new)) }
        ensures answers { OnOk result (HoldAnswers self.new.program self.new.journal (states_of self.new)) }
        ensures fit { OnOk result (WereFit self.new.program self.new.sites self.new.journal (states_of self.new)) }
        ensures few { OnOk result (AreMessagesFew self.new.program self.new.sites self.new.journal) }
    {
        let message = take_message(&mut self.mail, site, place)?;
        self.spent = true;
        let turn = self.sites[site as usize - 1].turn(message, quantum)?;
        self.sent = self.mail.push_all(self.sent, turn.sent.as_slice())?;
        if self.journal.push(turn).is_err() {
            return Err(WorldRefusal::Memory);
        }
        self.spent = false;
        Ok(())
    }

    /// One turn of the site made again: the message at the place, if one is given, and then a unit of each of these threads, in order,
    /// where it prints these lines. A place that holds no message for the site is refused, and nothing changes; after any other
    /// refusal the world is given up, with the journal of the turns made before.
    pub fn replay(
        &mut self,
        site: u32,
        place: Option<usize>,
        threads: &[ThreadName],
        lines: &[Line],
    ) -> Result<(), ReplayRefusal>
        requires some { 1 ≤ site }
        requires among { site ≤ self.old.sites }
        requires live { self.old.spent ≡ false }
        requires units { length threads.now ≤ MOST_UNITS }
        requires room { (states_of self.old site).steps ≤ 2 ^ 48 }
        ensures program { (self.new.program ≡ self.old.program) × (self.new.sites ≡ self.old.sites) }
        ensures refused { (result ≡ Err replay.NotThere) ↔ IsNotThere self.old.travels site place }
        ensures same { result ≡ Err replay.NotThere → self.new ≡ self.old }
        ensures err { OnErr result (self.new.journal ≡ self.old.journal) }
        ensures live { OnOk result (self.new.spent ≡ false) }
        ensures turn { OnOk result (IsWorldTurn self.old self.new site place (length threads.now)) }
        ensures replayed { OnOk result (IsReplayed self.old self.new site place threads.now lines.now) }
        ensures stuck { (at : ℕ) → result ≡ Err (replay.NotRunnable at) → IsWorldStuck self.old site place threads.now at }
        ensures other { result ≡ Err replay.OtherLines → PrintsOthers self.old site place threads.now lines.now }
        ensures run { OnOk result (WorldRun self.new.program self.new.sites bundle_limit self.new.journal (states_of self.new)) }
        ensures stays { OnOk result (KnowledgeStays self.old self.new) }
        ensures simulated { OnOk result (HasMachine self.new.program self.new.sites self.new.journal (states_of self.new)) }
        ensures protocols { OnOk result (ProtocolsHold self.new.program self.new.sites self.new.journal (states_of self.new)) }
        ensures answers { OnOk result (HoldAnswers self.new.program self.new.journal (states_of self.new)) }
        ensures fit { OnOk result (WereFit self.new.program self.new.sites self.new.journal (states_of self.new)) }
        ensures few { OnOk result (AreMessagesFew self.new.program self.new.sites self.new.journal) }
    {
        let message = take_message(&mut self.mail, site, place)?;
        self.spent = true;
        let made = self.sites[site as usize - 1].replay(message, threads)?;
        if !has_lines(&made, lines) {
            return Err(ReplayRefusal::OtherLines);
        }
        self.sent = self.mail.push_all(self.sent, made.sent.as_slice())?;
        if self.journal.push(made).is_err() {
            return Err(ReplayRefusal::Memory);
        }
        self.spent = false;
        Ok(())
    }

    /// The first thread in the order of the site goes behind the others that can go on there: it is passed by. No turn is made.
    pub fn pass_by(&mut self, site: u32)
        requires some { 1 ≤ site }
        requires among { site ≤ self.old.sites }
        ensures same { self.new ≡ record self.old { orders = self.new.orders } }
        ensures passed { orders_of self.new site ≡ rotated (orders_of self.old site) }
        ensures others { (i : ℕ) → i ≢ site → orders_of self.new i ≡ orders_of self.old i }
    {
        self.sites[site as usize - 1].pass_by();
    }

    /// The messages that travel, in no order that means anything: `turn` takes the place of one of them.
    pub fn travelling(&self) -> &[Travel]
        requires { self.now.spent ≡ false }
        ensures value { result.now ≡ self.now.travels }
        ensures exact { AreTravels self.now.journal result.now }
    {
        self.mail.travels()
    }

    /// Whether a message travels to the site.
    pub fn has_message(&self, site: u32) -> bool
        requires among { site ≤ self.now.sites }
        requires live { self.now.spent ≡ false }
        ensures some { result ≡ true → IsNoneFor self.now.travels site → ⊥ }
        ensures none { result ≡ false → IsNothingFor self.now.journal site }
    {
        self.mail.has_for(site)
    }

    /// The place of the message with the lowest number that travels to the site.
    pub fn next_for(&self, site: u32) -> Option<usize>
        requires among { site ≤ self.now.sites }
        requires live { self.now.spent ≡ false }
        ensures place { MatchOption result (IsNoneFor self.now.travels site) (λ place. IsFirstFor self.now.travels site place) }
        ensures none { result ≡ None → IsNothingFor self.now.journal site }
    {
        self.mail.next_for(site)
    }

    /// The place of the message of this number, if it travels.
    pub fn place_of(&self, number: u64) -> Option<usize>
        requires live { self.now.spent ≡ false }
        ensures place { IsPlaceOf self.now.travels number result }
        ensures travels { (m : Sent) → IsTravelling self.now.journal number m → (place : ℕ) × (result ≡ Some place) × IsAt self.now.travels m.to place number }
    {
        self.mail.place_of(number)
    }

    /// Whether no thread of the site can go on.
    pub fn idle(&self, site: u32) -> bool
        requires some { 1 ≤ site }
        requires among { site ≤ self.now.sites }
        ensures { result ≡ is_idle (states_of self.now site) }
    {
        self.sites[site as usize - 1].idle()
    }

    /// How many threads of the site can go on.
    pub fn runnable(&self, site: u32) -> usize
        requires some { 1 ≤ site }
        requires among { site ≤ self.now.sites }
        ensures { result ≡ length (states_of self.now site).threads - waiting_of (states_of self.now site).threads }
    {
        self.sites[site as usize - 1].runnable()
    }

    /// How many own steps the site has made.
    pub fn steps(&self, site: u32) -> u64
        requires some { 1 ≤ site }
        requires among { site ≤ self.now.sites }
        ensures { result ≡ (states_of self.now site).steps }
    {
        self.sites[site as usize - 1].steps()
    }

    /// How many messages were sent: the next one has this number.
    pub fn sent(&self) -> u64
        requires { self.now.spent ≡ false }
        ensures { result ≡ length (sent_of self.now.journal) }
    {
        self.sent
    }

    /// Whether nothing travels and every site is idle: no turn changes anything any more.
    pub fn quiet(&self) -> bool
        requires { self.now.spent ≡ false }
        ensures value { result ≡ is_quiet self.now.sites self.now.journal }
        ensures rest { IsTrue result → HasMachineAtRest self.now.program self.now.sites self.now.journal (states_of self.now) }
    {
        self.mail.is_empty() && are_idle(self.sites.as_slice())
    }

    /// The turns made.
    pub fn journal(&self) -> &Journal
        ensures value { result.now ≡ self.now.journal }
        ensures run { HasRun self.now.program self.now.sites self.now.journal }
        ensures live { self.now.spent ≡ false → WorldRun self.now.program self.now.sites bundle_limit self.now.journal (states_of self.now) }
        ensures few { AreMessagesFew self.now.program self.now.sites self.now.journal }
    {
        self.journal.journal()
    }

    /// The turns made with their schedule, of a world that is done with. It takes no memory.
    pub fn into_history(self) -> History
        ensures value { result ≡ self.entry.journal }
        ensures run { HasRun self.entry.program self.entry.sites self.entry.journal }
        ensures few { AreMessagesFew self.entry.program self.entry.sites self.entry.journal }
    {
        let World {
            program: _,
            sites: _,
            journal,
            mail: _,
            sent: _,
            spent: _,
        } = self;
        journal
    }
}

// The sites 1 to the given number at their start.
fn first_sites<'a>(
    alloc: Global,
    program: &'a Program,
    sites: u32,
) -> Result<Vec<Site<'a, NoSeat>>, AllocError>
    requires some { 1 ≤ sites }
    requires most { sites ≤ MOST_SITES }
    ensures length { IfOk result (λ ss. length ss.items ≡ sites) }
    ensures sites { IfOk result (λ ss. (i : ℕ) (s : SiteState NoSeat) → slice_get ss.items i ≡ Some s → IsNewSite program.now sites i s) }
{
    let mut first = Vec::new(alloc);
    for number in 1..sites + 1 {
        first.push(Site::new(alloc, number, sites, program)?)?;
    }
    Ok(first)
}

// Whether no thread of any site can go on.
fn are_idle(sites: &[Site<'_, NoSeat>]) -> bool
    ensures { IsTrue result ↔ ((i : ℕ) (s : SiteState NoSeat) → slice_get sites.now i ≡ Some s → is_idle s.state ≡ true) }
{
    sites.iter().all(|site| site.idle())
}

// Takes the message out that a turn of the site is to deliver: the one at the place, if one is given.
fn take_message(
    mail: &mut Mail,
    site: u32,
    place: Option<usize>,
) -> Result<Option<(u64, Msg)>, WorldRefusal>
    ensures queues { mail.new.queues ≡ mail.old.queues }
    ensures refused { (result ≡ Err NotThere) ↔ IsNotThere (map travel_of mail.old.messages) site place }
    ensures error { IfErr result (λ e. (e ≡ NotThere) × (mail.new ≡ mail.old)) }
    ensures taken { IfOk result (λ m. IsTaken mail.old.messages mail.new.messages site place m) }
{
    let Some(place) = place else {
        return Ok(None);
    };
    match mail.travels().get(place) {
        Some(travel) if travel.to == site => {}
        _ => return Err(WorldRefusal::NotThere),
    }
    let (number, sent) = mail.take(place);
    Ok(Some((number, sent.msg)))
}

// Whether two lines have the same bytes.
fn is_same(one: &Line, other: &Line) -> bool
    ensures { IsTrue result ↔ (one.now ≡ other.now) }
{
    one.as_slice() == other.as_slice()
}

// Whether a turn printed these lines.
fn has_lines(turn: &Turn, lines: &[Line]) -> bool
    ensures same { IsTrue result → turn.now.lines ≡ lines.now }
    ensures all { turn.now.lines ≡ lines.now → IsTrue result }
{
    let told = turn.lines.as_slice();
    if told.len() != lines.len() {
        return false;
    }
    for at in 0..lines.len() {
        if !is_same(&told[at], &lines[at]) {
            return false;
        }
    }
    true
}
