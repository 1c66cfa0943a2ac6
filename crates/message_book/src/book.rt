//! The book.

ghost use Rattle.std.specs.Prelude.{◌≡◌, ◌≢◌, ◌⊎◌, ℕ, List, ◌+◌, ◌&&◌, not, nat_le, ◌↔◌, [], ◌∷◌, ◌++◌, ◌≤◌, ◌<◌, ◌^◌, Some, None, Err, IsTrue, Contains, IfOk, OnOk, OnErr, MatchOption, map, length, slice_set};
ghost use Rattle.tree_node.specs.declared.limits.TheConstants.{MOST_MESSAGES, MOST_SITES, MOST_STEPS};
ghost use Rattle.site_message.specs.Limits.{AreLimits};
ghost use Rattle.site_message.specs.Journal.{Wired, IsTravelling, sent_of, is_quiet, end_by, end_of};
ghost use Rattle.site_message.specs.EarlierEnd.{HasNoEarlierEnd};
ghost use Rattle.site_message.specs.Story.{hand};
ghost use Rattle.message_book.specs.Book.{IsSiteOf, AreSites, IsUntaken, IsUntakenSpelling, IsReason, without_delivered, sight_of, first_reason};
ghost use Rattle.message_book.specs.Inboxes.{IsNewInbox, IsQuietInbox, IsAfterTurn, HasRoom, AllHoldTravelling, inbox_at};
ghost use Rattle.message_book.specs.declared.posted.Posted.TheVariants.{Closed};
ghost use Rattle.site_message.specs.declared.reason.Reason.TheVariants.{Memory};
ghost use Rattle.site_message.specs.declared.message.Msg.{Msg};
ghost use Rattle.site_message.specs.declared.reason.Reason.{Reason};
ghost use Rattle.message_book.specs.Inbox.{HoldsSame};
ghost use Rattle.site_message.specs.declared.turn.Turn.{Turn};

use crate::inbox::Inbox;
use crate::outgoing::{enqueue_all, make_room};
use crate::posted::Posted;
use crate::spelled_turn::SpelledTurn;
use site_message::{History, Journal, Limits, Reason, Story, end_after};
use std::alloc::{AllocError, Global};
use std::collections::VecDeque;
use std::marker::Model;
use wire_form::Bytes;

/// The turns posted, the messages sent and not delivered, and the reason why the run ends, if there is one. It has no `Drop`: whoever
/// has it hands its turns on.
pub struct Book {
    limits: Limits,
    journal: History,
    sent: u64,
    inboxes: Vec<Inbox>,
    reason: Option<Reason>,
}

impl Model for Book {
    ghost use Rattle.std.specs.Prelude.{map};
    ghost use Rattle.message_book.specs.Book.{BookState};
    ghost use Rattle.message_book.specs.Inboxes.{IsConsistent, hand_of};

    ghost Value = { BookState };

    ghost view = { λ b. record { limits = b.limits; journal = b.journal; hands = map hand_of b.inboxes.items; reason = b.reason } };

    ghost invariant = { λ b. IsConsistent b.limits b.journal b.sent b.inboxes.items b.reason };
}

impl Story for Book {
    ghost sight = { sight_of };
}

impl Book {
    /// An empty book of a run within these limits.
    pub fn new(alloc: Global, limits: Limits) -> Result<Book, AllocError>
        requires { AreLimits limits }
        ensures limits { IfOk result (λ b. b.limits ≡ limits) }
        ensures empty { IfOk result (λ b. (b.journal ≡ []) × (b.reason ≡ None)) }
        ensures hands { IfOk result (λ b. (i : ℕ) → hand i b.hands ≡ []) }
    {
        let inboxes = empty_inboxes(alloc, limits.sites)?;
        Ok(Book {
            limits,
            journal: History::new(alloc),
            sent: 0,
            inboxes,
            reason: None,
        })
    }

    /// Appends a turn, and finds out whether the run has come to an end. A book with a reason takes no turn. Its messages were
    /// spelled before, so memory is taken for their places and the journal alone.
    pub fn post(&mut self, turn: SpelledTurn) -> Result<(), Posted>
        requires site { IsSiteOf self.old.limits.sites turn.site }
        requires delivered { (k : ℕ) → turn.delivered ≡ Some k → Contains (hand turn.site self.old.hands) k }
        ensures closed { (r : Reason) → (result ≡ Err (Closed r)) ↔ (self.old.reason ≡ Some r) }
        ensures refused { OnErr result (self.new ≡ self.old) }
        ensures posted { OnOk result (self.new.journal ≡ turn ∷ self.old.journal) }
        ensures reason { OnOk result (self.new.reason ≡ end_of self.new.limits self.new.journal) }
        ensures hand { OnOk result (hand turn.site self.new.hands ≡ without_delivered turn.delivered (hand turn.site self.old.hands)) }
        ensures other_hands { (i : ℕ) → i ≢ turn.site → hand i self.new.hands ≡ hand i self.old.hands }
        ensures limits { self.new.limits ≡ self.old.limits }
    {
        if let Some(reason) = self.reason {
            return Err(Posted::Closed(reason));
        }
        let (turn, letters) = turn.into_parts();
        prepare(&mut self.inboxes, self.limits.sites, letters.as_slice())?;
        let end = TurnEnd {
            site: turn.site,
            delivered: turn.delivered,
            idle: turn.idle,
        };
        let steps = turn.steps;
        let count = letters.len() as u64;
        if self.journal.push(turn).is_err() {
            return Err(Posted::Memory);
        }
        let first = self.sent;
        self.sent += count;
        apply_turn(&mut self.inboxes, self.limits.sites, end, letters, first);
        self.reason = find_reason(
            self.sent > self.limits.messages,
            is_at_limit(steps, self.limits.steps, end.idle),
            end.site,
            self.inboxes.as_slice(),
        );
        Ok(())
    }

    /// Hands out a message for the site that no site has taken: its number, and its spelling. It takes no memory.
    pub fn take(&mut self, site: u32) -> Option<(u64, Bytes)>
        requires { IsSiteOf self.old.limits.sites site }
        ensures taken { MatchOption result ((self.new ≡ self.old) × ((k : ℕ) (m : Msg) → IsUntaken self.old site k m → ⊥)) (λ x. IsUntakenSpelling self.old site x.0 x.1 × (hand site self.new.hands ≡ hand site self.old.hands ++ x.0 ∷ [])) }
        ensures others { (i : ℕ) → i ≢ site → hand i self.new.hands ≡ hand i self.old.hands }
        ensures same { (self.new.limits ≡ self.old.limits) × (self.new.journal ≡ self.old.journal) × (self.new.reason ≡ self.old.reason) }
        ensures wired { Wired self.old.journal }
        ensures few { self.old.reason ≡ None → length (sent_of self.old.journal) ≤ MOST_MESSAGES }
    {
        self.inboxes[site as usize].take()
    }

    /// Whether every message sent was delivered and each site is idle.
    pub fn quiet(&self) -> bool
        ensures { result ≡ is_quiet self.now.limits.sites self.now.journal }
    {
        are_quiet(self.inboxes.as_slice())
    }

    /// Ends the book, if it has no reason yet.
    pub fn close(&mut self, reason: Reason)
        requires { (reason ≡ Memory) ⊎ (self.old.reason ≢ None) }
        ensures reason { self.new.reason ≡ first_reason self.old.reason reason }
        ensures same { (self.new.limits ≡ self.old.limits) × (self.new.journal ≡ self.old.journal) × (self.new.hands ≡ self.old.hands) }
    {
        if self.reason.is_none() {
            self.reason = Some(reason);
        }
    }

    /// The own steps that a site may make.
    pub fn step_limit(&self) -> u64
        ensures value { result ≡ self.now.limits.steps }
        ensures range { (1 ≤ result) × (result ≤ MOST_STEPS) }
    {
        self.limits.steps
    }

    /// Why the book ended, if it has: by how its journal ends, or because memory ran out where that goes on.
    pub fn reason(&self) -> Option<Reason>
        ensures value { result ≡ self.now.reason }
        ensures cause { IsReason self.now.limits self.now.journal self.now.reason }
    {
        self.reason
    }

    /// The turns posted.
    pub fn journal(&self) -> &Journal
        ensures value { result.now ≡ self.now.journal }
        ensures wired { Wired self.now.journal }
        ensures sites { AreSites self.now.limits.sites self.now.journal }
        ensures went { HasNoEarlierEnd self.now.limits self.now.journal }
    {
        self.journal.journal()
    }

    /// Lets go of a book without turns.
    pub fn destroy_empty(self)
        requires { self.journal ≡ [] }
    {
        self.into_history().destroy_empty();
    }

    /// The turns posted with their schedule, of a book that is done with. It takes no memory.
    pub fn into_history(self) -> History
        ensures value { result ≡ self.journal }
        ensures wired { Wired self.journal }
        ensures sites { AreSites self.limits.sites self.journal }
        ensures went { HasNoEarlierEnd self.limits self.journal }
    {
        let Book {
            limits: _,
            journal,
            sent: _,
            inboxes: _,
            reason: _,
        } = self;
        journal
    }
}

// The site of a turn, what it delivered, and whether the site is idle now.
#[derive(Clone, Copy)]
struct TurnEnd {
    site: u32,
    delivered: Option<u64>,
    idle: bool,
}

// An inbox for each place from 0 to the number of sites. Site 1 has the program's thread, and is not idle.
fn empty_inboxes(alloc: Global, sites: u32) -> Result<Vec<Inbox>, AllocError>
    requires { sites ≤ MOST_SITES }
    ensures { IfOk result (λ bs. (length bs.items ≡ sites + 1) × ((i : ℕ) → i ≤ sites → IsNewInbox i (inbox_at bs.items i))) }
{
    let mut inboxes = Vec::new(alloc);
    for place in 0..sites + 1 {
        inboxes.push(Inbox::new(alloc, place != 1))?;
    }
    Ok(inboxes)
}

// Whether no message lies at any place, and each site is idle.
fn are_quiet(inboxes: &[Inbox]) -> bool
    ensures { IsTrue result ↔ ((i : ℕ) → i < length inboxes.now → IsQuietInbox (inbox_at inboxes.now i)) }
{
    for inbox in inboxes {
        if !inbox.is_quiet_inbox() {
            return false;
        }
    }
    true
}

// Makes room for the messages of a turn.
fn prepare(inboxes: &mut Vec<Inbox>, sites: u32, letters: &[(u32, Bytes)]) -> Result<(), AllocError>
    requires { sites < length inboxes.old.items }
    ensures length { length inboxes.new.items ≡ length inboxes.old.items }
    ensures same { (i : ℕ) → HoldsSame (inbox_at inboxes.old.items i) (inbox_at inboxes.new.items i) }
    ensures ok { OnOk result (HasRoom sites inboxes.new.items (length letters.now) letters.now) }
{
    make_room(inboxes.as_mut_slice(), sites, letters)?;
    Ok(())
}

// What the turn of a site leaves, for which there is room: what it delivered is gone, and what it sent waits.
fn apply_turn(
    inboxes: &mut Vec<Inbox>,
    sites: u32,
    end: TurnEnd,
    letters: Vec<(u32, Bytes)>,
    first: u64,
)
    requires site { end.site < length inboxes.old.items }
    requires room { HasRoom sites inboxes.old.items (length letters.items) letters.items }
    requires few { first + length letters.items < 2 ^ 64 }
    ensures after { IsAfterTurn sites end.site end.delivered end.idle first letters.items inboxes.old.items inboxes.new.items }
{
    inboxes[end.site as usize].apply_turn(end.delivered, end.idle);
    enqueue_all(
        inboxes.as_mut_slice(),
        sites,
        VecDeque::from_vec(letters),
        first,
    );
}

// Whether a site came to its limit of own steps, and is not idle.
fn is_at_limit(steps: u64, limit: u64, idle: bool) -> bool
    ensures { result ≡ (nat_le limit steps && not idle) }
{
    steps >= limit && !idle
}

// How the run ends after a turn of the site, where more messages were sent than the limit, or the site came to its limit
// of steps.
fn find_reason(over_limit: bool, at_limit: bool, site: u32, inboxes: &[Inbox]) -> Option<Reason>
    ensures { (n : ℕ) (j : List Turn) → length inboxes.now ≡ n + 1 → AllHoldTravelling n j inboxes.now → result ≡ end_by over_limit at_limit site (is_quiet n j) }
{
    end_after(over_limit, at_limit, site, are_quiet(inboxes))
}
