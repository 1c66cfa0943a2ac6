//! The messages on their way between the sites.

ghost use Rattle.std.specs.Prelude.{◌≡◌, ℕ, ◌+◌, ◌^◌, ◌==◌, ◌<◌, ◌≤◌, ◌≢◌, [], ◌∷◌, ◌++◌, length, map, true, false, IsTrue, ◌↔◌, Some, None, slice_get, position, Contains, nat_eq, IfOk, OnOk, OnErr, MatchOption};
ghost use Rattle.std.specs.List.{enumerate_from, IsDistinct};
ghost use Rattle.std.specs.Map.{keys_of};
ghost use Rattle.tree_node.specs.declared.limits.TheConstants.{MOST_SITES};
ghost use Rattle.indexmap.specs.IndexMap.{spare};
ghost use Rattle.world_core.specs.Travels.{travel_of, IsNoneFor, IsFirstFor, IsAt, IsPlaceOf};
ghost use Rattle.world_core.specs.Mail.{is_queued, with_bit, without_bit, message_at, with_message, without_message, queue_at, AreBelow};
ghost use Rattle.site_message.specs.declared.message.Msg.{Msg};
ghost use Rattle.site_message.specs.declared.message.Sent.{Sent as ASent};
ghost use Rattle.world_core.specs.declared.travel.Travel.{Travel};

use crate::queue::Queue;
use crate::travel::Travel;
use indexmap::IndexMap;
use site_message::{Msg, Sent, copy_sent};
use std::alloc::{AllocError, Global};
use std::marker::Model;

// So many messages are looked through one by one.
const FEW: usize = 8;

/// The messages on their way, each with its number, in the order of their places; those to a site are found by their
/// numbers. A message that leaves gives its place to the last one.
#[derive(Drop)]
pub struct Mail {
    messages: IndexMap<u64, Sent>,
    travels: Vec<Travel>,
    queues: Vec<Queue>,
}

impl Model for Mail {
    ghost use Rattle.std.specs.Prelude.{length};
    ghost use Rattle.world_core.specs.Mail.{MailState, IsConsistent};

    ghost Value = { MailState };

    ghost view = { λ m. record { queues = length m.queues.items; messages = m.messages.entries } };

    ghost invariant = { λ m. IsConsistent m.messages.entries m.travels.items m.queues.items };
}

impl Mail {
    /// No messages, and a queue for each place up to the number of sites.
    pub fn new(alloc: Global, sites: u32) -> Result<Mail, AllocError>
        requires { sites ≤ MOST_SITES }
        ensures queues { IfOk result (λ m. m.queues ≡ sites + 1) }
        ensures empty { IfOk result (λ m. m.messages ≡ []) }
    {
        Ok(Mail {
            messages: IndexMap::new(alloc),
            travels: Vec::new(alloc),
            queues: empty_queues(alloc, sites)?,
        })
    }

    /// Whether nothing is on its way.
    pub fn is_empty(&self) -> bool
        ensures { IsTrue result ↔ (self.now.messages ≡ []) }
    {
        self.travels.is_empty()
    }

    /// What is on its way, by its places.
    pub fn travels(&self) -> &[Travel]
        ensures value { result.now ≡ map travel_of self.now.messages }
        ensures told { (k to : ℕ) → Contains result.now (record { number = k; to = to }) ↔ ((m : Msg) × (message_at self.now.messages k ≡ Some (record { to = to; msg = m }))) }
        ensures once { IsDistinct nat_eq (map (λ t. t.number) result.now) }
    {
        self.travels.as_slice()
    }

    /// Whether a message for the site is on its way.
    pub fn has_for(&self, site: u32) -> bool
        requires { site < self.now.queues }
        ensures none { result ≡ false → IsNoneFor (map travel_of self.now.messages) site }
        ensures some { result ≡ true → IsNoneFor (map travel_of self.now.messages) site → ⊥ }
    {
        !self.queues[site as usize].is_empty()
    }

    /// The place of the message with the lowest number for the site.
    pub fn next_for(&self, site: u32) -> Option<usize>
        requires { site < self.now.queues }
        ensures { MatchOption result (IsNoneFor (map travel_of self.now.messages) site) (λ place. IsFirstFor (map travel_of self.now.messages) site place) }
    {
        let number = self.queues[site as usize].first()?;
        self.place_of(number)
    }

    /// The place of the message of a number: by a look at each, where there are few.
    pub fn place_of(&self, number: u64) -> Option<usize>
        ensures place { IsPlaceOf (map travel_of self.now.messages) number result }
        ensures held { (m : ASent) → message_at self.now.messages number ≡ Some m → (place : ℕ) × (result ≡ Some place) × IsAt (map travel_of self.now.messages) m.to place number }
    {
        if are_few(self.travels.len()) {
            return look_through(self.travels.as_slice(), number);
        }
        self.messages.get_index_of(&number)
    }

    /// One more message, of a number that none has.
    pub fn push(&mut self, number: u64, sent: Sent) -> Result<(), AllocError>
        requires { message_at self.old.messages number ≡ None }
        ensures queues { self.new.queues ≡ self.old.queues }
        ensures ok { OnOk result (self.new.messages ≡ self.old.messages ++ (number, sent) ∷ []) }
        ensures err { OnErr result (self.new.messages ≡ self.old.messages) }
    {
        let to = sent.to;
        announce(
            &mut self.messages,
            &mut self.travels,
            &mut self.queues,
            Travel { number, to },
        )?;
        put(&mut self.messages, number, sent);
        Ok(())
    }

    /// Copies of these messages, with numbers from the first one on.
    pub fn push_all(&mut self, first: u64, sent: &[Sent]) -> Result<u64, AllocError>
        requires below { AreBelow first self.old.messages }
        ensures queues { self.new.queues ≡ self.old.queues }
        ensures messages { OnOk result (self.new.messages ≡ self.old.messages ++ enumerate_from first sent.now) }
        ensures next { IfOk result (λ next. next ≡ first + length sent.now) }
    {
        let mut number = first;
        for one in sent {
            self.push(number, copy_sent(one)?)?;
            number = number.checked_add(1).ok_or(AllocError)?;
        }
        Ok(number)
    }

    /// Takes the message of a place out.
    pub fn take(&mut self, place: usize) -> (u64, Sent)
        requires { place < length self.old.messages }
        ensures queues { self.new.queues ≡ self.old.queues }
        ensures value { slice_get self.old.messages place ≡ Some result }
        ensures found { message_at self.old.messages result.0 ≡ Some result.1 }
        ensures others { (k : ℕ) → message_at self.new.messages k ≡ without_message result.0 self.old.messages k }
    {
        let (number, sent) = self.messages.swap_remove_index(place).unwrap();
        let _ = self.travels.swap_remove(place);
        dequeue(&mut self.queues, sent.to as usize, number);
        (number, sent)
    }
}

// Whether there are so few messages that a look at each takes less than a look-up.
fn are_few(messages: usize) -> bool {
    messages <= FEW
}

// The place of the travel of a number, by a look at each up to there.
fn look_through(travels: &[Travel], number: u64) -> Option<usize>
    ensures { result ≡ position (λ t. t.number == number) travels.now }
{
    travels.iter().position(|travel| travel.number == number)
}

// A queue for each place from 0 to the number of sites.
fn empty_queues(alloc: Global, sites: u32) -> Result<Vec<Queue>, AllocError>
    requires { sites ≤ MOST_SITES }
    ensures length { IfOk result (λ qs. length qs.items ≡ sites + 1) }
    ensures empty { IfOk result (λ qs. (i : ℕ) → queue_at qs.items i ≡ []) }
{
    let mut queues = Vec::new(alloc);
    for _ in 0..sites + 1 {
        queues.push(Queue::new(alloc))?;
    }
    Ok(queues)
}

// Room for one more message, which is queued already.
fn announce(
    messages: &mut IndexMap<u64, Sent>,
    travels: &mut Vec<Travel>,
    queues: &mut Vec<Queue>,
    travel: Travel,
) -> Result<(), AllocError>
    ensures messages { messages.new.entries ≡ messages.old.entries }
    ensures room { OnOk result (1 ≤ spare messages.new) }
    ensures travels { OnOk result (travels.new.items ≡ travels.old.items ++ travel ∷ []) }
    ensures length { length queues.new.items ≡ length queues.old.items }
    ensures here { OnOk result (travel.to < length queues.old.items → (k : ℕ) → is_queued (queue_at queues.new.items travel.to) k ≡ with_bit travel.number (is_queued (queue_at queues.old.items travel.to)) k) }
    ensures others { OnOk result ((i : ℕ) → i ≢ travel.to → queue_at queues.new.items i ≡ queue_at queues.old.items i) }
    ensures unsent { OnErr result (travels.new.items ≡ travels.old.items) }
    ensures same { OnErr result (queues.new.items ≡ queues.old.items) }
{
    messages.reserve(1)?;
    travels.reserve(1)?;
    enqueue(queues, travel.to as usize, travel.number)?;
    travels.push_reserved(travel);
    Ok(())
}

// One more message, of a number that none has, where there is room for it.
fn put(messages: &mut IndexMap<u64, Sent>, number: u64, sent: Sent)
    requires room { 1 ≤ spare messages.old }
    requires new { message_at messages.old.entries number ≡ None }
    ensures entries { messages.new.entries ≡ messages.old.entries ++ (number, sent) ∷ [] }
    ensures numbers { (k : ℕ) → message_at messages.new.entries k ≡ with_message number sent messages.old.entries k }
    ensures once { IsDistinct nat_eq (keys_of messages.new.entries) }
{
    match messages.insert(number, sent) {
        Ok(_) => (),
        Err(_) => unreachable!(),
    }
}

// One more number in the queue of a site, if that has one.
fn enqueue(queues: &mut Vec<Queue>, site: usize, number: u64) -> Result<(), AllocError>
    ensures length { length queues.new.items ≡ length queues.old.items }
    ensures here { OnOk result (site < length queues.old.items → (k : ℕ) → is_queued (queue_at queues.new.items site) k ≡ with_bit number (is_queued (queue_at queues.old.items site)) k) }
    ensures others { OnOk result ((i : ℕ) → i ≢ site → queue_at queues.new.items i ≡ queue_at queues.old.items i) }
    ensures err { OnErr result (queues.new.items ≡ queues.old.items) }
{
    if site < queues.len() {
        queues[site].insert(number)?;
    }
    Ok(())
}

// The number leaves the queue of the site, if that has one.
fn dequeue(queues: &mut Vec<Queue>, site: usize, number: u64)
    ensures length { length queues.new.items ≡ length queues.old.items }
    ensures here { site < length queues.old.items → (k : ℕ) → is_queued (queue_at queues.new.items site) k ≡ without_bit number (is_queued (queue_at queues.old.items site)) k }
    ensures others { (i : ℕ) → i ≢ site → queue_at queues.new.items i ≡ queue_at queues.old.items i }
{
    if site < queues.len() {
        queues[site].remove(number);
    }
}
