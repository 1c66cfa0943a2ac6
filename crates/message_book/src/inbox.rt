//! The messages on their way to one site.

ghost use Rattle.std.specs.Prelude.{◌≡◌, ◌+◌, ◌≤◌, ◌<◌, ◌++◌, ◌∷◌, [], ◌==◌, not, ◌↔◌, IsTrue, true, OnOk, MatchOption, vec_len, vec_capacity};
ghost use Rattle.std.specs.List.{filter};
ghost use Rattle.message_book.specs.Inbox.{HoldsSame};
ghost use Rattle.message_book.specs.Book.{without_delivered};

use std::alloc::{AllocError, Global};
use std::collections::VecDeque;
use std::marker::Model;
use wire_form::Bytes;

/// The spellings of the messages that the site has not taken, the first come first, each with its number; the numbers of those that it
/// has taken and no turn has delivered; and whether the site is idle. A number in hand keeps its room from the time
/// that the message came.
#[derive(Drop)]
pub(crate) struct Inbox {
    hand: Vec<u64>,
    waiting: VecDeque<(u64, Bytes)>,
    idle: bool,
}

impl Model for Inbox {
    ghost use Rattle.std.specs.Prelude.{◌+◌, ◌≤◌, vec_len, vec_capacity};
    ghost use Rattle.std.specs.VecDeque.{deque_len, deque_capacity};
    ghost use Rattle.message_book.specs.Inbox.{InboxState, free_room};

    ghost Value = { InboxState };

    ghost view = { λ b. record { hand = b.hand.items; waiting = b.waiting.items; idle = b.idle; room = free_room (vec_len b.hand) (deque_len b.waiting) (vec_capacity b.hand) (deque_capacity b.waiting) } };

    ghost invariant = { λ b. vec_len b.hand + deque_len b.waiting ≤ vec_capacity b.hand };
}

impl Inbox {
    // No messages. It takes no memory.
    pub(crate) fn new(alloc: Global, idle: bool) -> Inbox
        ensures { (result.hand ≡ []) × (result.waiting ≡ []) × (result.idle ≡ idle) }
    {
        Inbox {
            hand: Vec::new(alloc),
            waiting: VecDeque::new(alloc),
            idle,
        }
    }

    // Whether the site is idle and no message is on its way to it.
    pub(crate) fn is_quiet_inbox(&self) -> bool
        ensures { IsTrue result ↔ (self.now.hand ≡ []) × (self.now.waiting ≡ []) × (self.now.idle ≡ true) }
    {
        self.hand.is_empty() && self.waiting.is_empty() && self.idle
    }

    // Makes room for more messages.
    pub(crate) fn reserve(&mut self, count: usize) -> Result<(), AllocError>
        ensures same { HoldsSame self.old self.new }
        ensures room { self.old.room ≤ self.new.room }
        ensures ok { OnOk result (count ≤ self.new.room) }
    {
        self.waiting.reserve(count)?;
        let all = self.waiting.len() + count;
        self.hand.reserve(all)
    }

    // One more message, for which there is room.
    pub(crate) fn enqueue(&mut self, number: u64, bytes: Bytes)
        requires { 0 < self.old.room }
        ensures waiting { self.new.waiting ≡ self.old.waiting ++ (number, bytes) ∷ [] }
        ensures others { (self.new.hand ≡ self.old.hand) × (self.new.idle ≡ self.old.idle) }
        ensures room { self.old.room ≤ self.new.room + 1 }
    {
        self.waiting.push_back_reserved((number, bytes));
    }

    // Hands out the first message.
    pub(crate) fn take(&mut self) -> Option<(u64, Bytes)>
        ensures taken { MatchOption result ((self.old.waiting ≡ []) × (self.new ≡ self.old)) (λ x. (self.old.waiting ≡ x ∷ self.new.waiting) × (self.new.hand ≡ self.old.hand ++ x.0 ∷ []) × (self.new.idle ≡ self.old.idle)) }
    {
        let message = self.waiting.pop_front()?;
        self.hand.push_reserved(message.0);
        Some(message)
    }

    // The message of a number in hand was delivered.
    pub(crate) fn remove(&mut self, number: u64)
        ensures hand { self.new.hand ≡ filter (λ k. not (number == k)) self.old.hand }
        ensures others { (self.new.waiting ≡ self.old.waiting) × (self.new.idle ≡ self.old.idle) }
        ensures room { self.old.room ≤ self.new.room }
    {
        self.hand.retain(|k| number != *k);
    }

    // What a turn of the site leaves: the message that it delivered is gone, and it is idle or not.
    pub(crate) fn apply_turn(&mut self, delivered: Option<u64>, idle: bool)
        ensures hand { self.new.hand ≡ without_delivered delivered self.old.hand }
        ensures others { (self.new.waiting ≡ self.old.waiting) × (self.new.idle ≡ idle) }
        ensures room { self.old.room ≤ self.new.room }
    {
        if let Some(number) = delivered {
            self.remove(number);
        }
        self.idle = idle;
    }
}
