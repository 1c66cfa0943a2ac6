//! The numbers of the messages on their way to one site.

ghost use Rattle.std.specs.Prelude.{◌≡◌, ℕ, ◌<◌, ◌≤◌, [], true, false, length, nat_lt, slice_index_or, IsTrue, OnOk, OnErr, MatchOption};
ghost use Rattle.tree_node.specs.Each.{Each};
ghost use Rattle.world_core.specs.Mail.{is_queued, with_bit, without_bit};
ghost use Rattle.world_core.specs.Queue.{IsAscending, IsPlaceAmong};

use std::alloc::{AllocError, Global};
use std::collections::VecDeque;
use std::marker::Model;

/// The numbers of the messages on their way to one site, which contracts see as a list. They stand in ascending order. Most come
/// behind all others, and most go as the first, which takes one step; else those behind the number, or before it, move.
#[derive(Drop)]
pub(crate) struct Queue {
    numbers: VecDeque<u64>,
}

impl Model for Queue {
    ghost use Rattle.std.specs.Prelude.{List, ℕ};
    ghost use Rattle.world_core.specs.Queue.{IsAscending};

    ghost Value = { List ℕ };

    ghost view = { λ q. q.numbers.items };

    ghost invariant = { λ q. IsAscending q.numbers.items };
}

// Whether a number is above all of these.
fn is_behind(numbers: &VecDeque<u64>, number: u64) -> bool
    requires { IsAscending numbers.now.items }
    ensures { IsTrue result → Each (λ (k : ℕ). k < number) numbers.now.items }
{
    match numbers.back() {
        None => true,
        Some(last) => *last < number,
    }
}

// How many of these are below this one. It looks at few of them, by halves.
fn place_of(numbers: &VecDeque<u64>, number: u64) -> usize
    requires { IsAscending numbers.now.items }
    ensures within { result ≤ length numbers.now.items }
    ensures among { IsPlaceAmong numbers.now.items number result }
{
    numbers.partition_point(
        |other: &u64| -> bool
            ensures { result ≡ nat_lt other.now number }
        { *other < number },
    )
}

// Whether a number stands at its place among these.
fn is_at(numbers: &VecDeque<u64>, place: usize, number: u64) -> bool
    requires ascending { IsAscending numbers.now.items }
    requires among { IsPlaceAmong numbers.now.items number place }
    ensures queued { result ≡ is_queued numbers.now.items number }
    ensures inside { IsTrue result → place < length numbers.now.items }
    ensures there { IsTrue result → slice_index_or numbers.now.items place number ≡ number }
{
    place < numbers.len() && numbers[place] == number
}

// Puts a number that is above all of these behind them.
fn push_last(numbers: &mut VecDeque<u64>, number: u64) -> Result<(), AllocError>
    requires ascending { IsAscending numbers.old.items }
    requires behind { Each (λ (k : ℕ). k < number) numbers.old.items }
    ensures ascending { IsAscending numbers.new.items }
    ensures ok { OnOk result ((k : ℕ) → is_queued numbers.new.items k ≡ with_bit number (is_queued numbers.old.items) k) }
    ensures err { OnErr result (numbers.new.items ≡ numbers.old.items) }
{
    numbers.push_back(number)?;
    Ok(())
}

// Puts a number that is not among these to its place.
fn put_at(numbers: &mut VecDeque<u64>, place: usize, number: u64) -> Result<(), AllocError>
    requires ascending { IsAscending numbers.old.items }
    requires within { place ≤ length numbers.old.items }
    requires among { IsPlaceAmong numbers.old.items number place }
    requires absent { is_queued numbers.old.items number ≡ false }
    ensures ascending { IsAscending numbers.new.items }
    ensures ok { OnOk result ((k : ℕ) → is_queued numbers.new.items k ≡ with_bit number (is_queued numbers.old.items) k) }
    ensures err { OnErr result (numbers.new.items ≡ numbers.old.items) }
{
    numbers.insert(place, number)?;
    Ok(())
}

// Puts a number to its place among these, if it is not there.
fn put(numbers: &mut VecDeque<u64>, number: u64) -> Result<(), AllocError>
    requires { IsAscending numbers.old.items }
    ensures ascending { IsAscending numbers.new.items }
    ensures ok { OnOk result ((k : ℕ) → is_queued numbers.new.items k ≡ with_bit number (is_queued numbers.old.items) k) }
    ensures err { OnErr result (numbers.new.items ≡ numbers.old.items) }
{
    if is_behind(numbers, number) {
        return push_last(numbers, number);
    }
    let place = place_of(numbers, number);
    if is_at(numbers, place, number) {
        return Ok(());
    }
    put_at(numbers, place, number)
}

// Takes the number at a place away.
fn take_at(numbers: &mut VecDeque<u64>, place: usize, number: u64)
    requires ascending { IsAscending numbers.old.items }
    requires inside { place < length numbers.old.items }
    requires there { slice_index_or numbers.old.items place number ≡ number }
    ensures ascending { IsAscending numbers.new.items }
    ensures gone { (k : ℕ) → is_queued numbers.new.items k ≡ without_bit number (is_queued numbers.old.items) k }
{
    // The clauses speak of it.
    let _ = number;
    numbers.remove(place);
}

// Whether a number is the first of these.
fn is_first(numbers: &VecDeque<u64>, number: u64) -> bool
    ensures { IsTrue result → (0 < length numbers.now.items) × (slice_index_or numbers.now.items 0 number ≡ number) }
{
    match numbers.front() {
        None => false,
        Some(first) => *first == number,
    }
}

// Takes the first number away.
fn take_first(numbers: &mut VecDeque<u64>, number: u64)
    requires ascending { IsAscending numbers.old.items }
    requires first { (0 < length numbers.old.items) × (slice_index_or numbers.old.items 0 number ≡ number) }
    ensures ascending { IsAscending numbers.new.items }
    ensures gone { (k : ℕ) → is_queued numbers.new.items k ≡ without_bit number (is_queued numbers.old.items) k }
{
    // The clauses speak of it.
    let _ = number;
    numbers.pop_front();
}

// Takes a number away, if it is there.
#[tactic(auto, using(crate::proofs::QueueLemmas::without_same))]
fn take_away(numbers: &mut VecDeque<u64>, number: u64)
    requires { IsAscending numbers.old.items }
    ensures ascending { IsAscending numbers.new.items }
    ensures gone { (k : ℕ) → is_queued numbers.new.items k ≡ without_bit number (is_queued numbers.old.items) k }
{
    if is_first(numbers, number) {
        take_first(numbers, number);
        return;
    }
    let place = place_of(numbers, number);
    if is_at(numbers, place, number) {
        take_at(numbers, place, number);
    }
}

impl Queue {
    // No numbers. It takes no memory.
    pub(crate) fn new(alloc: Global) -> Queue
        ensures { result ≡ [] }
    {
        Queue {
            numbers: VecDeque::new(alloc),
        }
    }

    // Whether there are none.
    pub(crate) fn is_empty(&self) -> bool
        ensures none { result ≡ true → (k : ℕ) → is_queued self.now k ≡ false }
        ensures some { result ≡ false → (k : ℕ) × (is_queued self.now k ≡ true) }
    {
        self.numbers.is_empty()
    }

    // One more number.
    pub(crate) fn insert(&mut self, number: u64) -> Result<(), AllocError>
        ensures ok { OnOk result ((k : ℕ) → is_queued self.new k ≡ with_bit number (is_queued self.old) k) }
        ensures err { OnErr result (self.new ≡ self.old) }
    {
        put(&mut self.numbers, number)
    }

    // The number is gone.
    pub(crate) fn remove(&mut self, number: u64)
        ensures { (k : ℕ) → is_queued self.new k ≡ without_bit number (is_queued self.old) k }
    {
        take_away(&mut self.numbers, number);
    }

    // The least number.
    pub(crate) fn first(&self) -> Option<u64>
        ensures { MatchOption result ((k : ℕ) → is_queued self.now k ≡ false) (λ first. (is_queued self.now first ≡ true) × ((k : ℕ) → is_queued self.now k ≡ true → first ≤ k)) }
    {
        match self.numbers.front() {
            None => None,
            Some(first) => Some(*first),
        }
    }
}
