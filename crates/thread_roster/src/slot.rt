//! Threads in slots.

ghost use Rattle.std.specs.Prelude.{◌≡◌, ◌≢◌, ◌+◌, ◌<◌, ◌≤◌, ◌++◌, ◌↔◌, Some, None, IsTrue, IsSome, IfOk, OnOk, IfSome, IfNone, option_copied, slice_get, slice_set, length, if◌then◌else◌};
ghost use Rattle.std.specs.Vec.{vec_len, vec_capacity};
ghost use Rattle.std.specs.VecDeque.{deque_len, deque_capacity};
ghost use Rattle.std.specs.Borrow.{sem, Lends};
ghost use Rattle.thread_roster.specs.declared.mode.Mode.TheVariants as stands;
ghost use Rattle.thread_roster.specs.Threads.{is_waiting};
ghost use Rattle.thread_roster.specs.Slots.{Slot as TheSlot, IsSlotOf, AreInside, wakes, wake_by, wake_slot, wake_slot_at, wake_slots, awaits_in, awaits_at, woken_at, woken, total, waiting};
ghost use Rattle.std.specs.contracts.option.Option.{the_row as OptionOf};
ghost use Rattle.thread_roster.specs.contracts.slot.Occupant.{the_row as held_row};
ghost use Rattle.thread_roster.specs.contracts.slot.Boxed.{the_row as boxed_row};
ghost use Rattle.thread_roster.specs.contracts.slot.Slot.{the_row as slot_row};
ghost use Rattle.thread_roster.specs.declared.slot.Occupant.{Occupant as TheOccupant};
ghost use Rattle.thread_roster.specs.Slots.{with_value_in, value_there};

use crate::mode::{Event, Mode};
use std::alloc::{AllocError, Global};
use std::collections::VecDeque;
use std::marker::Model;
use tree_node::ThreadName;

/// A thread: its name, how it stands, and its value.
#[derive(Drop)]
pub struct Occupant<V> {
    pub name: ThreadName,
    pub mode: Mode,
    pub value: V,
}

// A thread in memory of its own.
#[derive(Drop)]
struct Boxed<V> {
    inner: Box<Occupant<V>>,
}

impl<V> Model for Boxed<V> {
    ghost use Rattle.thread_roster.specs.declared.slot.Occupant.{Occupant};

    ghost Value = { Occupant V };

    ghost view = { λ b. b.inner.value };
}

impl<V> Boxed<V> {
    // The thread.
    #[inline(always)]
    fn get(&self) -> &Occupant<V>
        ensures { result.now ≡ self.now }
    {
        self.inner.as_ref()
    }

    // The thread, to be changed in its place.
    #[inline(always)]
    fn get_mut(&mut self) -> &mut Occupant<V>
        ensures* lends { sem 𝓛 (Lends (boxed_row V.row) (held_row V.row) self.entry result (λ h. h)) }
        ensures value { result.now ≡ self.old }
    {
        self.inner.as_mut()
    }

    // Its value, to be changed in its place.
    #[inline(always)]
    fn value_mut(&mut self) -> &mut V
        ensures* lends { sem 𝓛 (Lends (boxed_row V.row) V.row self.entry result (λ v. record self.old { value = v })) }
        ensures value { result.now ≡ self.old.value }
    {
        value_of(self.inner.as_mut())
    }
}

// The value of a thread, to be changed in its place.
#[inline(always)]
fn value_of<V>(occupant: &mut Occupant<V>) -> &mut V
    ensures* lends { sem 𝓛 (Lends (held_row V.row) V.row occupant.entry result (λ v. record occupant.old { value = v })) }
    ensures value { result.now ≡ occupant.old.value }
{
    &mut occupant.value
}

// That of the thread that is held.
#[inline(always)]
fn value_held<V>(held: &mut Option<Boxed<V>>) -> &mut V
    requires held { IsSome held.old }
    ensures* lends { sem 𝓛 (Lends (OptionOf (boxed_row V.row)) V.row held.entry result (with_value_in held.old)) }
    ensures value { value_there held.old ≡ Some result.now }
{
    match held {
        Some(boxed) => boxed.value_mut(),
        None => unreachable!(),
    }
}

/// A slot of a thread, which is empty once the thread has ended; contracts see it as what is in it. The thread has memory of its own, so
/// that an empty slot, which stays, takes two words.
#[derive(Drop)]
pub struct Slot<V> {
    held: Option<Boxed<V>>,
}

impl<V> Model for Slot<V> {
    ghost use Rattle.std.specs.Prelude.{Option};
    ghost use Rattle.thread_roster.specs.declared.slot.Occupant.{Occupant};

    ghost Value = { Option (Occupant V) };

    ghost view = { λ s. s.held };
}

impl<V: Drop> Slot<V> {
    /// The slot of a thread.
    pub(crate) fn new(alloc: Global, occupant: Occupant<V>) -> Result<Slot<V>, AllocError>
        ensures { IfOk result (λ s. s ≡ Some occupant) }
    {
        let inner = Box::new(alloc, occupant)?;
        Ok(Slot {
            held: Some(Boxed { inner }),
        })
    }
}

impl<V> Slot<V> {
    /// The thread in it.
    #[inline(always)]
    pub fn get(&self) -> Option<&Occupant<V>>
        ensures { option_copied result ≡ self.now }
    {
        match &self.held {
            None => None,
            Some(boxed) => Some(boxed.get()),
        }
    }
}

/// Makes room for one slot more. Where there is none the table grows by a twelfth, and not to twice its size, so that there are
/// few spare slots for each thread. Answers `AllocError` where memory is wanting.
pub fn make_room<V>(slots: &mut Vec<Slot<V>>) -> Result<(), AllocError>
    ensures items { slots.new.items ≡ slots.old.items }
    ensures len { vec_len slots.new ≡ vec_len slots.old }
    ensures room { OnOk result (vec_len slots.new < vec_capacity slots.new) }
{
    if slots.len() < slots.capacity() {
        return Ok(());
    }
    slots.reserve_exact(slots.len() / 12 + 4)
}

/// Whether the thread of this name is in a slot.
#[inline(always)]
pub fn is_of<V>(slot: &Slot<V>, name: ThreadName) -> bool
    ensures { IsTrue result ↔ IsSlotOf name slot.now }
{
    match slot.get() {
        None => false,
        Some(held) => held.name == name,
    }
}

/// The name of the thread in a slot, where it can go on.
pub fn runnable_name<V>(slot: &Slot<V>) -> Option<ThreadName>
    ensures some { IfSome result (λ n. (h : Occupant V) × (slot.now ≡ Some h) × (h.name ≡ n) × (h.mode ≡ stands.Runs)) }
    ensures none { IfNone result ((h : Occupant V) → slot.now ≡ Some h → h.mode ≢ stands.Runs) }
{
    match slot.get() {
        None => None,
        Some(held) => match &held.mode {
            Mode::Runs => Some(held.name),
            Mode::Waits(_) => None,
            Mode::Needs(_) => None,
            Mode::WaitsAny(_) => None,
            Mode::WaitsFor(_) => None,
        },
    }
}

/// The value of the thread in a slot, to be changed in its place.
pub fn value_in<V>(slot: &mut Slot<V>) -> &mut V
    requires held { IsSome slot.old }
    ensures* lends { sem 𝓛 (Lends (slot_row V.row) V.row slot.entry result (with_value_in slot.old)) }
    ensures value { value_there slot.old ≡ Some result.now }
{
    value_held(&mut slot.held)
}

// The thread in a slot stands so from now on. Answers whether it waited before.
fn set_mode_in<V: Drop>(slot: &mut Slot<V>, mode: Mode) -> bool
    requires held { IsSome slot.old }
    ensures put { (h : TheOccupant V) → slot.old ≡ Some h → slot.new ≡ Some (record h { mode = mode }) }
    ensures old { (h : TheOccupant V) → slot.old ≡ Some h → result ≡ is_waiting h.mode }
{
    match &mut slot.held {
        None => unreachable!(),
        Some(boxed) => {
            let held = boxed.get_mut();
            let waited = held.mode.is_waiting();
            held.mode = mode;
            waited
        }
    }
}

/// The thread in a slot stands so from now on. Answers whether it waited before.
pub fn set_mode<V: Drop>(slots: &mut Vec<Slot<V>>, slot: usize, mode: Mode) -> bool
    requires inside { slot < length slots.old.items }
    requires held { (h : Occupant V) × (slice_get slots.old.items slot ≡ Some (Some h)) }
    ensures put { (h : Occupant V) → slice_get slots.old.items slot ≡ Some (Some h) → slots.new.items ≡ slice_set slots.old.items slot (Some (record h { mode = mode })) }
    ensures old { (h : Occupant V) → slice_get slots.old.items slot ≡ Some (Some h) → result ≡ is_waiting h.mode }
    ensures len { vec_len slots.new ≡ vec_len slots.old }
{
    set_mode_in(&mut slots[slot], mode)
}

/// The slot of a thread is empty from now on. Answers whether the thread waited.
pub fn clear<V: Drop>(slots: &mut Vec<Slot<V>>, slot: usize) -> bool
    requires inside { slot < length slots.old.items }
    requires held { (h : Occupant V) × (slice_get slots.old.items slot ≡ Some (Some h)) }
    ensures put { slots.new.items ≡ slice_set slots.old.items slot None }
    ensures old { (h : Occupant V) → slice_get slots.old.items slot ≡ Some (Some h) → result ≡ is_waiting h.mode }
    ensures len { vec_len slots.new ≡ vec_len slots.old }
{
    let waited = match slots[slot].get() {
        None => unreachable!(),
        Some(held) => held.mode.is_waiting(),
    };
    slots[slot] = Slot { held: None };
    waited
}

// A thread that waits for this goes on: true, where it does.
fn rouse<V>(held: &mut Occupant<V>, event: Event) -> bool
    ensures held { held.new ≡ record held.old { mode = wake_by event held.old.mode } }
    ensures goes { result ≡ wakes event held.old.mode }
{
    let goes = held.mode.awaits(event);
    if goes {
        held.mode = Mode::Runs;
    }
    goes
}

// The thread in a slot goes on, where it waits for this: true, where it does.
fn wake_in<V>(slot: &mut Slot<V>, event: Event) -> bool
    ensures slot { slot.new ≡ wake_slot event slot.old }
    ensures goes { result ≡ awaits_in event slot.old }
{
    match &mut slot.held {
        None => false,
        Some(boxed) => rouse(boxed.get_mut(), event),
    }
}

// The thread in the slot of this number goes on, where it waits for this: true, where it does.
fn wake_slot_at<V: Drop>(slots: &mut Vec<Slot<V>>, slot: usize, event: Event) -> bool
    requires inside { slot < length slots.old.items }
    ensures slots { slots.new.items ≡ wake_slot_at event slots.old.items slot }
    ensures goes { result ≡ awaits_at event slots.old.items slot }
    ensures count { (if result then 1 else 0) + total waiting slots.new.items ≡ total waiting slots.old.items }
    ensures len { vec_len slots.new ≡ vec_len slots.old }
{
    wake_in(&mut slots[slot], event)
}

// The same, and then its slot comes behind the others in a queue, which has room. Answers how many went on.
fn wake_next<V: Drop>(
    slots: &mut Vec<Slot<V>>,
    queue: &mut VecDeque<usize>,
    slot: usize,
    event: Event,
) -> usize
    requires inside { slot < length slots.old.items }
    requires room { deque_len queue.old < deque_capacity queue.old }
    ensures slots { slots.new.items ≡ wake_slot_at event slots.old.items slot }
    ensures queue { queue.new.items ≡ queue.old.items ++ woken_at event slots.old.items slot }
    ensures count { result + total waiting slots.new.items ≡ total waiting slots.old.items }
    ensures len { vec_len slots.new ≡ vec_len slots.old }
    ensures few { deque_len queue.new ≤ deque_len queue.old + 1 }
    ensures capacity { deque_capacity queue.new ≡ deque_capacity queue.old }
{
    if wake_slot_at(slots, slot, event) {
        queue.push_back_reserved(slot);
        1
    } else {
        0
    }
}

/// Those in the slots of these keys go on, where they wait for this, and their slots come behind the others in a queue,
/// which has room, each once. Answers how many do.
pub fn wake_slots<V: Drop>(
    slots: &mut Vec<Slot<V>>,
    queue: &mut VecDeque<usize>,
    keys: &[usize],
    event: Event,
) -> usize
    requires inside { AreInside slots.old.items keys.now }
    requires room { deque_len queue.old + length keys.now ≤ deque_capacity queue.old }
    ensures slots { slots.new.items ≡ wake_slots event slots.old.items keys.now }
    ensures queue { queue.new.items ≡ queue.old.items ++ woken event slots.old.items keys.now }
    ensures count { result + total waiting slots.new.items ≡ total waiting slots.old.items }
    ensures len { vec_len slots.new ≡ vec_len slots.old }
{
    let mut roused = 0;
    'keys: for key in keys {
        let more = wake_next(slots, queue, *key, event);
        roused += more;
    }
    roused
}
