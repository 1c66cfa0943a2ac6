//! Slots of names, and the first slot of the queue.

ghost use Rattle.std.specs.Prelude.{◌≡◌, ◌≢◌, ◌+◌, ◌<◌, ◌≤◌, ◌^◌, ◌++◌, ◌∷◌, [], Some, IsSome, IfSome, IfNone, slice_get, length, if◌then◌else◌};
ghost use Rattle.tree_node.specs.Assoc.{value_of};
ghost use Rattle.tree_node.specs.State.{equal_thread};
ghost use Rattle.thread_roster.specs.declared.slot.Occupant.{Occupant as TheOccupant};
ghost use Rattle.thread_roster.specs.Slots.{threads_in, ArePlaced, AreInside, slot_in, HasLeft, IsRest, IsNext};

use crate::queue::Queue;
use crate::slot::{Slot, is_of, runnable_name};
use crate::table::SlotsByName;
use tree_node::ThreadName;

/// The slot of a name, if it has one. The first of the queue is looked at before the table.
pub fn slot_of<V>(
    slots: &Vec<Slot<V>>,
    by_name: &SlotsByName,
    queue: &Queue,
    name: ThreadName,
) -> Option<usize>
    requires placed { ArePlaced slots.now.items (slot_in by_name.now) }
    requires inside { AreInside slots.now.items queue.now }
    ensures { result ≡ slot_in by_name.now name }
{
    if let Some(slot) = queue.first() {
        if is_of(&slots[slot], name) {
            return Some(slot);
        }
    }
    by_name.get(name)
}

/// The slot of a living thread.
pub fn find<V>(
    slots: &Vec<Slot<V>>,
    by_name: &SlotsByName,
    queue: &Queue,
    name: ThreadName,
) -> usize
    requires placed { ArePlaced slots.now.items (slot_in by_name.now) }
    requires inside { AreInside slots.now.items queue.now }
    requires lives { IsSome (value_of equal_thread (threads_in slots.now.items) name) }
    ensures slot { slot_in by_name.now name ≡ Some result }
    ensures inside { result < length slots.now.items }
    ensures held { (h : TheOccupant V) × (slice_get slots.now.items result ≡ Some (Some h)) × (h.name ≡ name) }
{
    match slot_of(slots, by_name, queue, name) {
        None => unreachable!(),
        Some(slot) => slot,
    }
}

/// A slot that is the first of the queue leaves it.
pub fn leave(queue: &mut Queue, slot: usize)
    ensures { HasLeft slot queue.old queue.new }
{
    if queue.first() == Some(slot) {
        queue.pop();
    }
}

/// The first thread in the queue that can go on. Slots before its slot leave the queue.
pub fn next_runnable<V>(slots: &Vec<Slot<V>>, queue: &mut Queue) -> Option<ThreadName>
    requires inside { AreInside slots.now.items queue.old }
    ensures rest { IsRest slots.now.items queue.old queue.new }
    ensures some { IfSome result (λ n. IsNext slots.now.items queue.new n) }
    ensures none { IfNone result (queue.new ≡ []) }
{
    'slots: while let Some(slot) = queue.first() {
        if let Some(name) = runnable_name(&slots[slot]) {
            return Some(name);
        }
        queue.pop();
    }
    None
}

/// How many threads wait after one has come to wait; `waited` tells whether it waited already.
pub fn count_waiting(waiting: usize, waited: bool) -> usize
    requires few { waiting < 2 ^ 63 }
    ensures { result + (if waited then 1 else 0) ≡ waiting + 1 }
{
    if waited { waiting } else { waiting + 1 }
}

/// How many threads wait after one has gone on or ended; `waited` tells whether it waited.
pub fn count_running(waiting: usize, waited: bool) -> usize
    requires among { (if waited then 1 else 0) ≤ waiting }
    ensures { result + (if waited then 1 else 0) ≡ waiting }
{
    if waited { waiting - 1 } else { waiting }
}
