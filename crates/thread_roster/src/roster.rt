//! Threads by name.

ghost use Rattle.std.specs.Prelude.{Contains, ℕ, ◌≡◌, ◌≢◌, ◌↔◌, ◌+◌, ◌∷◌, ◌++◌, [], List, None, Some, Bool, false, OnOk, OnErr, IfOk, IfSome, IfNone, IsTrue, IsSome, length};
ghost use Rattle.std.specs.Borrow.{sem};
ghost use Rattle.std.specs.Vec.{vec_len};
ghost use Rattle.tree_node.specs.declared.names.ThreadName.{ThreadName as Named};
ghost use Rattle.tree_node.specs.declared.names.VarName.{VarName as TheVar};
ghost use Rattle.tree_node.specs.Assoc.{value_of, without_key};
ghost use Rattle.tree_node.specs.State.{equal_thread};
ghost use Rattle.tree_node.specs.Store.{equal_var};
ghost use Rattle.thread_roster.specs.declared.mode.Mode.{Mode as Standing};
ghost use Rattle.thread_roster.specs.declared.mode.Mode.TheVariants as stands;
ghost use Rattle.waiting_keys.specs.Keys.{keys_among, without_keys};
ghost use Rattle.tree_node.specs.Each.{Each};
ghost use Rattle.thread_roster.specs.Parking.{HasMoreKeys};
ghost use Rattle.thread_roster.specs.Slots.{threads_in as slots_hold, slot_in, with_slot, AreInside, var_of, woken, wake_slots, total, waiting as waits};
ghost use Rattle.thread_roster.specs.Threads.{set_mode, set_value, wake_all, determine_all, waiting_of, AllWait, IsSuspended, IsRunnable, IsOrderOf};
ghost use Rattle.thread_roster.specs.Order.{without_name, rotated, HaveComeBehind};

use crate::mode::{Awaited, Event, Mode};
use crate::queue::Queue;
use crate::slot::{Occupant, Slot, clear, make_room, set_mode, value_in};
use crate::slots_by_name::{count_running, count_waiting, find, leave, next_runnable, slot_of};
use crate::table::SlotsByName;
use std::alloc::{AllocError, Global};
use std::marker::Model;
use tree_node::{ThreadName, VarList, VarName};
use waiting_keys::Waiters;

/// Threads by name, each with a value and how it stands, which contracts see as a list, the newest first, the number of
/// those that have ended, and the order of those that can go on. A thread keeps its slot until it has ended. Those that can go on
/// have their slots in a queue; there the slot of a thread that has ended is passed over, and among the keys of a variable each
/// that does not wait for it. Those that wait until a variable is bound have other keys than those that need its node, so that neither
/// are looked at for the others.
#[derive(Drop)]
pub struct Roster<V> {
    alloc: Global,
    slots: Vec<Slot<V>>,
    by_name: SlotsByName,
    queue: Queue,
    waiters: Waiters,
    needers: Waiters,
    living: usize,
    waiting: usize,
}

impl<V> Model for Roster<V> {
    ghost use Rattle.std.specs.Prelude.{length, ◌-◌};
    ghost use Rattle.thread_roster.specs.Threads.{Threads};

    ghost Value = { Threads V };

    ghost use Rattle.thread_roster.specs.Slots.{threads_in, total, one, names_at};
    ghost use Rattle.thread_roster.specs.Invariant.{IsConsistent, IsOrdered};
    ghost use Rattle.thread_roster.specs.Parking.{keys_for};

    ghost view = { λ r. record {
      living = threads_in r.slots.items;
      ended = length r.slots.items - total one r.slots.items;
      order = names_at r.slots.items r.queue;
    } };

    ghost invariant = { λ r. IsConsistent r.slots.items r.by_name r.queue (keys_for r.waiters r.needers) r.living r.waiting × IsOrdered r.slots.items r.queue };
}

// A slot is among the keys of each of these variables.
fn park(waiters: &mut Waiters, vars: &[VarName], slot: usize) -> Result<(), AllocError>
    ensures stay { HasMoreKeys (keys_among waiters.old) slot (keys_among waiters.new) }
    ensures there { OnOk result (Each (λ y. Contains (keys_among waiters.new y) slot) vars.now) }
{
    'vars: for var in vars {
        park_at(waiters, *var, slot)?;
    }
    Ok(())
}

// A slot is among the keys of a variable, where it may be already. Where it is the last there, nothing changes.
#[tactic(auto, using(crate::proofs::ParkingLemmas::more_at))]
fn park_at(waiters: &mut Waiters, var: VarName, slot: usize) -> Result<(), AllocError>
    ensures stay { HasMoreKeys (keys_among waiters.old) slot (keys_among waiters.new) }
    ensures there { OnOk result (Contains (keys_among waiters.new var) slot) }
    ensures last { (ks : List ℕ) → keys_among waiters.old var ≡ ks ++ slot ∷ [] → waiters.new ≡ waiters.old }
{
    waiters.add_again(var, slot)
}

// A name that has no slot has this one, which comes behind the others in the queue.
fn enqueue(
    by_name: &mut SlotsByName,
    queue: &mut Queue,
    name: ThreadName,
    slot: usize,
) -> Result<(), AllocError>
    requires { slot_in by_name.old name ≡ None }
    ensures named { OnOk result ((n : Named) → slot_in by_name.new n ≡ with_slot (slot_in by_name.old) name (Some slot) n) }
    ensures queue { OnOk result (queue.new ≡ queue.old ++ slot ∷ []) }
    ensures same { OnErr result ((n : Named) → slot_in by_name.new n ≡ slot_in by_name.old n) }
    ensures err { OnErr result (queue.new ≡ queue.old) }
{
    by_name.add(name, slot)?;
    match queue.push(slot) {
        Ok(_) => Ok(()),
        Err(error) => {
            by_name.forget(name);
            Err(error)
        }
    }
}

// The threads that wait for this go on, behind those in the queue, and the keys of its variable are taken. Answers how many go on. Where no
// thread waits, those that went on by another variable may have left keys. Where there are no keys, nothing is left to do.
#[tactic(auto, using(crate::proofs::WakeLemmas::idle_queue, crate::proofs::WakeLemmas::idle_slots, crate::proofs::WakeLemmas::unkeyed_queue, crate::proofs::WakeLemmas::unkeyed_slots, crate::proofs::WakeLemmas::none_taken))]
fn rouse<V: Drop>(
    slots: &mut Vec<Slot<V>>,
    queue: &mut Queue,
    waiters: &mut Waiters,
    waiting: usize,
    event: Event,
) -> Result<usize, AllocError>
    requires inside { AreInside slots.old.items (keys_among waiters.old (var_of event)) }
    requires waiting { waiting ≡ total waits slots.old.items }
    ensures queue { OnOk result (queue.new ≡ queue.old ++ woken event slots.old.items (keys_among waiters.old (var_of event))) }
    ensures slots { OnOk result (slots.new.items ≡ wake_slots event slots.old.items (keys_among waiters.old (var_of event))) }
    ensures count { IfOk result (λ roused. roused + total waits slots.new.items ≡ total waits slots.old.items) }
    ensures taken { OnOk result ((y : TheVar) → keys_among waiters.new y ≡ without_keys (keys_among waiters.old) (var_of event) y) }
    ensures len { vec_len slots.new ≡ vec_len slots.old }
    ensures err { OnErr result ((queue.new ≡ queue.old) × (slots.new ≡ slots.old) × (waiters.new ≡ waiters.old)) }
{
    let var = event.var();
    if waiting == 0 {
        waiters.take(var);
        return Ok(0);
    }
    let keys = waiters.keys_at(var);
    if keys.is_empty() {
        return Ok(0);
    }
    let roused = queue.wake(slots, keys, event)?;
    waiters.take(var);
    Ok(roused)
}

impl<V: Drop> Roster<V> {
    ghost use Rattle.thread_roster.specs.Lends.{lends_value};

    /// No threads.
    #[tactic(auto, using(crate::proofs::ConsistencyLemmas::kept_none, crate::proofs::ParkingLemmas::none_filed, crate::proofs::QueueLemmas::ordered_none))]
    pub fn new(alloc: Global) -> Roster<V>
        ensures living { result.living ≡ [] }
        ensures ended { result.ended ≡ 0 }
        ensures order { result.order ≡ [] }
    {
        Roster {
            alloc,
            slots: Vec::new(alloc),
            by_name: SlotsByName::new(alloc),
            queue: Queue::new(alloc),
            waiters: Waiters::new(alloc),
            needers: Waiters::new(alloc),
            living: 0,
            waiting: 0,
        }
    }

    /// How many threads live.
    #[tactic(auto, using(crate::proofs::WakeLemmas::living_is))]
    pub fn len(&self) -> usize
        ensures { result ≡ length self.now.living }
    {
        self.living
    }

    /// How many of them wait.
    #[tactic(auto, using(crate::proofs::WakeLemmas::waiting_is))]
    pub fn waiting(&self) -> usize
        ensures { result ≡ waiting_of self.now.living }
    {
        self.waiting
    }

    /// Whether a thread may need the node of a variable: where none may, nobody goes on by one.
    pub fn may_need(&self) -> bool
        ensures { result ≡ false → (f : TheVar → Bool) → determine_all f self.now.living ≡ self.now.living }
    {
        !self.needers.is_empty()
    }

    /// How many threads have ended.
    #[tactic(auto, using(crate::proofs::SlotLemmas::living_le))]
    pub fn ended(&self) -> usize
        ensures { result ≡ self.now.ended }
    {
        self.slots.len() - self.living
    }

    /// Whether none can go on.
    #[tactic(auto, using(crate::proofs::WakeLemmas::all_wait, crate::proofs::WakeLemmas::as_many_wait))]
    pub fn is_idle(&self) -> bool
        ensures { IsTrue result ↔ AllWait self.now.living }
    {
        self.waiting() == self.len()
    }

    /// Whether a thread of this name lives.
    pub fn contains(&self, name: ThreadName) -> bool
        ensures { IsTrue result ↔ IsSome (value_of equal_thread self.now.living name) }
    {
        slot_of(&self.slots, &self.by_name, &self.queue, name).is_some()
    }

    /// The value of a thread.
    pub fn get(&self, name: ThreadName) -> Option<&V>
        ensures some { IfSome result (λ v. (m : Standing) × (value_of equal_thread self.now.living name ≡ Some (v.now, m))) }
        ensures none { IfNone result (value_of equal_thread self.now.living name ≡ None) }
    {
        match slot_of(&self.slots, &self.by_name, &self.queue, name) {
            None => None,
            Some(slot) => match self.slots[slot].get() {
                None => unreachable!(),
                Some(held) => Some(&held.value),
            },
        }
    }

    /// How a thread stands.
    pub fn mode(&self, name: ThreadName) -> Option<&Mode>
        ensures some { IfSome result (λ m. (v : V) × (value_of equal_thread self.now.living name ≡ Some (v, m.now))) }
        ensures none { IfNone result (value_of equal_thread self.now.living name ≡ None) }
    {
        match slot_of(&self.slots, &self.by_name, &self.queue, name) {
            None => None,
            Some(slot) => match self.slots[slot].get() {
                None => unreachable!(),
                Some(held) => Some(&held.mode),
            },
        }
    }

    /// The slots of all threads, in the order in which they were born; that of a thread that has ended is empty.
    pub fn slots(&self) -> &[Slot<V>]
        ensures { slots_hold result.now ≡ self.now.living }
    {
        self.slots.as_slice()
    }

    /// The value of a thread, to be changed in its place.
    pub fn value_mut(&mut self, name: ThreadName) -> &mut V
        requires lives { IsSome (value_of equal_thread self.old.living name) }
        ensures* writes_back { sem 𝓛 (lends_value V.row self.entry name result) }
        ensures value { (m : Standing) × (value_of equal_thread self.old.living name ≡ Some (result.now, m)) }
    {
        let slot = find(&self.slots, &self.by_name, &self.queue, name);
        value_in(&mut self.slots[slot])
    }

    /// A thread is born, and goes behind those that can go on.
    pub fn start(&mut self, name: ThreadName, value: V) -> Result<(), AllocError>
        requires new { value_of equal_thread self.old.living name ≡ None }
        ensures living { OnOk result (self.new.living ≡ (name, (value, stands.Runs)) ∷ self.old.living) }
        ensures ended { OnOk result (self.new.ended ≡ self.old.ended) }
        ensures order { OnOk result (self.new.order ≡ self.old.order ++ name ∷ []) }
        ensures err { OnErr result (self.new ≡ self.old) }
    {
        let slot = self.slots.len();
        let mode = Mode::Runs;
        let held = Slot::new(self.alloc, Occupant { name, mode, value })?;
        make_room(&mut self.slots)?;
        enqueue(&mut self.by_name, &mut self.queue, name, slot)?;
        self.slots.push_reserved(held);
        self.living += 1;
        Ok(())
    }

    /// A thread waits until a variable is bound.
    pub fn wait(&mut self, name: ThreadName, var: VarName) -> Result<(), AllocError>
        requires lives { IsSome (value_of equal_thread self.old.living name) }
        ensures living { OnOk result (self.new.living ≡ set_mode self.old.living name (stands.Waits var)) }
        ensures ended { OnOk result (self.new.ended ≡ self.old.ended) }
        ensures order { OnOk result (self.new.order ≡ without_name name self.old.order) }
        ensures err { OnErr result (self.new ≡ self.old) }
    {
        let slot = find(&self.slots, &self.by_name, &self.queue, name);
        self.waiters.add(var, slot)?;
        let waited = set_mode(&mut self.slots, slot, Mode::Waits(var));
        self.waiting = count_waiting(self.waiting, waited);
        self.queue.remove(slot);
        Ok(())
    }

    /// A thread needs the node of a variable's class, and waits until there is one.
    pub fn need(&mut self, name: ThreadName, var: VarName) -> Result<(), AllocError>
        requires lives { IsSome (value_of equal_thread self.old.living name) }
        ensures living { OnOk result (self.new.living ≡ set_mode self.old.living name (stands.Needs var)) }
        ensures ended { OnOk result (self.new.ended ≡ self.old.ended) }
        ensures order { OnOk result (self.new.order ≡ without_name name self.old.order) }
        ensures err { OnErr result (self.new ≡ self.old) }
    {
        let slot = find(&self.slots, &self.by_name, &self.queue, name);
        self.needers.add(var, slot)?;
        let waited = set_mode(&mut self.slots, slot, Mode::Needs(var));
        self.waiting = count_waiting(self.waiting, waited);
        self.queue.remove(slot);
        Ok(())
    }

    /// A thread waits until any of several variables is bound. It may be among the keys of the others still when it goes on, and
    /// is passed over there.
    pub fn wait_any(&mut self, name: ThreadName, vars: VarList) -> Result<(), AllocError>
        requires lives { IsSome (value_of equal_thread self.old.living name) }
        requires some { vars ≢ [] }
        ensures living { OnOk result (self.new.living ≡ set_mode self.old.living name (stands.WaitsAny vars)) }
        ensures ended { OnOk result (self.new.ended ≡ self.old.ended) }
        ensures order { OnOk result (self.new.order ≡ without_name name self.old.order) }
        ensures err { OnErr result (self.new ≡ self.old) }
    {
        let slot = find(&self.slots, &self.by_name, &self.queue, name);
        park(&mut self.waiters, vars.as_slice(), slot)?;
        let waited = set_mode(&mut self.slots, slot, Mode::WaitsAny(vars));
        self.waiting = count_waiting(self.waiting, waited);
        self.queue.remove(slot);
        Ok(())
    }

    /// A thread waits for a cell or a port, until `resume` lets it go on.
    pub fn wait_for(&mut self, name: ThreadName, awaited: Awaited)
        requires lives { IsSome (value_of equal_thread self.old.living name) }
        ensures living { self.new.living ≡ set_mode self.old.living name (stands.WaitsFor awaited) }
        ensures ended { self.new.ended ≡ self.old.ended }
        ensures order { self.new.order ≡ without_name name self.old.order }
    {
        let slot = find(&self.slots, &self.by_name, &self.queue, name);
        let waited = set_mode(&mut self.slots, slot, Mode::WaitsFor(awaited));
        self.waiting = count_waiting(self.waiting, waited);
        self.queue.remove(slot);
    }

    /// A thread that waits goes on, behind those that can go on.
    pub fn resume(&mut self, name: ThreadName) -> Result<(), AllocError>
        requires waits { IsSuspended self.old.living name }
        ensures living { OnOk result (self.new.living ≡ set_mode self.old.living name stands.Runs) }
        ensures ended { OnOk result (self.new.ended ≡ self.old.ended) }
        ensures order { OnOk result (self.new.order ≡ self.old.order ++ name ∷ []) }
        ensures err { OnErr result (self.new ≡ self.old) }
    {
        let slot = find(&self.slots, &self.by_name, &self.queue, name);
        self.queue.push(slot)?;
        let waited = set_mode(&mut self.slots, slot, Mode::Runs);
        self.waiting = count_running(self.waiting, waited);
        Ok(())
    }

    /// The threads that wait until a variable is bound go on, behind those that can go on, in the order in which they first came to wait for
    /// it, which no clause tells. One that is among the keys there still, and goes on already, keeps its place. No key stays there.
    pub fn wake(&mut self, var: VarName) -> Result<(), AllocError>
        ensures living { OnOk result (self.new.living ≡ wake_all var self.old.living) }
        ensures ended { OnOk result (self.new.ended ≡ self.old.ended) }
        ensures order { OnOk result (HaveComeBehind self.old.order self.new.order) }
        ensures err { OnErr result (self.new ≡ self.old) }
    {
        let roused = rouse(
            &mut self.slots,
            &mut self.queue,
            &mut self.waiters,
            self.waiting,
            Event::Bound(var),
        )?;
        self.waiting -= roused;
        Ok(())
    }

    /// The threads that need the node of a variable go on, behind those that can go on, in the order in which they came to need it,
    /// which no clause tells. No key of such a thread stays there.
    pub fn determine(&mut self, var: VarName) -> Result<(), AllocError>
        ensures living { OnOk result (self.new.living ≡ determine_all (λ y. equal_var y var) self.old.living) }
        ensures ended { OnOk result (self.new.ended ≡ self.old.ended) }
        ensures order { OnOk result (HaveComeBehind self.old.order self.new.order) }
        ensures err { OnErr result (self.new ≡ self.old) }
    {
        let roused = rouse(
            &mut self.slots,
            &mut self.queue,
            &mut self.needers,
            self.waiting,
            Event::Determined(var),
        )?;
        self.waiting -= roused;
        Ok(())
    }

    /// A thread has ended.
    pub fn end(&mut self, name: ThreadName)
        requires lives { IsSome (value_of equal_thread self.old.living name) }
        ensures living { self.new.living ≡ without_key equal_thread self.old.living name }
        ensures ended { self.new.ended ≡ self.old.ended + 1 }
        ensures order { self.new.order ≡ without_name name self.old.order }
    {
        let slot = find(&self.slots, &self.by_name, &self.queue, name);
        let waited = clear(&mut self.slots, slot);
        self.waiting = count_running(self.waiting, waited);
        self.by_name.forget(name);
        self.living -= 1;
        leave(&mut self.queue, slot);
    }

    /// The first thread in the order of those that can go on; none, exactly where no thread can.
    pub fn first(&mut self) -> Option<ThreadName>
        ensures some { IfSome result (λ n. IsRunnable self.old.living n) }
        ensures first { IfSome result (λ n. (rest : List Named) × (self.old.order ≡ n ∷ rest) × (without_name n rest ≡ rest)) }
        ensures all { (n : Named) → Contains self.old.order n ↔ IsRunnable self.old.living n }
        ensures none { IfNone result (AllWait self.old.living) }
        ensures empty { IfNone result (self.old.order ≡ []) }
        ensures same { self.new ≡ self.old }
    {
        next_runnable(&self.slots, &mut self.queue)
    }

    /// Exactly those threads stand in the order that can go on, each once. It does nothing: its clause is what it tells.
    pub fn in_order(&self)
        ensures { IsOrderOf self.now.living self.now.order }
    {
        let _ = &self.queue;
    }

    /// The first thread in the order of those that can go on goes behind the others.
    pub fn rotate(&mut self)
        ensures { self.new ≡ record self.old { order = rotated self.old.order } }
    {
        next_runnable(&self.slots, &mut self.queue);
        self.queue.rotate();
    }
}
