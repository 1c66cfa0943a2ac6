//! Slots by the names of threads, as they are filed.

ghost use Rattle.std.specs.Prelude.{◌≡◌, ◌+◌, ◌++◌, ◌∷◌, [], None, Some, true, IsTrue, OnOk, OnErr};
ghost use Rattle.tree_node.specs.declared.names.ThreadName.{ThreadName as Named};
ghost use Rattle.thread_roster.specs.Slots.{slot_in, with_slot};
ghost use Rattle.thread_roster.specs.Row.{is_in_row};

use indexmap::IndexMap;
use std::alloc::{AllocError, Global};
use std::marker::Model;
use tree_node::ThreadName;

/// The slots of threads by their names, which contracts see as a list. Those of one site stand in a row by number, as long as
/// neither their numbers nor their slots have gaps: there a name takes a byte, which tells whether it has its slot still. The
/// others stand in a map. Each call costs by a look-up.
#[derive(Drop)]
pub struct SlotsByName {
    site: u32,
    first: u64,
    row: Vec<bool>,
    others: IndexMap<ThreadName, usize>,
}

impl Model for SlotsByName {
    ghost use Rattle.std.specs.Prelude.{List, ◌++◌, ℕ, zero};
    ghost use Rattle.tree_node.specs.declared.names.ThreadName.{ThreadName};
    ghost use Rattle.thread_roster.specs.Row.{in_row};

    ghost Value = { List (ThreadName × ℕ) };

    ghost view = { λ s. in_row s.site s.first zero s.row.items ++ s.others.entries };
}

// Whether a name is one of so many of a site, from a number on.
#[inline(always)]
fn is_within(site: u32, first: u64, count: usize, name: ThreadName) -> bool
    ensures { result ≡ is_in_row site first count name }
{
    name.site == site && name.num >= first && name.num - first < count as u64
}

// Whether a name is the next one behind so many of a site, from a number on, and its slot is the next one.
fn is_next(site: u32, first: u64, count: usize, name: ThreadName, slot: usize) -> bool
    ensures name { IsTrue result → name ≡ record { site = site; num = first + count } }
    ensures slot { IsTrue result → slot ≡ count }
{
    slot == count && name.site == site && name.num >= first && name.num - first == count as u64
}

// One name more, which is there. Where there is no room the row grows by a twelfth, and not to twice its size.
fn lengthen(row: &mut Vec<bool>) -> Result<(), AllocError>
    ensures ok { OnOk result (row.new.items ≡ row.old.items ++ true ∷ []) }
    ensures err { OnErr result (row.new.items ≡ row.old.items) }
{
    if row.len() == row.capacity() {
        row.reserve_exact(row.len() / 12 + 16)?;
    }
    row.push(true)?;
    Ok(())
}

// The slot of a name of a map. It is not inlined, so that most look-ups do without the stack memory that it needs.
#[inline(never)]
fn by_map(others: &IndexMap<ThreadName, usize>, name: ThreadName) -> Option<usize>
    ensures { result ≡ slot_in others.now.entries name }
{
    others.get(&name).copied()
}

// A name of a map has this slot.
fn put(
    others: &mut IndexMap<ThreadName, usize>,
    name: ThreadName,
    slot: usize,
) -> Result<(), AllocError>
    ensures ok { OnOk result ((n : Named) → slot_in others.new.entries n ≡ with_slot (slot_in others.old.entries) name (Some slot) n) }
    ensures err { OnErr result (others.new.entries ≡ others.old.entries) }
{
    others.insert(name, slot)?;
    Ok(())
}

// A name of a map has no slot from now on.
fn take(others: &mut IndexMap<ThreadName, usize>, name: ThreadName)
    ensures { (n : Named) → slot_in others.new.entries n ≡ with_slot (slot_in others.old.entries) name None n }
{
    if !others.is_empty() {
        others.swap_remove(&name);
    }
}

impl SlotsByName {
    /// No names. It takes no memory.
    pub fn new(alloc: Global) -> SlotsByName
        ensures { result ≡ [] }
    {
        SlotsByName {
            site: 0,
            first: 0,
            row: Vec::new(alloc),
            others: IndexMap::new(alloc),
        }
    }

    /// The slot of a name.
    pub fn get(&self, name: ThreadName) -> Option<usize>
        ensures { result ≡ slot_in self.now name }
    {
        if !is_within(self.site, self.first, self.row.len(), name) {
            return by_map(&self.others, name);
        }
        let place = (name.num - self.first) as usize;
        if self.row[place] {
            Some(place)
        } else {
            by_map(&self.others, name)
        }
    }

    // Where the row has no name yet, it begins at this one.
    fn begin(&mut self, name: ThreadName)
        ensures { self.new ≡ self.old }
    {
        if self.row.is_empty() {
            self.site = name.site;
            self.first = name.num;
        }
    }

    /// A name that has none has this slot.
    pub fn add(&mut self, name: ThreadName, slot: usize) -> Result<(), AllocError>
        requires { slot_in self.old name ≡ None }
        ensures ok { OnOk result ((n : Named) → slot_in self.new n ≡ with_slot (slot_in self.old) name (Some slot) n) }
        ensures err { OnErr result (self.new ≡ self.old) }
    {
        self.begin(name);
        if is_next(self.site, self.first, self.row.len(), name, slot) {
            lengthen(&mut self.row)
        } else {
            put(&mut self.others, name, slot)
        }
    }

    /// A name has no slot from now on.
    pub fn forget(&mut self, name: ThreadName)
        ensures { (n : Named) → slot_in self.new n ≡ with_slot (slot_in self.old) name None n }
    {
        if !is_within(self.site, self.first, self.row.len(), name) {
            take(&mut self.others, name);
            return;
        }
        self.row[(name.num - self.first) as usize] = false;
        take(&mut self.others, name);
    }
}
