//! The units of a turn.

ghost use Rattle.std.specs.Prelude.{◌≡◌, ◌++◌, ◌∷◌, [], true, false, IfOk, IfSome, OnOk, OnErr, flat_map};
ghost use Rattle.site_message.specs.Units.{in_a_row, thread_of, threads_in, small_units, units_of};

use std::alloc::{AllocError, Global};
use std::marker::Model;
use tree_node::ThreadName;

// A run of units, as in run-length coding, here called a stint since a run is that of a whole program: how many units of one thread
// follow one another, and the thread's name.
#[derive(Clone, Copy)]
pub(crate) struct Stint {
    count: u16,
    site: u32,
    num: u64,
}

// The same where the numbers are small, in a fourth of the memory.
#[derive(Clone, Copy)]
pub(crate) struct SmallStint {
    count: u8,
    site: u8,
    num: u16,
}

impl Stint {
    // The thread.
    fn thread(self) -> ThreadName
        ensures { result ≡ thread_of self }
    {
        ThreadName {
            site: self.site,
            num: self.num,
        }
    }

    // The stint in less memory, where its numbers are small.
    fn small(self) -> Option<SmallStint>
        ensures { IfSome result (λ stint. small_units stint ≡ units_of self) }
    {
        if self.count > 255 || self.site > 255 || self.num > 65535 {
            return None;
        }
        Some(SmallStint {
            count: self.count as u8,
            site: self.site as u8,
            num: self.num as u16,
        })
    }
}

impl SmallStint {
    // The stint as others are kept.
    fn large(self) -> Stint
        ensures { units_of result ≡ small_units self }
    {
        Stint {
            count: self.count as u16,
            site: self.site as u32,
            num: self.num as u64,
        }
    }
}

// Units in 16 bytes: those of one thread take no memory, and those of several take it for each stint. The fields of a stint
// stand in the variant itself, where they take less.
#[derive(Drop)]
pub(crate) enum Stints {
    One { count: u16, site: u32, num: u64 },
    Small(Box<Vec<SmallStint>>),
    Large(Box<Vec<Stint>>),
}

/// The thread of each unit of a turn, in order, which contracts see as a list. Those of one `push_row` are kept together, and take
/// no memory for each; those of a turn of one thread take none at all. `push` counts on only while all units are of one thread.
#[derive(Drop)]
pub struct Units {
    stints: Stints,
    alloc: Global,
}

impl Model for Units {
    ghost use Rattle.std.specs.Prelude.{List};
    ghost use Rattle.tree_node.specs.declared.names.ThreadName.{ThreadName};
    ghost use Rattle.site_message.specs.Units.{threads_in};

    ghost Value = { List ThreadName };

    ghost view = { λ u. threads_in u.stints };
}

impl Units {
    /// No units. It takes no memory.
    pub fn new(alloc: Global) -> Units
        ensures { result ≡ [] }
    {
        Units {
            stints: Stints::One {
                count: 0,
                site: 0,
                num: 0,
            },
            alloc,
        }
    }

    /// Units of these threads, in order.
    pub fn from_slice(alloc: Global, threads: &[ThreadName]) -> Result<Units, AllocError>
        ensures { IfOk result (λ units. units ≡ threads.now) }
    {
        let mut units = Units::new(alloc);
        for thread in threads {
            units.push(*thread)?;
        }
        Ok(units)
    }

    /// One more unit, of this thread.
    pub fn push(&mut self, thread: ThreadName) -> Result<(), AllocError>
        ensures ok { OnOk result (self.new ≡ self.old ++ thread ∷ []) }
        ensures err { OnErr result (self.new ≡ self.old) }
    {
        if count_on(&mut self.stints, thread) {
            return Ok(());
        }
        self.push_row(thread, 1)
    }

    /// So many units more in a row, of this thread.
    pub fn push_row(&mut self, thread: ThreadName, count: u16) -> Result<(), AllocError>
        ensures ok { OnOk result (self.new ≡ self.old ++ in_a_row count thread) }
        ensures err { OnErr result (self.new ≡ self.old) }
    {
        let next = Stint {
            count,
            site: thread.site,
            num: thread.num,
        };
        push_next(self.alloc, &mut self.stints, next)
    }

    /// The threads of the units, one for each, in a vector. It takes memory for each of them.
    pub fn to_vec(&self, alloc: Global) -> Result<Vec<ThreadName>, AllocError>
        ensures { IfOk result (λ threads. threads.items ≡ self.now) }
    {
        match &self.stints {
            Stints::One { count, site, num } => {
                let stint = Stint {
                    count: *count,
                    site: *site,
                    num: *num,
                };
                let mut threads = Vec::new(alloc);
                push_stint(&mut threads, stint)?;
                Ok(threads)
            }
            Stints::Small(stints) => small_threads(alloc, stints.as_slice()),
            Stints::Large(stints) => large_threads(alloc, stints.as_slice()),
        }
    }
}

// Counts on where all units are of this thread, and tells whether they are.
#[tactic(auto, using(crate::proofs::UnitLemmas::one_on))]
fn count_on(stints: &mut Stints, thread: ThreadName) -> bool
    ensures yes { result ≡ true → threads_in stints.new ≡ threads_in stints.old ++ thread ∷ [] }
    ensures no { result ≡ false → stints.new ≡ stints.old }
{
    match stints {
        Stints::One { count, site, num } => {
            if *num == thread.num && *site == thread.site && *count < u16::MAX {
                *count += 1;
                return true;
            }
            false
        }
        Stints::Small(_) => false,
        Stints::Large(_) => false,
    }
}

// A stint behind the others.
#[tactic(auto, using(crate::proofs::UnitLemmas::behind_none, crate::proofs::UnitLemmas::small_more, crate::proofs::UnitLemmas::large_more))]
fn push_next(alloc: Global, stints: &mut Stints, next: Stint) -> Result<(), AllocError>
    ensures ok { OnOk result (threads_in stints.new ≡ threads_in stints.old ++ units_of next) }
    ensures err { OnErr result (threads_in stints.new ≡ threads_in stints.old) }
{
    match stints {
        Stints::One { count, site, num } => {
            if *count == 0 {
                *count = next.count;
                *site = next.site;
                *num = next.num;
                return Ok(());
            }
            let first = Stint {
                count: *count,
                site: *site,
                num: *num,
            };
            *stints = two_stints(alloc, first, next)?;
        }
        Stints::Small(row) => match next.small() {
            Some(small) => row.push(small)?,
            None => {
                let large = enlarged(alloc, row.as_slice(), next)?;
                *stints = Stints::Large(large);
            }
        },
        Stints::Large(row) => row.push(next)?,
    }
    Ok(())
}

// One stint behind another.
#[inline(never)]
#[tactic(auto, using(crate::proofs::UnitLemmas::two_of, crate::proofs::UnitLemmas::two_small))]
fn two_stints(alloc: Global, first: Stint, next: Stint) -> Result<Stints, AllocError>
    ensures { IfOk result (λ stints. threads_in stints ≡ units_of first ++ units_of next) }
{
    if let Some(small_first) = first.small() {
        if let Some(small_next) = next.small() {
            return Ok(Stints::Small(two(alloc, small_first, small_next)?));
        }
    }
    Ok(Stints::Large(two(alloc, first, next)?))
}

// Two items in a vector, with room for some more.
fn two<T: Drop>(alloc: Global, first: T, next: T) -> Result<Box<Vec<T>>, AllocError>
    ensures { IfOk result (λ row. row.value.items ≡ first ∷ next ∷ []) }
{
    // Room for some more: six small stints are 24 bytes.
    let mut row = Vec::with_capacity(alloc, 6)?;
    row.push(first)?;
    row.push(next)?;
    Ok(Box::new(alloc, row)?)
}

// Small stints as others are kept, and one more.
#[inline(never)]
#[tactic(auto, using(crate::proofs::UnitLemmas::large_more))]
fn enlarged(
    alloc: Global,
    stints: &[SmallStint],
    next: Stint,
) -> Result<Box<Vec<Stint>>, AllocError>
    ensures { IfOk result (λ row. flat_map units_of row.value.items ≡ flat_map small_units stints.now ++ units_of next) }
{
    let mut row = Vec::new(alloc);
    for stint in stints {
        row.push(stint.large())?;
    }
    row.push(next)?;
    Ok(Box::new(alloc, row)?)
}

// The thread of each unit of these stints.
fn small_threads(alloc: Global, stints: &[SmallStint]) -> Result<Vec<ThreadName>, AllocError>
    ensures { IfOk result (λ threads. threads.items ≡ flat_map small_units stints.now) }
{
    let mut threads = Vec::new(alloc);
    for stint in stints {
        push_stint(&mut threads, stint.large())?;
    }
    Ok(threads)
}

// The thread of each unit of these stints.
fn large_threads(alloc: Global, stints: &[Stint]) -> Result<Vec<ThreadName>, AllocError>
    ensures { IfOk result (λ threads. threads.items ≡ flat_map units_of stints.now) }
{
    let mut threads = Vec::new(alloc);
    for stint in stints {
        push_stint(&mut threads, *stint)?;
    }
    Ok(threads)
}

// The thread of each unit of a stint, behind others.
#[tactic(auto, using(crate::proofs::UnitLemmas::row_more))]
fn push_stint(threads: &mut Vec<ThreadName>, stint: Stint) -> Result<(), AllocError>
    ensures { OnOk result (threads.new.items ≡ threads.old.items ++ units_of stint) }
{
    let thread = stint.thread();
    for count in 0..stint.count {
        // The loop's invariant counts by it.
        let _ = count;
        threads.push(thread)?;
    }
    Ok(())
}
