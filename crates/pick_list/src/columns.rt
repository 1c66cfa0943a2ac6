//! The columns of a list of picks.

ghost use Rattle.std.specs.Prelude.{◌≡◌, ◌+◌, ◌++◌, ◌<◌, ◌≤◌, ◌^◌, List, ℕ, IsTrue, IfOk, OnOk, OnErr, map, reverse, take, length, vec_len, vec_capacity};
ghost use Rattle.tree_node.specs.declared.names.Name.{Name as Named};
ghost use Rattle.pick_list.specs.Columns.{AreColumns, AreStretches, AreNamings, AreBinds, HasThread, IsStretchOn, IsNamingOn, IsStretchBefore, IsNamingBefore, IsBindBefore, columns_of, pick_at, picks_below, thread_at, fresh_at, bind_at};
ghost use Rattle.pick_list.specs.Compact.{wide};
ghost use Rattle.pick_list.specs.Namings.{HasRoom, namings_in};

use crate::names::NameColumn;
use crate::namings::NamingColumn;
use std::alloc::{AllocError, Global};
use tree_node::{Name, NameList, Pick, Term, ThreadName, VarName, copy_term};

/// Picks of one thread, one after the other: the place of the first of them.
#[derive(Clone, Copy)]
pub struct Stretch {
    pub first: usize,
    pub thread: ThreadName,
}

/// A pick that takes fresh names: its place, and that of the first of its names among those of all picks.
#[derive(Clone, Copy)]
pub struct Naming {
    pub pick: usize,
    pub first: usize,
}

/// The same where the numbers are small, in a fourth of the memory.
#[derive(Clone, Copy)]
pub struct SmallNaming {
    pub pick: u16,
    pub first: u16,
}

impl SmallNaming {
    // The naming as others are kept.
    fn wide(self) -> Naming
        ensures { result ≡ wide self }
    {
        Naming {
            pick: self.pick as usize,
            first: self.first as usize,
        }
    }
}

/// A pick that adds an equation: its place, and the equation.
#[derive(Drop)]
pub struct Bind {
    pub pick: usize,
    pub var: VarName,
    pub term: Term,
}

// Whether the last stretch is of this thread.
fn is_last_thread(stretches: &[Stretch], thread: ThreadName) -> bool
    ensures { IsTrue result → HasThread (reverse stretches.now) thread }
{
    match stretches {
        [] => false,
        [.., last] => last.thread == thread,
    }
}

/// A pick of this thread behind the others.
pub(crate) fn add_stretch(stretches: &mut Vec<Stretch>, pick: usize, thread: ThreadName)
    requires room { vec_len stretches.old < vec_capacity stretches.old }
    requires stretches { AreStretches pick (reverse stretches.old.items) }
    ensures { IsStretchOn pick thread (reverse stretches.old.items) (reverse stretches.new.items) }
{
    if !is_last_thread(stretches.as_slice(), thread) {
        stretches.push_reserved(Stretch {
            first: pick,
            thread,
        });
    }
}

// The names of a pick behind the others, where it takes some: those from a place on.
fn add_naming(namings: &mut NamingColumn, pick: usize, first: usize, fresh: &[Name])
    requires room { HasRoom namings.old }
    requires namings { AreNamings pick first (reverse (namings_in namings.old)) }
    ensures { (before : List Named) → length before ≡ first → IsNamingOn pick fresh.now before (reverse (namings_in namings.old)) (reverse (namings_in namings.new)) }
{
    if !fresh.is_empty() {
        namings.push_reserved(Naming { pick, first });
    }
}

// A pick of this thread with these names behind the others, which may take memory. It is not inlined, so that most picks do
// without the stack memory that it needs.
#[inline(never)]
fn put_apart(
    stretches: &mut Vec<Stretch>,
    namings: &mut NamingColumn,
    names: &mut NameColumn,
    pick: usize,
    thread: ThreadName,
    fresh: &[Name],
) -> Result<(), AllocError>
    requires stretches { AreStretches pick (reverse stretches.old.items) }
    requires namings { AreNamings pick (length names.old) (reverse (namings_in namings.old)) }
    ensures threads { OnOk result (IsStretchOn pick thread (reverse stretches.old.items) (reverse stretches.new.items)) }
    ensures fresh { OnOk result (IsNamingOn pick fresh.now names.old (reverse (namings_in namings.old)) (reverse (namings_in namings.new))) }
    ensures names { OnOk result (names.new ≡ names.old ++ fresh.now) }
    ensures same_stretches { OnErr result (stretches.new.items ≡ stretches.old.items) }
    ensures same_namings { OnErr result (namings_in namings.new ≡ namings_in namings.old) }
    ensures same_names { OnErr result (names.new ≡ names.old) }
{
    stretches.reserve(1)?;
    namings.reserve()?;
    let first = names.len();
    names.extend_from_slice(fresh)?;
    add_naming(namings, pick, first, fresh);
    add_stretch(stretches, pick, thread);
    Ok(())
}

/// A pick of this thread with these names behind the others. After an error all columns are as before.
pub fn put(
    stretches: &mut Vec<Stretch>,
    namings: &mut NamingColumn,
    names: &mut NameColumn,
    pick: usize,
    thread: ThreadName,
    fresh: &[Name],
) -> Result<(), AllocError>
    requires stretches { AreStretches pick (reverse stretches.old.items) }
    requires namings { AreNamings pick (length names.old) (reverse (namings_in namings.old)) }
    ensures threads { OnOk result (IsStretchOn pick thread (reverse stretches.old.items) (reverse stretches.new.items)) }
    ensures fresh { OnOk result (IsNamingOn pick fresh.now names.old (reverse (namings_in namings.old)) (reverse (namings_in namings.new))) }
    ensures names { OnOk result (names.new ≡ names.old ++ fresh.now) }
    ensures same_stretches { OnErr result (stretches.new.items ≡ stretches.old.items) }
    ensures same_namings { OnErr result (namings_in namings.new ≡ namings_in namings.old) }
    ensures same_names { OnErr result (names.new ≡ names.old) }
{
    if fresh.is_empty() && is_last_thread(stretches.as_slice(), thread) {
        return Ok(());
    }
    put_apart(stretches, namings, names, pick, thread, fresh)
}

/// How many stretches begin before a pick, where it is the last one.
pub fn stretches_before(stretches: &[Stretch], pick: usize) -> usize
    requires { AreStretches (pick + 1) (reverse stretches.now) }
    ensures within { result ≤ length stretches.now }
    ensures before { IsStretchBefore pick (reverse stretches.now) (reverse (take result stretches.now)) }
{
    match stretches {
        [rest @ .., last] if last.first == pick => rest.len(),
        _ => stretches.len(),
    }
}

/// How many namings, and how many of so many names, are those of the picks before a pick, where it is the last one.
pub fn namings_before(namings: &[Naming], most: usize, pick: usize) -> (usize, usize)
    requires { AreNamings (pick + 1) most (reverse namings.now) }
    ensures within { result.0 ≤ length namings.now }
    ensures names { result.1 ≤ most }
    ensures before { (names : List Named) → length names ≡ most → IsNamingBefore pick names (reverse namings.now) (take result.1 names) (reverse (take result.0 namings.now)) }
{
    match namings {
        [rest @ .., last] if last.pick == pick => (rest.len(), last.first),
        _ => (namings.len(), most),
    }
}

/// How many binds are of picks before a pick, where it is the last one.
pub fn binds_before(binds: &[Bind], pick: usize) -> usize
    requires { AreBinds (pick + 1) (reverse binds.now) }
    ensures within { result ≤ length binds.now }
    ensures before { IsBindBefore pick (reverse binds.now) (reverse (take result binds.now)) }
{
    match binds {
        [rest @ .., last] if last.pick == pick => rest.len(),
        _ => binds.len(),
    }
}

// The thread of the last pick.
fn last_thread(stretches: &[Stretch], pick: usize) -> ThreadName
    requires { AreStretches (pick + 1) (reverse stretches.now) }
    ensures { result ≡ thread_at (reverse stretches.now) pick }
{
    match stretches {
        [.., last] => last.thread,
        [] => unreachable!(),
    }
}

// The names of the last pick.
fn last_fresh(
    alloc: Global,
    namings: &[Naming],
    names: &[Name],
    pick: usize,
) -> Result<NameList, AllocError>
    requires { AreNamings (pick + 1) (length names.now) (reverse namings.now) }
    ensures { IfOk result (λ fresh. fresh ≡ fresh_at (reverse namings.now) names.now pick) }
{
    match namings {
        [.., last] => {
            if last.pick == pick {
                let fresh = Vec::from_slice(alloc, &names[last.first..])?;
                Ok(NameList::from_vec(fresh))
            } else {
                Ok(NameList::new(alloc))
            }
        }
        [] => Ok(NameList::new(alloc)),
    }
}

// The equation of the last pick.
fn last_bind(binds: &[Bind], pick: usize) -> Result<Option<(VarName, Term)>, AllocError>
    requires { AreBinds (pick + 1) (reverse binds.now) }
    ensures { IfOk result (λ bind. bind ≡ bind_at (reverse binds.now) pick) }
{
    match binds {
        [.., last] => {
            if last.pick == pick {
                Ok(Some((last.var, copy_term(&last.term)?)))
            } else {
                Ok(None)
            }
        }
        [] => Ok(None),
    }
}

/// The last pick.
pub fn last_pick(
    alloc: Global,
    stretches: &[Stretch],
    namings: &[Naming],
    names: &[Name],
    binds: &[Bind],
    pick: usize,
) -> Result<Pick, AllocError>
    requires { AreColumns (pick + 1) (columns_of stretches.now namings.now names.now binds.now) }
    ensures { IfOk result (λ k. k ≡ pick_at (columns_of stretches.now namings.now names.now binds.now) pick) }
{
    Ok(Pick {
        thread: last_thread(stretches, pick),
        fresh: last_fresh(alloc, namings, names, pick)?,
        bind: last_bind(binds, pick)?,
    })
}

/// So many picks, which columns tell, in a vector.
pub fn picks_of(
    alloc: Global,
    stretches: &[Stretch],
    namings: &[Naming],
    names: &[Name],
    binds: &[Bind],
    count: usize,
) -> Result<Vec<Pick>, AllocError>
    requires { AreColumns count (columns_of stretches.now namings.now names.now binds.now) }
    ensures { IfOk result (λ picks. picks.items ≡ picks_below (columns_of stretches.now namings.now names.now binds.now) count) }
{
    let mut picks = Vec::with_capacity(alloc, count)?;
    let mut threads = stretches;
    let mut named = namings;
    let mut fresh = names;
    let mut bound = binds;
    'picks: for pick in (0..count).rev() {
        let last = last_pick(alloc, threads, named, fresh, bound, pick)?;
        picks.push(last)?;
        let (taken, before) = namings_before(named, fresh.len(), pick);
        threads = &threads[..stretches_before(threads, pick)];
        named = &named[..taken];
        fresh = &fresh[..before];
        bound = &bound[..binds_before(bound, pick)];
    }
    picks.reverse();
    Ok(picks)
}

/// Namings as others are kept.
pub fn wide_namings(alloc: Global, namings: &[SmallNaming]) -> Result<Vec<Naming>, AllocError>
    ensures { IfOk result (λ all. all.items ≡ map wide namings.now) }
{
    let mut all = Vec::with_capacity(alloc, namings.len())?;
    for naming in namings {
        all.push(naming.wide())?;
    }
    Ok(all)
}
