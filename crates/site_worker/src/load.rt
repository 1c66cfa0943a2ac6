//! The hosts of each worker.

ghost use Rattle.std.specs.Prelude.{◌≡◌, ℕ, List, ◌+◌, ◌≤◌, ◌<◌, [], length, vec_capacity, IfOk};
ghost use Rattle.kernel_syntax.specs.declared.stmt.Stmt.{Stmt};
ghost use Rattle.book_lock.specs.Seats.{lock_id};
ghost use Rattle.site_worker.specs.Host.{IsHost, IsHostOf};
ghost use Rattle.site_worker.specs.Waking.{worker_of};
ghost use Rattle.site_worker.specs.Hosts.{AreHosts, AreHostsOf, AllHosts, AreEmpty, AreAtHome, times, all_times, all_hosts};

use crate::host::Host;
use book_lock::CountedLock;
use crossbeam_utils::sync::{Parker, Unparker};
use message_book::Book;
use std::alloc::{AllocError, Global};
use std::sync::atomic::AtomicBool;

/// The hosts of a worker, and what it sleeps on.
#[derive(Drop)]
pub(crate) struct Group<'a> {
    pub(crate) parker: Parker,
    pub(crate) hosts: Vec<Host<'a>>,
}

/// The groups of all workers, and that of the caller.
#[derive(Drop)]
pub(crate) struct Load<'a> {
    pub(crate) groups: Vec<Group<'a>>,
    pub(crate) here: Group<'a>,
}

// What workers need besides hosts.
#[derive(Drop)]
pub(crate) struct Tools<'a> {
    pub(crate) unparkers: Vec<Unparker>,
    pub(crate) left_to_caller: Vec<AtomicBool>,
    pub(crate) load: Load<'a>,
    pub(crate) parker: Parker,
}

// All the memory of a drive.
pub(crate) fn prepare<'a>(
    alloc: Global,
    workers: usize,
    hosts: usize,
) -> Result<Tools<'a>, AllocError>
    ensures groups { IfOk result (λ t. (length t.load.groups.items ≡ workers) × AreEmpty hosts t.load.groups.items) }
    ensures left_to_caller { IfOk result (λ t. length t.left_to_caller.items ≡ workers) }
    ensures here { IfOk result (λ t. (t.load.here.hosts.items ≡ []) × (hosts ≤ vec_capacity t.load.here.hosts)) }
{
    let mut unparkers = Vec::new(alloc);
    let mut left_to_caller = Vec::new(alloc);
    let mut groups = Vec::new(alloc);
    for made in 0..workers {
        // The loop's invariant counts by it.
        let _ = made;
        let parker = Parker::new(alloc)?;
        unparkers.push(parker.unparker().clone()?)?;
        left_to_caller.push(AtomicBool::new(false))?;
        let hosts = Vec::with_capacity(alloc, hosts)?;
        groups.push(Group { parker, hosts })?;
    }
    let parker = Parker::new(alloc)?;
    unparkers.push(parker.unparker().clone()?)?;
    let hosts = Vec::with_capacity(alloc, hosts)?;
    let here = Group { parker, hosts };
    Ok(Tools {
        unparkers,
        left_to_caller,
        load: Load { groups, here },
        parker: Parker::new(alloc)?,
    })
}

/// The worker of a site, of so many.
pub(crate) fn worker_of(site: u32, workers: usize) -> usize
    requires { 0 < workers }
    ensures value { result ≡ worker_of site workers }
    ensures range { result < workers }
{
    site as usize % workers
}

// Gives each worker its hosts. The lock is there for the contract.
pub(crate) fn deal<'a>(
    mut groups: Vec<Group<'a>>,
    mut hosts: Vec<Host<'a>>,
    lock: &CountedLock<Book>,
) -> Vec<Group<'a>>
    requires groups { (0 < length groups.items) × AreEmpty (length hosts.items) groups.items }
    requires hosts { AreHosts (lock_id lock.now) hosts.items }
    ensures times { (k : ℕ) → all_times k result.items ≡ times k hosts.entry.items }
    ensures hosts { AllHosts (IsHost (lock_id lock.now)) result.items }
    ensures run { (p : List Stmt) (x : List ℕ) → AreHostsOf p x hosts.entry.items → AllHosts (IsHostOf p x) result.items }
    ensures count { (all_hosts result.items ≡ length hosts.entry.items) × (length result.items ≡ length groups.entry.items) }
    ensures homes { AreAtHome result.items }
{
    while let Some(host) = hosts.pop() {
        let worker = worker_of(host.number, groups.len());
        groups[worker].hosts.push_reserved(host);
    }
    hosts.destroy_empty();
    groups
}

// Puts the hosts behind the others. The lock is there for the contract.
pub(crate) fn append<'a>(all: &mut Vec<Host<'a>>, mut more: Vec<Host<'a>>, lock: &CountedLock<Book>)
    requires room { length all.old.items + length more.items ≤ vec_capacity all.old }
    requires hosts { AreHosts (lock_id lock.now) all.old.items × AreHosts (lock_id lock.now) more.items }
    ensures times { (k : ℕ) → times k all.new.items ≡ times k all.old.items + times k more.entry.items }
    ensures hosts { AreHosts (lock_id lock.now) all.new.items }
    ensures run { (p : List Stmt) (x : List ℕ) → AreHostsOf p x all.old.items → AreHostsOf p x more.entry.items → AreHostsOf p x all.new.items }
    ensures room { (vec_capacity all.new ≡ vec_capacity all.old) × (length all.new.items ≡ length all.old.items + length more.entry.items) }
{
    while let Some(host) = more.pop() {
        all.push_reserved(host);
    }
    more.destroy_empty();
}
