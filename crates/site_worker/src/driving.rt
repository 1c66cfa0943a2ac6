//! One scoped thread for each worker, by recursion on the list of workers.

ghost use Rattle.std.specs.Prelude.{◌≡◌, ℕ, List, ◌+◌, ◌≤◌, ◌<◌, [], length, vec_capacity, IfOk, IfErr};
ghost use Rattle.tree_node.specs.declared.limits.TheConstants.{MOST_SITES};
ghost use Rattle.kernel_syntax.specs.declared.stmt.Stmt.{Stmt};
ghost use Rattle.book_lock.specs.Seats.{lock_id};
ghost use Rattle.site_worker.specs.Host.{IsHost, IsHostOf};
ghost use Rattle.site_worker.specs.Hosts.{AreHosts, AreHostsOf, AllHosts, AreSame, hosts_of, AreEmpty, IsSomeOver, times, all_times, all_hosts};

use crate::gate::Gate;
use crate::host::Host;
use crate::load::{Group, Load, Tools, append, deal, prepare};
use crate::shared::Shared;
use crate::work::work;
use book_lock::CountedLock;
use message_book::Book;
use std::alloc::{AllocError, Global};
use std::snapshot::Snapshot;
use std::sync::Wait;
use std::sync::atomic::Ordering::SeqCst;
use std::thread;
use std::thread::{Promise, Scope, Threads};

// What a worker's thread gives back: the hosts that it was given.
#[derive(Drop)]
struct ReturnedHosts<'a> {
    given: Snapshot<Group<'a>>,
    lock: Snapshot<CountedLock<Book>>,
}

impl<'a> Promise<Vec<Host<'a>>> for ReturnedHosts<'a> {
    ghost kept_by = { λ p r. AreSame (lock_id p.lock.value) p.given.value.hosts.items r.items };
}

// What a worker's thread does. It gives the hosts back where they are left to the caller.
fn drive_group<'a, G: Gate, R: Wait>(
    rt: &R,
    lock: &CountedLock<Book>,
    gate: &G,
    shared: &Shared,
    worker: usize,
    group: Group<'a>,
) -> Vec<Host<'a>>
    requires worker { worker < length shared.now.left_to_caller.items }
    requires hosts { AreHosts (lock_id lock.now) group.hosts.items }
    ensures { AreSame (lock_id lock.now) group.entry.hosts.items result.items }
{
    if shared.left_to_caller[worker].load(SeqCst) {
        let Group { parker: _, hosts } = group;
        return hosts;
    }
    work(rt, lock, gate, shared, group)
}

// Starts a thread for the last group, and goes on with the others. A group whose thread cannot be started is driven here.
fn drive_in<'s, 'a: 's, E, G: Gate + Sync, R: Threads + Wait + Sync>(
    scope: &Scope<'s, E>,
    rt: &'s R,
    lock: &'s CountedLock<Book>,
    gate: &'s G,
    shared: &'s Shared,
    load: Load<'a>,
) -> Vec<Host<'a>>
    requires flags { length load.groups.items ≤ length shared.now.left_to_caller.items }
    requires hosts { AllHosts (IsHost (lock_id lock.now)) load.groups.items × AreHosts (lock_id lock.now) load.here.hosts.items }
    requires room { length load.here.hosts.items + all_hosts load.groups.items ≤ vec_capacity load.here.hosts }
    ensures times { (k : ℕ) → times k result.items ≡ times k load.entry.here.hosts.items + all_times k load.entry.groups.items }
    ensures hosts { AreHosts (lock_id lock.now) result.items }
    ensures run { (p : List Stmt) (x : List ℕ) → AllHosts (IsHostOf p x) load.entry.groups.items → AreHostsOf p x load.entry.here.hosts.items → AreHostsOf p x result.items }
    ensures room { (vec_capacity result ≡ vec_capacity load.entry.here.hosts) × (length result.items ≡ length load.entry.here.hosts.items + all_hosts load.entry.groups.items) }
{
    let Load {
        mut groups,
        mut here,
    } = load;
    let Some(group) = groups.pop() else {
        groups.destroy_empty();
        return work(rt, lock, gate, shared, here);
    };
    let worker = groups.len();
    let promise = ReturnedHosts {
        given: Snapshot::of(&group),
        lock: Snapshot::of(lock),
    };
    let spawned = scope.spawn_with(
        promise,
        move || -> Vec<Host>
            requires { AreHosts (lock_id lock.now) group.hosts.items × (worker < length shared.now.left_to_caller.items) }
            ensures { AreSame (lock_id lock.entry.now) group.entry.hosts.items result.items }
        { drive_group(rt, lock, gate, shared, worker, group) },
    );
    match spawned {
        Ok(child) => {
            let mut all = drive_in(scope, rt, lock, gate, shared, Load { groups, here });
            append(&mut all, child.join(rt), lock);
            all
        }
        Err(refused) => {
            shared.left_to_caller[worker].store(true, SeqCst);
            append(&mut here.hosts, (refused.value)(), lock);
            drive_in(scope, rt, lock, gate, shared, Load { groups, here })
        }
    }
}

// Drives each worker's hosts in a thread of its own, and those of the workers whose thread cannot be started here.
fn drive_all<'a, G: Gate + Sync, R: Threads + Wait + Sync>(
    rt: &R,
    lock: &CountedLock<Book>,
    gate: &G,
    shared: &Shared,
    load: Load<'a>,
) -> Vec<Host<'a>>
    requires flags { length load.groups.items ≤ length shared.now.left_to_caller.items }
    requires hosts { AllHosts (IsHost (lock_id lock.now)) load.groups.items × AreHosts (lock_id lock.now) load.here.hosts.items }
    requires room { length load.here.hosts.items + all_hosts load.groups.items ≤ vec_capacity load.here.hosts }
    ensures times { (k : ℕ) → times k result.items ≡ times k load.entry.here.hosts.items + all_times k load.entry.groups.items }
    ensures hosts { AreHosts (lock_id lock.now) result.items }
    ensures run { (p : List Stmt) (x : List ℕ) → AllHosts (IsHostOf p x) load.entry.groups.items → AreHostsOf p x load.entry.here.hosts.items → AreHostsOf p x result.items }
    ensures count { length result.items ≡ length load.entry.here.hosts.items + all_hosts load.entry.groups.items }
{
    thread::scope(
        thread::scope_env(),
        rt,
        |scope| -> Vec<Host>
            requires { AllHosts (IsHost (lock_id lock.now)) load.groups.items × AreHosts (lock_id lock.now) load.here.hosts.items × (length load.groups.items ≤ length shared.now.left_to_caller.items) × (length load.here.hosts.items + all_hosts load.groups.items ≤ vec_capacity load.here.hosts) }
            ensures { ((k : ℕ) → times k result.items ≡ times k load.entry.here.hosts.items + all_times k load.entry.groups.items) × AreHosts (lock_id lock.entry.now) result.items × ((p : List Stmt) (x : List ℕ) → AllHosts (IsHostOf p x) load.entry.groups.items → AreHostsOf p x load.entry.here.hosts.items → AreHostsOf p x result.items) × (length result.items ≡ length load.entry.here.hosts.items + all_hosts load.entry.groups.items) }
        { drive_in(scope, rt, lock, gate, shared, load) },
    )
}

/// Drives the hosts of the sites of one run: the host of the site `s` belongs to the worker `s` modulo the number of
/// workers, who are at most as many as sites may be. Memory is taken before anything is started.
pub fn drive<'a, G: Gate + Sync, R: Threads + Wait + Sync>(
    rt: &R,
    alloc: Global,
    hosts: Vec<Host<'a>>,
    workers: u32,
    lock: &CountedLock<Book>,
    gate: &G,
) -> Result<Vec<Host<'a>>, (Vec<Host<'a>>, AllocError)>
    requires workers { (0 < workers) × (workers ≤ MOST_SITES) }
    requires some { 0 < length hosts.items }
    requires hosts { AreHosts (lock_id lock.now) hosts.items }
    ensures each { (k : ℕ) → times k (hosts_of result) ≡ times k hosts.entry.items }
    ensures count { length (hosts_of result) ≡ length hosts.entry.items }
    ensures hosts { AreHosts (lock_id lock.now) (hosts_of result) }
    ensures run { (p : List Stmt) (x : List ℕ) → AreHostsOf p x hosts.entry.items → AreHostsOf p x (hosts_of result) }
    ensures unchanged { IfErr result (λ e. e.0.items ≡ hosts.entry.items) }
    ensures over { IfOk result (λ hs. IsSomeOver hs.items) }
{
    let Ok(tools) = prepare(alloc, workers as usize, hosts.len()) else {
        return Err((hosts, AllocError));
    };
    Ok(drive_with(rt, tools, hosts, lock, gate))
}

/// The same with what workers need besides hosts. It takes no memory.
pub(crate) fn drive_with<'a, G: Gate + Sync, R: Threads + Wait + Sync>(
    rt: &R,
    tools: Tools<'a>,
    hosts: Vec<Host<'a>>,
    lock: &CountedLock<Book>,
    gate: &G,
) -> Vec<Host<'a>>
    requires some { 0 < length hosts.items }
    requires hosts { AreHosts (lock_id lock.now) hosts.items }
    requires groups { (0 < length tools.load.groups.items) × AreEmpty (length hosts.items) tools.load.groups.items }
    requires left_to_caller { length tools.left_to_caller.items ≡ length tools.load.groups.items }
    requires here { (tools.load.here.hosts.items ≡ []) × (length hosts.items ≤ vec_capacity tools.load.here.hosts) }
    ensures each { (k : ℕ) → times k result.items ≡ times k hosts.entry.items }
    ensures count { length result.items ≡ length hosts.entry.items }
    ensures hosts { AreHosts (lock_id lock.now) result.items }
    ensures run { (p : List Stmt) (x : List ℕ) → AreHostsOf p x hosts.entry.items → AreHostsOf p x result.items }
    ensures over { IsSomeOver result.items }
{
    let Tools {
        unparkers,
        left_to_caller,
        load,
        parker,
    } = tools;
    let Load { groups, here } = load;
    let shared = Shared {
        unparkers,
        left_to_caller,
    };
    let groups = deal(groups, hosts, lock);
    let all = drive_all(rt, lock, gate, &shared, Load { groups, here });
    // A look at the reason that ended the workers.
    work(rt, lock, gate, &shared, Group { parker, hosts: all })
}
