//! A whole run: new sites with their seats, driven to an end.

ghost use Rattle.std.specs.Prelude.{◌≡◌, ℕ, ◌<◌, ◌≤◌, [], Some, length, vec_capacity, IfOk};
ghost use Rattle.site_message.specs.declared.reason.Reason.{Reason};
ghost use Rattle.site_message.specs.declared.story.Sight.{Sight};
ghost use Rattle.tree_node.specs.declared.limits.TheConstants.{MOST_SITES};
ghost use Rattle.site_message.specs.Limits.{AreLimits};
ghost use Rattle.site_message.specs.Journal.{AreWithin};
ghost use Rattle.site_message.specs.EarlierEnd.{HasNoEarlierEnd};
ghost use Rattle.message_book.specs.Book.{IsSiteOf};
ghost use Rattle.book_lock.specs.Seats.{lock_id, AreNewSeats};
ghost use Rattle.site_worker.specs.Hosts.{AreHosts, AreHostsOf, IsComplete, IsWorldRun};
ghost use Rattle.site_worker.specs.Sites.{AreNewSites, IsFresh};

use crate::driving::drive_with;
use crate::gate::Gate;
use crate::host::Host;
use crate::load::prepare;
use crate::run::finish;
use book_lock::{CountedLock, SiteSeat};
use kernel_syntax::Program;
use message_book::Book;
use site_core::Site;
use site_message::{Limits, NoSeat};
use std::alloc::{AllocError, Global};
use std::sync::Wait;
use std::thread::Threads;

// The sites of a program at their start, that of site 1 first.
fn new_sites<'a>(
    alloc: Global,
    count: u32,
    program: &'a Program,
) -> Result<Vec<Site<'a, NoSeat>>, AllocError>
    requires { count ≤ MOST_SITES }
    ensures count { IfOk result (λ ss. length ss.items ≡ count) }
    ensures new { IfOk result (λ ss. AreNewSites program.now count 1 ss.items) }
{
    let mut sites = Vec::new(alloc);
    for k in 0..count {
        sites.push(Site::new(alloc, k + 1, count, program)?)?;
    }
    Ok(sites)
}

// Gives each site its seat. The empty list has room for the hosts. The lock is there for the contract.
fn seat_all<'a>(
    mut sites: Vec<Site<'a, NoSeat>>,
    mut seats: Vec<SiteSeat>,
    mut hosts: Vec<Host<'a>>,
    count: u32,
    program: &'a Program,
    lock: &CountedLock<Book>,
) -> Vec<Host<'a>>
    requires count { count ≤ MOST_SITES }
    requires room { (hosts.items ≡ []) × (count ≤ vec_capacity hosts) }
    requires sites { (length sites.items ≡ count) × AreNewSites program.now count 1 sites.items }
    requires seats { (length seats.items ≡ count) × ((x : Sight) × IsFresh count x × AreNewSeats (lock_id lock.now) 1 x seats.items) }
    ensures hosts { AreHosts (lock_id lock.now) result.items }
    ensures of { (x : Sight) → AreNewSeats (lock_id lock.now) 1 x seats.items → AreHostsOf program.now x.fixed result.items }
    ensures complete { IsComplete count result.items }
    ensures count { length result.items ≡ count }
{
    program.is_program();
    let alloc = *hosts.allocator();
    while let Some(seat) = seats.pop() {
        let site = sites.pop().unwrap();
        hosts.push_reserved(Host::new(alloc, site, seat));
    }
    seats.destroy_empty();
    sites.destroy_empty();
    hosts
}

/// Runs a program on new sites to a reason to end. Workers are at most as many as sites may be. Without the memory to begin,
/// nothing is run.
pub fn run_sites<G: Gate + Sync, R: Threads + Wait + Sync>(
    rt: &R,
    alloc: Global,
    program: &Program,
    limits: Limits,
    workers: u32,
    gate: &G,
) -> Result<Book, AllocError>
    requires limits { AreLimits limits }
    requires workers { IsSiteOf MOST_SITES workers }
    ensures run { IfOk result (λ b. IsWorldRun program.now limits.sites b.journal) }
    ensures limits { IfOk result (λ b. b.limits ≡ limits) }
    ensures went { IfOk result (λ b. HasNoEarlierEnd b.limits b.journal) }
    ensures within { IfOk result (λ b. AreWithin b.limits b.journal) }
    ensures over { IfOk result (λ b. (r : Reason) × (b.reason ≡ Some r)) }
{
    let size = limits.sites as usize;
    let hosts = Vec::with_capacity(alloc, size)?;
    let room = Vec::with_capacity(alloc, size)?;
    let sites = new_sites(alloc, limits.sites, program)?;
    let tools = prepare(alloc, workers as usize, size)?;
    let book = Book::new(alloc, limits)?;
    match CountedLock::begin(alloc, book, limits.sites) {
        Ok((lock, seats)) => {
            let hosts = seat_all(sites, seats, hosts, limits.sites, program, &lock);
            let hosts = drive_with(rt, tools, hosts, &lock, gate);
            Ok(finish(lock, hosts, room))
        }
        Err((book, _)) => {
            book.destroy_empty();
            Err(AllocError)
        }
    }
}
