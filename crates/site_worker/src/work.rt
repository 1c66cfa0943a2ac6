//! What a worker does.

ghost use Rattle.std.specs.Prelude.{◌≡◌, ◌<◌, length, vec_capacity};
ghost use Rattle.book_lock.specs.Seats.{lock_id};
ghost use Rattle.site_worker.specs.Hosts.{AreHosts, AreSame, IsSomeOver};
ghost use Rattle.site_worker.specs.declared.work.Round.TheVariants.{Over};

use crate::gate::Gate;
use crate::host::Host;
use crate::load::Group;
use crate::shared::Shared;
use crate::visited::Visited;
use crate::visits::visit_in_a_row;
use book_lock::CountedLock;
use message_book::Book;
use std::sync::Wait;

/// What a round of visits came to; `Nothing` where no site had anything to do at its last visit.
#[derive(Clone, Copy, Debug, PartialEq, Eq)]
pub(crate) enum Round {
    Did,
    // No site had anything to do at its last visit.
    Nothing,
    Over,
}

// Visits each host, one turn or some in a row, and wakes the workers of those that it sent messages to. It ends early where the
// book has a reason.
fn visit_each<G: Gate, R: Wait>(
    rt: &R,
    lock: &CountedLock<Book>,
    gate: &G,
    shared: &Shared,
    hosts: &mut [Host],
) -> Round
    requires { AreHosts (lock_id lock.now) hosts.old }
    ensures same { AreSame (lock_id lock.now) hosts.old hosts.new }
    ensures over { result ≡ Over → IsSomeOver hosts.new }
{
    let mut busy = false;
    for i in 0..hosts.len() {
        match visit_in_a_row(rt, &mut hosts[i], lock, gate, shared) {
            Visited::Did => busy = true,
            Visited::Nothing => {}
            Visited::Over(_) => return Round::Over,
        }
    }
    if busy { Round::Did } else { Round::Nothing }
}

// Visits its hosts again and again until the book has a reason. A worker with nothing to do parks until it is woken.
pub(crate) fn work<'a, G: Gate, R: Wait>(
    rt: &R,
    lock: &CountedLock<Book>,
    gate: &G,
    shared: &Shared,
    group: Group<'a>,
) -> Vec<Host<'a>>
    requires { AreHosts (lock_id lock.now) group.hosts.items }
    ensures same { AreSame (lock_id lock.now) group.entry.hosts.items result.items }
    ensures capacity { vec_capacity result ≡ vec_capacity group.entry.hosts }
    ensures over { 0 < length group.entry.hosts.items → IsSomeOver result.items }
{
    let Group { parker, mut hosts } = group;
    if hosts.is_empty() {
        return hosts;
    }
    for _ in rt.forever() {
        match visit_each(rt, lock, gate, shared, hosts.as_mut_slice()) {
            Round::Did => {}
            Round::Nothing => parker.park(rt),
            Round::Over => {
                shared.wake_all();
                return hosts;
            }
        }
    }
    unreachable!()
}
