//! Visits of a site in a row.

ghost use Rattle.std.specs.Prelude.{◌≡◌};
ghost use Rattle.book_lock.specs.Seats.{lock_id};
ghost use Rattle.site_worker.specs.Host.{IsHost};
ghost use Rattle.site_worker.specs.Visit.{AreVisits, IsSameHost};

use crate::gate::Gate;
use crate::host::Host;
use crate::inside::Fetched;
use crate::shared::Shared;
use crate::visited::Visited;
use book_lock::CountedLock;
use message_book::Book;
use std::sync::Wait;

// How many visits of a site may be followed by another one before its worker goes on to its next site.
const FOLLOWED_VISITS: u32 = 15;

// Visits the site again and again, at most so often as a worker may, until it has nothing to do or the book has a reason. A visit's
// post and the next one's look for a message are one way through the lock. Each turn wakes the workers of the sites that it sent
// messages to.
pub(crate) fn visit_in_a_row<'a, G: Gate, R: Wait>(
    rt: &R,
    host: &mut Host<'a>,
    lock: &CountedLock<Book>,
    gate: &G,
    shared: &Shared,
) -> Visited
    requires { IsHost (lock_id lock.now) host.old }
    ensures host { IsHost (lock_id lock.now) host.new × IsSameHost host.old host.new }
    ensures visited { AreVisits host.old host.new result }
{
    host.recipients = 0;
    let mut fetched = host.fetch(rt, lock);
    for _ in 0..FOLLOWED_VISITS {
        match fetched {
            Fetched::Over(reason) => return Visited::Over(reason),
            Fetched::Open(taken, limit) => {
                if taken.is_none() && host.site.idle() {
                    return Visited::Nothing;
                }
                fetched = host.turn_and_fetch(rt, lock, gate, taken, limit);
                shared.wake(host.recipients);
            }
        }
    }
    match fetched {
        Fetched::Over(reason) => Visited::Over(reason),
        Fetched::Open(taken, limit) => {
            let visited = host.end_visit(rt, lock, gate, taken, limit);
            if visited == Visited::Did {
                shared.wake(host.recipients);
            }
            visited
        }
    }
}
