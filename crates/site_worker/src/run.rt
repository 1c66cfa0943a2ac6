//! How a run ends.

ghost use Rattle.std.specs.Prelude.{◌≡◌, List, ◌<◌, ◌≤◌, [], Some, length, vec_capacity};
ghost use Rattle.kernel_syntax.specs.declared.stmt.Stmt.{Stmt};
ghost use Rattle.book_lock.specs.Seats.{lock_id, lock_seats};
ghost use Rattle.site_message.specs.declared.reason.Reason.{Reason};
ghost use Rattle.site_message.specs.declared.limits.Limits.{Limits};
ghost use Rattle.site_message.specs.Journal.{AreWithin};
ghost use Rattle.site_message.specs.EarlierEnd.{HasNoEarlierEnd};
ghost use Rattle.site_worker.specs.Hosts.{AreHosts, AreHostsOf, IsComplete, IsSomeOver, IsWorldRun, fixed_part};

use crate::host::Host;
use book_lock::{CountedLock, SiteSeat};
use message_book::Book;

/// Takes the book out of its lock, when all hosts are back. The empty list has room for their seats.
pub fn finish<'a>(
    lock: CountedLock<Book>,
    mut hosts: Vec<Host<'a>>,
    mut seats: Vec<SiteSeat>,
) -> Book
    requires room { (seats.items ≡ []) × (length hosts.items ≤ vec_capacity seats) }
    requires all { (length hosts.items ≡ lock_seats lock) × (0 < length hosts.items) }
    requires hosts { AreHosts (lock_id lock) hosts.items }
    ensures run { (p : List Stmt) (l : Limits) → AreHostsOf p (fixed_part l) hosts.entry.items → IsComplete l.sites hosts.entry.items → IsWorldRun p l.sites result.journal }
    ensures limits { (p : List Stmt) (l : Limits) → AreHostsOf p (fixed_part l) hosts.entry.items → result.limits ≡ l }
    ensures went { HasNoEarlierEnd result.limits result.journal }
    ensures within { (p : List Stmt) (l : Limits) → AreHostsOf p (fixed_part l) hosts.entry.items → IsComplete l.sites hosts.entry.items → AreWithin l result.journal }
    ensures over { IsSomeOver hosts.entry.items → ((r : Reason) × (result.reason ≡ Some r)) }
{
    while let Some(host) = hosts.pop() {
        seats.push_reserved(host.into_seat());
    }
    hosts.destroy_empty();
    let book = lock.finish(seats);
    book.journal();
    book
}
