//! A visit and a drive of the one site of a program that does nothing. What a test made is left to the end of its process.

ghost use Rattle.std.specs.Prelude.{◌≡◌, length, false};
ghost use Rattle.book_lock.specs.Seats.{lock_id, AreNewSeats};
ghost use Rattle.site_message.specs.declared.story.Sight.{Sight};
ghost use Rattle.site_model.specs.Site.{initial_site};
ghost use Rattle.site_worker.specs.Host.{IsHost};
ghost use Rattle.site_worker.specs.Sites.{IsFresh};

use crate::programs::program_of;
use book_lock::{CountedLock, SiteSeat};
use kernel_syntax::Program;
use message_book::Book;
use site_core::Site;
use site_message::{Limits, NoSeat, Reason};
use site_worker::{Host, OpenGate, Visited, drive, finish, visit};
use std::alloc::Global;
use std::mem::forget;
use std::test::Fail;

const LIMITS: Limits = Limits {
    sites: 1,
    steps: 100,
    messages: 100,
};

// The site with the one seat.
fn seated<'a>(
    alloc: Global,
    program: &'a Program,
    site: Site<'a, NoSeat>,
    mut seats: Vec<SiteSeat>,
    lock: &CountedLock<Book>,
) -> Host<'a>
    requires program { site.program ≡ program.now }
    requires sites { site.sites ≡ 1 }
    requires state { site.state ≡ initial_site program.now 1 1 }
    requires live { site.spent ≡ false }
    requires one { length seats.items ≡ 1 }
    requires seat { (x : Sight) × IsFresh 1 x × AreNewSeats (lock_id lock.now) 1 x seats.items }
    ensures host { IsHost (lock_id lock.now) result }
{
    program.is_program();
    let seat = seats.pop().unwrap();
    seats.destroy_empty();
    Host::new(alloc, site, seat)
}

#[test]
fn a_visit_makes_the_turn(rt: HostRuntime) -> Result<(), Fail> {
    let alloc = rt.alloc();
    let program = program_of(&rt, alloc, "skip")?;
    let Ok(mut hosts) = Vec::with_capacity(alloc, 1) else {
        panic!(rt; "no memory")
    };
    let Ok(room) = Vec::with_capacity(alloc, 1) else {
        panic!(rt; "no memory")
    };
    let Ok(site) = Site::new(alloc, 1, 1, &program) else {
        panic!(rt; "no memory")
    };
    let Ok(book) = Book::new(alloc, LIMITS) else {
        panic!(rt; "no memory")
    };
    let (lock, seats) = match CountedLock::begin(alloc, book, 1) {
        Ok(begun) => begun,
        Err((book, _)) => {
            book.destroy_empty();
            panic!(rt; "no memory")
        }
    };
    let mut host = seated(alloc, &program, site, seats, &lock);
    let visited = visit(&rt, &mut host, &lock, &OpenGate);
    hosts.push_reserved(host);
    let book = finish(lock, hosts, room);
    let (journal, _) = book.into_history().into_parts();
    journal.forget();
    forget(program);
    assert!(rt; visited == Visited::Over(Reason::Quiet));
    Ok(())
}

#[test]
fn a_drive_comes_to_rest(rt: HostRuntime) -> Result<(), Fail> {
    let alloc = rt.alloc();
    let program = program_of(&rt, alloc, "skip")?;
    let Ok(mut hosts) = Vec::with_capacity(alloc, 1) else {
        panic!(rt; "no memory")
    };
    let Ok(room) = Vec::with_capacity(alloc, 1) else {
        panic!(rt; "no memory")
    };
    let Ok(site) = Site::new(alloc, 1, 1, &program) else {
        panic!(rt; "no memory")
    };
    let Ok(book) = Book::new(alloc, LIMITS) else {
        panic!(rt; "no memory")
    };
    let (lock, seats) = match CountedLock::begin(alloc, book, 1) {
        Ok(begun) => begun,
        Err((book, _)) => {
            book.destroy_empty();
            panic!(rt; "no memory")
        }
    };
    hosts.push_reserved(seated(alloc, &program, site, seats, &lock));
    let Ok(hosts) = drive(&rt, alloc, hosts, 1, &lock, &OpenGate) else {
        panic!(rt; "no memory")
    };
    let book = finish(lock, hosts, room);
    let reason = book.reason();
    let (journal, _) = book.into_history().into_parts();
    journal.forget();
    forget(program);
    assert_eq!(rt; reason, Some(Reason::Quiet));
    Ok(())
}
